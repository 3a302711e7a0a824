//! What a file declares, by names.
ghost use Rattle.std.specs.Prelude.{◌≡◌, IfOk, List, OnOk, [], ◌∷◌, map, ℕ};
ghost use Rattle.lp_tree.specs.UnitView.{item_of};
ghost use Rattle.lp_tree.specs.StatementView.{declarator_of};
ghost use Rattle.lp_types_expr.specs.Kinds.{is_varargs, is_varargs_word, kind_of};
ghost use Rattle.lp_types_expr.specs.NameMaps.{named};
ghost use Rattle.lp_types_expr.specs.Signatures.{declared_kind, or_else, own_function, own_kind, own_prototype, signature};

use crate::kind::kind_of;
use crate::names::put;
use crate::signature::Signature;
use lp_code::listed::Listed;
use lp_tree::keyword::{Base, Modifier};
use lp_tree::stmt::Declarator;
use lp_tree::types::TypeName;
use lp_tree::unit::{Item, Param};
use std::alloc::{AllocError, Global};
use std::collections::HashMap;

fn is_varargs_word(word: Modifier) -> bool
    ensures { result ≡ is_varargs_word word }
{
    matches!(word, Modifier::Varargs)
}

fn is_varargs(mods: &[Modifier]) -> bool
    ensures { result ≡ is_varargs mods.now }
{
    mods.iter().any(|word| is_varargs_word(*word))
}

/// The types of parameters: a missing one is `mixed`.
pub fn param_kinds(alloc: Global, params: &[Param]) -> Result<Vec<TypeName>, AllocError>
    ensures { IfOk result (λ v. v.items ≡ map (λ p. kind_of p.type_name) params.now) }
{
    let mut kinds = Vec::new(alloc);
    for param in params {
        kinds.push(kind_of(param.type_name))?;
    }
    Ok(kinds)
}

// What a caller knows of a function or a prototype.
fn signature(
    alloc: Global,
    mods: &[Modifier],
    ty: Option<TypeName>,
    params: &[Param],
) -> Result<Signature, AllocError>
    ensures { IfOk result (λ s. s ≡ signature mods.now ty params.now) }
{
    Ok(Signature {
        varargs: is_varargs(mods),
        answer: kind_of(ty),
        params: Listed::from_vec(param_kinds(alloc, params)?),
    })
}

// Puts a function in place of an earlier one of its name.
fn add_function(
    alloc: Global,
    functions: &mut HashMap<Vec<char>, Signature>,
    item: &Item,
) -> Result<(), AllocError>
    ensures { OnOk result ((w : List ℕ) → named functions.new w ≡ or_else (own_function (item_of item.now ∷ []) w) (named functions.old w)) }
{
    match item {
        Item::Fun {
            mods,
            type_name,
            name,
            params,
            ..
        } => {
            let known = signature(alloc, mods, *type_name, params)?;
            put(alloc, functions, name.as_slice(), known)
        }
        _ => Ok(()),
    }
}

/// The functions of a file by their names.
pub(crate) fn functions(
    alloc: Global,
    items: &[Item],
) -> Result<HashMap<Vec<char>, Signature>, AllocError>
    ensures { IfOk result (λ m. (w : List ℕ) → named m w ≡ own_function (map item_of items.now) w) }
{
    let mut functions = HashMap::new(alloc);
    for item in items {
        add_function(alloc, &mut functions, item)?;
    }
    Ok(functions)
}

// Puts a prototype where no earlier one has its name.
fn add_prototype(
    alloc: Global,
    prototypes: &mut HashMap<Vec<char>, Signature>,
    item: &Item,
) -> Result<(), AllocError>
    ensures { OnOk result ((w : List ℕ) → named prototypes.new w ≡ or_else (named prototypes.old w) (own_prototype (item_of item.now ∷ []) w)) }
{
    match item {
        Item::Proto {
            mods,
            type_name,
            name,
            params,
            ..
        } => {
            if prototypes.contains_key(name.as_slice()) {
                return Ok(());
            }
            let known = signature(alloc, mods, *type_name, params)?;
            put(alloc, prototypes, name.as_slice(), known)
        }
        _ => Ok(()),
    }
}

/// The prototypes of a file by their names.
pub(crate) fn prototypes(
    alloc: Global,
    items: &[Item],
) -> Result<HashMap<Vec<char>, Signature>, AllocError>
    ensures { IfOk result (λ m. (w : List ℕ) → named m w ≡ own_prototype (map item_of items.now) w) }
{
    let mut prototypes = HashMap::new(alloc);
    for item in items {
        add_prototype(alloc, &mut prototypes, item)?;
    }
    Ok(prototypes)
}

// Puts variables in place of earlier ones of their names.
fn add_declared(
    alloc: Global,
    kinds: &mut HashMap<Vec<char>, TypeName>,
    base: Base,
    ones: &[Declarator],
) -> Result<(), AllocError>
    ensures { OnOk result ((w : List ℕ) → named kinds.new w ≡ or_else (declared_kind base (map declarator_of ones.now) w) (named kinds.old w)) }
{
    for one in ones {
        let kind = TypeName {
            base,
            stars: one.stars,
        };
        put(alloc, kinds, one.name.as_slice(), kind)?;
    }
    Ok(())
}

fn add_variables(
    alloc: Global,
    kinds: &mut HashMap<Vec<char>, TypeName>,
    item: &Item,
) -> Result<(), AllocError>
    ensures { OnOk result ((w : List ℕ) → named kinds.new w ≡ or_else (own_kind (item_of item.now ∷ []) w) (named kinds.old w)) }
{
    match item {
        Item::Var { base, ones, .. } => add_declared(alloc, kinds, *base, ones),
        _ => Ok(()),
    }
}

/// The variables of a file by their names.
pub(crate) fn variables(
    alloc: Global,
    items: &[Item],
) -> Result<HashMap<Vec<char>, TypeName>, AllocError>
    ensures { IfOk result (λ m. (w : List ℕ) → named m w ≡ own_kind (map item_of items.now) w) }
{
    let mut kinds = HashMap::new(alloc);
    for item in items {
        add_variables(alloc, &mut kinds, item)?;
    }
    Ok(kinds)
}

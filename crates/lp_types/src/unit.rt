//! Faults of functions, of globals and of units.
ghost use Rattle.std.specs.Prelude.{◌≡◌, [], ◌++◌, ◌||◌, IfOk, OnOk, is_some, map};
ghost use Rattle.lp_tree.specs.declared.fault.FaultKind.TheVariants.{MissingType};
ghost use Rattle.lp_types_expr.specs.ExprFaults.{when};
ghost use Rattle.lp_types_expr.specs.Signatures.{inherited_kind};
ghost use Rattle.lp_tree.specs.StatementView.{declarator_of, stmt_of, stmt_trees};
ghost use Rattle.lp_tree.specs.UnitView.{item_of, unit_of};
ghost use Rattle.lp_types_expr.specs.Scopes.{declaring, visible};
ghost use Rattle.lp_types_expr.specs.Surroundings.{around_of};
ghost use Rattle.lp_types_expr.specs.Walk.{all_at};
ghost use Rattle.lp_types.specs.Checks.{HasName, TellsGlobals, TellsItem, global_told, head_told, param_told};
ghost use Rattle.lp_types.specs.NameSets.{is_in};
ghost use Rattle.lp_types.specs.TypeFaults.{body_scope, items_faults, missing_type, params_faults, params_locals, stmts_faults};

use crate::declaring::{is_misfit, kind_with};
use crate::found::{faults_if, misfits_if, tell};
use crate::names::NameSet;
use crate::stmt::stmts_faults;
use lp_tree::chars::Chars;
use lp_tree::fault::FaultKind;
use lp_tree::keyword::Base;
use lp_tree::stmt::Declarator;
use lp_tree::types::TypeName;
use lp_tree::unit::{Block, Item, Param, Unit};
use lp_types_expr::around::Surroundings;
use lp_types_expr::fault::FaultAt;
use lp_types_expr::kind::kind_of;
use lp_types_expr::scopes::Scopes;
use std::alloc::{AllocError, Global};

// Whether a type is missing where each should be written.
fn is_missing(around: &Surroundings<'_>, written: Option<TypeName>) -> bool
    ensures { when result MissingType ≡ missing_type (around_of around.now) written }
{
    if !around.is_strict() {
        return false;
    }
    written.is_none()
}

// Adds the fault of a type that is missing.
fn missing_faults(
    around: &Surroundings<'_>,
    line: u32,
    written: Option<TypeName>,
    faults: &mut Vec<FaultAt>,
) -> Result<(), AllocError>
    ensures { OnOk result (faults.new.items ≡ faults.old.items ++ all_at line (missing_type (around_of around.now) written)) }
{
    let missing = is_missing(around, written);
    tell(faults, line, FaultKind::MissingType, missing)?;
    Ok(())
}

// Adds the faults of a parameter, and notes its name.
fn param_faults(
    alloc: Global,
    around: &Surroundings<'_>,
    earlier: &mut NameSet,
    param: &Param,
    faults: &mut Vec<FaultAt>,
) -> Result<(), AllocError>
    ensures faults { OnOk result (faults.new.items ≡ faults.old.items ++ param_told (around_of around.now) (is_in earlier.old param.now.name) param.now) }
    ensures names { OnOk result (HasName param.now.name earlier.old earlier.new) }
{
    missing_faults(around, param.line, param.type_name, faults)?;
    let double = earlier.has(&param.name);
    tell(faults, param.line, FaultKind::DoubleName, double)?;
    earlier.add(alloc, &param.name)?;
    Ok(())
}

// Adds the faults of parameters.
fn params_faults(
    alloc: Global,
    around: &Surroundings<'_>,
    params: &Vec<Param>,
    faults: &mut Vec<FaultAt>,
) -> Result<(), AllocError>
    ensures { OnOk result (faults.new.items ≡ faults.old.items ++ params_faults (around_of around.now) [] params.now.items) }
{
    let mut earlier = NameSet::new(alloc);
    'all: for param in params {
        param_faults(alloc, around, &mut earlier, param, faults)?;
    }
    Ok(())
}

// Declares parameters.
fn declare_params(scopes: &mut Scopes, params: &Vec<Param>) -> Result<(), AllocError>
    ensures { OnOk result (scopes.new ≡ declaring scopes.old (params_locals params.now.items)) }
{
    'all: for param in params {
        scopes.declare(&param.name, kind_of(param.type_name))?;
    }
    Ok(())
}

// Adds the faults of a function's block.
fn body_faults(
    alloc: Global,
    around: &Surroundings<'_>,
    answer: Option<TypeName>,
    params: &Vec<Param>,
    body: &Block,
    faults: &mut Vec<FaultAt>,
) -> Result<(), AllocError>
    ensures { OnOk result (faults.new.items ≡ faults.old.items ++ stmts_faults (around_of around.now) (body_scope answer params.now.items) (stmt_trees (map stmt_of body.now.stmts.items))) }
{
    let mut scopes = Scopes::new(alloc, answer)?;
    declare_params(&mut scopes, params)?;
    scopes.enter();
    stmts_faults(alloc, around, &mut scopes, &body.stmts, faults)?;
    Ok(())
}

// Adds the faults of a global, and notes its name. `none` is a scope without locals.
fn global_faults(
    alloc: Global,
    around: &Surroundings<'_>,
    none: &Scopes,
    vars: &mut NameSet,
    base: Base,
    d: &Declarator,
    faults: &mut Vec<FaultAt>,
) -> Result<(), AllocError>
    requires { visible none.now ≡ [] }
    ensures faults { OnOk result (faults.new.items ≡ faults.old.items ++ global_told (around_of around.now) (is_in vars.old (declarator_of d.now).name) base (declarator_of d.now)) }
    ensures names { OnOk result (HasName (declarator_of d.now).name vars.old vars.new) }
{
    let kind = kind_with(base, d);
    let misfit = is_misfit(around, none, kind, &d.value);
    tell(faults, d.line, FaultKind::WrongType, misfit)?;
    misfits_if(around, none, &d.value, d.line, faults)?;
    let double = is_double(around, vars, &d.name);
    tell(faults, d.line, FaultKind::DoubleName, double)?;
    faults_if(around, none, &d.value, faults)?;
    vars.add(alloc, &d.name)?;
    Ok(())
}

// Whether a global's name is that of an earlier one or of a parent's.
fn is_double(around: &Surroundings<'_>, vars: &NameSet, name: &Chars) -> bool
    ensures { result ≡ (is_in vars.now name.now || is_some (inherited_kind (around_of around.now).parents name.now)) }
{
    if vars.has(name) {
        return true;
    }
    around.inherited_kind(name).is_some()
}

// Adds the faults of the globals of a declaration, and notes their names.
fn globals_faults(
    alloc: Global,
    around: &Surroundings<'_>,
    none: &Scopes,
    vars: &mut NameSet,
    base: Base,
    ones: &Vec<Declarator>,
    faults: &mut Vec<FaultAt>,
) -> Result<(), AllocError>
    requires { visible none.now ≡ [] }
    ensures { OnOk result (TellsGlobals (around_of around.now) base (map declarator_of ones.now.items) vars.old vars.new faults.old.items faults.new.items) }
{
    'all: for d in ones {
        global_faults(alloc, around, none, vars, base, d, faults)?;
    }
    Ok(())
}

// Adds the faults of a function's head, and notes its name.
fn head_faults(
    alloc: Global,
    around: &Surroundings<'_>,
    funs: &mut NameSet,
    line: u32,
    written: Option<TypeName>,
    name: &Chars,
    faults: &mut Vec<FaultAt>,
) -> Result<(), AllocError>
    ensures faults { OnOk result (faults.new.items ≡ faults.old.items ++ head_told (around_of around.now) (is_in funs.old name.now) line written) }
    ensures names { OnOk result (HasName name.now funs.old funs.new) }
{
    missing_faults(around, line, written, faults)?;
    let double = funs.has(name);
    tell(faults, line, FaultKind::DoubleName, double)?;
    funs.add(alloc, name)?;
    Ok(())
}

// Adds the faults of an item, and notes the names of functions with bodies and of globals.
fn item_faults(
    alloc: Global,
    around: &Surroundings<'_>,
    none: &Scopes,
    funs: &mut NameSet,
    vars: &mut NameSet,
    item: &Item,
    faults: &mut Vec<FaultAt>,
) -> Result<(), AllocError>
    requires { visible none.now ≡ [] }
    ensures { OnOk result (TellsItem (around_of around.now) (item_of item.now) funs.old vars.old funs.new vars.new faults.old.items faults.new.items) }
{
    match item {
        Item::Inherit { .. } => Ok(()),
        Item::Proto {
            line,
            type_name,
            params,
            ..
        } => {
            missing_faults(around, *line, *type_name, faults)?;
            params_faults(alloc, around, params, faults)?;
            Ok(())
        }
        Item::Fun {
            line,
            type_name,
            name,
            params,
            body,
            ..
        } => {
            head_faults(alloc, around, funs, *line, *type_name, name, faults)?;
            params_faults(alloc, around, params, faults)?;
            body_faults(alloc, around, *type_name, params, body, faults)?;
            Ok(())
        }
        Item::Var { base, ones, .. } => {
            globals_faults(alloc, around, none, vars, *base, ones, faults)?;
            Ok(())
        }
    }
}

/// The faults of the items of a unit, in the order of the tokens.
pub(crate) fn items_faults(
    alloc: Global,
    around: &Surroundings<'_>,
    unit: &Unit,
) -> Result<Vec<FaultAt>, AllocError>
    ensures { IfOk result (λ fs. fs.items ≡ items_faults (around_of around.now) [] [] (unit_of unit.now)) }
{
    let none = Scopes::new(alloc, None)?;
    let mut funs = NameSet::new(alloc);
    let mut vars = NameSet::new(alloc);
    let mut faults = Vec::new(alloc);
    'all: for item in &unit.items {
        item_faults(
            alloc,
            around,
            &none,
            &mut funs,
            &mut vars,
            item,
            &mut faults,
        )?;
    }
    Ok(faults)
}

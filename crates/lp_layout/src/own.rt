//! What a file itself declares, by names.
ghost use Rattle.std.specs.Prelude.{◌≡◌, ◌≤◌, ◌<◌, ◌+◌, ◌∷◌, [], List, None, OnOk, Some, if◌then◌else◌, map, ℕ};
ghost use Rattle.lp_instr.specs.EfunList.{is_name};
ghost use Rattle.lp_tree.specs.UnitView.{item_of};
ghost use Rattle.lp_types_expr.specs.Signatures.{or_else};
ghost use Rattle.lp_layout.specs.Layout.{functions, own_slot, prototype_slot};
ghost use Rattle.lp_layout.specs.Origins.{row_of, rowed};

use crate::origin::Origin;
use lp_tree::unit::Item;
use lp_types_expr::names::put;
use std::alloc::{AllocError, Global};
use std::collections::HashMap;

/// Puts the origin of a name's row where none is yet.
pub(crate) fn keep<'a>(
    alloc: Global,
    origins: &mut HashMap<Vec<char>, Origin<'a>>,
    name: &[char],
    origin: Origin<'a>,
) -> Result<(), AllocError>
    ensures { OnOk result ((w : List ℕ) → rowed origins.new w ≡ or_else (rowed origins.old w) (if is_name w name.now then Some (row_of w origin.entry) else None)) }
{
    if origins.contains_key(name) {
        return Ok(());
    }
    put(alloc, origins, name, origin)
}

// How many functions a file has.
pub(crate) fn functions(items: &[Item]) -> usize
    ensures { result ≡ functions (map item_of items.now) }
{
    let mut count = 0;
    for item in items {
        count += bodies(item) as usize;
    }
    count
}

// 1 for a function, and 0 for another item.
fn bodies(item: &Item) -> u16
    ensures is { result ≡ functions (item_of item.now ∷ []) }
    ensures few { result ≤ 1 }
{
    match item {
        Item::Fun { .. } => 1,
        _ => 0,
    }
}

// Puts a function where its name has no row yet.
fn add_function<'a>(
    alloc: Global,
    origins: &mut HashMap<Vec<char>, Origin<'a>>,
    part: u16,
    number: u16,
    item: &'a Item,
) -> Result<(), AllocError>
    ensures { OnOk result ((w : List ℕ) → rowed origins.new w ≡ or_else (rowed origins.old w) (own_slot number part (item_of item.now ∷ []) w)) }
{
    match item {
        Item::Fun {
            mods,
            type_name,
            name,
            params,
            ..
        } => {
            let origin = Origin::Own(part, number, mods, *type_name, params);
            keep(alloc, origins, name.as_slice(), origin)
        }
        _ => Ok(()),
    }
}

/// Puts each function where its name has no row yet.
pub(crate) fn add_functions<'a>(
    alloc: Global,
    origins: &mut HashMap<Vec<char>, Origin<'a>>,
    part: u16,
    items: &'a [Item],
) -> Result<(), AllocError>
    requires { functions (map item_of items.now) ≤ 65535 }
    ensures { OnOk result ((w : List ℕ) → rowed origins.new w ≡ or_else (rowed origins.old w) (own_slot 0 part (map item_of items.now) w)) }
{
    let mut number = 0;
    for item in items {
        add_function(alloc, origins, part, number, item)?;
        number += bodies(item);
    }
    Ok(())
}

// Puts a prototype where its name has no row yet.
fn add_prototype<'a>(
    alloc: Global,
    origins: &mut HashMap<Vec<char>, Origin<'a>>,
    part: u16,
    item: &'a Item,
) -> Result<(), AllocError>
    ensures { OnOk result ((w : List ℕ) → rowed origins.new w ≡ or_else (rowed origins.old w) (prototype_slot part (item_of item.now ∷ []) w)) }
{
    match item {
        Item::Proto {
            mods,
            type_name,
            name,
            params,
            ..
        } => {
            let origin = Origin::Own(part, 65535, mods, *type_name, params);
            keep(alloc, origins, name.as_slice(), origin)
        }
        _ => Ok(()),
    }
}

/// Puts each prototype where its name has no row yet.
pub(crate) fn add_prototypes<'a>(
    alloc: Global,
    origins: &mut HashMap<Vec<char>, Origin<'a>>,
    part: u16,
    items: &'a [Item],
) -> Result<(), AllocError>
    ensures { OnOk result ((w : List ℕ) → rowed origins.new w ≡ or_else (rowed origins.old w) (prototype_slot part (map item_of items.now) w)) }
{
    for item in items {
        add_prototype(alloc, origins, part, item)?;
    }
    Ok(())
}

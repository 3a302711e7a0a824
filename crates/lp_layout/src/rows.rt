//! Rows of functions.
ghost use Rattle.std.specs.Prelude.{◌≡◌, ◌≤◌, ◌++◌, ◌∷◌, [], IfOk, IsAscii, List, OnOk, map, ℕ};
ghost use Rattle.lp_tree.specs.UnitView.{item_of};
ghost use Rattle.lp_layout.specs.Layout.{AreInside, AreSpelled, declared_names, functions, laid_slot, laid_slots, names_in, parts_of, with_slot};
ghost use Rattle.lp_layout.specs.Origins.{left, row_of, rowed, taken, without};

use crate::origin::Origin;
use crate::own::{add_functions, add_prototypes};
use crate::shown::add_shown;
use crate::spelled::{bits, name_of};
use lp_code::listed::Listed;
use lp_code::name::Name;
use lp_code::tables::{Slot, Tables};
use lp_tree::chars::Chars;
use lp_tree::unit::Item;
use lp_types_expr::items::param_kinds;
use lp_types_expr::kind::kind_of;
use lp_types_expr::names::letters;
use std::alloc::{AllocError, Global};
use std::collections::HashMap;

fn slot_of(alloc: Global, name: Name, origin: Origin<'_>) -> Result<Slot, AllocError>
    ensures { IfOk result (λ s. s ≡ row_of name origin.entry) }
{
    match origin {
        Origin::Own(part, number, mods, answer, params) => Ok(Slot {
            name,
            part,
            fun: number,
            mods: bits(mods),
            answer: kind_of(answer),
            params: Listed::from_vec(param_kinds(alloc, params)?),
        }),
        Origin::Inherited(part, slot) => Ok(Slot {
            name,
            part,
            fun: slot.fun,
            mods: slot.mods,
            answer: slot.answer,
            params: Listed::from_vec(slot.params.as_slice().to_vec(alloc)?),
        }),
    }
}

fn add_row(
    alloc: Global,
    rows: &mut Vec<Slot>,
    name: Name,
    origin: Origin<'_>,
) -> Result<(), AllocError>
    ensures { OnOk result (rows.new.items ≡ rows.old.items ++ row_of name origin.entry ∷ []) }
{
    rows.push(slot_of(alloc, name, origin)?)?;
    Ok(())
}

// Takes the row of a parent's name, where it is not taken yet.
fn take_known(
    alloc: Global,
    origins: &mut HashMap<Vec<char>, Origin<'_>>,
    rows: &mut Vec<Slot>,
    known: &Slot,
) -> Result<(), AllocError>
    ensures rows { OnOk result (rows.new.items ≡ rows.old.items ++ with_slot (rowed origins.old known.now.name) []) }
    ensures left { OnOk result ((w : List ℕ) → rowed origins.new w ≡ without known.now.name (rowed origins.old) w) }
{
    let name = letters(alloc, known.name.as_str())?;
    match origins.remove(name.as_slice()) {
        None => Ok(()),
        Some(origin) => add_row(alloc, rows, known.name.copy(alloc)?, origin),
    }
}

// Takes the rows of a parent's names.
fn take_parent(
    alloc: Global,
    origins: &mut HashMap<Vec<char>, Origin<'_>>,
    rows: &mut Vec<Slot>,
    slots: &[Slot],
) -> Result<(), AllocError>
    ensures rows { OnOk result (rows.new.items ≡ rows.old.items ++ taken (rowed origins.old) (map (λ s. s.name) slots.now)) }
    ensures left { OnOk result ((w : List ℕ) → rowed origins.new w ≡ left (rowed origins.old) (map (λ s. s.name) slots.now) w) }
{
    for known in slots {
        take_known(alloc, origins, rows, known)?;
    }
    Ok(())
}

// Takes the rows of the parents' names.
fn take_parents(
    alloc: Global,
    origins: &mut HashMap<Vec<char>, Origin<'_>>,
    rows: &mut Vec<Slot>,
    parents: &[Tables],
) -> Result<(), AllocError>
    ensures rows { OnOk result (rows.new.items ≡ rows.old.items ++ taken (rowed origins.old) (names_in parents.now)) }
    ensures left { OnOk result ((w : List ℕ) → rowed origins.new w ≡ left (rowed origins.old) (names_in parents.now) w) }
{
    for parent in parents {
        take_parent(alloc, origins, rows, parent.slots.as_slice())?;
    }
    Ok(())
}

// Takes the row of a name of the file, where it is not taken yet.
fn take_own(
    alloc: Global,
    origins: &mut HashMap<Vec<char>, Origin<'_>>,
    rows: &mut Vec<Slot>,
    name: &Chars,
) -> Result<(), AllocError>
    ensures rows { OnOk result (IsAscii name.now → rows.new.items ≡ rows.old.items ++ with_slot (rowed origins.old name.now) []) }
    ensures left { OnOk result ((w : List ℕ) → rowed origins.new w ≡ without name.now (rowed origins.old) w) }
{
    match origins.remove(name.as_slice()) {
        None => Ok(()),
        Some(origin) => add_row(alloc, rows, name_of(alloc, name)?, origin),
    }
}

// Takes the row of a function or a prototype, where it is not taken yet.
fn take_item(
    alloc: Global,
    origins: &mut HashMap<Vec<char>, Origin<'_>>,
    rows: &mut Vec<Slot>,
    item: &Item,
) -> Result<(), AllocError>
    ensures rows { OnOk result (AreSpelled (declared_names (item_of item.now ∷ [])) → rows.new.items ≡ rows.old.items ++ taken (rowed origins.old) (declared_names (item_of item.now ∷ []))) }
    ensures left { OnOk result ((w : List ℕ) → rowed origins.new w ≡ left (rowed origins.old) (declared_names (item_of item.now ∷ [])) w) }
{
    match item {
        Item::Fun { name, .. } => take_own(alloc, origins, rows, name),
        Item::Proto { name, .. } => take_own(alloc, origins, rows, name),
        _ => Ok(()),
    }
}

// Takes the rows of the names of a file.
fn take_items(
    alloc: Global,
    origins: &mut HashMap<Vec<char>, Origin<'_>>,
    rows: &mut Vec<Slot>,
    items: &[Item],
) -> Result<(), AllocError>
    ensures { OnOk result (AreSpelled (declared_names (map item_of items.now)) → rows.new.items ≡ rows.old.items ++ taken (rowed origins.old) (declared_names (map item_of items.now))) }
{
    for item in items {
        take_item(alloc, origins, rows, item)?;
    }
    Ok(())
}

// What the row of each name is made of.
fn origins<'a>(
    alloc: Global,
    items: &'a [Item],
    parents: &'a [Tables],
    total: u16,
) -> Result<HashMap<Vec<char>, Origin<'a>>, AllocError>
    requires functions { functions (map item_of items.now) ≤ 65535 }
    requires inside { AreInside parents.now }
    requires total { total ≡ parts_of parents.now }
    ensures { IfOk result (λ m. (w : List ℕ) → rowed m w ≡ laid_slot (map item_of items.now) parents.now w) }
{
    let mut origins = HashMap::new(alloc);
    add_functions(alloc, &mut origins, total, items)?;
    add_shown(alloc, &mut origins, true, total, parents)?;
    add_prototypes(alloc, &mut origins, total, items)?;
    add_shown(alloc, &mut origins, false, total, parents)?;
    Ok(origins)
}

/// The rows of functions. `total` is the number of all parts of the parents.
pub(crate) fn rows(
    alloc: Global,
    items: &[Item],
    parents: &[Tables],
    total: u16,
) -> Result<Vec<Slot>, AllocError>
    requires functions { functions (map item_of items.now) ≤ 65535 }
    requires inside { AreInside parents.now }
    requires total { total ≡ parts_of parents.now }
    ensures { IfOk result (λ v. AreSpelled (declared_names (map item_of items.now)) → v.items ≡ laid_slots (map item_of items.now) parents.now) }
{
    let mut origins = origins(alloc, items, parents, total)?;
    let mut rows = Vec::new(alloc);
    take_parents(alloc, &mut origins, &mut rows, parents)?;
    take_items(alloc, &mut origins, &mut rows, items)?;
    Ok(rows)
}

//! What parents show, by names.
ghost use Rattle.std.specs.Prelude.{◌≡◌, ◌≤◌, ◌+◌, ◌∷◌, [], List, OnOk, Option, Some, slice_get, take, ℕ};
ghost use Rattle.lp_code.specs.declared.tables.Slot.{Slot as OneSlot};
ghost use Rattle.lp_types_expr.specs.Signatures.{or_else};
ghost use Rattle.lp_layout.specs.Layout.{AreInside, AreRowsIn, last_slot, parts_of, slot_named, slot_shown};
ghost use Rattle.lp_layout.specs.Origins.{rowed};

use crate::origin::Origin;
use crate::own::keep;
use lp_code::slots::Slots;
use lp_code::tables::{Slot, Tables};
use lp_types_expr::names::letters;
use lp_types_expr::tables::{is_first, is_seen};
use std::alloc::{AllocError, Global};
use std::collections::HashMap;

// Puts a row where a child sees it and its name has none yet.
fn add_slot<'a>(
    alloc: Global,
    origins: &mut HashMap<Vec<char>, Origin<'a>>,
    bodies: bool,
    first: u16,
    slot: &'a Slot,
) -> Result<(), AllocError>
    requires { first + slot.now.part ≤ 65535 }
    ensures { OnOk result ((w : List ℕ) → rowed origins.new w ≡ or_else (rowed origins.old w) (slot_shown bodies first (slot_named (slot.now ∷ []) w))) }
{
    if !is_seen(bodies, slot) {
        return Ok(());
    }
    let name = letters(alloc, slot.name.as_str())?;
    let origin = Origin::Inherited(first + slot.part, slot);
    keep(alloc, origins, name.as_slice(), origin)
}

// Puts the row at a place, where it is the first of its name.
fn add_place<'a>(
    alloc: Global,
    origins: &mut HashMap<Vec<char>, Origin<'a>>,
    bodies: bool,
    first: u16,
    slots: &'a Slots,
    place: usize,
    slot: &'a Slot,
) -> Result<(), AllocError>
    requires { first + slot.now.part ≤ 65535 }
    ensures { OnOk result (slice_get slots.now place ≡ Some slot.now → (start : List ℕ → Option OneSlot) → ((w : List ℕ) → rowed origins.old w ≡ or_else (start w) (slot_shown bodies first (slot_named (take place slots.now) w))) → (w : List ℕ) → rowed origins.new w ≡ or_else (start w) (slot_shown bodies first (slot_named (take (place + 1) slots.now) w))) }
{
    if !is_first(slots, place, slot) {
        return Ok(());
    }
    add_slot(alloc, origins, bodies, first, slot)?;
    Ok(())
}

// Puts what a parent shows.
fn add_slots<'a>(
    alloc: Global,
    origins: &mut HashMap<Vec<char>, Origin<'a>>,
    bodies: bool,
    first: u16,
    parts: usize,
    slots: &'a Slots,
) -> Result<(), AllocError>
    requires rows { AreRowsIn parts slots.now }
    requires room { first + parts ≤ 65535 }
    ensures { OnOk result ((w : List ℕ) → rowed origins.new w ≡ or_else (rowed origins.old w) (slot_shown bodies first (slot_named slots.now w))) }
{
    let rows = slots.as_slice();
    for i in 0..rows.len() {
        add_place(alloc, origins, bodies, first, slots, i, &rows[i])?;
    }
    Ok(())
}

/// Puts what the last parent shows that shows a name, of functions with a body or of all, where the name has no row yet.
/// `total` is the number of all parts of the parents.
pub(crate) fn add_shown<'a>(
    alloc: Global,
    origins: &mut HashMap<Vec<char>, Origin<'a>>,
    bodies: bool,
    total: u16,
    parents: &'a [Tables],
) -> Result<(), AllocError>
    requires inside { AreInside parents.now }
    requires total { total ≡ parts_of parents.now }
    ensures { OnOk result ((w : List ℕ) → rowed origins.new w ≡ or_else (rowed origins.old w) (last_slot bodies parents.now 0 w)) }
{
    let mut left = parents.len();
    let mut first = total;
    while left > 0 {
        left -= 1;
        let parent = &parents[left];
        let parts = parent.parts.as_slice().len();
        first -= parts as u16;
        add_slots(alloc, origins, bodies, first, parts, &parent.slots)?;
    }
    Ok(())
}

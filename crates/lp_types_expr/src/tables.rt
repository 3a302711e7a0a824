//! What the tables of parents show, by names.
ghost use Rattle.std.specs.Prelude.{◌≡◌, ◌∷◌, ◌&&◌, ◌+◌, IfOk, List, OnOk, Option, Some, None, [], is_some, map, not, slice_get, take, ℕ};
ghost use Rattle.lp_types_expr.specs.NameMaps.{named};
ghost use Rattle.lp_types_expr.specs.Signatures.{inherited_kind, is_private_number, is_shown, is_wanted, last_shown, or_else, row_kind, row_named, shown_if, signature_of, Signature};

use crate::names::{letters, put};
use crate::signature::Signature;
use lp_code::listed::Listed;
use lp_code::slots::Slots;
use lp_code::tables::{Slot, Tables, VarRow};
use lp_tree::types::TypeName;
use std::alloc::{AllocError, Global};
use std::collections::HashMap;

/// Whether modifiers have `private`, which is bit 0.
pub fn is_private(mods: u16) -> bool
    ensures { result ≡ is_private_number mods }
{
    (mods / 1) % 2 == 1
}

// What a caller knows of a row. Bit 6 is `varargs`.
fn signature_of(alloc: Global, slot: &Slot) -> Result<Signature, AllocError>
    ensures { IfOk result (λ s. s ≡ signature_of slot.now) }
{
    Ok(Signature {
        varargs: (slot.mods / 64) % 2 == 1,
        answer: slot.answer,
        params: Listed::from_vec(slot.params.as_slice().to_vec(alloc)?),
    })
}

/// Whether a child sees a row and wants it: with a body, or any.
pub fn is_seen(bodies: bool, slot: &Slot) -> bool
    ensures { result ≡ is_shown slot.now && is_wanted bodies slot.now }
{
    !is_private(slot.mods) && (!bodies || slot.fun != 65535)
}

/// Whether no earlier row has the name of the row at a place. Takes no memory, and no longer with more rows.
pub fn is_first(slots: &Slots, place: usize, slot: &Slot) -> bool
    ensures { slice_get slots.now place ≡ Some slot.now → is_some (row_named (take place slots.now) slot.now.name) ≡ not result }
{
    match slots.place(slot.name.as_str()) {
        None => false,
        Some(first) => first == place,
    }
}

// Puts a row that is the first of its name, where a child sees it.
fn add_slot(
    alloc: Global,
    map: &mut HashMap<Vec<char>, Signature>,
    bodies: bool,
    slot: &Slot,
) -> Result<(), AllocError>
    ensures { OnOk result ((w : List ℕ) → named map.new w ≡ or_else (shown_if bodies (row_named (slot.now ∷ []) w)) (named map.old w)) }
{
    if !is_seen(bodies, slot) {
        return Ok(());
    }
    let name = letters(alloc, slot.name.as_str())?;
    let known = signature_of(alloc, slot)?;
    put(alloc, map, name.as_slice(), known)
}

// Puts the row at a place, where it is the first of its name and a child sees it.
fn add_place(
    alloc: Global,
    map: &mut HashMap<Vec<char>, Signature>,
    bodies: bool,
    slots: &Slots,
    place: usize,
    slot: &Slot,
) -> Result<(), AllocError>
    ensures { OnOk result (slice_get slots.now place ≡ Some slot.now → (start : List ℕ → Option Signature) → ((w : List ℕ) → named map.old w ≡ or_else (shown_if bodies (row_named (take place slots.now) w)) (start w)) → (w : List ℕ) → named map.new w ≡ or_else (shown_if bodies (row_named (take (place + 1) slots.now) w)) (start w)) }
{
    if !is_first(slots, place, slot) {
        return Ok(());
    }
    add_slot(alloc, map, bodies, slot)?;
    Ok(())
}

// Puts what a parent shows in place of what earlier ones show.
pub(crate) fn add_slots(
    alloc: Global,
    map: &mut HashMap<Vec<char>, Signature>,
    bodies: bool,
    slots: &Slots,
) -> Result<(), AllocError>
    ensures { OnOk result ((w : List ℕ) → named map.new w ≡ or_else (shown_if bodies (row_named slots.now w)) (named map.old w)) }
{
    let rows = slots.as_slice();
    for i in 0..rows.len() {
        add_place(alloc, map, bodies, slots, i, &rows[i])?;
    }
    Ok(())
}

/// What the last parent shows that has a name: of functions with a body, or of all.
pub(crate) fn last_shown(
    alloc: Global,
    bodies: bool,
    parents: &[Tables],
) -> Result<HashMap<Vec<char>, Signature>, AllocError>
    ensures { IfOk result (λ m. (w : List ℕ) → named m w ≡ last_shown bodies parents.now w) }
{
    let mut map = HashMap::new(alloc);
    for parent in parents {
        add_slots(alloc, &mut map, bodies, &parent.slots)?;
    }
    Ok(map)
}

// Puts a variable that is not private.
fn add_variable(
    alloc: Global,
    kinds: &mut HashMap<Vec<char>, TypeName>,
    row: &VarRow,
) -> Result<(), AllocError>
    ensures { OnOk result ((w : List ℕ) → named kinds.new w ≡ or_else (row_kind (row.now ∷ []) w) (named kinds.old w)) }
{
    if is_private(row.mods) {
        return Ok(());
    }
    let name = letters(alloc, row.name.as_str())?;
    put(alloc, kinds, name.as_slice(), row.kind)
}

fn add_variables(
    alloc: Global,
    kinds: &mut HashMap<Vec<char>, TypeName>,
    rows: &[VarRow],
) -> Result<(), AllocError>
    ensures { OnOk result ((w : List ℕ) → named kinds.new w ≡ or_else (row_kind rows.now w) (named kinds.old w)) }
{
    for row in rows {
        add_variable(alloc, kinds, row)?;
    }
    Ok(())
}

/// The variables that the last parent shows that has one of the name.
pub(crate) fn inherited(
    alloc: Global,
    parents: &[Tables],
) -> Result<HashMap<Vec<char>, TypeName>, AllocError>
    ensures { IfOk result (λ m. (w : List ℕ) → named m w ≡ inherited_kind parents.now w) }
{
    let mut kinds = HashMap::new(alloc);
    for parent in parents {
        add_variables(alloc, &mut kinds, parent.vars.as_slice())?;
    }
    Ok(kinds)
}

//! What a version sees of its parents.
ghost use Rattle.std.specs.Prelude.{◌≡◌, ◌&&◌, ◌++◌, ◌∷◌, [], IfOk, OnOk, false, map, true};
ghost use Rattle.lp_types_expr.specs.Signatures.{is_shown, is_wanted};
ghost use Rattle.lp_codegen_layout.specs.Laid.{ends, entry, path_names, row_names, shown, shown_rows};

use crate::entry::Entry;
use crate::letters::{letters, names_of_rows};
use lp_code::tables::{Slot, Tables};
use lp_codegen_expr::index::Index;
use std::alloc::{AllocError, Global};

// Whether a child sees a row and wants it: with a function, or any. Bit 0 is `private`.
fn is_seen(bodies: bool, slot: &Slot) -> bool
    ensures { result ≡ is_shown slot.now && is_wanted bodies slot.now }
{
    (slot.mods / 1) % 2 != 1 && (!bodies || slot.fun != 65535)
}

// A parent's row, where a child sees it.
fn add_row(
    alloc: Global,
    entries: &mut Vec<Entry>,
    bodies: bool,
    number: usize,
    slot: &Slot,
) -> Result<(), AllocError>
    ensures { OnOk result (entries.new.items ≡ entries.old.items ++ shown_rows bodies number (slot.now ∷ [])) }
{
    if is_seen(bodies, slot) {
        let name = letters(alloc, slot.name.as_str().as_bytes())?;
        entries.push(Entry { name, number })?;
    }
    Ok(())
}

// What a child sees of a parent's rows.
fn add_rows(
    alloc: Global,
    entries: &mut Vec<Entry>,
    bodies: bool,
    number: usize,
    slots: &[Slot],
) -> Result<(), AllocError>
    ensures { OnOk result (entries.new.items ≡ entries.old.items ++ shown_rows bodies number slots.now) }
{
    for slot in slots {
        add_row(alloc, entries, bodies, number, slot)?;
    }
    Ok(())
}

// What a child sees of the rows of all parents.
fn add_shown(
    alloc: Global,
    entries: &mut Vec<Entry>,
    bodies: bool,
    parents: &[Tables],
) -> Result<(), AllocError>
    ensures { OnOk result (entries.new.items ≡ entries.old.items ++ shown bodies 0 parents.now) }
{
    for i in 0..parents.len() {
        add_rows(alloc, entries, bodies, i, parents[i].slots.as_slice())?;
    }
    Ok(())
}

/// The names that `::` finds in parents: first all that they show, and then those with functions, so that the last entry of
/// a name counts.
pub fn shown_of(alloc: Global, parents: &[Tables]) -> Result<Vec<Entry>, AllocError>
    ensures { IfOk result (λ v. v.items ≡ shown false 0 parents.now ++ shown true 0 parents.now) }
{
    let mut entries = Vec::new(alloc);
    add_shown(alloc, &mut entries, false, parents)?;
    add_shown(alloc, &mut entries, true, parents)?;
    Ok(entries)
}

// The ends of a path behind its slashes.
fn add_ends(
    alloc: Global,
    entries: &mut Vec<Entry>,
    number: usize,
    path: &[u8],
) -> Result<(), AllocError>
    ensures { OnOk result (entries.new.items ≡ entries.old.items ++ ends number path.now) }
{
    for i in 0..path.len() {
        if path[i] == b'/' {
            let name = letters(alloc, &path[i + 1..])?;
            entries.push(Entry { name, number })?;
        }
    }
    Ok(())
}

// The names by which a parent is called.
fn add_path(
    alloc: Global,
    entries: &mut Vec<Entry>,
    number: usize,
    path: &[u8],
) -> Result<(), AllocError>
    ensures { OnOk result (entries.new.items ≡ entries.old.items ++ entry path.now number ∷ ends number path.now) }
{
    let name = letters(alloc, path)?;
    entries.push(Entry { name, number })?;
    add_ends(alloc, entries, number, path)
}

/// The names by which parents are called: the path of each, and each end of it behind a slash.
pub fn path_names_of(alloc: Global, parents: &[Tables]) -> Result<Vec<Entry>, AllocError>
    ensures { IfOk result (λ v. v.items ≡ path_names 0 parents.now) }
{
    let mut entries = Vec::new(alloc);
    for i in 0..parents.len() {
        add_path(alloc, &mut entries, i, parents[i].path.as_str().as_bytes())?;
    }
    Ok(entries)
}

/// The names of the rows of each parent.
pub fn rows_of(alloc: Global, parents: &[Tables]) -> Result<Vec<Index>, AllocError>
    ensures { IfOk result (λ v. v.items ≡ map (λ t. row_names t.slots) parents.now) }
{
    let mut all = Vec::new(alloc);
    for parent in parents {
        all.push(names_of_rows(alloc, parent.slots.as_slice())?)?;
    }
    Ok(all)
}

//! The variables that a version sees.
ghost use Rattle.std.specs.Prelude.{◌≡◌, ◌++◌, ◌∷◌, [], IfOk, OnOk, length};
ghost use Rattle.lp_codegen_layout.specs.Laid.{is_seen, seen};

use crate::entry::Entry;
use crate::letters::letters;
use lp_code::tables::{Tables, VarRow};
use std::alloc::{AllocError, Global};

// Bit 0 is `private`.
fn is_seen(parts: usize, row: &VarRow) -> bool
    ensures { result ≡ is_seen parts row.now }
{
    row.part as usize + 1 == parts || (row.mods / 1) % 2 != 1
}

// The variable at a place, where it is seen.
fn add_seen(
    alloc: Global,
    entries: &mut Vec<Entry>,
    parts: usize,
    at: usize,
    row: &VarRow,
) -> Result<(), AllocError>
    ensures { OnOk result (entries.new.items ≡ entries.old.items ++ seen parts at (row.now ∷ [])) }
{
    if is_seen(parts, row) {
        let name = letters(alloc, row.name.as_str().as_bytes())?;
        entries.push(Entry { name, number: at })?;
    }
    Ok(())
}

/// The variables that a version sees, with their places.
pub fn seen_of(alloc: Global, own: &Tables) -> Result<Vec<Entry>, AllocError>
    ensures { IfOk result (λ v. v.items ≡ seen (length own.now.parts) 0 own.now.vars) }
{
    let mut entries = Vec::new(alloc);
    let parts = own.parts.as_slice().len();
    let rows = own.vars.as_slice();
    for i in 0..rows.len() {
        add_seen(alloc, &mut entries, parts, i, &rows[i])?;
    }
    Ok(entries)
}

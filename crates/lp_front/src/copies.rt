//! Copies of tables, for the units that inherit a version.
ghost use Rattle.std.specs.Prelude.{◌≡◌, IfOk};

use lp_code::listed::Listed;
use lp_code::slots::Slots;
use lp_code::tables::{Slot, Tables, VarRow};
use lp_tree::path::FilePath;
use lp_tree::types::TypeName;
use lp_values::id::ProgId;
use std::alloc::{AllocError, Global};

// A copy of some types.
fn types(alloc: Global, from: &[TypeName]) -> Result<Listed<TypeName>, AllocError>
    ensures { IfOk result (λ l. l ≡ from.now) }
{
    Ok(Listed::from_vec(Vec::from_slice(alloc, from)?))
}

// A copy of some versions.
fn versions(alloc: Global, from: &[ProgId]) -> Result<Listed<ProgId>, AllocError>
    ensures { IfOk result (λ l. l ≡ from.now) }
{
    Ok(Listed::from_vec(Vec::from_slice(alloc, from)?))
}

// A copy of a slot.
fn slot(alloc: Global, from: &Slot) -> Result<Slot, AllocError>
    ensures { IfOk result (λ s. s ≡ from.now) }
{
    Ok(Slot {
        name: from.name.copy(alloc)?,
        part: from.part,
        fun: from.fun,
        mods: from.mods,
        answer: from.answer,
        params: types(alloc, from.params.as_slice())?,
    })
}

// A copy of a variable's row.
fn variable(alloc: Global, from: &VarRow) -> Result<VarRow, AllocError>
    ensures { IfOk result (λ v. v ≡ from.now) }
{
    Ok(VarRow {
        name: from.name.copy(alloc)?,
        part: from.part,
        mods: from.mods,
        kind: from.kind,
    })
}

// Copies of slots, in their order.
fn slots(alloc: Global, from: &[Slot]) -> Result<Slots, AllocError>
    ensures { IfOk result (λ s. s ≡ from.now) }
{
    let mut rows = Vec::with_capacity(alloc, from.len())?;
    for one in from {
        rows.push(slot(alloc, one)?)?;
    }
    Slots::from_vec(alloc, rows)
}

// Copies of variables' rows, in their order.
fn variables(alloc: Global, from: &[VarRow]) -> Result<Listed<VarRow>, AllocError>
    ensures { IfOk result (λ s. s ≡ from.now) }
{
    let mut rows = Vec::with_capacity(alloc, from.len())?;
    for one in from {
        rows.push(variable(alloc, one)?)?;
    }
    Ok(Listed::from_vec(rows))
}

/// A copy of a version's tables, which takes time in proportion to them.
pub fn copy_tables(alloc: Global, from: &Tables) -> Result<Tables, AllocError>
    ensures { IfOk result (λ t. t ≡ from.now) }
{
    Ok(Tables {
        path: FilePath::from_str(alloc, from.path.as_str())?,
        parents: versions(alloc, from.parents.as_slice())?,
        parts: versions(alloc, from.parts.as_slice())?,
        slots: slots(alloc, from.slots.as_slice())?,
        vars: variables(alloc, from.vars.as_slice())?,
        pragmas: from.pragmas,
    })
}

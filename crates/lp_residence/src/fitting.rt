//! Whether a program that comes back fits the versions that are there.
ghost use Rattle.std.specs.Prelude.{◌≡◌, All, IfOk, map, ℕ};
ghost use Rattle.std.specs.Bool.{OnTrue};
ghost use Rattle.lp_values.specs.declared.id.ProgId.{ProgId as P};
ghost use Rattle.lp_world.specs.Closed.{IsProgramClosed, IsRowThere};
ghost use Rattle.lp_world.specs.Rows.{row_at};
ghost use Rattle.lp_world.specs.Stands.{IsOutline};
ghost use Rattle.lp_world.specs.Targets.{IsAnswerAmong, answer_at};
ghost use Rattle.lp_residence.specs.Programs.{IsCallThere, IsSlotAmong, functions_in, slots_in};

use lp_code::program::RawProgram;
use lp_code::tables::Slot;
use lp_instr::instr::Instr;
use lp_values::id::ProgId;
use lp_world::targets::is_among;
use lp_world::versions::{Outline, Version, VersionTable};
use std::alloc::{AllocError, Global};

/// How many functions a version has.
fn function_count(versions: &VersionTable, p: ProgId) -> u32
    ensures { result ≡ functions_in (row_at versions.now p.0) }
{
    match versions.get(p) {
        Some(v) => v.outline.functions,
        None => 0,
    }
}

/// How many functions each of these has.
fn counts_of(
    alloc: Global,
    versions: &VersionTable,
    parts: &[ProgId],
) -> Result<Vec<u32>, AllocError>
    ensures { IfOk result (λ v. v.items ≡ map (λ (p : P). functions_in (row_at versions.now p.0)) parts.now) }
{
    let mut counts = Vec::new(alloc);
    for p in parts {
        counts.push(function_count(versions, *p))?;
    }
    Ok(counts)
}

/// Whether a slot names a function that is there, or none.
fn is_slot_there(slot: &Slot, counts: &[u32]) -> bool
    ensures { OnTrue result (IsSlotAmong counts.now slot.now) }
{
    if slot.fun == 65535 {
        return true;
    }
    is_among(counts, slot.part, slot.fun)
}

/// Whether each slot does.
fn are_slots_there(slots: &[Slot], counts: &[u32]) -> bool
    ensures { OnTrue result (All (IsSlotAmong counts.now) slots.now) }
{
    for slot in slots {
        if !is_slot_there(slot, counts) {
            return false;
        }
    }
    true
}

/// How many slots a version has.
fn slot_count(versions: &VersionTable, p: ProgId) -> u32
    ensures { result ≡ slots_in (row_at versions.now p.0) }
{
    match versions.get(p) {
        Some(v) => v.outline.slots,
        None => 0,
    }
}

/// Whether a call of a parent's row finds it.
fn is_row_there(versions: &VersionTable, parents: &[ProgId], parent: u32, slot: u32) -> bool
    ensures { OnTrue result (IsRowThere versions.now parents.now parent slot) }
{
    match parents.get(parent as usize) {
        Some(p) => slot < slot_count(versions, *p),
        None => false,
    }
}

/// Whether an instruction, if it is such a call, finds its row.
fn is_call_there(versions: &VersionTable, parents: &[ProgId], instr: &Instr) -> bool
    ensures { OnTrue result (IsCallThere versions.now parents.now instr.now) }
{
    match instr {
        Instr::CallFixed(parent, slot, _) => is_row_there(versions, parents, *parent, *slot),
        _ => true,
    }
}

/// Whether each instruction does.
fn are_calls_there(versions: &VersionTable, parents: &[ProgId], instrs: &[Instr]) -> bool
    ensures { OnTrue result (All (IsCallThere versions.now parents.now) instrs.now) }
{
    for instr in instrs {
        if !is_call_there(versions, parents, instr) {
            return false;
        }
    }
    true
}

/// Whether a program is as an outline says.
fn is_outlined(raw: &RawProgram, outline: &Outline) -> bool
    ensures { OnTrue result (IsOutline raw.now outline.now) }
{
    if outline.parents.as_slice() != raw.tables.parents.as_slice() {
        return false;
    }
    if outline.parts as usize != raw.tables.parts.as_slice().len() {
        return false;
    }
    if outline.variables as usize != raw.tables.vars.as_slice().len() {
        return false;
    }
    if outline.functions as usize != raw.funs.as_slice().len() {
        return false;
    }
    outline.slots as usize == raw.tables.slots.as_slice().len()
}

/// Whether what a program and its version name is there, where the parts have so many functions.
fn are_functions_there(raw: &RawProgram, version: &Version, counts: &[u32]) -> bool
    ensures slots { OnTrue result (All (IsSlotAmong counts.now) raw.now.tables.slots) }
    ensures targets { OnTrue result ((n k : ℕ) → IsAnswerAmong counts.now (answer_at version.now.targets n k)) }
{
    if !are_slots_there(raw.tables.slots.as_slice(), counts) {
        return false;
    }
    version.targets.are_among(counts)
}

/// Whether a program fits a version: it is as its outline says, and what it and the kept answers name is there.
pub(crate) fn fits(
    alloc: Global,
    versions: &VersionTable,
    version: &Version,
    raw: &RawProgram,
) -> Result<bool, AllocError>
    ensures { IfOk result (λ b. OnTrue b (IsProgramClosed versions.now version.now raw.now)) }
{
    if !is_outlined(raw, &version.outline) {
        return Ok(false);
    }
    if !are_calls_there(
        versions,
        raw.tables.parents.as_slice(),
        raw.instrs.as_slice(),
    ) {
        return Ok(false);
    }
    let counts = counts_of(alloc, versions, raw.tables.parts.as_slice())?;
    Ok(are_functions_there(raw, version, counts.as_slice()))
}

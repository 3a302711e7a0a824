//! Functions of an object's program as callees.
ghost use Rattle.std.specs.Prelude.{◌≡◌, ◌+◌, ◌-◌, ◌<◌, ◌≤◌, ◌^◌, IfSome, Some, slice_get, ℕ};
ghost use Rattle.lp_values.specs.declared.id.ProgId.{ProgId as P};
ghost use Rattle.lp_world.specs.Closed.{IsFunctionThere};
ghost use Rattle.lp_world.specs.Rows.{row_at};
ghost use Rattle.lp_world.specs.declared.versions.Version.{Version as V};
ghost use Rattle.lp_part_laws.specs.Parts.{IsSplit};
ghost use Rattle.lp_targets.specs.Callees.{IsCalleeThere, answer_for};

use lp_code::program::RawProgram;
use lp_code::tables::VarRow;
use lp_frames::entry::Callee;
use lp_values::id::{ObjId, ProgId};
use lp_world::targets::FunAt;
use lp_world::versions::{Outline, VersionTable};

/// Where the variables begin that stand in the parts from a number on.
fn first_variable(vars: &[VarRow], first: u32) -> usize
    ensures { (n : ℕ) → IsSplit vars.now first n → result ≡ n }
{
    vars.partition_point(|r| (r.part as u32) < first)
}

/// The callee at a part and a row of an object's program, where the part is of a version with this outline.
fn callee_in(
    whole: &RawProgram,
    this: ObjId,
    at: FunAt,
    program: ProgId,
    outline: &Outline,
) -> Option<Callee>
    ensures function { IfSome result (λ c. (at.fun < outline.now.functions) × (c.program ≡ program) × (c.fun ≡ at.fun)) }
    ensures is { (base : ℕ) → at.fun < outline.now.functions → outline.now.parts ≤ at.part + 1 → base < 2 ^ 32 → IsSplit whole.now.tables.vars (at.part + 1 - outline.now.parts) base
        → result ≡ Some (answer_for this program at.part base at.fun) }
{
    let end = at.part as u32 + 1;
    if at.fun as u32 >= outline.functions || end < outline.parts {
        return None;
    }
    let base = first_variable(whole.tables.vars.as_slice(), end - outline.parts);
    if base > u32::MAX as usize {
        return None;
    }
    Some(Callee {
        this,
        program,
        part: at.part,
        base: base as u32,
        fun: at.fun,
    })
}

/// The version of a part of a program.
fn version_at(whole: &RawProgram, part: u16) -> Option<ProgId>
    ensures { result ≡ slice_get whole.now.tables.parts part }
{
    whole.tables.parts.as_slice().get(part as usize).copied()
}

/// The callee at a part and a row of an object's program, where the part is of this version.
fn callee_of_version(
    versions: &VersionTable,
    whole: &RawProgram,
    this: ObjId,
    at: FunAt,
    program: ProgId,
) -> Option<Callee>
    ensures function { IfSome result (λ c. (v : V) × (row_at versions.now program.0 ≡ Some v) × (at.fun < v.outline.functions)) }
    ensures there { IfSome result (IsCalleeThere versions.now) }
    ensures is { (v : V) (base : ℕ) → row_at versions.now program.0 ≡ Some v → at.fun < v.outline.functions → v.outline.parts ≤ at.part + 1 → base < 2 ^ 32
        → IsSplit whole.now.tables.vars (at.part + 1 - v.outline.parts) base → result ≡ Some (answer_for this program at.part base at.fun) }
{
    match versions.get(program) {
        Some(v) => callee_in(whole, this, at, program, &v.outline),
        None => None,
    }
}

/// The callee at a part and a row of an object's program.
pub(crate) fn callee_at(
    versions: &VersionTable,
    whole: &RawProgram,
    this: ObjId,
    at: FunAt,
) -> Option<Callee>
    ensures function { IfSome result (λ c. IsFunctionThere versions.now whole.now.tables.parts at.part at.fun) }
    ensures there { IfSome result (IsCalleeThere versions.now) }
    ensures is { (n : P) (v : V) (base : ℕ) → slice_get whole.now.tables.parts at.part ≡ Some n → row_at versions.now n.0 ≡ Some v → at.fun < v.outline.functions → v.outline.parts ≤ at.part + 1 → base < 2 ^ 32
        → IsSplit whole.now.tables.vars (at.part + 1 - v.outline.parts) base → result ≡ Some (answer_for this n at.part base at.fun) }
{
    match version_at(whole, at.part) {
        Some(program) => callee_of_version(versions, whole, this, at, program),
        None => None,
    }
}

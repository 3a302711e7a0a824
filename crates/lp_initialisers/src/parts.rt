//! The initialisers of parts, as callees.
ghost use Rattle.std.specs.Prelude.{◌≡◌, IfSome, Some, ℕ};
ghost use Rattle.lp_code.specs.declared.program.RawProgram.{RawProgram as Raw};
ghost use Rattle.lp_language.specs.Resolve.{Heritage, Part, part_at};
ghost use Rattle.lp_part_laws.specs.Parts.{IsSplit};
ghost use Rattle.lp_part_laws.specs.Versions.{FitsVersion};
ghost use Rattle.lp_targets.specs.Brought.{program_at};
ghost use Rattle.lp_initialisers.specs.Callees.{AreInitialisersIf, IsBase};

use crate::looking::program_of;
use crate::rows::initialiser_row;
use lp_asking::Callee;
use lp_code::program::RawProgram;
use lp_code::tables::VarRow;
use lp_values::id::{ObjId, ProgId};
use lp_world::versions::VersionTable;

/// Where the variables begin that stand in the parts from a number on.
fn first_variable(vars: &[VarRow], first: u32) -> usize
    ensures { (n : ℕ) → IsSplit vars.now first n → result ≡ n }
{
    vars.partition_point(|r| (r.part as u32) < first)
}

/// Where the variables of a part of a program begin, where the part has so many parts itself.
fn base_of(whole: &RawProgram, part: u16, count: usize) -> Option<u32>
    ensures { IsBase whole.now part count result }
{
    let end = part as usize + 1;
    if end < count {
        return None;
    }
    let base = first_variable(whole.tables.vars.as_slice(), (end - count) as u32);
    if base > u32::MAX as usize {
        return None;
    }
    Some(base as u32)
}

/// The initialisers of a part of a program, where the part is of a version with this program.
fn initialisers_in(
    whole: &RawProgram,
    this: ObjId,
    part: u16,
    program: ProgId,
    own: &RawProgram,
) -> Option<Callee>
    ensures at { IfSome result (λ c. (c.this ≡ this) × (c.program ≡ program)) }
    ensures found { (h : Heritage) (p : Part) → part_at h part ≡ Some p → FitsVersion h whole.now → FitsVersion p.tree own.now → AreInitialisersIf result this part program p own.now }
{
    let fun = initialiser_row(own)?;
    let base = base_of(whole, part, own.tables.parts.as_slice().len())?;
    Some(Callee {
        this,
        program,
        part,
        base,
        fun,
    })
}

/// The initialisers of a part of an object's program, if it has some: the programs of the object's version and of the part's
/// are in memory.
pub fn initialisers_of(
    versions: &VersionTable,
    version: ProgId,
    this: ObjId,
    part: u16,
    program: ProgId,
) -> Option<Callee>
    ensures at { IfSome result (λ c. (c.this ≡ this) × (c.program ≡ program)) }
    ensures found { (whole own : Raw) (h : Heritage) (p : Part) → program_at versions.now version ≡ Some whole → program_at versions.now program ≡ Some own → part_at h part ≡ Some p → FitsVersion h whole → FitsVersion p.tree own
        → AreInitialisersIf result this part program p own }
{
    match program_of(versions, version) {
        Some(whole) => match program_of(versions, program) {
            Some(own) => initialisers_in(whole.raw(), this, part, program, own.raw()),
            None => None,
        },
        None => None,
    }
}

//! Calls of parents' functions.
ghost use Rattle.std.specs.Prelude.{◌≡◌, ◌+◌, ◌≤◌, IfOk, IfSome, IsSome, List, Option, Some, length, slice_get, take, ℕ};
ghost use Rattle.lp_code.specs.Programs.{code_of};
ghost use Rattle.lp_code.specs.declared.program.RawProgram.{RawProgram as Raw};
ghost use Rattle.lp_code.specs.declared.tables.Slot.{Slot as S};
ghost use Rattle.lp_inherit.specs.Heirs.{tables};
ghost use Rattle.lp_instr.specs.Code.{parent_row};
ghost use Rattle.lp_language.specs.Resolve.{heritage_of, of_parent_from, parents_of, part_at};
ghost use Rattle.lp_language.specs.World.{World};
ghost use Rattle.lp_isa.specs.Programs.{Reached};
ghost use Rattle.lp_part_laws.specs.Parts.{moved_reached};
ghost use Rattle.lp_part_laws.specs.Versions.{rows_of};
ghost use Rattle.lp_plan_laws.specs.Tables.{reached_by};
ghost use Rattle.lp_swapfile.specs.Device.{Bytes};
ghost use Rattle.lp_values.specs.declared.id.ProgId.{ProgId as P};
ghost use Rattle.lp_world.specs.Closed.{IsClosed, parts_in, parts_together};
ghost use Rattle.lp_world.specs.Rows.{row_at};
ghost use Rattle.lp_world.specs.Stands.{Stands, reached_of};
ghost use Rattle.lp_world.specs.declared.objects.Object.{Object};
ghost use Rattle.lp_targets.specs.Brought.{Brings, program_at};
ghost use Rattle.lp_targets.specs.Callees.{IsAnswer, IsCalleeThere, IsCaller, IsWorldOf};

use crate::bringing::{bring_program, program_of, version_of};
use crate::functions::callee_of;
use crate::rows::{reached, slot_at};
use crate::search::moved;
use lp_code::program::RawProgram;
use lp_frames::entry::Callee;
use lp_residence::answers::EnterFault;
use lp_swapfile::SwapFile;
use lp_values::id::{ObjId, ProgId};
use lp_world::live::Live;
use lp_world::shared::SharedProgram;
use lp_world::targets::FunAt;
use lp_world::versions::VersionTable;

/// How many parts a version has.
fn parts_of_one(versions: &VersionTable, p: ProgId) -> u32
    ensures { result ≡ parts_in (row_at versions.now p.0) }
{
    match versions.get(p) {
        Some(v) => v.outline.parts,
        None => 0,
    }
}

/// A sum that is small enough for parts.
fn small_sum(n: usize, more: u32) -> Option<usize>
    requires { n ≤ 65535 }
    ensures few { IfSome result (λ k. k ≤ 65535) }
    ensures is { more + n ≤ 65535 → result ≡ Some (more + n) }
{
    let sum = more as usize + n;
    if sum > 65535 {
        return None;
    }
    Some(sum)
}

/// How many parts some versions have together, where they are few enough.
fn parts_of(versions: &VersionTable, parents: &[ProgId]) -> Option<usize>
    ensures few { IfSome result (λ k. k ≤ 65535) }
    ensures is { parts_together versions.now parents.now ≤ 65535 → result ≡ Some (parts_together versions.now parents.now) }
{
    match parents {
        [p, rest @ ..] => match parts_of(versions, rest) {
            Some(n) => small_sum(n, parts_of_one(versions, *p)),
            None => None,
        },
        [] => Some(0),
    }
}

/// The parents before one.
fn parents_before(code: &RawProgram, parent: u32) -> &[ProgId]
    requires { parent ≤ length code.now.tables.parents }
    ensures { result.now ≡ take parent code.now.tables.parents }
{
    &code.tables.parents.as_slice()[..parent as usize]
}

/// A function of a parent's tree, seen from the tree of the part whose parents before it have so many parts.
fn behind(before: usize, at: FunAt) -> Option<FunAt>
    requires { before ≤ 65535 }
    ensures { before + at.part ≤ 65535 → result ≡ Some (record { part = before + at.part; fun = at.fun }) }
{
    let part = before + at.part as usize;
    if part > 65535 {
        return None;
    }
    Some(FunAt {
        part: part as u16,
        fun: at.fun,
    })
}

/// A function of a parent's tree, seen from the whole.
fn parent_moved(
    versions: &VersionTable,
    part: u16,
    code: &RawProgram,
    parent: u32,
    at: FunAt,
) -> Option<FunAt>
    requires { parent ≤ length code.now.tables.parents }
    ensures { (first : ℕ) → first + length code.now.tables.parts ≡ part + 1 → first + (parts_together versions.now (take parent code.now.tables.parents) + at.part) ≤ 65535
        → result ≡ Some (record { part = first + (parts_together versions.now (take parent code.now.tables.parents) + at.part); fun = at.fun }) }
{
    match parts_of(versions, parents_before(code, parent)) {
        Some(before) => match behind(before, at) {
            Some(inner) => moved(part, code.tables.parts.as_slice().len(), inner),
            None => None,
        },
        None => None,
    }
}

/// The function of a row of a program's table.
fn row_reached(program: &RawProgram, slot: u32) -> Option<FunAt>
    ensures { (s : S) → slice_get program.now.tables.slots slot ≡ Some s → reached_of result ≡ reached_by s }
{
    match slot_at(program, slot) {
        Some(row) => reached(row),
        None => None,
    }
}

/// The function of a row of a version's table, whose program is in memory.
fn version_row(versions: &VersionTable, p: ProgId, slot: u32) -> Option<FunAt>
    ensures { (program : Raw) (s : S) → program_at versions.now p ≡ Some program → slice_get program.tables.slots slot ≡ Some s → reached_of result ≡ reached_by s }
{
    match program_of(versions, p) {
        Some(program) => row_reached(program.raw(), slot),
        None => None,
    }
}

/// The version of a parent, where it is there.
fn parent_number(versions: &VersionTable, code: &RawProgram, parent: u32) -> Option<ProgId>
    ensures inside { IfSome result (λ n. (slice_get code.now.tables.parents parent ≡ Some n) × IsSome (row_at versions.now n.0)) }
    ensures is { (n : P) → slice_get code.now.tables.parents parent ≡ Some n → IsSome (row_at versions.now n.0) → result ≡ Some n }
{
    match code.tables.parents.as_slice().get(parent as usize) {
        Some(n) => {
            if versions.get(*n).is_some() {
                Some(*n)
            } else {
                None
            }
        }
        None => None,
    }
}

/// What a call of a parent's row reaches in the whole program, where the parent's program is in memory.
fn parent_at(
    live: &Live,
    part: u16,
    code: &RawProgram,
    parent: u32,
    number: ProgId,
    slot: u32,
) -> Option<FunAt>
    requires { parent ≤ length code.now.tables.parents }
    ensures { (first : ℕ) (q : Raw) (s : S) → program_at live.now.versions number ≡ Some q → slice_get q.tables.slots slot ≡ Some s → first + length code.now.tables.parts ≡ part + 1
        → ((r : Reached) → reached_by s ≡ Some r → first + (parts_together live.now.versions (take parent code.now.tables.parents) + r.part) ≤ 65535)
        → reached_of result ≡ moved_reached first (moved_reached (parts_together live.now.versions (take parent code.now.tables.parents)) (reached_by s)) }
{
    match version_row(&live.versions, number, slot) {
        Some(at) => parent_moved(&live.versions, part, code, parent, at),
        None => None,
    }
}

/// Where a call of a parent's row leads, where the programs of the object's version and of the parent are in memory.
fn parent_in(
    live: &Live,
    this: ObjId,
    version: ProgId,
    part: u16,
    code: &RawProgram,
    parent: u32,
    number: ProgId,
    slot: u32,
) -> Option<Callee>
    requires { parent ≤ length code.now.tables.parents }
    ensures there { IfSome result (IsCalleeThere live.now.versions) }
    ensures found { (told : Option Bytes) (programs : List Raw) (w : World) (o : Object) (name : List ℕ) → IsWorldOf told programs live.now w → IsClosed live.now → row_at live.now.objects this.0 ≡ Some o → o.program ≡ version
        → IsSome (program_at live.now.versions version) → IsSome (program_at live.now.versions number) → slice_get code.now.tables.parents parent ≡ Some number
        → (who : IsCaller programs w this part code.now) → parent_row (code_of code.now (rows_of (tables (parents_of who.place.tree)))) parent slot ≡ Some name
        → IsAnswer programs w this result (of_parent_from (part_at (heritage_of w this) part) parent name) }
{
    let at = parent_at(live, part, code, parent, number, slot);
    callee_of(live, version, this, at)
}

/// Brings a parent's program into memory, and finds where a call of its row leads.
fn parent_brought<W: SwapFile>(
    live: &mut Live,
    swap: &mut W,
    this: ObjId,
    version: ProgId,
    part: u16,
    code: &RawProgram,
    parent: u32,
    number: ProgId,
    slot: u32,
) -> Result<Option<Callee>, EnterFault>
    requires closed { IsClosed live.old }
    requires there { IsSome (row_at live.old.versions number.0) }
    requires here { IsSome (program_at live.old.versions version) }
    requires inside { parent ≤ length code.now.tables.parents }
    ensures brings { Brings (W.content swap.old) (W.content swap.new) (W.last swap.new) (W.read_faults swap.old) (W.read_faults swap.new) (W.write_faults swap.old) (W.write_faults swap.new)
        (W.is_truthful swap.old) (W.is_truthful swap.new) (W.is_honest swap.old) (W.is_honest swap.new) live.old live.new result }
    ensures closed { IsClosed live.new }
    ensures there { IfOk result (λ o. IfSome o (IsCalleeThere live.new.versions)) }
    ensures stands { W.is_truthful swap.new → (programs : List Raw) (w : World) → Stands (W.content swap.old) programs live.old w → Stands (W.content swap.new) programs live.new w }
    ensures found { W.is_truthful swap.new → (programs : List Raw) (w : World) (o : Object) (name : List ℕ) → IsWorldOf (W.content swap.old) programs live.old w → row_at live.old.objects this.0 ≡ Some o → o.program ≡ version
        → slice_get code.now.tables.parents parent ≡ Some number → (who : IsCaller programs w this part code.now) → parent_row (code_of code.now (rows_of (tables (parents_of who.place.tree)))) parent slot ≡ Some name
        → IfOk result (λ r. IsAnswer programs w this r (of_parent_from (part_at (heritage_of w this) part) parent name)) }
{
    match bring_program(live, swap, number) {
        Ok(()) => Ok(parent_in(live, this, version, part, code, parent, number, slot)),
        Err(e) => Err(e),
    }
}

/// Where a call of a parent's function leads: by a row of the table of a parent of the program in whose text the calling
/// function stands. The programs of the object's version and of the parent come into memory for it, in this order.
///
/// # Errors
/// Those of the reads of these programs.
pub fn parent_target<W: SwapFile>(
    live: &mut Live,
    swap: &mut W,
    this: ObjId,
    part: u16,
    code: &SharedProgram,
    parent: u32,
    slot: u32,
) -> Result<Option<Callee>, EnterFault>
    requires closed { IsClosed live.old }
    requires there { IsSome (row_at live.old.objects this.0) }
    ensures brings { Brings (W.content swap.old) (W.content swap.new) (W.last swap.new) (W.read_faults swap.old) (W.read_faults swap.new) (W.write_faults swap.old) (W.write_faults swap.new)
        (W.is_truthful swap.old) (W.is_truthful swap.new) (W.is_honest swap.old) (W.is_honest swap.new) live.old live.new result }
    ensures closed { IsClosed live.new }
    ensures there { IfOk result (λ o. IfSome o (IsCalleeThere live.new.versions)) }
    ensures stands { W.is_truthful swap.new → (programs : List Raw) (w : World) → Stands (W.content swap.old) programs live.old w → Stands (W.content swap.new) programs live.new w }
    ensures found { W.is_truthful swap.new → (programs : List Raw) (w : World) (name : List ℕ) → IsWorldOf (W.content swap.old) programs live.old w → (who : IsCaller programs w this part code.now)
        → parent_row (code_of code.now (rows_of (tables (parents_of who.place.tree)))) parent slot ≡ Some name
        → IfOk result (λ o. IsAnswer programs w this o (of_parent_from (part_at (heritage_of w this) part) parent name)) }
{
    let version = version_of(live, this);
    match bring_program(live, swap, version) {
        Ok(()) => match parent_number(&live.versions, code.raw(), parent) {
            Some(number) => {
                parent_brought(
                    live,
                    swap,
                    this,
                    version,
                    part,
                    code.raw(),
                    parent,
                    number,
                    slot,
                )
            }
            None => Ok(None),
        },
        Err(e) => Err(e),
    }
}

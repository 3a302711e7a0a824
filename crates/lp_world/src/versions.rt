//! Versions of programs, by their numbers.
ghost use Rattle.std.specs.Prelude.{◌≡◌, ◌∷◌, ◌++◌, [], IfOk, IsSome, List, None, OnErr, OnOk, Option, Some, length, slice_set, ℕ};
ghost use Rattle.std.specs.Option.{option_copied};
ghost use Rattle.lp_world.specs.Additions.{IsVersionAdded, IsVersionOf};
ghost use Rattle.lp_world.specs.Rows.{row_at, version_aged, version_path, version_state, version_with_state};
ghost use Rattle.lp_world.specs.Stands.{IsOutline};
ghost use Rattle.lp_world.specs.declared.versions.Version.{Version as V};
ghost use Rattle.lp_world.specs.Targets.{HasAnswer, HasAnswerIn, HasSameAnswers, HasSameAnswersIn};

use crate::shared::SharedProgram;
use crate::targets::{FunAt, Targets};
use lp_code::listed::Listed;
use lp_code::program::RawProgram;
use lp_swapper::Ticket;
use lp_values::id::ProgId;
use lp_values::text::Text;
use std::alloc::{AllocError, Global};
use std::marker::Model;
use std::mem;

/// A program in memory, or the ticket of its record.
#[derive(Drop)]
pub enum ProgramState {
    /// The program.
    Resident(SharedProgram),
    /// Its record in the swap file.
    Swapped(Ticket),
}

/// What stays in memory of a program that is out.
#[derive(Drop)]
pub struct Outline {
    /// The versions of its parents, in the order of the inherits.
    pub parents: Listed<ProgId>,
    /// How many parts it has.
    pub parts: u32,
    /// How many variables an object of it has.
    pub variables: u32,
    /// How many functions it has.
    pub functions: u32,
    /// How many slots its own table has.
    pub slots: u32,
}

/// A version of a program.
#[derive(Drop)]
pub struct Version {
    /// The path of the file that it was compiled from.
    pub path: Text,
    /// When it was made, or the latest entry of a function counted for it.
    pub latest: u64,
    /// What stays in memory.
    pub outline: Outline,
    /// The program.
    pub state: ProgramState,
    /// Where internal calls lead, as far as that was found.
    pub targets: Targets,
}

/// The versions by their numbers. One that is not kept any more is none.
#[derive(Drop)]
pub struct VersionTable {
    rows: Vec<Option<Version>>,
}

impl Model for VersionTable {
    ghost use Rattle.std.specs.Prelude.{List, Option};
    ghost use Rattle.lp_world.specs.declared.versions.Version.{Version};

    ghost Value = { List (Option Version) };

    ghost view = { λ t. t.rows.items };
}

/// Puts another state in a version that is there, and gives the one it had.
fn replace_state_of(row: &mut Option<Version>, state: ProgramState) -> ProgramState
    requires { IsSome row.old }
    ensures before { version_state row.old ≡ Some result }
    ensures after { row.new ≡ version_with_state row.old state }
{
    match row {
        Some(v) => mem::replace(&mut v.state, state),
        None => unreachable!(),
    }
}

/// Notes the moment of the latest entry, in a row that is there.
fn age_row(row: &mut Option<Version>, latest: u64)
    ensures { row.new ≡ version_aged latest row.old }
{
    if let Some(v) = row {
        v.latest = latest;
    }
}

/// Keeps where an internal call of a slot leads, in a version that is there.
fn keep_in(
    row: &mut Option<Version>,
    alloc: Global,
    part: u16,
    slot: u16,
    answer: Option<FunAt>,
) -> Result<(), AllocError>
    requires { IsSome row.old }
    ensures ok { OnOk result (HasAnswerIn row.old row.new part slot answer) }
    ensures err { OnErr result (HasSameAnswersIn row.old row.new) }
{
    match row {
        Some(v) => v.targets.keep(alloc, part, slot, answer),
        None => unreachable!(),
    }
}

/// A length as a number of an outline. The answer is want of memory too where it is 2^32 or more.
fn count(n: usize) -> Result<u32, AllocError>
    ensures { IfOk result (λ k. k ≡ n) }
{
    if n > 4294967295 {
        return Err(AllocError);
    }
    Ok(n as u32)
}

/// What stays in memory of a program.
fn outline_of(alloc: Global, raw: &RawProgram) -> Result<Outline, AllocError>
    ensures { IfOk result (λ o. IsOutline raw.now o) }
{
    Ok(Outline {
        parents: Listed::from_vec(Vec::from_slice(alloc, raw.tables.parents.as_slice())?),
        parts: count(raw.tables.parts.as_slice().len())?,
        variables: count(raw.tables.vars.as_slice().len())?,
        functions: count(raw.funs.as_slice().len())?,
        slots: count(raw.tables.slots.as_slice().len())?,
    })
}

/// A version of a program in memory that was compiled from the file with a path.
fn version_of(
    alloc: Global,
    latest: u64,
    path: Text,
    program: SharedProgram,
) -> Result<Version, AllocError>
    ensures { IfOk result (λ v. IsVersionOf latest path program v) }
{
    let outline = outline_of(alloc, program.raw())?;
    Ok(Version {
        path,
        latest,
        outline,
        state: ProgramState::Resident(program),
        targets: Targets::new(alloc),
    })
}

impl VersionTable {
    /// No versions. Takes no memory.
    pub fn new(alloc: Global) -> VersionTable
        ensures { result ≡ [] }
    {
        VersionTable {
            rows: Vec::new(alloc),
        }
    }

    /// How many numbers of versions were given out. Takes no memory.
    pub fn len(&self) -> usize
        ensures { result ≡ length self.now }
    {
        self.rows.len()
    }

    /// The version with a number, where the state has it. Takes no memory.
    pub fn get(&self, p: ProgId) -> Option<&Version>
        ensures { option_copied result ≡ row_at self.now p.0 }
    {
        if self.rows.len() <= p.0 as usize {
            return None;
        }
        match &self.rows[p.0 as usize] {
            Some(v) => Some(v),
            None => None,
        }
    }

    /// The path of the file that a version was compiled from, where the state has the version, also while its program
    /// is out. Takes no memory.
    pub fn path(&self, p: ProgId) -> Option<&Text>
        ensures { option_copied result ≡ version_path (row_at self.now p.0) }
    {
        match self.get(p) {
            Some(v) => Some(&v.path),
            None => None,
        }
    }

    /// Puts a program, or a ticket, in the place of what a version has, and gives that. Takes no memory.
    pub fn replace_state(&mut self, p: ProgId, state: ProgramState) -> ProgramState
        requires { IsSome (row_at self.old p.0) }
        ensures before { version_state (row_at self.old p.0) ≡ Some result }
        ensures after { self.new ≡ slice_set self.old p.0 (version_with_state (row_at self.old p.0) state) }
    {
        replace_state_of(&mut self.rows[p.0 as usize], state)
    }

    /// Notes that a function in the text of a version, or of one of its objects, was entered at a moment, in seconds.
    /// Nothing else changes. Takes no memory.
    pub fn note_entry(&mut self, p: ProgId, latest: u64)
        requires { IsSome (row_at self.old p.0) }
        ensures { self.new ≡ slice_set self.old p.0 (version_aged latest (row_at self.old p.0)) }
    {
        age_row(&mut self.rows[p.0 as usize], latest);
    }

    /// Keeps where an internal call of a slot of a part of a version leads. After want of memory the same is
    /// kept as before.
    pub fn keep_target(
        &mut self,
        alloc: Global,
        p: ProgId,
        part: u16,
        slot: u16,
        answer: Option<FunAt>,
    ) -> Result<(), AllocError>
        requires { IsSome (row_at self.old p.0) }
        ensures ok { OnOk result (HasAnswer self.old self.new p.0 part slot answer) }
        ensures err { OnErr result (HasSameAnswers self.old self.new p.0) }
    {
        keep_in(&mut self.rows[p.0 as usize], alloc, part, slot, answer)
    }

    /// A version of a program in memory that was compiled from the file with a path comes behind the others and has
    /// the next number. Its outline is that of the program, and no answer of an internal call is kept yet. `latest`
    /// is a clock, in seconds. After want of memory all is as it was; it also comes where a table of the program has
    /// 2^32 rows.
    pub fn add(
        &mut self,
        alloc: Global,
        latest: u64,
        path: Text,
        program: SharedProgram,
    ) -> Result<ProgId, AllocError>
        ensures number { IfOk result (λ p. p.0 ≡ length self.old) }
        ensures ok { OnOk result (IsVersionAdded self.old self.new latest path program) }
        ensures err { OnErr result (self.new ≡ self.old) }
    {
        let number = self.rows.len() as u64;
        let version = version_of(alloc, latest, path, program)?;
        self.rows.push(Some(version))?;
        Ok(ProgId(number))
    }

    /// Nothing stays of a version with this number, where one was made. Its number is not given out again. Takes no memory.
    pub fn forget(&mut self, p: ProgId)
        ensures { self.new ≡ slice_set self.old p.0 None }
    {
        if (p.0 as usize) < self.rows.len() {
            self.rows[p.0 as usize] = None;
        }
    }

    /// The version that was added last is gone, and its number is the next one again. Takes no memory.
    pub fn take_back(&mut self)
        ensures { (rows : List (Option V)) (row : Option V) → self.old ≡ rows ++ row ∷ [] → self.new ≡ rows }
    {
        self.rows.pop();
    }
}

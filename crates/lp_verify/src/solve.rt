//! All that paths teach, and the least instruction that fails.
ghost use Rattle.std.specs.Prelude.{◌≡◌, ◌<◌, ◌^◌, ◌+◌, ◌∷◌, [], IfOk, None, OnOk, Some, length, replicate, slice_get};
ghost use Rattle.lp_code.specs.Owners.{AreRows};
ghost use Rattle.lp_code.specs.Programs.{AreFunctions};
ghost use Rattle.lp_verify.specs.Fails.{IsLeast, bad};
ghost use Rattle.lp_verify.specs.Flow.{start_ways, starts, ways};
ghost use Rattle.lp_verify.specs.Paths.{at as known_at};
ghost use Rattle.lp_verify.specs.Walks.{IsIn, IsNew, IsStarted, IsWalk, Moves, facts, known_of};
ghost use Rattle.lp_verify.specs.Work.{IsAll};

use crate::body::Body;
use crate::effect::describe;
use crate::flow::{goes_on, holds};
use crate::openings::Openings;
use crate::seen::{Form, Seen};
use crate::stand::stands;
use crate::walk::Walk;
use lp_instr::instr::Instr;
use std::alloc::{AllocError, Global};

/// Nothing is known of so many places.
fn unseen(alloc: Global, places: usize) -> Result<Vec<Seen>, AllocError>
    ensures { IfOk result (λ r. r.items ≡ replicate places Seen.Never) }
{
    let mut seen = Vec::new(alloc);
    for _i in 0..places {
        seen.push(Seen::Never)?;
    }
    Ok(seen)
}

/// The instruction at a place.
fn instr_at(body: &Body, at: usize) -> Instr
    requires { at < length body.now.instrs }
    ensures is { slice_get body.now.instrs at ≡ Some result }
    ensures small { at + 1 < 2 ^ 64 }
{
    let instrs = body.raw().instrs.as_slice();
    let _count = instrs.len();
    instrs[at]
}

impl Walk {
    fn new(alloc: Global, places: usize) -> Result<Walk, AllocError>
        ensures { IfOk result (λ w. IsNew places w) }
    {
        let seen = unseen(alloc, places)?;
        Ok(Walk {
            openings: Openings::new(alloc),
            seen,
            todo: Vec::new(alloc),
        })
    }

    /// A path begins.
    fn begin(&mut self, from: usize) -> Result<(), AllocError>
        requires { IsStarted self.old }
        ensures { OnOk result (Moves (start_ways (length self.old.seen.items) from) self.old self.new) }
    {
        if from < self.seen.len() {
            self.learn(from, Seen::Once(Form { height: 0, open: 0 }))?;
        }
        Ok(())
    }

    /// What is known of a place is carried to those that its instruction leads to.
    fn look(&mut self, body: &Body, at: usize) -> Result<(), AllocError>
        requires inside { at < length body.now.instrs }
        requires walk { IsWalk self.old }
        requires size { length self.old.seen.items ≡ length body.now.instrs }
        ensures { OnOk result (Moves (ways body.now at (known_at (facts self.old) at)) self.old self.new) }
    {
        let known = self.seen[at];
        let instr = instr_at(body, at);
        if goes_on(body, &self.openings, at, known, instr) {
            self.lead_all(body, at, known, describe(instr))?;
        }
        Ok(())
    }
}

/// Whether an instruction fails, by what is known of its place.
fn is_bad(body: &Body, openings: &Openings, at: usize, known: Seen) -> bool
    requires inside { at < length body.now.instrs }
    requires known_in { IsIn openings.now known }
    ensures { result ≡ bad body.now at (known_of openings.now known) }
{
    let instr = instr_at(body, at);
    match known {
        Seen::Never => !stands(body, at, instr),
        Seen::Once(form) => !holds(body, openings, at, form, instr),
        Seen::Mixed => true,
    }
}

/// All that paths teach.
fn solve(alloc: Global, body: &Body) -> Result<Walk, AllocError>
    ensures all { IfOk result (λ w. IsAll (ways body.now) (starts body.now) (facts w)) }
    ensures walk { IfOk result (λ w. IsWalk w) }
    ensures size { IfOk result (λ w. length w.seen.items ≡ length body.now.instrs) }
{
    let mut walk = Walk::new(alloc, body.places())?;
    for row in body.raw().funs.as_slice() {
        walk.begin(row.from as usize)?;
    }
    while let Some(at) = walk.todo.pop() {
        walk.look(body, at)?;
    }
    Ok(walk)
}

/// The least instruction that fails, or None where none does.
pub(crate) fn first_fault(alloc: Global, body: &Body) -> Result<Option<usize>, AllocError>
    ensures least { IfOk result (λ r. IsLeast body.now r) }
    ensures functions { IfOk result (λ r. r ≡ None → AreRows (length body.now.instrs) body.now.funs → AreFunctions body.now) }
{
    let walk = solve(alloc, body)?;
    for at in 0..body.places() {
        if is_bad(body, &walk.openings, at, walk.seen[at]) {
            return Ok(Some(at));
        }
    }
    Ok(None)
}

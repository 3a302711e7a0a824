//! The verdicts that jobs tell.
ghost use Rattle.std.specs.Prelude.{◌≡◌, ◌⊎◌, ◌+◌, ◌-◌, ◌*◌, ◌<◌, ◌≤◌, ◌^◌, ◌++◌, [], List, Option, Some, IfOk, OnOk, length, replicate, take, None};
ghost use Rattle.lp_jobs.specs.Jobs.{AreTrue, Job, TellsTruth, after_starting, jobs_from, left};

use crate::handing::hand;
use crate::hearing::hear_next;
use crate::spawner::Spawner;
use lp_suite::Entry;
use lp_verdicts::Verdict;
use std::alloc::{AllocError, Global};

/// How far the tests of a mudlib have come that are handed over.
#[derive(Drop)]
pub(crate) struct Board {
    /// The verdicts that came back, by place.
    pub(crate) verdicts: Vec<Option<Verdict>>,
    /// The numbers of those that run.
    pub(crate) running: Vec<u32>,
    /// How many places were passed.
    pub(crate) handed: usize,
}

// So many places without a verdict.
fn blank(alloc: Global, count: usize) -> Result<Vec<Option<Verdict>>, AllocError>
    ensures { IfOk result (λ v. v.items ≡ replicate count None) }
{
    let mut verdicts = Vec::new(alloc);
    for _place in 0..count {
        verdicts.push(None)?;
    }
    Ok(verdicts)
}

// A job more runs.
fn add_running(running: &mut Vec<u32>, job: u32) -> Result<(), AllocError>
    ensures { OnOk result (length running.new.items ≡ length running.old.items + 1) }
{
    running.push(job)?;
    Ok(())
}

// The next place is passed: where it is a test, that is handed over.
fn hand_next<P: Spawner>(
    alloc: Global,
    entries: &[Entry],
    input: &[u8],
    spawn: &mut P,
    board: &mut Board,
) -> Result<(), AllocError>
    requires place { board.old.handed < length entries.now }
    requires numbers { length entries.now < 2 ^ 32 }
    ensures handed { OnOk result (board.new.handed ≡ board.old.handed + 1) }
    ensures verdicts { OnOk result (board.new.verdicts.items ≡ board.old.verdicts.items) }
    ensures most { OnOk result (length board.new.running.items ≤ length board.old.running.items + 1) }
    ensures fewer { OnOk result (left (length entries.now) board.new.handed (length board.new.running.items) < left (length entries.now) board.old.handed (length board.old.running.items)) }
    ensures started { (told : Option (List Job)) → P.started spawn.old ≡ after_starting told (jobs_from 0 (take board.old.handed entries.now) input.now)
        → OnOk result (P.started spawn.new ≡ after_starting told (jobs_from 0 (take board.new.handed entries.now) input.now)) }
    ensures truth { P.is_true spawn.new → P.is_true spawn.old }
{
    let job = board.handed as u32;
    let runs = hand(alloc, spawn, job, &entries[board.handed], input)?;
    board.handed += 1;
    if runs {
        return add_running(&mut board.running, job);
    }
    Ok(())
}

// A place is passed where fewer run than may, or else a job is heard of.
fn step<P: Spawner>(
    alloc: Global,
    entries: &[Entry],
    most: usize,
    input: &[u8],
    spawn: &mut P,
    board: &mut Board,
) -> Result<(), AllocError>
    requires some { 0 < most }
    requires numbers { length entries.now < 2 ^ 32 }
    requires more { (board.old.handed < length entries.now) ⊎ (0 < length board.old.running.items) }
    ensures within { board.old.handed ≤ length entries.now → OnOk result (board.new.handed ≤ length entries.now) }
    // No more run than may.
    ensures most { length board.old.running.items ≤ most → OnOk result (length board.new.running.items ≤ most) }
    ensures fewer { OnOk result (left (length entries.now) board.new.handed (length board.new.running.items) < left (length entries.now) board.old.handed (length board.old.running.items)) }
    ensures started { (told : Option (List Job)) → P.started spawn.old ≡ after_starting told (jobs_from 0 (take board.old.handed entries.now) input.now)
        → OnOk result (P.started spawn.new ≡ after_starting told (jobs_from 0 (take board.new.handed entries.now) input.now)) }
    ensures truth { P.is_true spawn.new → P.is_true spawn.old }
    ensures holds { (jobs : List Job) → P.started spawn.old ≡ Some (jobs ++ jobs_from 0 (take board.old.handed entries.now) input.now) → P.is_true spawn.new
        → AreTrue entries.now input.now board.old.verdicts.items → OnOk result (AreTrue entries.now input.now board.new.verdicts.items) }
{
    if board.handed < entries.len() && board.running.len() < most {
        return hand_next(alloc, entries, input, spawn, board);
    }
    hear_next(alloc, entries, spawn, board)
}

// All places are passed, and each job is heard of.
fn steps<P: Spawner>(
    alloc: Global,
    entries: &[Entry],
    most: usize,
    input: &[u8],
    spawn: &mut P,
    board: &mut Board,
) -> Result<(), AllocError>
    requires some { 0 < most }
    requires numbers { length entries.now < 2 ^ 32 }
    requires first { board.old.handed ≡ 0 }
    ensures started { OnOk result (P.started spawn.new ≡ after_starting (P.started spawn.old) (jobs_from 0 entries.now input.now)) }
    ensures truth { P.is_true spawn.new → P.is_true spawn.old }
    ensures holds { TellsTruth (P.started spawn.old) (P.is_true spawn.new) → AreTrue entries.now input.now board.old.verdicts.items → OnOk result (AreTrue entries.now input.now board.new.verdicts.items) }
{
    'jobs: while board.handed < entries.len() || !board.running.is_empty() {
        step(alloc, entries, most, input, spawn, board)?;
    }
    Ok(())
}

/// The tests of a mudlib are handed to a spawner, each once, in order, and at most so many at a time, with the place among what is told of
/// the mudlib as their numbers. Gives the verdicts that came back, by place.
///
/// There is no verdict where a test could not be handed over; where its child ended with another status than 0 or 7, or wrote anything but a
/// line of the test with a verdict; and for each test that was running when the spawner failed or named a job that was not running.
pub fn spawned<P: Spawner>(
    alloc: Global,
    entries: &[Entry],
    most: usize,
    input: &[u8],
    spawn: &mut P,
) -> Result<Vec<Option<Verdict>>, AllocError>
    requires some { 0 < most }
    requires numbers { length entries.now < 2 ^ 32 }
    ensures started { OnOk result (P.started spawn.new ≡ after_starting (P.started spawn.old) (jobs_from 0 entries.now input.now)) }
    ensures truth { P.is_true spawn.new → P.is_true spawn.old }
    ensures holds { TellsTruth (P.started spawn.old) (P.is_true spawn.new) → IfOk result (λ v. AreTrue entries.now input.now v.items) }
{
    let mut board = Board {
        verdicts: blank(alloc, entries.len())?,
        running: Vec::new(alloc),
        handed: 0,
    };
    match steps(alloc, entries, most, input, spawn, &mut board) {
        Ok(()) => {
            let Board {
                verdicts,
                running,
                handed: _,
            } = board;
            drop(running);
            Ok(verdicts)
        }
        Err(e) => {
            drop(board);
            Err(e)
        }
    }
}

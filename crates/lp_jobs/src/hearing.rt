//! What came of a job.
ghost use Rattle.std.specs.Prelude.{◌≡◌, ◌<◌, ℕ, List, IfOk, IfSome, OnOk, Option, length, slice_get, Some};
ghost use Rattle.std.specs.Bool.{OnTrue};
ghost use Rattle.lp_jobs.specs.Jobs.{AreTrue, HandsOver, IsTrueAnswer, IsVerdictIn, Job, is_carried_out as carried_out};
ghost use Rattle.lp_suite.specs.declared.suite.Entry.{Entry as E};

use crate::board::Board;
use crate::spawner::{Ended, SpawnError, Spawner};
use lp_suite::Entry;
use lp_verdicts::{Verdict, read_verdict};
use std::alloc::{AllocError, Global};

// Takes a job out of those that run, where it is one of them.
fn take_out(running: &mut Vec<u32>, job: u32) -> bool
    ensures { OnTrue result (length running.new.items < length running.old.items) }
{
    match running.iter().position(|one| *one == job) {
        Some(place) => {
            running.remove(place);
            true
        }
        None => false,
    }
}

// Whether a child that ends so has carried out its test.
fn is_carried_out(status: u8) -> bool
    ensures { result ≡ carried_out status }
{
    status == 0 || status == 7
}

// The verdict that an answer tells of the test of its number.
fn judged(alloc: Global, entries: &[Entry], ended: &Ended) -> Result<Option<Verdict>, AllocError>
    ensures { IfOk result (λ r. IfSome r (IsVerdictIn entries.now ended.now)) }
{
    if !is_carried_out(ended.status) {
        return Ok(None);
    }
    match entries.get(ended.job as usize) {
        Some(Entry::Test(path, fun)) => {
            read_verdict(alloc, ended.out.as_slice(), path.as_str(), fun.as_str())
        }
        _ => Ok(None),
    }
}

// Notes the verdict of the test of a number.
fn note(verdicts: &mut Vec<Option<Verdict>>, job: u32, verdict: Verdict)
    ensures same { (i : ℕ) → (i ≡ job → ⊥) → slice_get verdicts.new.items i ≡ slice_get verdicts.old.items i }
    ensures noted { (v : Option Verdict) → slice_get verdicts.new.items job ≡ Some v → v ≡ Some verdict }
{
    let place = job as usize;
    if place < verdicts.len() {
        verdicts[place] = Some(verdict);
    }
}

// A job ended, and no other: its verdict is noted, where it tells one.
fn note_ended(
    alloc: Global,
    entries: &[Entry],
    verdicts: &mut Vec<Option<Verdict>>,
    ended: &Ended,
) -> Result<(), AllocError>
    ensures { (jobs : List Job) (input : List ℕ) → HandsOver jobs entries.now ended.now.job input → IsTrueAnswer jobs ended.now → AreTrue entries.now input verdicts.old.items → OnOk result (AreTrue entries.now input verdicts.new.items) }
{
    match judged(alloc, entries, ended)? {
        Some(verdict) => {
            note(verdicts, ended.job, verdict);
            Ok(())
        }
        None => Ok(()),
    }
}

// A job is told to have ended. One that does not run, of those that were handed over, makes all of them end without a verdict.
fn hear(
    alloc: Global,
    entries: &[Entry],
    board: &mut Board,
    ended: &Ended,
) -> Result<(), AllocError>
    requires { 0 < length board.old.running.items }
    ensures fewer { OnOk result (length board.new.running.items < length board.old.running.items) }
    ensures handed { board.new.handed ≡ board.old.handed }
    ensures holds { (jobs : List Job) (input : List ℕ) → (ended.now.job < board.old.handed → HandsOver jobs entries.now ended.now.job input) → IsTrueAnswer jobs ended.now
        → AreTrue entries.now input board.old.verdicts.items → OnOk result (AreTrue entries.now input board.new.verdicts.items) }
{
    if (ended.job as usize) < board.handed && take_out(&mut board.running, ended.job) {
        return note_ended(alloc, entries, &mut board.verdicts, ended);
    }
    board.running.clear();
    Ok(())
}

/// Waits until a job ends, and notes the verdict that it tells. Where the spawner fails, or names a job that does not run, those that run
/// end without a verdict.
pub(crate) fn hear_next<P: Spawner>(
    alloc: Global,
    entries: &[Entry],
    spawn: &mut P,
    board: &mut Board,
) -> Result<(), AllocError>
    requires { 0 < length board.old.running.items }
    ensures fewer { OnOk result (length board.new.running.items < length board.old.running.items) }
    ensures handed { board.new.handed ≡ board.old.handed }
    ensures started { P.started spawn.new ≡ P.started spawn.old }
    ensures truth { P.is_true spawn.new → P.is_true spawn.old }
    ensures holds { (jobs : List Job) (input : List ℕ) → P.started spawn.old ≡ Some jobs → ((i : ℕ) → i < board.old.handed → HandsOver jobs entries.now i input) → P.is_true spawn.new
        → AreTrue entries.now input board.old.verdicts.items → OnOk result (AreTrue entries.now input board.new.verdicts.items) }
{
    match spawn.next() {
        Ok(ended) => hear(alloc, entries, board, &ended),
        Err(SpawnError::Failed) => {
            board.running.clear();
            Ok(())
        }
        Err(SpawnError::NoMemory) => Err(AllocError),
    }
}

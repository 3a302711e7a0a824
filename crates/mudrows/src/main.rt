//! `mudrows`: runs the cases of its input, each a script with the words of its run, and holds each to the status and the bytes that must
//! come of it.
//!
//! It writes how many passed, and before that what was wanted and what was given of each that did not. The status is 0 where all passed,
//! 1 where one did not, 2 where the input is no list of cases, and 3 where it cannot be read or memory runs out.
#![tactic(auto)]

mod cases;
mod shown;

use crate::cases::{Case, Swap, next};
use crate::shown::pair;
use lp_devices::{Unspelled, numbers};
use lp_harness::device::Troubles;
use lp_harness::running::{Devices, Outcome, ran};
use std::alloc::{AllocError, AllocFailed, Global};
use std::io::Read;
use std::process::ExitCode;

/// Why the cases are not run to their end.
#[derive(Drop)]
enum Stop {
    Malformed,
    NoMemory,
}

impl From<Unspelled> for Stop {
    fn from(fault: Unspelled) -> Stop {
        match fault {
            Unspelled::Malformed => Stop::Malformed,
            Unspelled::NoMemory => Stop::NoMemory,
        }
    }
}

impl From<AllocError> for Stop {
    fn from(_: AllocError) -> Stop {
        Stop::NoMemory
    }
}

impl<T: Drop> From<AllocFailed<T>> for Stop {
    fn from(_: AllocFailed<T>) -> Stop {
        Stop::NoMemory
    }
}

/// How many cases passed, and how many did not.
#[derive(Clone, Copy)]
struct Tally {
    passed: u64,
    failed: u64,
}

/// The words of a line, each behind a tab.
fn words(alloc: Global, line: &str) -> Result<Vec<&str>, AllocError> {
    let mut all = Vec::new(alloc);
    for word in line.split('\t').skip(1) {
        all.push(word)?;
    }
    Ok(all)
}

/// The number of a field, or 0.
fn number(field: &str) -> Result<u64, Stop> {
    if field == "-" {
        return Ok(0);
    }
    match field.parse::<u64>() {
        Ok(number) => Ok(number),
        Err(_) => Err(Stop::Malformed),
    }
}

/// Whether no call of the swap file goes wrong.
fn is_well(swap: Swap<'_>) -> bool {
    swap.reads == "-" && swap.lie == "-" && swap.writes == "-"
}

/// Runs a case over devices of which these calls of the input and the output fail.
fn ran_over(
    alloc: Global,
    case: &Case<'_>,
    reads: &[u64],
    writes: &[u64],
    swap: Option<Troubles<'_>>,
) -> Result<Outcome, Stop> {
    let words = words(alloc, case.words)?;
    let devices = Devices {
        reads,
        writes,
        takes: case.head.takes,
        swap,
        wire: case.outside.wire,
        folder: case.outside.folder,
    };
    Ok(ran(alloc, words.as_slice(), case.script, devices)?)
}

/// Runs a case over a swap file of which calls may go wrong.
fn ran_with(
    alloc: Global,
    case: &Case<'_>,
    reads: &[u64],
    writes: &[u64],
) -> Result<Outcome, Stop> {
    let swap = case.head.swap;
    if is_well(swap) {
        return ran_over(alloc, case, reads, writes, None);
    }
    let swap_reads = numbers(alloc, swap.reads)?;
    let swap_writes = numbers(alloc, swap.writes)?;
    let troubles = Troubles {
        reads: swap_reads.as_slice(),
        lie: number(swap.lie)?,
        writes: swap_writes.as_slice(),
    };
    ran_over(alloc, case, reads, writes, Some(troubles))
}

/// Runs a case.
fn outcome(alloc: Global, case: &Case<'_>) -> Result<Outcome, Stop> {
    let reads = numbers(alloc, case.head.reads)?;
    let writes = numbers(alloc, case.head.writes)?;
    ran_with(alloc, case, reads.as_slice(), writes.as_slice())
}

/// Whether what is told is what must be told, where something is said of it.
fn is_told(told: &str, wanted: Option<&[u8]>) -> bool {
    match wanted {
        None => true,
        Some(bytes) => told.as_bytes() == bytes,
    }
}

/// Whether a case ended as it must.
fn is_met(case: &Case<'_>, outcome: &Outcome) -> bool {
    outcome.status == case.head.status
        && outcome.written.as_slice() == case.written
        && outcome.taken.as_slice() == case.outside.taken
        && outcome.held.as_slice() == case.outside.held
        && is_told(outcome.told.as_str(), case.told)
}

/// Tells what was wanted of a kind, and what was given, where they differ.
fn tell_kind(rt: &HostRuntime, kind: &str, wanted: &[u8], given: &[u8]) -> Result<(), AllocError> {
    if wanted == given {
        return Ok(());
    }
    let (first, second) = pair(rt.alloc(), wanted, given)?;
    let _ = println!(rt; "  wanted to be {kind}:\n    {first}\n  {kind}:\n    {second}");
    Ok(())
}

/// Tells of a case that did not end as it must.
fn tell(rt: &HostRuntime, case: &Case<'_>, outcome: &Outcome) -> Result<(), AllocError> {
    let name = case.head.name;
    let status = case.head.status;
    let ended = outcome.status;
    let (first, second) = pair(rt.alloc(), case.written, outcome.written.as_slice())?;
    let _ = println!(rt; "FAILED {name}");
    let _ = println!(rt; "  wanted: status {status}\n    {first}");
    let _ = println!(rt; "  given: status {ended}\n    {second}");
    tell_kind(rt, "taken", case.outside.taken, outcome.taken.as_slice())?;
    tell_kind(rt, "held", case.outside.held, outcome.held.as_slice())?;
    match case.told {
        None => Ok(()),
        Some(told) => tell_kind(rt, "told", told, outcome.told.as_bytes()),
    }
}

/// Runs a case, and tells of it where it does not end as it must.
fn tried(rt: &HostRuntime, case: &Case<'_>, tally: Tally) -> Result<Tally, Stop> {
    let outcome = outcome(rt.alloc(), case)?;
    if is_met(case, &outcome) {
        return Ok(Tally {
            passed: tally.passed.saturating_add(1),
            failed: tally.failed,
        });
    }
    tell(rt, case, &outcome)?;
    Ok(Tally {
        passed: tally.passed,
        failed: tally.failed.saturating_add(1),
    })
}

/// Runs the cases, and gives how many passed.
fn ran_all(rt: &HostRuntime, bytes: &[u8]) -> Result<Tally, Stop> {
    let mut tally = Tally {
        passed: 0,
        failed: 0,
    };
    let mut rest = bytes;
    for _ in 0..bytes.len() {
        if rest.is_empty() {
            return Ok(tally);
        }
        match next(rest) {
            None => return Err(Stop::Malformed),
            Some((case, behind)) => {
                tally = tried(rt, &case, tally)?;
                rest = behind;
            }
        }
    }
    if rest.is_empty() {
        return Ok(tally);
    }
    Err(Stop::Malformed)
}

/// Standard input to its end.
fn input(rt: &HostRuntime) -> Option<Vec<u8>> {
    let mut bytes = Vec::new(rt.alloc());
    match rt.stdin().read_to_end(&mut bytes) {
        Ok(_) => Some(bytes),
        Err(_) => None,
    }
}

/// Tells how many cases passed. The status is that of the program.
fn concluded(rt: &HostRuntime, tally: Tally) -> u8 {
    let passed = tally.passed;
    let failed = tally.failed;
    let _ = println!(rt; "{passed} passed, {failed} failed");
    if failed == 0 { 0 } else { 1 }
}

/// Tells that the input is no list of cases.
fn malformed(rt: &HostRuntime) -> u8 {
    let _ = eprintln!(rt; "the input is no list of cases");
    2
}

/// Carries the program out, and gives its status.
fn status(rt: &HostRuntime) -> u8 {
    let Some(bytes) = input(rt) else {
        return 3;
    };
    match ran_all(rt, bytes.as_slice()) {
        Ok(tally) => concluded(rt, tally),
        Err(Stop::Malformed) => malformed(rt),
        Err(Stop::NoMemory) => 3,
    }
}

fn main(rt: HostRuntime) -> ExitCode {
    ExitCode::from(status(&rt))
}

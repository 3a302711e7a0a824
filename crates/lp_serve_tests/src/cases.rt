//! Runs, and what they come to.
use crate::hello::Hello;
use lp_events::octets::Octets;
use lp_folder::memory::MemFiles;
use lp_io::MemSink;
use lp_recording::Keeps;
use lp_serve::{Served, serve};
use lp_wire::{Happening, MemWire, WireCall};
use std::alloc::{AllocError, Global};

/// What comes from the wire.
#[derive(Clone, Copy)]
pub enum Step<'a> {
    Accept(u32),
    Piece(u32, &'a [u8]),
    Lost(u32),
    Tick(u64),
}

/// How a run is to end.
#[derive(Clone, Copy, PartialEq, Eq)]
pub enum Ends {
    Done,
    OutputFault,
    FilesFault,
    WireFault,
    TurnsSpent,
    Other,
}

/// A run: what comes, how often the driver greets, which polls and which calls of files fail, how much the sends take; and what it comes to:
/// its end, what is written, what is taken for the operator and for connections 1 and 2, and how often these three are closed.
#[derive(Clone, Copy)]
pub struct Case<'a> {
    pub steps: &'a [Step<'a>],
    pub much: u32,
    pub fail: &'a [u64],
    pub fail_files: &'a [u64],
    pub takes: &'a [usize],
    pub turns: u64,
    pub ends: Ends,
    pub record: &'a [u8],
    pub operator: &'a [u8],
    pub first: &'a [u8],
    pub second: &'a [u8],
    pub closed: [usize; 3],
}

fn happening_of(alloc: Global, step: Step<'_>) -> Result<Happening, AllocError> {
    match step {
        Step::Accept(k) => Ok(Happening::Accept(k)),
        Step::Piece(k, bytes) => Ok(Happening::Piece(k, Octets::from_slice(alloc, bytes)?)),
        Step::Lost(k) => Ok(Happening::Lost(k)),
        Step::Tick(moment) => Ok(Happening::Tick(moment)),
    }
}

fn happenings_of(alloc: Global, steps: &[Step<'_>]) -> Result<Vec<Happening>, AllocError> {
    let mut all = Vec::new(alloc);
    for step in steps {
        all.push(happening_of(alloc, *step)?)?;
    }
    Ok(all)
}

// Whether the bytes that were taken for a connection are these.
fn has_taken(calls: &[WireCall], k: u32, wanted: &[u8]) -> bool {
    let mut rest = wanted;
    for call in calls {
        if let WireCall::Took(j, bytes, _) = call {
            if *j == k {
                match rest.strip_prefix(bytes.as_slice()) {
                    Some(more) => rest = more,
                    None => return false,
                }
            }
        }
    }
    rest.is_empty()
}

// How often a connection was closed on the wire.
fn closes(calls: &[WireCall], k: u32) -> usize {
    let mut n = 0_usize;
    for call in calls {
        if let WireCall::Closed(j) = call {
            if *j == k {
                n = n.saturating_add(1);
            }
        }
    }
    n
}

fn ends_of(served: &Served) -> Ends {
    match served {
        Served::Done => Ends::Done,
        Served::OutputFault => Ends::OutputFault,
        Served::FilesFault { path: _ } => Ends::FilesFault,
        Served::WireFault => Ends::WireFault,
        Served::TurnsSpent => Ends::TurnsSpent,
        Served::Stopped(_) => Ends::Other,
        Served::NoMemory => Ends::Other,
    }
}

fn is_so(case: &Case<'_>, record: &[u8], calls: &[WireCall]) -> bool {
    record == case.record
        && has_taken(calls, 0, case.operator)
        && has_taken(calls, 1, case.first)
        && has_taken(calls, 2, case.second)
        && closes(calls, 0) == case.closed[0]
        && closes(calls, 1) == case.closed[1]
        && closes(calls, 2) == case.closed[2]
}

/// Serves over devices in memory, and tells whether the run comes to what it should.
pub fn holds(alloc: Global, case: &Case<'_>) -> Result<bool, AllocError> {
    let mut core = Hello::new(alloc, case.much);
    let mut files = MemFiles::new(alloc, Vec::from_slice(alloc, case.fail_files)?);
    files.put("/a.c", b"int x;\n")?;
    let happen = happenings_of(alloc, case.steps)?;
    let fail = Vec::from_slice(alloc, case.fail)?;
    let takes = Vec::from_slice(alloc, case.takes)?;
    let mut wire = MemWire::new(alloc, 0, happen, fail, takes);
    let mut out = MemSink::new(alloc, Vec::new(alloc), 1000000);
    let served = serve(
        alloc,
        &mut core,
        &mut (),
        &mut files,
        &mut wire,
        &mut out,
        Keeps::Record,
        case.turns,
    );
    let ends = ends_of(&served) == case.ends;
    match wire.calls() {
        Some(calls) => Ok(ends && is_so(case, out.as_slice(), calls)),
        None => Ok(false),
    }
}

//! Runs of the driver over devices in memory.
use crate::device::{TestSwap, Troubles};
use lp_asking::truth::Truthful;
use lp_devices::{TestFolder, TestWire, Unspelled, folder_of, wire_of};
use lp_io::{MemSink, MemSource, Octets};
use lp_memory_file::MemoryFile;
use lp_top::{Faults, Status, code, run};
use std::alloc::{AllocError, Global};

/// The devices of a run: the reads of the input and the writes of the output that fail, by their numbers from 1, the most bytes that a
/// write of the output takes, and the troubles of a swap file that has some. Without troubles it is the one with which the program runs.
/// The wire and the folder are spelled as `lp_devices` reads them.
#[derive(Clone, Copy)]
pub struct Devices<'a> {
    pub reads: &'a [u64],
    pub writes: &'a [u64],
    pub takes: usize,
    pub swap: Option<Troubles<'a>>,
    pub wire: &'a [u8],
    pub folder: &'a [u8],
}

/// How a run ended, what it wrote, what it tells of its end, what the wire took and closed, and what the folder holds at the end.
#[derive(Drop)]
pub struct Outcome {
    pub status: u8,
    pub written: Vec<u8>,
    pub told: String,
    pub taken: Vec<u8>,
    pub held: Vec<u8>,
}

/// Words that are owned.
fn owned(alloc: Global, words: &[&str]) -> Result<Vec<String>, AllocError> {
    let mut all = Vec::new(alloc);
    for word in words {
        all.push(String::from_str(alloc, word)?)?;
    }
    Ok(all)
}

/// A line for each fault, as a check writes it.
fn lines_of(alloc: Global, faults: &Faults) -> Result<String, AllocError> {
    let mut text = String::new(alloc);
    for fault in faults.as_slice() {
        let file = fault.file.as_str();
        let line = fault.line;
        let kind = fault.kind.text();
        let told = format!(in alloc; "{file} line {line}: {kind}\n")?;
        text.push_str(told.as_str())?;
    }
    Ok(text)
}

/// What the program tells of an end beside its status.
fn told_of(alloc: Global, status: &Status) -> Result<String, AllocError> {
    match status {
        Status::BadScript { at } => format!(in alloc; "at byte {at} of the script\n"),
        Status::NoMaster { faults } => lines_of(alloc, faults),
        Status::FilesFault { path } => format!(in alloc; "the files failed at {path}\n"),
        _ => Ok(String::new(alloc)),
    }
}

/// A run over a source, a sink, a folder, a swap file and a wire.
fn ran_over<W: Truthful>(
    alloc: Global,
    words: &[String],
    input: &mut MemSource,
    mut out: MemSink,
    folder: &mut TestFolder,
    swap: &mut W,
    wire: &mut TestWire,
) -> Result<Outcome, AllocError> {
    let status = run(alloc, words, input, &mut out, folder, swap, wire);
    Ok(Outcome {
        status: code(&status),
        written: out.as_slice().to_vec(alloc)?,
        told: told_of(alloc, &status)?,
        taken: wire.taken(alloc)?,
        held: folder.held(alloc)?,
    })
}

/// A run over a source, a sink, a folder and a wire, and the swap file that it is to have.
fn ran_with(
    alloc: Global,
    words: &[String],
    input: &mut MemSource,
    out: MemSink,
    folder: &mut TestFolder,
    wire: &mut TestWire,
    swap: Option<Troubles<'_>>,
) -> Result<Outcome, AllocError> {
    match swap {
        None => {
            let mut file = MemoryFile::new(alloc);
            ran_over(alloc, words, input, out, folder, &mut file, wire)
        }
        Some(troubles) => {
            let mut file = TestSwap::new(alloc, troubles)?;
            ran_over(alloc, words, input, out, folder, &mut file, wire)
        }
    }
}

/// A run over this input, a folder and a wire.
fn ran_between(
    alloc: Global,
    words: &[&str],
    script: &[u8],
    devices: Devices<'_>,
    folder: &mut TestFolder,
    wire: &mut TestWire,
) -> Result<Outcome, AllocError> {
    let all = owned(alloc, words)?;
    let bytes = Octets::from_vec(script.to_vec(alloc)?);
    let mut input = MemSource::new(bytes, devices.reads.to_vec(alloc)?);
    let out = MemSink::new(alloc, devices.writes.to_vec(alloc)?, devices.takes);
    ran_with(
        alloc,
        all.as_slice(),
        &mut input,
        out,
        folder,
        wire,
        devices.swap,
    )
}

/// A run over this input and a folder, and the wire that it is to have.
fn ran_beside(
    alloc: Global,
    words: &[&str],
    script: &[u8],
    devices: Devices<'_>,
    folder: &mut TestFolder,
) -> Result<Outcome, Unspelled> {
    let mut wire = wire_of(alloc, devices.wire)?;
    match ran_between(alloc, words, script, devices, folder, &mut wire) {
        Ok(outcome) => Ok(outcome),
        Err(_) => Err(Unspelled::NoMemory),
    }
}

/// A run with these words over this input. It is `Malformed` where the wire or the folder is not spelled as it should be.
pub fn ran(
    alloc: Global,
    words: &[&str],
    script: &[u8],
    devices: Devices<'_>,
) -> Result<Outcome, Unspelled> {
    let mut folder = folder_of(alloc, devices.folder)?;
    ran_beside(alloc, words, script, devices, &mut folder)
}

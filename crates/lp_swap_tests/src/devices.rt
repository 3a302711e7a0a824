use lp_swapfile::*;
use std::alloc::{AllocError, Global};
use std::fs::OpenOptions;
use std::test::Fail;

/// A call of a file, at a place, and what has to come of it.
#[derive(Clone, Copy)]
enum Step {
    /// Bytes are written.
    Writes(u64, &'static [u8]),
    /// A write fails.
    WriteFails(u64, &'static [u8]),
    /// These bytes are read.
    Reads(u64, &'static [u8]),
    /// A read of so many bytes, up to six, fails.
    ReadFails(u64, usize),
}

/// Read 2 and write 1 fail as they are told, and a read of places of which one was never written.
/// Read 4 tells the lie that byte 1 is flipped: `b` is 98, and 255 less that is 157.
static IN_MEMORY: [Step; 12] = [
    Step::WriteFails(0, b"xyz"),
    Step::Writes(2, b"abc"),
    Step::Reads(2, b"abc"),
    Step::ReadFails(2, 3),
    Step::ReadFails(1, 3),
    Step::Reads(2, &[97, 157, 99]),
    Step::Reads(2, b"abc"),
    Step::Writes(4, b"de"),
    Step::Reads(3, b"bde"),
    Step::ReadFails(4, 3),
    Step::ReadFails(u64::MAX, 3),
    Step::WriteFails(u64::MAX, b"ab"),
];

/// What was written stands there, and nothing behind it.
static ON_A_DISK: [Step; 5] = [
    Step::Writes(4, b"record"),
    Step::Writes(0, b"four"),
    Step::Reads(4, b"record"),
    Step::Reads(2, b"urreco"),
    Step::ReadFails(5, 6),
];

/// Whether a read gives these bytes, of which there are up to six.
fn reads<W: SwapFile>(file: &mut W, at: u64, bytes: &[u8]) -> bool {
    let mut into = *b"......";
    let room = &mut into[..bytes.len().min(6)];
    file.read_at(at, room).is_ok() && *room == *bytes
}

/// Whether a read of so many bytes, up to six, fails.
fn cannot_read<W: SwapFile>(file: &mut W, at: u64, count: usize) -> bool {
    let mut into = *b"......";
    file.read_at(at, &mut into[..count.min(6)]).is_err()
}

/// Whether that comes of a step.
fn holds<W: SwapFile>(file: &mut W, step: Step) -> bool {
    match step {
        Step::Writes(at, bytes) => file.write_at(at, bytes).is_ok(),
        Step::WriteFails(at, bytes) => file.write_at(at, bytes).is_err(),
        Step::Reads(at, bytes) => reads(file, at, bytes),
        Step::ReadFails(at, count) => cannot_read(file, at, count),
    }
}

/// The place of the first step that does not hold, if one does not.
fn first_wrong<W: SwapFile>(file: &mut W, steps: &[Step]) -> Option<usize> {
    for i in 0..steps.len() {
        if !holds(file, steps[i]) {
            return Some(i);
        }
    }
    None
}

/// A file in memory, of which calls with these numbers fail or lie.
pub fn memory(
    alloc: Global,
    reads: &[u64],
    writes: &[u64],
    lies: &[(u64, u64)],
) -> Result<MemSwap, AllocError> {
    let reads = Vec::from_slice(alloc, reads)?;
    let writes = Vec::from_slice(alloc, writes)?;
    let lies = Vec::from_slice(alloc, lies)?;
    Ok(MemSwap::new(alloc, reads, writes, lies))
}

/// Whether the calls of a file were counted so.
fn counts(file: &MemSwap, reads: u64, read_faults: u64, writes: u64, write_faults: u64) -> bool {
    file.reads() == reads
        && file.read_faults() == read_faults
        && file.writes() == writes
        && file.write_faults() == write_faults
}

fn first_wrong_in_memory(alloc: Global) -> Result<Option<usize>, AllocError> {
    let mut file = memory(alloc, &[2], &[1], &[(4, 1), (9, 0)])?;
    let found = first_wrong(&mut file, &IN_MEMORY);
    let is_counted = counts(&file, 8, 4, 4, 2);
    drop(file);
    match found {
        None if !is_counted => Ok(Some(IN_MEMORY.len())),
        other => Ok(other),
    }
}

#[test]
fn files_hold_what_was_written(rt: HostRuntime) -> Result<(), Fail> {
    assert_eq!(rt; first_wrong_in_memory(rt.alloc())?, None);
    let mut options = OpenOptions::new();
    options.read(true).write(true).create(true).truncate(true);
    let mut file = DiskSwap::new(options.open(&rt, "mud.swap")?);
    assert_eq!(rt; first_wrong(&mut file, &ON_A_DISK), None);
    Ok(())
}

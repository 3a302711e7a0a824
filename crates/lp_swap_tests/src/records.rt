use crate::devices::memory;
use lp_swapfile::*;
use lp_swapper::*;
use std::alloc::{AllocError, Global};
use std::test::Fail;

// So many bytes, of all kinds.
fn record(alloc: Global, len: usize) -> Result<Vec<u8>, AllocError> {
    let mut bytes = Vec::with_capacity(alloc, len)?;
    for i in 0..len {
        bytes.push((i % 251) as u8)?;
    }
    Ok(bytes)
}

fn ticket(answer: OutAnswer) -> Option<Ticket> {
    match answer {
        OutAnswer::Out(t) => Some(t),
        _ => None,
    }
}

// Whether it comes back as these bytes.
fn comes_back(swapper: &mut Swapper, swap: &mut MemSwap, t: &Ticket, bytes: &[u8]) -> bool {
    if !swapper.is_out(t) {
        return false;
    }
    match swapper.back(swap, t) {
        Ok(found) => found.as_slice() == bytes,
        Err(_) => false,
    }
}

// Puts bytes out, and asks where they went.
fn goes_out(
    swapper: &mut Swapper,
    swap: &mut MemSwap,
    bytes: &[u8],
) -> Result<Option<Ticket>, AllocError> {
    Ok(ticket(swapper.out(swap, bytes)?))
}

// Whether a look finds these bytes.
fn looks_like(swapper: &Swapper, swap: &mut MemSwap, t: &Ticket, bytes: &[u8]) -> bool {
    match swapper.look(swap, t) {
        Ok(found) => found.as_slice() == bytes,
        Err(_) => false,
    }
}

// Whether the ticket is for so many bytes at a place.
fn is_at(t: &Ticket, place: u64, len: u64) -> bool {
    t.place == place && t.len == len
}

// Two records go out, and come back in the same order; the room of the first is taken again.
fn goes_round(
    swapper: &mut Swapper,
    swap: &mut MemSwap,
    small: &[u8],
    large: &[u8],
) -> Result<bool, AllocError> {
    let Some(first) = goes_out(swapper, swap, small)? else {
        return Ok(false);
    };
    let Some(second) = goes_out(swapper, swap, large)? else {
        return Ok(false);
    };
    let out = is_at(&first, 0, 1024) && is_at(&second, 1024, 1048576);
    let seen = looks_like(swapper, swap, &second, large);
    let back = comes_back(swapper, swap, &first, small)
        && comes_back(swapper, swap, &second, large);
    Ok(out && seen && back && !swapper.is_out(&first))
}

fn go_round(alloc: Global, swapper: &mut Swapper, swap: &mut MemSwap) -> Result<bool, AllocError> {
    let small = record(alloc, 1024)?;
    let large = record(alloc, 1048576)?;
    let found = goes_round(swapper, swap, &small, &large)?;
    swapper.law();
    Ok(found)
}

// Whether a ticket is dropped, if it can be.
fn drops(swapper: &mut Swapper, t: &Ticket) -> bool {
    if !swapper.is_out(t) {
        return false;
    }
    swapper.drop_ticket(t);
    !swapper.is_out(t)
}

// The room of what is dropped is taken again.
fn drops_a_ticket(swapper: &mut Swapper, swap: &mut MemSwap) -> Result<bool, AllocError> {
    match goes_out(swapper, swap, b"abc")? {
        Some(t) => Ok(drops(swapper, &t) && stands_at(swapper, swap, b"de", 0)?),
        None => Ok(false),
    }
}

// Whether bytes go out to a place.
fn stands_at(
    swapper: &mut Swapper,
    swap: &mut MemSwap,
    bytes: &[u8],
    place: u64,
) -> Result<bool, AllocError> {
    match goes_out(swapper, swap, bytes)? {
        Some(t) => Ok(is_at(&t, place, bytes.len() as u64)),
        None => Ok(false),
    }
}

// The digest of the three bytes `abc`, as the standard of SHA-256 gives it.
static ABC: [u8; 32] = [
    0xba, 0x78, 0x16, 0xbf, 0x8f, 0x01, 0xcf, 0xea, 0x41, 0x41, 0x40, 0xde, 0x5d, 0xae, 0x22, 0x23,
    0xb0, 0x03, 0x61, 0xa3, 0x96, 0x17, 0x7a, 0x9c, 0xb4, 0x10, 0xff, 0x61, 0xf2, 0x00, 0x15, 0xad,
];

// Whether the ticket has this digest.
fn has_digest(t: &Ticket, digest: &[u8]) -> bool {
    t.digest.as_slice() == digest
}

fn has_the_digest(swapper: &mut Swapper, swap: &mut MemSwap) -> Result<bool, AllocError> {
    match goes_out(swapper, swap, b"abc")? {
        Some(t) => Ok(is_at(&t, 0, 3) && has_digest(&t, &ABC)),
        None => Ok(false),
    }
}

// Whether bytes are kept since the write failed.
fn is_kept(swapper: &mut Swapper, swap: &mut MemSwap, bytes: &[u8]) -> Result<bool, AllocError> {
    Ok(matches!(swapper.out(swap, bytes)?, OutAnswer::KeptFault))
}

// A write that fails keeps the bytes, and their room is free again.
fn keeps_the_bytes(swapper: &mut Swapper, swap: &mut MemSwap) -> Result<bool, AllocError> {
    Ok(is_kept(swapper, swap, b"abc")? && stands_at(swapper, swap, b"abc", 0)?)
}

// Whether a look is told that the read failed.
fn cannot_look(swapper: &Swapper, swap: &mut MemSwap, t: &Ticket) -> bool {
    matches!(swapper.look(swap, t), Err(BackFault::ReadFault))
}

// Whether a look shows that these bytes stand there in place of what went out.
fn looks_changed(swapper: &Swapper, swap: &mut MemSwap, t: &Ticket, bytes: &[u8]) -> bool {
    match swapper.look(swap, t) {
        Err(BackFault::Changed { found }) => found.as_slice() == bytes,
        _ => false,
    }
}

// Read 1 fails, read 2 lies, and read 3 gives what went out; the room is given back by that alone.
fn shows_what_it_found(swapper: &mut Swapper, swap: &mut MemSwap) -> Result<bool, AllocError> {
    match goes_out(swapper, swap, b"abc")? {
        Some(t) => Ok(
            cannot_look(swapper, swap, &t)
                && looks_changed(swapper, swap, &t, &[158, 98, 99])
                && comes_back(swapper, swap, &t, b"abc")
                && !swapper.is_out(&t),
        ),
        None => Ok(false),
    }
}

#[derive(Clone, Copy)]
enum Play {
    Round,
    Dropped,
    Digest,
    Kept,
    Shown,
}

fn plays(
    alloc: Global,
    swapper: &mut Swapper,
    swap: &mut MemSwap,
    play: Play,
) -> Result<bool, AllocError> {
    match play {
        Play::Round => go_round(alloc, swapper, swap),
        Play::Dropped => drops_a_ticket(swapper, swap),
        Play::Digest => has_the_digest(swapper, swap),
        Play::Kept => keeps_the_bytes(swapper, swap),
        Play::Shown => shows_what_it_found(swapper, swap),
    }
}

// Plays, and the numbers of the reads and writes that fail, and of the reads that lie.
type Row = (Play, &'static [u64], &'static [u64], &'static [(u64, u64)]);

static ROWS: [Row; 5] = [
    (Play::Round, &[], &[], &[]),
    (Play::Dropped, &[], &[], &[]),
    (Play::Digest, &[], &[], &[]),
    (Play::Kept, &[], &[1], &[]),
    (Play::Shown, &[1], &[], &[(2, 0)]),
];

fn holds(alloc: Global, row: Row) -> Result<bool, AllocError> {
    let mut swap = memory(alloc, row.1, row.2, row.3)?;
    let mut swapper = Swapper::new(alloc);
    let found = plays(alloc, &mut swapper, &mut swap, row.0);
    drop(swapper);
    drop(swap);
    found
}

#[test]
fn records_go_out_and_come_back(rt: HostRuntime) -> Result<(), Fail> {
    for i in 0..ROWS.len() {
        assert!(rt; holds(rt.alloc(), ROWS[i])?, "{i}");
    }
    Ok(())
}

use crate::state::{NO_TROUBLE, Trouble, swap_file};
use lp_residence::answers::{EnterFault, SwapCause};
use lp_residence::owner::Owner;
use lp_residence::reading::look_at;
use lp_swapfile::MemSwap;
use lp_swapper::{OutAnswer, Swapper, Ticket};
use lp_values::id::ProgId;
use std::alloc::{AllocError, Global};
use std::test::Fail;

const P: Owner = Owner::Program(ProgId(2));

/// What comes of a look, a write or a read.
#[derive(Clone, Copy, PartialEq, Eq)]
enum Outcome {
    /// What was written.
    Bytes,
    /// The read failed.
    Failed,
    /// A lie about the first byte was told: `a` is 97, and 255 less that is 158.
    Lie,
    /// Something else.
    Other,
}

/// What an answer is.
fn outcome_of(fault: &EnterFault) -> Outcome {
    match fault {
        EnterFault::Swap(SwapCause::Read) => Outcome::Failed,
        EnterFault::Swap(SwapCause::Changed { owner, found }) => {
            if *owner == P && found.as_slice() == [158u8, 98, 99].as_slice() {
                Outcome::Lie
            } else {
                Outcome::Other
            }
        }
        EnterFault::NoMemory => Outcome::Other,
    }
}

/// What a look gives.
fn look(swapper: &Swapper, swap: &mut MemSwap, t: &Ticket) -> Outcome {
    match look_at(swapper, swap, P, t) {
        Ok(bytes) => {
            if bytes.as_slice() == b"abc".as_slice() {
                Outcome::Bytes
            } else {
                Outcome::Other
            }
        }
        Err(fault) => outcome_of(&fault),
    }
}

/// Whether of four looks the one with a number gives this, and each other one what was written.
fn looks(swapper: &Swapper, swap: &mut MemSwap, t: &Ticket, n: u64, other: Outcome) -> bool {
    for k in 1..5 {
        let wanted = if k == n { other } else { Outcome::Bytes };
        if look(swapper, swap, t) != wanted {
            return false;
        }
    }
    true
}

/// The same of what goes out first.
fn goes_and_looks(
    swapper: &mut Swapper,
    swap: &mut MemSwap,
    n: u64,
    other: Outcome,
) -> Result<bool, AllocError> {
    match swapper.out(swap, b"abc")? {
        OutAnswer::Out(t) => Ok(looks(swapper, swap, &t, n, other)),
        _ => Ok(false),
    }
}

/// Whether of four writes the one with a number fails.
fn is_kept(swapper: &mut Swapper, swap: &mut MemSwap, n: u64) -> Result<bool, AllocError> {
    for k in 1..5 {
        if (swapper.out(swap, b"abc")? == OutAnswer::KeptFault) != (k == n) {
            return Ok(false);
        }
    }
    Ok(true)
}

/// Whether the look with a number gives this where there is trouble, and so many reads failed.
fn looks_but_at(
    alloc: Global,
    trouble: &Trouble<'_>,
    n: u64,
    other: Outcome,
    faults: u64,
) -> Result<bool, AllocError> {
    let mut swap = swap_file(alloc, trouble)?;
    let mut swapper = Swapper::new(alloc);
    let found = goes_and_looks(&mut swapper, &mut swap, n, other);
    let failed = swap.read_faults();
    drop(swapper);
    drop(swap);
    Ok(found? && failed == faults)
}

/// Whether the look with a number fails, and each other one does not.
fn fails_at(alloc: Global, n: u64) -> Result<bool, AllocError> {
    let trouble = Trouble {
        reads: &[n],
        ..NO_TROUBLE
    };
    looks_but_at(alloc, &trouble, n, Outcome::Failed, 1)
}

/// Whether the look with a number is lied to, and each other one is not.
fn lies_at(alloc: Global, n: u64) -> Result<bool, AllocError> {
    let trouble = Trouble {
        lies: &[(n, 0)],
        ..NO_TROUBLE
    };
    looks_but_at(alloc, &trouble, n, Outcome::Lie, 0)
}

/// Whether the write with a number fails, and each other one does not.
fn is_kept_at(alloc: Global, n: u64) -> Result<bool, AllocError> {
    let trouble = Trouble {
        writes: &[n],
        ..NO_TROUBLE
    };
    let mut swap = swap_file(alloc, &trouble)?;
    let mut swapper = Swapper::new(alloc);
    let found = is_kept(&mut swapper, &mut swap, n);
    let failed = swap.write_faults();
    drop(swapper);
    drop(swap);
    Ok(found? && failed == 1)
}

#[test]
fn each_call_may_fail(rt: HostRuntime) -> Result<(), Fail> {
    for n in 1..5 {
        assert!(rt; fails_at(rt.alloc(), n)?, "read {n}");
        assert!(rt; lies_at(rt.alloc(), n)?, "lie {n}");
        assert!(rt; is_kept_at(rt.alloc(), n)?, "write {n}");
    }
    Ok(())
}

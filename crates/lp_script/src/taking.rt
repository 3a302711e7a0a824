//! Taking the input of a script.
ghost use Rattle.std.specs.Prelude.{◌≡◌, ℕ, ◌+◌, ◌≤◌, List, ◌<◌, Some, length, IfOk, OnOk, OnErr, take};
ghost use Rattle.std.specs.Result.{is_err};
ghost use Rattle.lp_io.specs.Counts.{Counts};
ghost use Rattle.lp_io.specs.Told.{before_giving, IsAtEnd};
ghost use Rattle.lp_script.specs.Taking.{is_broken};

use lp_io::{Failed, Source};
use std::alloc::{AllocError, AllocFailed};

/// The most bytes that a script may have.
pub(crate) const LONGEST: usize = 67_108_864;

/// The fewest bytes for which room is made at once.
const ROOM: usize = 65_536;

/// Why the input was not taken to its end.
#[derive(Clone, Copy, Debug, PartialEq, Eq)]
pub(crate) enum TakeFault {
    /// There is no memory for more. Another call goes on where this one stopped.
    NoMemory,
    /// A read failed.
    Broken,
}

// Reads behind what is filled, and returns how much more is filled.
fn read_behind<S: Source>(input: &mut S, into: &mut [u8], filled: usize) -> Result<usize, Failed>
    requires { filled ≤ length into.now }
    ensures len { length into.new ≡ length into.old }
    ensures within { IfOk result (λ n. filled + n ≤ length into.old) }
    ensures given { IfOk result (λ n. before_giving (take (filled + n) into.new) (S.remaining input.new) ≡ before_giving (take filled into.old) (S.remaining input.old)) }
    ensures end { IfOk result (λ n. n ≡ 0 → filled < length into.old → IsAtEnd (S.remaining input.new)) }
    ensures kept { OnErr result ((S.remaining input.new ≡ S.remaining input.old) × (take filled into.new ≡ take filled into.old)) }
    ensures faults { Counts (is_err result) (S.faults input.old) (S.faults input.new) }
    ensures no_fall { S.faults input.old ≤ S.faults input.new }
{
    input.read(&mut into[filled..])
}

// Makes room behind what is filled.
fn make_room(taken: &mut Vec<u8>) -> Result<(), AllocError>
    requires { length taken.now.items ≤ 67108864 }
    ensures ok { OnOk result ((take (length taken.old.items) taken.new.items ≡ taken.old.items) × (length taken.old.items < length taken.new.items) × (length taken.new.items ≤ 67108865)) }
    ensures err { OnErr result (taken.new.items ≡ taken.old.items) }
{
    let filled = taken.len();
    let room = (LONGEST + 1 - filled).min(filled.max(ROOM));
    taken.resize(filled + room, 0)
}

/// Takes the input behind what was taken before, to its end, or until one byte more than a script
/// may have was taken.
pub(crate) fn take_all<S: Source>(input: &mut S, taken: &mut Vec<u8>) -> Result<(), TakeFault>
    requires { length taken.now.items ≤ 67108865 }
    ensures most { length taken.new.items ≤ 67108865 }
    ensures reads { before_giving taken.new.items (S.remaining input.new) ≡ before_giving taken.old.items (S.remaining input.old) }
    ensures whole { (bytes : List ℕ) → before_giving taken.old.items (S.remaining input.old) ≡ Some bytes → IfOk result (λ _. taken.new.items ≡ take 67108865 bytes) }
    ensures faults { Counts (is_broken result) (S.faults input.old) (S.faults input.new) }
    ensures no_fall { S.faults input.old ≤ S.faults input.new }
{
    let mut filled = taken.len();
    while filled <= LONGEST {
        if filled == taken.len() && make_room(taken).is_err() {
            return Err(TakeFault::NoMemory);
        }
        match read_behind(input, taken, filled) {
            Ok(0) => {
                taken.truncate(filled);
                return Ok(());
            }
            Ok(n) => filled += n,
            Err(Failed) => {
                taken.truncate(filled);
                return Err(TakeFault::Broken);
            }
        }
    }
    taken.truncate(filled);
    Ok(())
}

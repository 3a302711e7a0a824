//! The item behind those that were read.
ghost use Rattle.std.specs.Prelude.{◌≡◌, ◌≤◌, length};
ghost use Rattle.lp_script.specs.Before.{context_of};
ghost use Rattle.lp_script.specs.Behind.{Behind};

use crate::before::Before;
use crate::items::read_item;
use crate::stop::{ReadError, Stop};
use lp_events::item::Item;
use std::alloc::Global;

/// Why no item is given.
#[derive(Debug, Drop)]
pub enum Refusal {
    NoMemory,
    /// At this offset stands no item, or one that may not stand there.
    Bad(usize),
    /// The input goes on past the most bytes that a script may have.
    Large,
}

/// The item that stands at `cut`, and where it ends. The bytes are the `whole` input, or as many as
/// a script may have, where the input goes on behind them.
pub fn item_behind(
    alloc: Global,
    before: &Before,
    bytes: &[u8],
    whole: bool,
    cut: usize,
) -> Result<(Item, usize), Refusal>
    requires { cut ≤ length bytes.now }
    ensures { Behind (context_of before.now) bytes.now whole cut result }
{
    if cut == bytes.len() {
        if whole {
            return Err(Refusal::Bad(cut));
        }
        return Err(Refusal::Large);
    }
    match read_item(alloc, before, &bytes[cut..]) {
        Ok((item, rest)) => Ok((item, bytes.len() - rest.len())),
        Err(ReadError::NoMemory) => Err(Refusal::NoMemory),
        Err(ReadError::Stop(Stop::Wrong)) => Err(Refusal::Bad(cut)),
        Err(ReadError::Stop(Stop::Short)) => {
            if whole {
                return Err(Refusal::Bad(cut));
            }
            Err(Refusal::Large)
        }
    }
}

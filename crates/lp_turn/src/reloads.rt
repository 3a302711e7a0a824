//! Files have new texts.
ghost use Rattle.std.specs.Prelude.{◌≡◌, ◌++◌, IsAscii, OnOk};
ghost use Rattle.lp_meaning.specs.EventTurns.{reload_turn};
ghost use Rattle.lp_meaning.specs.WorldSteps.{closing};
ghost use Rattle.lp_turn.specs.Going.{IsWhole};
ghost use Rattle.lp_world.specs.Closed.{IsClosed};

use crate::outputs::tell;
use lp_events::out::Out;
use lp_making::files;
use lp_world::live::Live;
use std::alloc::AllocError;

/// The driver closed a connection, if it did: that is told.
fn tell_closed(live: &mut Live, number: Option<u32>) -> Result<(), AllocError>
    requires closed { IsClosed live.old }
    ensures told { OnOk result (live.new ≡ record live.old { outputs = live.old.outputs ++ closing number }) }
    ensures closed { IsClosed live.new }
{
    match number {
        Some(number) => tell(live, Out::Close(number)),
        None => Ok(()),
    }
}

/// A file has a new text; where its path ends in `.c` the live blueprint of that path is destructed, whose connection is closed.
/// That is the whole turn. The path is of letters of ASCII.
///
/// # Errors
/// Where memory runs out; the state is closed then.
pub fn reload(live: &mut Live, path: &str, bytes: &[u8]) -> Result<(), AllocError>
    requires ascii { IsAscii path.now }
    requires closed { IsClosed live.old }
    ensures whole { OnOk result (IsWhole (reload_turn path.now bytes.now) live.old live.new) }
    ensures closed { IsClosed live.new }
{
    let number = files::reload(live, path, bytes)?;
    tell_closed(live, number)
}

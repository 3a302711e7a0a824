//! Outputs of turns.
ghost use Rattle.std.specs.Prelude.{◌≡◌, ◌++◌, ◌∷◌, [], OnOk};
ghost use Rattle.lp_world.specs.Closed.{IsClosed};

use lp_events::out::Out;
use lp_world::live::Live;
use std::alloc::AllocError;

/// One more output.
pub(crate) fn tell(live: &mut Live, out: Out) -> Result<(), AllocError>
    requires closed { IsClosed live.old }
    ensures told { OnOk result (live.new ≡ record live.old { outputs = live.old.outputs ++ out ∷ [] }) }
    ensures only { live.new ≡ record live.old { outputs = live.new.outputs } }
    ensures closed { IsClosed live.new }
{
    live.outputs.push(out)
}

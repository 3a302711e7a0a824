//! The state of the driver, as a served run uses it.
ghost use Rattle.std.specs.Prelude.{◌≡◌, ◌∷◌, ◌++◌, [], IfErr, IfOk, List, Option};
ghost use Rattle.lp_core.specs.Turning.{Origin, Turn};
ghost use Rattle.lp_driver.specs.Driving.{TurnsAs};
ghost use Rattle.lp_host.specs.Causes.{IsQuiet, SwapTells};
ghost use Rattle.lp_host.specs.Hosting.{ended_of, stopped_of};
ghost use Rattle.lp_host.specs.Playing.{HasPlayed};
ghost use Rattle.lp_state.specs.States.{GoesOn, live_in};
ghost use Rattle.lp_swapfile.specs.Device.{Bytes};

use lp_asking::truth::Truthful;
use lp_core::{Core, Stop};
use lp_events::event::Event;
use lp_events::out::Outs;
use lp_files::store::Store;
use lp_residence::answers::SwapCause;
use lp_state::fault::TurnFault;
use lp_state::state::{State, turn};

/// The state of a game that is served, with the cause of the swap file's fault, where one has ended it.
#[derive(Drop)]
pub struct HostedState {
    state: State,
    cause: Option<SwapCause>,
}

impl HostedState {
    /// The state as one that is served. Takes no memory.
    pub fn new(state: State) -> HostedState
        ensures { result.state ≡ state }
    {
        HostedState { state, cause: None }
    }

    /// The cause of the swap file's fault, where one has ended the game.
    pub(crate) fn into_cause(self) -> Option<SwapCause>
        ensures { result ≡ self.cause }
    {
        let HostedState { state, cause } = self;
        drop(state);
        cause
    }

    // Notes why a turn was not carried out.
    fn stopped(&mut self, fault: TurnFault) -> Stop
        ensures state { self.new.state ≡ self.old.state }
        ensures cause { stopped_of result self.new.cause ≡ ended_of fault }
    {
        match fault {
            TurnFault::Swap(cause) => {
                self.cause = Some(cause);
                Stop::Swap
            }
            TurnFault::HasFailed => Stop::NoMemory,
            TurnFault::NoMemory => Stop::NoMemory,
        }
    }
}

impl<W: Truthful> Core<W> for HostedState {
    ghost ran = { λ g w origin turns. HasPlayed origin (W.content w) (live_in g.state) turns };

    ghost goes = { λ g w. GoesOn (W.content w) g.state };

    ghost stored = { λ g. (live_in g.state).store };

    ghost quiet = { λ from w. IsQuiet (W.read_faults from) (W.read_faults w) (W.is_truthful from) (W.is_truthful w) (W.is_honest from) (W.is_honest w) };

    ghost blames = { λ g from w why. SwapTells (stopped_of why g.cause) (W.content w) (W.last w) (W.read_faults from) (W.read_faults w) (W.is_truthful from) (W.is_truthful w) (W.is_honest from) (W.is_honest w) };

    fn turn(&mut self, swap: &mut W, event: &Event) -> Result<Outs, Stop> {
        match turn(&mut self.state, swap, event) {
            Ok(outs) => Ok(outs),
            Err(fault) => Err(self.stopped(fault)),
        }
    }

    fn store(&self) -> &Store {
        &self.state.live().store
    }

    fn written(&mut self, path: &str) {
        self.state.written(path);
    }
}

//! A driver that has started, with what each call promises.
ghost use Rattle.std.specs.Prelude.{◌≡◌, ◌∷◌, ◌++◌, [], IfErr, IfOk, List, OnOk, ℕ};
ghost use Rattle.lp_files.specs.Store.{file_at, changed_in};
ghost use Rattle.lp_files.specs.Paths.{without_path};
ghost use Rattle.lp_core.specs.Turning.{MayCome, Origin, Turn};

use lp_events::event::Event;
use lp_events::out::Outs;
use lp_files::store::Store;

/// Why a turn was not carried out.
#[derive(Debug, Clone, Copy, PartialEq, Eq)]
pub enum Stop {
    /// There was no memory.
    NoMemory,
    /// The swap file failed, or gave other bytes.
    Swap,
}

/// A driver that has started. It works over a swap file of type `W`, which is handed to each turn, and has a store of files. `ran` says
/// that it and the swap file began so and have come from there by these turns, in order; `goes` is what it asks for at each turn and keeps;
/// `stored` is its store. Behind a turn that was not carried out no turns are known of it. `quiet` says of two moments of the swap file that
/// no turn between them was stopped; `blames` says what it did from a first moment to that at which a turn was stopped.
pub trait Core<W> {
    ghost use Rattle.std.specs.Prelude.{List};
    ghost use Rattle.lp_files.specs.declared.store.Store.{Store};
    ghost use Rattle.lp_core.specs.Turning.{Origin, Turn};
    ghost use Rattle.lp_core.specs.declared.driver.Stop.{Stop};

    ghost ran: { Self → W → Origin → List Turn → Type 0 };

    ghost goes: { Self → W → Type 0 };

    ghost stored: { Self → Store };

    ghost quiet: { W → W → Type 0 };

    ghost blames: { Self → W → W → Stop → Type 0 };

    /// One event has its turn, and its outputs are given. The moment of a tick is at most 10^12 seconds.
    fn turn(&mut self, swap: &mut W, event: &Event) -> Result<Outs, Stop>
        requires may { MayCome event.now }
        requires goes { goes self.old swap.old }
        ensures goes { goes self.new swap.new }
        ensures ran { IfOk result (λ outs. (origin : Origin) (turns : List Turn) → ran self.old swap.old origin turns → ran self.new swap.new origin (turns ++ (event.now, outs) ∷ [])) }
        ensures quiet { OnOk result ((from : W) → quiet from swap.old → quiet from swap.new) }
        ensures blames { IfErr result (λ why. (from : W) → quiet from swap.old → blames self.new from swap.new why) };

    /// The files.
    fn store(&self) -> &Store
        ensures { result.now ≡ stored self.now };

    /// Takes a path off the changed list, as one that is kept outside as it is here. Takes no memory.
    fn written(&mut self, path: &str)
        ensures goes { (swap : W) → goes self.old swap → goes self.new swap }
        ensures ran { (swap : W) (origin : Origin) (turns : List Turn) → ran self.old swap origin turns → ran self.new swap origin turns }
        ensures files { (q : List ℕ) → file_at (stored self.new) q ≡ file_at (stored self.old) q }
        ensures changed { changed_in (stored self.new) ≡ without_path path.now (changed_in (stored self.old)) };
}

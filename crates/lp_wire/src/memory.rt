//! A wire in memory, whose polls fail as they are told.
ghost use Rattle.std.specs.Prelude.{◌≡◌, ◌≤◌, ◌^◌, ◌++◌, ◌∷◌, ◌⊎◌, [], ℕ, List, Option, Some, None, IfOk, IfSome, IfNone, OnOk, OnErr, length, take, drop, if◌then◌else◌, Bool, min};
ghost use Rattle.lp_io.specs.Counts.{Counts};
ghost use Rattle.lp_io.specs.Memory.{after_call, after_failure, next_is_listed};
ghost use Rattle.lp_wire.specs.Wires.{Adds, is_failed};
ghost use Rattle.lp_wire.specs.InMemory.{after_send, room, next_happening};
ghost use Rattle.lp_wire.specs.declared.happening.WireCall.TheVariants.{Gave, Took, Closed};

use crate::happening::{Happening, WireCall};
use crate::wire::{Wire, WireError};
use lp_events::octets::Octets;
use std::alloc::{AllocError, Global};
use std::marker::Model;

/// A wire in memory: it gives what it was made with, and then that nothing comes. It tells its calls; where there is no
/// memory to note one, it tells nothing from then on.
#[derive(Drop)]
pub struct MemWire {
    alloc: Global,
    moment: u64,
    happenings: Vec<Happening>,
    given: usize,
    fail: Vec<u64>,
    polls: u64,
    faults: u64,
    takes: Vec<usize>,
    sends: usize,
    calls: Vec<WireCall>,
    tells: bool,
}

impl Model for MemWire {
    ghost use Rattle.std.specs.Prelude.{◌≤◌, ◌^◌, drop, length};
    ghost use Rattle.lp_wire.specs.InMemory.{InMemory, told_if};

    ghost Value = { InMemory };

    ghost view = { λ w. record {
      moment = w.moment;
      coming = drop w.given w.happenings.items;
      polls = record { listed = w.fail.items; made = w.polls; failed = w.faults };
      bounds = drop w.sends w.takes.items;
      calls = told_if w.tells w.calls.items;
    } };

    ghost invariant = { λ w. (w.moment ≤ 10 ^ 12) × (w.given ≤ length w.happenings.items) × (w.sends ≤ length w.takes.items) };
}

impl MemWire {
    /// A wire that begins at a moment, in seconds, and gives these happenings. Its polls with the numbers in `fail`, from 1,
    /// fail. The numbers in `takes` bound the bytes that the sends take, one after another, and the last all
    /// that follow; with no number all is taken. Takes no memory.
    pub fn new(
        alloc: Global,
        moment: u64,
        happen: Vec<Happening>,
        fail: Vec<u64>,
        takes: Vec<usize>,
    ) -> MemWire
        requires { moment ≤ 10 ^ 12 }
        ensures { result ≡ record {
          moment = moment;
          coming = happen.items;
          polls = record { listed = fail.items; made = 0; failed = 0 };
          bounds = takes.items;
          calls = Some [];
        } }
    {
        MemWire {
            alloc,
            moment,
            happenings: happen,
            given: 0,
            fail,
            polls: 0,
            faults: 0,
            takes,
            sends: 0,
            calls: Vec::new(alloc),
            tells: true,
        }
    }

    /// The calls so far, if they are told.
    pub fn calls(&self) -> Option<&[WireCall]>
        ensures told { IfSome result (λ calls. self.now.calls ≡ Some calls.now) }
        ensures untold { IfNone result (self.now.calls ≡ None) }
    {
        if self.tells {
            Some(self.calls.as_slice())
        } else {
            None
        }
    }

    // Notes a call; where there is no memory for it, nothing is told from then on.
    fn note(&mut self, call: WireCall)
        ensures notes { Adds self.old.calls self.new.calls (call ∷ []) }
        ensures rest { self.new ≡ record self.old { calls = self.new.calls } }
    {
        if self.calls.push(call).is_err() {
            self.tells = false;
        }
    }

    // A copy of what comes next.
    fn next(&self) -> Result<Happening, AllocError>
        ensures { IfOk result (λ h. h ≡ next_happening self.now.coming) }
    {
        match self.happenings.get(self.given) {
            Some(h) => h.copy(self.alloc),
            None => Ok(Happening::Idle),
        }
    }

    // What came next has come.
    fn pass_happening(&mut self)
        ensures { self.new ≡ record self.old { coming = drop 1 self.old.coming } }
    {
        if self.given < self.happenings.len() {
            self.given += 1;
        }
    }

    // Counts one more poll, and answers whether it fails by the list.
    fn next_fails(&mut self) -> bool
        ensures value { result ≡ next_is_listed self.old.polls }
        ensures after { self.new ≡ record self.old { polls = if result then after_failure self.old.polls else after_call self.old.polls } }
        ensures no_fall { self.old.polls.failed ≤ self.new.polls.failed }
    {
        self.polls = self.polls.saturating_add(1);
        let fails = self.fail.contains(&self.polls);
        if fails {
            self.faults = self.faults.saturating_add(1);
        }
        fails
    }

    // How many bytes the next send takes, of so many.
    fn room(&self, len: usize) -> usize
        ensures value { result ≡ room self.now.bounds len }
        ensures within { result ≤ len }
    {
        match self.takes.get(self.sends) {
            Some(n) => len.min(*n),
            None => len,
        }
    }

    // One more send has come.
    fn pass_send(&mut self)
        ensures { self.new ≡ record self.old { bounds = after_send self.old.bounds } }
    {
        if self.takes.len() - self.sends > 1 {
            self.sends += 1;
        }
    }
}

impl Wire for MemWire {
    ghost faults = { λ w. w.polls.failed };

    ghost first = { λ w. w.moment };

    ghost calls = { λ w. w.calls };

    fn opening(&self) -> u64 {
        self.moment
    }

    /// Gives a copy of what comes next. It fails exactly where the number of this poll is listed; without memory for two copies
    /// it has given nothing.
    fn poll(&mut self) -> Result<Happening, WireError>
        ensures gave { IfOk result (λ h. Adds self.old.calls self.new.calls (Gave h ∷ [])) }
        ensures kept { OnErr result (Adds self.old.calls self.new.calls []) }
        ensures untouched { OnErr result (self.new.calls ≡ self.old.calls) }
        ensures faults { Counts (is_failed result) self.old.polls.failed self.new.polls.failed }
        ensures no_fall { self.old.polls.failed ≤ self.new.polls.failed }
        ensures fails { is_failed result ≡ next_is_listed self.old.polls }
        ensures next { IfOk result (λ h. h ≡ next_happening self.old.coming) }
        ensures passed { OnOk result (self.new.coming ≡ drop 1 self.old.coming) }
        ensures still { OnErr result (self.new.coming ≡ self.old.coming) }
        ensures polls { self.new.polls ≡ (if is_failed result then after_failure self.old.polls else after_call self.old.polls) }
        ensures first { self.new.moment ≡ self.old.moment }
        ensures bounds { self.new.bounds ≡ self.old.bounds }
    {
        if self.next_fails() {
            return Err(WireError::Failed);
        }
        let next = match self.next() {
            Ok(next) => next,
            Err(_) => return Err(WireError::NoMemory),
        };
        let copy = match next.copy(self.alloc) {
            Ok(copy) => copy,
            Err(_) => return Err(WireError::NoMemory),
        };
        self.pass_happening();
        self.note(WireCall::Gave(copy));
        Ok(next)
    }

    /// Takes as many bytes as the next bound lets it; a send for which there is no memory takes none.
    fn send(&mut self, k: u32, piece: &[u8]) -> usize
        ensures within { result ≤ length piece.now }
        ensures took { Adds self.old.calls self.new.calls (Took k (take result piece.now) (length piece.now) ∷ []) }
        ensures most { (result ≡ room self.old.bounds (length piece.now)) ⊎ (result ≡ 0) }
        ensures rest { self.new ≡ record self.old { bounds = after_send self.old.bounds; calls = self.new.calls } }
    {
        let n = self.room(piece.len());
        self.pass_send();
        match Octets::from_slice(self.alloc, &piece[..n]) {
            Ok(bytes) => {
                self.note(WireCall::Took(k, bytes, piece.len()));
                n
            }
            Err(_) => {
                let none = Octets::from_vec(Vec::new(self.alloc));
                self.note(WireCall::Took(k, none, piece.len()));
                0
            }
        }
    }

    fn close(&mut self, k: u32)
        ensures closed { Adds self.old.calls self.new.calls (Closed k ∷ []) }
        ensures rest { self.new ≡ record self.old { calls = self.new.calls } }
    {
        self.note(WireCall::Closed(k));
    }
}

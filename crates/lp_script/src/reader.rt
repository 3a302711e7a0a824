//! The reader of scripts.
ghost use Rattle.std.specs.Prelude.{◌≡◌, ◌≢◌, ℕ, ◌+◌, ◌≤◌, List, [], ◌∷◌, ◌++◌, length, take, nat_le, IfOk, IfErr, OnErr, is_ok, if◌then◌else◌};
ghost use Rattle.lp_io.specs.Counts.{Counts};
ghost use Rattle.lp_events.specs.declared.item.Item.{Item as I};
ghost use Rattle.lp_events.specs.declared.item.Item.TheVariants.{End as the_end};
ghost use Rattle.lp_events.specs.Script.{IsScript, longest_input};
ghost use Rattle.lp_script.specs.declared.phase.Ending.{Ending as E};
ghost use Rattle.lp_script.specs.declared.phase.Phase.TheVariants.{Taking, Giving, Over};

use crate::advance::{before_first, pass_item};
use crate::before::Before;
use crate::behind::{Refusal, item_behind};
use crate::fault::ScriptFault;
use crate::phase::{Ending, Phase};
use crate::taking::{LONGEST, TakeFault, take_all};
use lp_events::item::Item;
use lp_io::Source;
use std::alloc::Global;
use std::marker::Model;

/// A reader of the items of a script, in order.
///
/// At its first call `next` takes the whole input. After the item `end`, or one of `BadScript`,
/// `TooLarge` and `InputFault`, it answers the same again and again.
#[derive(Debug, Drop)]
pub struct Reader {
    alloc: Global,
    taken: Vec<u8>,
    // how many bytes spell the items that were given
    cut: usize,
    // where the item that was given last begins
    at: usize,
    before: Before,
    phase: Phase,
}

impl Model for Reader {
    ghost use Rattle.std.specs.Prelude.{◌≤◌, length};
    ghost use Rattle.lp_script.specs.Before.{context_of};
    ghost use Rattle.lp_script.specs.Reader.{Reading, IsKept};

    ghost Value = { Reading };

    ghost view = { λ r. record { taken = r.taken.items; cut = r.cut; at = r.at; before = context_of r.before; phase = r.phase } };

    ghost invariant = { λ r. IsKept (record { taken = r.taken.items; cut = r.cut; at = r.at; before = context_of r.before; phase = r.phase }) };
}

// The bytes that a script may lie in.
fn window_of(bytes: &[u8]) -> &[u8]
    ensures { result.now ≡ take longest_input bytes.now }
{
    &bytes[..bytes.len().min(LONGEST)]
}

// The input does not go on behind them.
fn is_short(bytes: &[u8]) -> bool
    ensures { result ≡ nat_le (length bytes.now) longest_input }
{
    bytes.len() <= LONGEST
}

impl Reader {
    ghost use Rattle.lp_script.specs.declared.fault.ScriptFault.TheVariants.{BadScript, TooLarge};
    ghost use Rattle.lp_script.specs.declared.phase.Ending.TheVariants.{Bad, Large};
    ghost use Rattle.lp_script.specs.Reader.{fresh, GoesOn, HasGiven, IsInput, Reads, IsAfter, ending_of, is_input_fault, Says, window, is_whole, StandsNext, Steps};
    ghost use Rattle.lp_script.specs.Behind.{Behind};

    /// A reader that has taken nothing yet. It takes no memory.
    pub fn new(alloc: Global) -> Reader
        ensures { result ≡ fresh }
    {
        Reader {
            alloc,
            taken: Vec::new(alloc),
            cut: 0,
            at: 0,
            before: before_first(alloc),
            phase: Phase::Taking,
        }
    }

    /// The offset at which the item that `next` gave last begins, in bytes from 0, and 0 before the
    /// first one. It takes no memory.
    pub fn at(&self) -> u64
        ensures { result ≡ self.now.at }
    {
        self.at as u64
    }

    // Ends with a fault at an offset.
    fn end_bad(&mut self, at: usize) -> ScriptFault
        ensures fault { result ≡ BadScript at }
        ensures phase { self.new ≡ record self.old { phase = Over (Bad at) } }
    {
        self.phase = Phase::Over(Ending::Bad(at as u64));
        ScriptFault::BadScript { at: at as u64 }
    }

    // Ends because the input is too large.
    fn end_large(&mut self) -> ScriptFault
        ensures fault { result ≡ TooLarge }
        ensures phase { self.new ≡ record self.old { phase = Over Large } }
    {
        self.phase = Phase::Over(Ending::Large);
        ScriptFault::TooLarge
    }

    // Passes an item that stands at the cut and ends here, if it may be given.
    fn pass(&mut self, item: Item, behind: usize) -> Result<Item, ScriptFault>
        requires giving { self.now.phase ≡ Giving }
        requires stands { StandsNext self.now item behind }
        ensures steps { Steps self.old result self.new }
        ensures phase { IsAfter result self.new.phase }
        ensures stays { self.new.phase ≢ Taking }
    {
        let bytes = self.taken.as_slice();
        let len = window_of(bytes).len();
        let short = is_short(bytes);
        let phase = match &item {
            Item::End if behind < len => return Err(self.end_bad(behind)),
            Item::End if !short => return Err(self.end_large()),
            Item::End => Phase::Over(Ending::Whole),
            _ => Phase::Giving,
        };
        if pass_item(self.alloc, &mut self.before, &item).is_err() {
            return Err(ScriptFault::NoMemory);
        }
        self.at = self.cut;
        self.cut = behind;
        self.phase = phase;
        Ok(item)
    }

    // What stands at the cut.
    fn look(&self) -> Result<(Item, usize), Refusal>
        ensures { Behind self.now.before (window self.now) (is_whole self.now) self.now.cut result }
    {
        let bytes = self.taken.as_slice();
        item_behind(
            self.alloc,
            &self.before,
            window_of(bytes),
            is_short(bytes),
            self.cut,
        )
    }

    // The item at the cut, where all bytes were taken.
    fn give(&mut self) -> Result<Item, ScriptFault>
        requires { self.now.phase ≡ Giving }
        ensures steps { Steps self.old result self.new }
        ensures phase { IsAfter result self.new.phase }
        ensures stays { self.new.phase ≢ Taking }
    {
        match self.look() {
            Ok((item, behind)) => self.pass(item, behind),
            Err(Refusal::NoMemory) => Err(ScriptFault::NoMemory),
            Err(Refusal::Bad(at)) => Err(self.end_bad(at)),
            Err(Refusal::Large) => Err(self.end_large()),
        }
    }

    /// The next item of the script.
    ///
    /// - `BadScript`: at this offset, that of the first byte behind the items before, stands no item,
    ///   or one that may not stand there, or the input ends there. Bytes behind an `end` are such an
    ///   item, and the fault is answered in place of the `end`.
    /// - `TooLarge`: the input goes on past the most bytes that a script may have, and where the
    ///   items end within these nothing is left, or an item is begun.
    /// - `InputFault`: a read of the input failed.
    /// - `NoMemory`: the reader keeps what it took, and the next call goes on.
    pub fn next<S: Source>(&mut self, input: &mut S) -> Result<Item, ScriptFault>
        // an item is the next one
        ensures given { (xs : List I) → GoesOn self.old.phase → HasGiven self.old xs
            → IfOk result (λ x. HasGiven self.new (xs ++ x ∷ [])) }
        ensures place { GoesOn self.old.phase → self.new.at ≡ (if is_ok result then self.old.cut else self.old.at) }
        // the item `end` is the last one
        ensures end { (bytes : List ℕ) (xs : List I) → GoesOn self.old.phase → HasGiven self.old xs → IsInput bytes self.new.taken
            → IfOk result (λ x. x ≡ the_end → IsScript bytes (xs ++ x ∷ [])) }
        // a fault gives no item, and says what is wrong
        ensures kept { (xs : List I) → HasGiven self.old xs → OnErr result (HasGiven self.new xs) }
        ensures fault { (bytes : List ℕ) (xs : List I) → GoesOn self.old.phase → HasGiven self.old xs → IsInput bytes self.new.taken
            → IfErr result (λ f. Says f bytes xs) }
        // what ended a reader is answered again
        ensures phase { IsAfter result self.new.phase }
        ensures again { (ending : E) → self.old.phase ≡ Over ending → (ending_of result ≡ Some ending) × (self.new ≡ self.old) }
        // only the source's bytes are taken, once
        ensures reads { (bytes : List ℕ) → Reads bytes self.old (S.remaining input.old) → Reads bytes self.new (S.remaining input.new) }
        ensures most { length self.new.taken ≤ longest_input + 1 }
        ensures taken { self.old.phase ≢ Taking → self.new.taken ≡ self.old.taken }
        ensures stays { self.old.phase ≢ Taking → self.new.phase ≢ Taking }
        ensures untouched { self.old.phase ≢ Taking → input.new ≡ input.old }
        // a read fails only where the source's count rises
        ensures faults { GoesOn self.old.phase → Counts (is_input_fault result) (S.faults input.old) (S.faults input.new) }
        ensures no_fall { S.faults input.old ≤ S.faults input.new }
    {
        match self.phase {
            Phase::Taking => match take_all(input, &mut self.taken) {
                Ok(()) => {
                    self.phase = Phase::Giving;
                    self.give()
                }
                Err(TakeFault::NoMemory) => Err(ScriptFault::NoMemory),
                Err(TakeFault::Broken) => {
                    self.phase = Phase::Over(Ending::Failed);
                    Err(ScriptFault::InputFault)
                }
            },
            Phase::Giving => self.give(),
            Phase::Over(Ending::Whole) => Ok(Item::End),
            Phase::Over(Ending::Bad(at)) => Err(ScriptFault::BadScript { at }),
            Phase::Over(Ending::Large) => Err(ScriptFault::TooLarge),
            Phase::Over(Ending::Failed) => Err(ScriptFault::InputFault),
        }
    }
}

//! The call-outs that wait.
ghost use Rattle.std.specs.Prelude.{◌≡◌, ◌+◌, ◌<◌, ◌≤◌, ◌-◌, ◌^◌, ◌∷◌, ◌++◌, [], List, ℕ, Err, IfErr, IfOk, IfSome, OnErr, OnOk, length, map};
ghost use Rattle.std.specs.Option.{option_map};
ghost use Rattle.lp_timers.specs.Timers.{due_at, earliest, max_call_outs, without_call_out};
ghost use Rattle.lp_timers.specs.Waiting.{call_out_of, earliest_of, numbered, spot_in, without_this};
ghost use Rattle.lp_timers.specs.declared.fault.TimerFault.TheVariants.{TooMany};

use crate::call_out::{Call, CallOut};
use crate::fault::TimerFault;
use crate::index::Index;
use crate::spot::Spot;
use lp_values::id::ObjId;
use lp_values::text::Text;
use lp_values::value::Value;
use std::alloc::{AllocError, Global};
use std::collections::BTreeMap;
use std::marker::Model;

/// How many call-outs may wait.
pub const MAX_CALL_OUTS: usize = 100000;

/// The call-outs that wait, in order of their making, and the number of the next one. They are found
/// by their moments, and by their objects and functions.
#[derive(Drop)]
pub struct CallOuts {
    alloc: Global,
    next: u64,
    calls: BTreeMap<u64, Call>,
    index: Index,
}

impl Model for CallOuts {
    ghost use Rattle.std.specs.Prelude.{map};
    ghost use Rattle.lp_timers.specs.Waiting.{Waiting, entry_call};
    ghost use Rattle.lp_timers.specs.Indexed.{IsIndexed};

    ghost Value = { Waiting };

    ghost view = { λ t. record { next = t.next; call_outs = map entry_call t.calls.entries } };

    ghost invariant = { λ t. IsIndexed t.next t.calls.entries t.index };
}

impl CallOuts {
    /// No call-outs; the first one will have the number 1. Takes no memory.
    pub fn new(alloc: Global) -> CallOuts
        ensures { result ≡ record { next = 1; call_outs = [] } }
    {
        CallOuts {
            alloc,
            next: 1,
            calls: BTreeMap::new(alloc),
            index: Index::new(alloc),
        }
    }

    /// A call-out of a function of an object, which is due at a moment in seconds. Answers its number.
    ///
    /// - `TooMany`: exactly where 100000 wait.
    /// - `NoMemory`: then nothing changes. It comes too where the number would be 2^64 - 1.
    pub fn call_out(
        &mut self,
        ob: ObjId,
        fun: &Text,
        at: u64,
        args: Vec<Value>,
    ) -> Result<u64, TimerFault>
        ensures full { max_call_outs ≤ length self.old.call_outs → result ≡ Err TooMany }
        ensures ok { IfOk result (λ n. (n ≡ self.old.next) × (self.new ≡ record { next = self.old.next + 1; call_outs = self.old.call_outs ++ record { number = self.old.next; object = ob; function = fun.now; due = at; arguments = args.items } ∷ [] })) }
        ensures err { IfErr result (λ e. (e ≡ TooMany → max_call_outs ≤ length self.old.call_outs) × (self.new ≡ self.old)) }
    {
        if self.count() >= MAX_CALL_OUTS {
            return Err(TimerFault::TooMany);
        }
        if self.next_number() == u64::MAX {
            return Err(TimerFault::NoMemory);
        }
        match self.place(ob, fun, at, args) {
            Ok(number) => Ok(number),
            Err(_) => Err(TimerFault::NoMemory),
        }
    }

    /// How many call-outs wait. Takes no memory.
    pub fn count(&self) -> usize
        ensures { result ≡ length self.now.call_outs }
    {
        self.calls.len()
    }

    // The number of the next call-out.
    fn next_number(&self) -> u64
        ensures { result ≡ self.now.next }
    {
        self.next
    }

    /// The numbers of the call-outs that are due at a moment or before, by their moments and then in
    /// order of making. Costs how many those are, and a logarithm of how many wait.
    pub fn due(&self, t: u64) -> Result<Vec<u64>, AllocError>
        ensures { IfOk result (λ v. v.items ≡ map (λ c. c.number) (due_at t self.now.call_outs)) }
    {
        self.index.due(self.alloc, t, self.next)
    }

    /// Takes out the call-out with a number, if it waits. Takes no memory, and time by the logarithm of
    /// how many wait.
    pub fn take(&mut self, number: u64) -> Option<CallOut>
        ensures taken { option_map call_out_of result ≡ numbered self.old.call_outs number }
        ensures left { self.new ≡ record { next = self.old.next; call_outs = without_call_out self.old.call_outs number } }
    {
        match self.take_call(number) {
            Some(call) => Some(CallOut {
                number,
                ob: call.ob,
                fun: call.fun,
                due: call.due,
                args: call.args,
            }),
            None => None,
        }
    }

    // The spot of the earliest call-out of a function of an object.
    fn spot_of(&self, ob: ObjId, fun: &Text) -> Option<Spot>
        ensures spot { result ≡ option_map (spot_in ob.0) (earliest self.now.call_outs ob fun.now) }
        ensures number { IfSome result (λ s. numbered self.now.call_outs s.number ≡ earliest self.now.call_outs ob fun.now) }
    {
        self.index.first_of_function(fun, ob.0)
    }

    // The spot of the earliest call-out of an object.
    fn spot_of_object(&self, ob: ObjId) -> Option<Spot>
        ensures spot { result ≡ option_map (spot_in ob.0) (earliest_of self.now.call_outs ob) }
        ensures number { IfSome result (λ s. numbered self.now.call_outs s.number ≡ earliest_of self.now.call_outs ob) }
    {
        self.index.first_of(ob.0)
    }

    /// Takes out the earliest call-out of a function of an object, if one waits. Takes no memory, and
    /// time by the logarithm of how many wait.
    pub fn remove(&mut self, ob: ObjId, fun: &Text) -> Option<CallOut>
        ensures earliest { option_map call_out_of result ≡ earliest self.old.call_outs ob fun.now }
        ensures left { self.new ≡ record { next = self.old.next; call_outs = without_this self.old.call_outs (earliest self.old.call_outs ob fun.now) } }
    {
        match self.spot_of(ob, fun) {
            Some(spot) => self.take(spot.number),
            None => None,
        }
    }

    /// The moment at which the earliest call-out of a function of an object is due, if one waits. Takes
    /// no memory, and time by the logarithm of how many wait.
    pub fn left(&self, ob: ObjId, fun: &Text) -> Option<u64>
        ensures { result ≡ option_map (λ c. c.due) (earliest self.now.call_outs ob fun.now) }
    {
        match self.spot_of(ob, fun) {
            Some(spot) => Some(spot.due),
            None => None,
        }
    }

    /// Takes out the earliest call-out of an object, if one waits. Takes no memory, and time by the
    /// logarithm of how many wait.
    pub fn drop_of(&mut self, ob: ObjId) -> Option<CallOut>
        ensures earliest { option_map call_out_of result ≡ earliest_of self.old.call_outs ob }
        ensures left { self.new ≡ record { next = self.old.next; call_outs = without_this self.old.call_outs (earliest_of self.old.call_outs ob) } }
    {
        match self.spot_of_object(ob) {
            Some(spot) => self.take(spot.number),
            None => None,
        }
    }

    // Takes out a call-out with a number.
    fn take_call(&mut self, number: u64) -> Option<Call>
        ensures taken { option_map (λ c. record { number = number; object = c.ob; function = c.fun; due = c.due; arguments = c.args.items }) result ≡ numbered self.old.call_outs number }
        ensures left { self.new ≡ record { next = self.old.next; call_outs = without_call_out self.old.call_outs number } }
    {
        match self.calls.remove(&number) {
            Some(call) => {
                self.index.remove(
                    &call.fun,
                    Spot {
                        group: call.ob.0,
                        due: call.due,
                        number,
                    },
                );
                Some(call)
            }
            None => None,
        }
    }

    // Puts the next call-out in.
    fn place(&mut self, ob: ObjId, fun: &Text, at: u64, args: Vec<Value>) -> Result<u64, AllocError>
        requires { self.old.next < 2 ^ 64 - 1 }
        ensures ok { IfOk result (λ n. (n ≡ self.old.next) × (self.new ≡ record { next = self.old.next + 1; call_outs = self.old.call_outs ++ record { number = self.old.next; object = ob; function = fun.now; due = at; arguments = args.items } ∷ [] })) }
        ensures err { OnErr result (self.new ≡ self.old) }
    {
        let number = self.next;
        let spot = Spot {
            group: ob.0,
            due: at,
            number,
        };
        let call = Call {
            ob,
            fun: fun.copy()?,
            due: at,
            args,
        };
        self.index.add(fun, spot)?;
        match self.calls.insert(number, call) {
            Ok(_) => {
                self.next = number + 1;
                Ok(number)
            }
            Err(_) => {
                self.index.remove(fun, spot);
                Err(AllocError)
            }
        }
    }
}

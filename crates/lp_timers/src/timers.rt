//! All that is to come.
ghost use Rattle.std.specs.Prelude.{◌≡◌, ◌+◌, ◌≤◌, ◌∷◌, ◌++◌, [], ℕ, Err, IfErr, IfOk, OnErr, OnOk, false, length, map, IsOk};
ghost use Rattle.std.specs.Option.{option_map};
ghost use Rattle.lp_timers.specs.Timers.{beat_next, beats_at, beats_by as has_beat_by, due_at, earliest, is_watched as has_watch, max_call_outs, unwatched, watch_put, watched_at, without_call_out};
ghost use Rattle.lp_timers.specs.Timing.{beat_turned, beats_left, turns_beat, watch_kind, watches_left};
ghost use Rattle.lp_timers.specs.Waiting.{call_out_of, earliest_of, numbered, without_this};
ghost use Rattle.lp_timers.specs.declared.fault.TimerFault.TheVariants.{TooMany};

use crate::call_out::CallOut;
use crate::call_outs::CallOuts;
use crate::fault::TimerFault;
use crate::kind::{Kind, Watch};
use crate::moments::Moments;
use lp_values::id::ObjId;
use lp_values::text::Text;
use lp_values::value::Value;
use std::alloc::{AllocError, Global};
use std::marker::Model;

/// The call-outs that wait, in order of their making; the hearts that beat, in order of switching on;
/// and the watches for `reset` and `clean_up`, in order of putting. Moments are in seconds.
#[derive(Drop)]
pub struct Timers {
    call_outs: CallOuts,
    moments: Moments,
}

impl Model for Timers {
    ghost use Rattle.lp_timers.specs.Timing.{Timing, beats_of, watches_of};

    ghost Value = { Timing };

    ghost view = { λ t. record { next = t.call_outs.next; call_outs = t.call_outs.call_outs; beats = beats_of t.moments.lines; watches = watches_of t.moments.lines } };
}

impl Timers {
    /// Nothing is to come; the first call-out will have the number 1. Takes no memory.
    pub fn new(alloc: Global) -> Timers
        ensures { result ≡ record { next = 1; call_outs = []; beats = []; watches = [] } }
    {
        Timers {
            call_outs: CallOuts::new(alloc),
            moments: Moments::new(alloc),
        }
    }

    /// A call-out of a function of an object, which is due at a moment. Answers its number.
    ///
    /// - `TooMany`: exactly where 100000 wait.
    /// - `NoMemory`: then nothing changes. It comes too where the number would be 2^64 - 1.
    pub fn call_out(
        &mut self,
        ob: ObjId,
        fun: &Text,
        at: u64,
        args: Vec<Value>,
    ) -> Result<u64, TimerFault>
        ensures full { max_call_outs ≤ length self.old.call_outs → result ≡ Err TooMany }
        ensures ok { IfOk result (λ n. (n ≡ self.old.next) × (self.new ≡ record { next = self.old.next + 1; call_outs = self.old.call_outs ++ record { number = self.old.next; object = ob; function = fun.now; due = at; arguments = args.items } ∷ []; beats = self.old.beats; watches = self.old.watches })) }
        ensures err { IfErr result (λ e. (e ≡ TooMany → max_call_outs ≤ length self.old.call_outs) × (self.new ≡ self.old)) }
    {
        self.call_outs.call_out(ob, fun, at, args)
    }

    /// How many call-outs wait. Takes no memory.
    pub fn count(&self) -> usize
        ensures { result ≡ length self.now.call_outs }
    {
        self.call_outs.count()
    }

    /// The numbers of the call-outs that are due at a moment or before, by their moments and then in
    /// order of making. Costs how many those are, and a logarithm of how many wait.
    pub fn due(&self, t: u64) -> Result<Vec<u64>, AllocError>
        ensures { IfOk result (λ v. v.items ≡ map (λ c. c.number) (due_at t self.now.call_outs)) }
    {
        self.call_outs.due(t)
    }

    /// Takes out the call-out with a number, if it waits. Takes no memory, and time by the logarithm of
    /// how many wait.
    pub fn take(&mut self, number: u64) -> Option<CallOut>
        ensures taken { option_map call_out_of result ≡ numbered self.old.call_outs number }
        ensures left { self.new ≡ record { next = self.old.next; call_outs = without_call_out self.old.call_outs number; beats = self.old.beats; watches = self.old.watches } }
    {
        self.call_outs.take(number)
    }

    /// Takes out the earliest call-out of a function of an object, if one waits. Takes no memory, and
    /// time by the logarithm of how many wait.
    pub fn remove(&mut self, ob: ObjId, fun: &Text) -> Option<CallOut>
        ensures earliest { option_map call_out_of result ≡ earliest self.old.call_outs ob fun.now }
        ensures left { self.new ≡ record { next = self.old.next; call_outs = without_this self.old.call_outs (earliest self.old.call_outs ob fun.now); beats = self.old.beats; watches = self.old.watches } }
    {
        self.call_outs.remove(ob, fun)
    }

    /// The moment at which the earliest call-out of a function of an object is due, if one waits. Takes
    /// no memory, and time by the logarithm of how many wait.
    pub fn left(&self, ob: ObjId, fun: &Text) -> Option<u64>
        ensures { result ≡ option_map (λ c. c.due) (earliest self.now.call_outs ob fun.now) }
    {
        self.call_outs.left(ob, fun)
    }

    /// Takes out the earliest call-out of an object; where it has none, ends its heart beat and its
    /// watches. Takes no memory, and time by the logarithm of how much is to come.
    pub fn drop_of(&mut self, ob: ObjId) -> Option<CallOut>
        ensures earliest { option_map call_out_of result ≡ earliest_of self.old.call_outs ob }
        ensures left { self.new ≡ record { next = self.old.next; call_outs = without_this self.old.call_outs (earliest_of self.old.call_outs ob); beats = beats_left (earliest_of self.old.call_outs ob) self.old.beats ob; watches = watches_left (earliest_of self.old.call_outs ob) self.old.watches ob } }
    {
        match self.call_outs.drop_of(ob) {
            Some(call_out) => Some(call_out),
            None => {
                self.moments.remove(ob, Kind::Beat);
                self.moments.remove(ob, Kind::Reset);
                self.moments.remove(ob, Kind::CleanUp);
                None
            }
        }
    }

    /// Switches the heart of an object on, with its first beat two seconds after now, or off. Answers
    /// whether that changed anything: where it did not, nothing changes. Switching off takes no memory.
    ///
    /// `AllocError`: memory is wanting, or 2^64 - 1 hearts and watches were put so far. Then nothing
    /// changes.
    pub fn beat(&mut self, ob: ObjId, on: bool, now: u64) -> Result<bool, AllocError>
        requires { now ≤ 1000000000000 }
        ensures ok { IfOk result (λ changed. (changed ≡ turns_beat self.old.beats ob on) × (self.new ≡ record { next = self.old.next; call_outs = self.old.call_outs; beats = beat_turned self.old.beats ob on now; watches = self.old.watches })) }
        ensures off { on ≡ false → IsOk result }
        ensures err { OnErr result (self.new ≡ self.old) }
    {
        let beats = self.moments.has(ob, Kind::Beat);
        if !on {
            self.moments.remove(ob, Kind::Beat);
            return Ok(beats);
        }
        if beats {
            return Ok(false);
        }
        self.moments.put(ob, Kind::Beat, now + 2)?;
        Ok(true)
    }

    /// The objects whose next beat is at most at a moment, in order of switching on. Costs how much is
    /// due, and a logarithm of how much is to come.
    pub fn beats(&self, t: u64) -> Result<Vec<ObjId>, AllocError>
        ensures { IfOk result (λ v. v.items ≡ beats_at t self.now.beats) }
    {
        self.moments.due(Kind::Beat, t)
    }

    /// Whether the heart of an object is to beat by a moment. Takes no memory.
    pub fn beats_by(&self, ob: ObjId, t: u64) -> bool
        ensures { result ≡ has_beat_by self.now.beats ob t }
    {
        self.moments.has_by(ob, Kind::Beat, t)
    }

    /// The next beat of an object is at a moment, if its heart beats. Takes no memory, and time by the
    /// logarithm of how much is to come.
    pub fn next_beat(&mut self, ob: ObjId, at: u64)
        ensures { self.new ≡ record { next = self.old.next; call_outs = self.old.call_outs; beats = beat_next self.old.beats ob at; watches = self.old.watches } }
    {
        self.moments.set(ob, Kind::Beat, at);
    }

    /// An object is watched, and its moment is this one. Where it is watched already, it keeps its
    /// place.
    ///
    /// `AllocError`: memory is wanting, or 2^64 - 1 hearts and watches were put so far. Then nothing
    /// changes.
    pub fn watch(&mut self, ob: ObjId, kind: Watch, at: u64) -> Result<(), AllocError>
        ensures ok { OnOk result (self.new ≡ record { next = self.old.next; call_outs = self.old.call_outs; beats = self.old.beats; watches = watch_put self.old.watches (watch_kind kind) ob at }) }
        ensures err { OnErr result (self.new ≡ self.old) }
    {
        self.moments.put(ob, Kind::of(kind), at)
    }

    /// An object is not watched for this any more. Takes no memory, and time by the logarithm of how
    /// much is to come.
    pub fn unwatch(&mut self, ob: ObjId, kind: Watch)
        ensures { self.new ≡ record { next = self.old.next; call_outs = self.old.call_outs; beats = self.old.beats; watches = unwatched self.old.watches (watch_kind kind) ob } }
    {
        self.moments.remove(ob, Kind::of(kind));
    }

    /// The objects watched for this whose moment is at most this one, in order of putting. Costs how
    /// much is due, and a logarithm of how much is to come.
    pub fn watched(&self, kind: Watch, t: u64) -> Result<Vec<ObjId>, AllocError>
        ensures { IfOk result (λ v. v.items ≡ watched_at t (watch_kind kind) self.now.watches) }
    {
        self.moments.due(Kind::of(kind), t)
    }

    /// Whether an object is watched for this. Takes no memory.
    pub fn is_watched(&self, ob: ObjId, kind: Watch) -> bool
        ensures { result ≡ has_watch self.now.watches (watch_kind kind) ob }
    {
        self.moments.has(ob, Kind::of(kind))
    }
}

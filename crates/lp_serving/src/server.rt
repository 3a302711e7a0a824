//! Events of a served run.
ghost use Rattle.std.specs.Prelude.{◌≡◌, ◌<◌, ◌≤◌, IfErr, List, OnOk, Option, ℕ, length};
ghost use Rattle.lp_core.specs.Turning.{MayCome, Origin};
ghost use Rattle.std.specs.List.{remove};
ghost use Rattle.lp_sessions.specs.All.{numbers};
ghost use Rattle.lp_sessions.specs.Table.{no_connections};
ghost use Rattle.lp_wire.specs.Heard.{Hearing, is_open, line_heard, lines_heard, piece_heard, accept_heard, lost_heard, settled, tick_heard};
ghost use Rattle.lp_wire.specs.declared.happening.WireCall.{WireCall};
ghost use Rattle.lp_serving.specs.Causes.{OutputTells, SwapTells, is_output};
ghost use Rattle.lp_serving.specs.CutShort.{CutsShort};
ghost use Rattle.lp_serving.specs.Happens.{Happens, Serving};
ghost use Rattle.lp_serving.specs.Recorded.{Recorded};
ghost use Rattle.lp_serving.specs.Serves.{Forgets, Goes, SendsAlone, TurnsOver, turn_course};

use lp_core::{Core, Stop};
use lp_events::event::Event;
use lp_events::octets::Octets;
use lp_events::out::Outs;
use lp_flush::write_changed;
use lp_folder::outside::Files;
use lp_io::Sink;
use lp_recording::{Keeps, write_event};
use lp_sessions::{Phase, Sessions};
use lp_wire::Wire;
use std::alloc::{AllocError, Global};

/// Why a served run ends at an event.
#[derive(Debug, Clone, Copy, PartialEq, Eq)]
pub enum End {
    /// The output failed.
    Output,
    /// A turn was not carried out.
    Stopped(Stop),
    /// There was no memory.
    NoMemory,
}

/// What a served run keeps of its players and the clock: the connections that are not gone, and the moment; and what it writes.
#[derive(Drop)]
pub struct Server {
    alloc: Global,
    /// The connections that are not gone.
    pub connections: Sessions,
    /// The moment, in seconds.
    pub moment: u64,
    /// What is written of events.
    pub keeps: Keeps,
}

// The outputs of a turn join what is pending, and all of that is offered.
fn send_outs<N: Wire>(
    connections: &mut Sessions,
    wire: &mut N,
    outs: &Outs,
) -> Result<(), AllocError>
    ensures sends { OnOk result (SendsAlone outs.now connections.old.sessions connections.new.sessions (N.calls wire.old) (N.calls wire.new)) }
    ensures numbers { numbers connections.new.sessions ≡ numbers connections.old.sessions }
    ensures highest { connections.new.highest ≡ connections.old.highest }
    ensures faults { N.faults wire.new ≡ N.faults wire.old }
    ensures first { N.first wire.new ≡ N.first wire.old }
{
    connections.take_outs(outs)?;
    connections.offer_all(wire);
    Ok(())
}

impl Server {
    /// Before the first happening. Takes no memory.
    pub fn new(alloc: Global, moment: u64, keeps: Keeps) -> Server
        ensures none { result.connections ≡ no_connections }
        ensures moment { result.moment ≡ moment }
        ensures keeps { result.keeps ≡ keeps }
    {
        Server {
            alloc,
            connections: Sessions::new(alloc),
            moment,
            keeps,
        }
    }

    // One event has its turn, and is written; its outputs join what is pending, which is offered; and changed files are written.
    fn turn_over<W, C: Core<W>, F: Files, N: Wire, K: Sink>(
        &mut self,
        core: &mut C,
        swap: &mut W,
        files: &mut F,
        wire: &mut N,
        out: &mut K,
        event: Event,
    ) -> Result<(), End>
        requires running { C.goes core.now swap.now }
        requires may { MayCome event }
        ensures turns { OnOk result ((origin : Origin) (from : Option (List ℕ)) → TurnsOver event (Recorded (C.ran core.old swap.old origin) self.old.keeps from (K.written out.old)) (Recorded (C.ran core.new swap.new origin) self.old.keeps from (K.written out.new)) self.old.connections.sessions self.new.connections.sessions (N.calls wire.old) (N.calls wire.new)) }
        ensures numbers { OnOk result (numbers self.new.connections.sessions ≡ numbers self.old.connections.sessions) }
        ensures highest { self.new.connections.highest ≡ self.old.connections.highest }
        ensures moment { self.new.moment ≡ self.old.moment }
        ensures running { C.goes core.new swap.new }
        ensures keeps { self.new.keeps ≡ self.old.keeps }
        ensures faults { N.faults wire.new ≡ N.faults wire.old }
        ensures first { N.first wire.new ≡ N.first wire.old }
        ensures cut { IfErr result (CutsShort (C.ran core.old swap.old) (λ origin turns. (c : C) × (w : W) × C.ran c w origin turns) self.old.keeps (K.written out.old) (K.written out.new)) }
        ensures output { OutputTells (is_output result) (K.faults out.old) (K.faults out.new) (K.zeros out.old) (K.zeros out.new) }
        ensures files { F.faults files.old ≤ F.faults files.new }
        ensures swap { (from : W) → C.quiet from swap.old → SwapTells result (C.quiet from swap.new) (C.blames core.new from swap.new) }
    {
        let outs = match core.turn(swap, &event) {
            Ok(outs) => outs,
            Err(stop) => return Err(End::Stopped(stop)),
        };
        if write_event(out, self.keeps, event, &outs).is_err() {
            return Err(End::Output);
        }
        if send_outs(&mut self.connections, wire, &outs).is_err() {
            return Err(End::NoMemory);
        }
        match write_changed(self.alloc, core, files) {
            Ok(()) => Ok(()),
            Err(_) => Err(End::NoMemory),
        }
    }

    // Each slow connection is closed and gone, the lowest first.
    fn settle<W, C: Core<W>, F: Files, N: Wire, K: Sink>(
        &mut self,
        core: &mut C,
        swap: &mut W,
        files: &mut F,
        wire: &mut N,
        out: &mut K,
    ) -> Result<(), End>
        requires running { C.goes core.now swap.now }
        ensures goes { OnOk result ((origin : Origin) (from : Option (List ℕ)) → Goes settled (Recorded (C.ran core.old swap.old origin) self.old.keeps from (K.written out.old)) (Recorded (C.ran core.new swap.new origin) self.old.keeps from (K.written out.new)) self.old.connections.sessions self.new.connections.sessions (N.calls wire.old) (N.calls wire.new)) }
        ensures highest { self.new.connections.highest ≡ self.old.connections.highest }
        ensures moment { self.new.moment ≡ self.old.moment }
        ensures running { C.goes core.new swap.new }
        ensures keeps { self.new.keeps ≡ self.old.keeps }
        ensures faults { N.faults wire.new ≡ N.faults wire.old }
        ensures first { N.first wire.new ≡ N.first wire.old }
        ensures cut { IfErr result (CutsShort (C.ran core.old swap.old) (λ origin turns. (c : C) × (w : W) × C.ran c w origin turns) self.old.keeps (K.written out.old) (K.written out.new)) }
        ensures output { OutputTells (is_output result) (K.faults out.old) (K.faults out.new) (K.zeros out.old) (K.zeros out.new) }
        ensures files { F.faults files.old ≤ F.faults files.new }
        ensures swap { (from : W) → C.quiet from swap.old → SwapTells result (C.quiet from swap.new) (C.blames core.new from swap.new) }
    {
        match self.connections.slowest() {
            Some(i) => {
                let gone = self.connections.remove(i);
                let k = gone.number;
                drop(gone);
                wire.close(k);
                self.turn_over(core, swap, files, wire, out, Event::Gone(k))?;
                self.settle(core, swap, files, wire, out)
            }
            None => Ok(()),
        }
    }

    /// One event has its turn, and then each slow connection is closed and gone, the lowest first.
    pub fn event<W, C: Core<W>, F: Files, N: Wire, K: Sink>(
        &mut self,
        core: &mut C,
        swap: &mut W,
        files: &mut F,
        wire: &mut N,
        out: &mut K,
        event: Event,
    ) -> Result<(), End>
        requires running { C.goes core.now swap.now }
        requires may { MayCome event }
        ensures goes { OnOk result ((origin : Origin) (from : Option (List ℕ)) → Goes (turn_course event) (Recorded (C.ran core.old swap.old origin) self.old.keeps from (K.written out.old)) (Recorded (C.ran core.new swap.new origin) self.old.keeps from (K.written out.new)) self.old.connections.sessions self.new.connections.sessions (N.calls wire.old) (N.calls wire.new)) }
        ensures highest { self.new.connections.highest ≡ self.old.connections.highest }
        ensures moment { self.new.moment ≡ self.old.moment }
        ensures running { C.goes core.new swap.new }
        ensures keeps { self.new.keeps ≡ self.old.keeps }
        ensures faults { N.faults wire.new ≡ N.faults wire.old }
        ensures first { N.first wire.new ≡ N.first wire.old }
        ensures cut { IfErr result (CutsShort (C.ran core.old swap.old) (λ origin turns. (c : C) × (w : W) × C.ran c w origin turns) self.old.keeps (K.written out.old) (K.written out.new)) }
        ensures output { OutputTells (is_output result) (K.faults out.old) (K.faults out.new) (K.zeros out.old) (K.zeros out.new) }
        ensures files { F.faults files.old ≤ F.faults files.new }
        ensures swap { (from : W) → C.quiet from swap.old → SwapTells result (C.quiet from swap.new) (C.blames core.new from swap.new) }
    {
        self.turn_over(core, swap, files, wire, out, event)?;
        self.settle(core, swap, files, wire, out)
    }

    /// A connection opens.
    pub fn accept<W, C: Core<W>, F: Files, N: Wire, K: Sink>(
        &mut self,
        core: &mut C,
        swap: &mut W,
        files: &mut F,
        wire: &mut N,
        out: &mut K,
        k: u32,
    ) -> Result<(), End>
        requires running { C.goes core.now swap.now }
        requires number { 0 < k }
        ensures goes { OnOk result ((origin : Origin) (from : Option (List ℕ)) → Happens (λ slow h. accept_heard slow k h) (Recorded (C.ran core.old swap.old origin) self.old.keeps from (K.written out.old)) (Recorded (C.ran core.new swap.new origin) self.old.keeps from (K.written out.new)) self.old.connections.sessions self.old.connections.highest self.old.moment self.new.connections.sessions self.new.connections.highest self.new.moment (N.calls wire.old) (N.calls wire.new)) }
        ensures running { C.goes core.new swap.new }
        ensures keeps { self.new.keeps ≡ self.old.keeps }
        ensures faults { N.faults wire.new ≡ N.faults wire.old }
        ensures first { N.first wire.new ≡ N.first wire.old }
        ensures cut { IfErr result (CutsShort (C.ran core.old swap.old) (λ origin turns. (c : C) × (w : W) × C.ran c w origin turns) self.old.keeps (K.written out.old) (K.written out.new)) }
        ensures output { OutputTells (is_output result) (K.faults out.old) (K.faults out.new) (K.zeros out.old) (K.zeros out.new) }
        ensures files { F.faults files.old ≤ F.faults files.new }
        ensures swap { (from : W) → C.quiet from swap.old → SwapTells result (C.quiet from swap.new) (C.blames core.new from swap.new) }
    {
        match self.connections.accept(k) {
            Ok(true) => self.event(core, swap, files, wire, out, Event::Connect(k)),
            Ok(false) => Ok(()),
            Err(_) => Err(End::NoMemory),
        }
    }

    // A connection is taken out. One that the driver has closed while not all of its text was taken is closed on the wire.
    fn forget<N: Wire>(&mut self, wire: &mut N, at: usize)
        requires { at < length self.now.connections.sessions }
        ensures rest { self.new ≡ record self.old { connections = record self.old.connections { sessions = remove self.old.connections.sessions at } } }
        ensures calls { Forgets (N.calls wire.old) (N.calls wire.new) }
        ensures faults { N.faults wire.new ≡ N.faults wire.old }
        ensures first { N.first wire.new ≡ N.first wire.old }
    {
        let gone = self.connections.remove(at);
        let k = gone.number;
        let phase = gone.phase;
        drop(gone);
        match phase {
            Phase::Open => {}
            Phase::Closing => wire.close(k),
            Phase::Over => {}
        }
    }

    /// A connection was lost.
    pub fn lose<W, C: Core<W>, F: Files, N: Wire, K: Sink>(
        &mut self,
        core: &mut C,
        swap: &mut W,
        files: &mut F,
        wire: &mut N,
        out: &mut K,
        k: u32,
    ) -> Result<(), End>
        requires running { C.goes core.now swap.now }
        requires number { 0 < k }
        ensures goes { OnOk result ((origin : Origin) (from : Option (List ℕ)) → Happens (λ slow h. lost_heard slow k h) (Recorded (C.ran core.old swap.old origin) self.old.keeps from (K.written out.old)) (Recorded (C.ran core.new swap.new origin) self.old.keeps from (K.written out.new)) self.old.connections.sessions self.old.connections.highest self.old.moment self.new.connections.sessions self.new.connections.highest self.new.moment (N.calls wire.old) (N.calls wire.new)) }
        ensures running { C.goes core.new swap.new }
        ensures keeps { self.new.keeps ≡ self.old.keeps }
        ensures faults { N.faults wire.new ≡ N.faults wire.old }
        ensures first { N.first wire.new ≡ N.first wire.old }
        ensures cut { IfErr result (CutsShort (C.ran core.old swap.old) (λ origin turns. (c : C) × (w : W) × C.ran c w origin turns) self.old.keeps (K.written out.old) (K.written out.new)) }
        ensures output { OutputTells (is_output result) (K.faults out.old) (K.faults out.new) (K.zeros out.old) (K.zeros out.new) }
        ensures files { F.faults files.old ≤ F.faults files.new }
        ensures swap { (from : W) → C.quiet from swap.old → SwapTells result (C.quiet from swap.new) (C.blames core.new from swap.new) }
    {
        match self.connections.place_of(k) {
            Some(i) => {
                self.forget(wire, i);
                self.event(core, swap, files, wire, out, Event::Gone(k))
            }
            None => Ok(()),
        }
    }

    /// The clock has reached a moment. One that falls, or is above 10^12, is passed over.
    pub fn tick<W, C: Core<W>, F: Files, N: Wire, K: Sink>(
        &mut self,
        core: &mut C,
        swap: &mut W,
        files: &mut F,
        wire: &mut N,
        out: &mut K,
        moment: u64,
    ) -> Result<(), End>
        requires running { C.goes core.now swap.now }
        ensures goes { OnOk result ((origin : Origin) (from : Option (List ℕ)) → Happens (λ slow h. tick_heard slow moment h) (Recorded (C.ran core.old swap.old origin) self.old.keeps from (K.written out.old)) (Recorded (C.ran core.new swap.new origin) self.old.keeps from (K.written out.new)) self.old.connections.sessions self.old.connections.highest self.old.moment self.new.connections.sessions self.new.connections.highest self.new.moment (N.calls wire.old) (N.calls wire.new)) }
        ensures running { C.goes core.new swap.new }
        ensures keeps { self.new.keeps ≡ self.old.keeps }
        ensures faults { N.faults wire.new ≡ N.faults wire.old }
        ensures first { N.first wire.new ≡ N.first wire.old }
        ensures cut { IfErr result (CutsShort (C.ran core.old swap.old) (λ origin turns. (c : C) × (w : W) × C.ran c w origin turns) self.old.keeps (K.written out.old) (K.written out.new)) }
        ensures output { OutputTells (is_output result) (K.faults out.old) (K.faults out.new) (K.zeros out.old) (K.zeros out.new) }
        ensures files { F.faults files.old ≤ F.faults files.new }
        ensures swap { (from : W) → C.quiet from swap.old → SwapTells result (C.quiet from swap.new) (C.blames core.new from swap.new) }
    {
        if moment < self.moment {
            return Ok(());
        }
        if moment > 1_000_000_000_000 {
            return Ok(());
        }
        self.moment = moment;
        self.event(core, swap, files, wire, out, Event::Tick(moment))
    }

    // Whether lines of a connection are events.
    fn is_open(&self, k: u32) -> bool
        ensures { (hi mo : ℕ) (h : Hearing) (l : List WireCall) → Serving self.now.connections.sessions hi mo h l → is_open k h ≡ result }
    {
        match self.connections.place_of(k) {
            Some(i) => match self.connections.phase(i) {
                Phase::Open => true,
                Phase::Closing => false,
                Phase::Over => false,
            },
            None => false,
        }
    }

    // One line of a connection.
    fn line<W, C: Core<W>, F: Files, N: Wire, K: Sink>(
        &mut self,
        core: &mut C,
        swap: &mut W,
        files: &mut F,
        wire: &mut N,
        out: &mut K,
        k: u32,
        line: &[u8],
    ) -> Result<(), End>
        requires running { C.goes core.now swap.now }
        ensures goes { OnOk result ((origin : Origin) (from : Option (List ℕ)) → Happens (λ slow h. line_heard slow k line.now h) (Recorded (C.ran core.old swap.old origin) self.old.keeps from (K.written out.old)) (Recorded (C.ran core.new swap.new origin) self.old.keeps from (K.written out.new)) self.old.connections.sessions self.old.connections.highest self.old.moment self.new.connections.sessions self.new.connections.highest self.new.moment (N.calls wire.old) (N.calls wire.new)) }
        ensures running { C.goes core.new swap.new }
        ensures keeps { self.new.keeps ≡ self.old.keeps }
        ensures faults { N.faults wire.new ≡ N.faults wire.old }
        ensures first { N.first wire.new ≡ N.first wire.old }
        ensures cut { IfErr result (CutsShort (C.ran core.old swap.old) (λ origin turns. (c : C) × (w : W) × C.ran c w origin turns) self.old.keeps (K.written out.old) (K.written out.new)) }
        ensures output { OutputTells (is_output result) (K.faults out.old) (K.faults out.new) (K.zeros out.old) (K.zeros out.new) }
        ensures files { F.faults files.old ≤ F.faults files.new }
        ensures swap { (from : W) → C.quiet from swap.old → SwapTells result (C.quiet from swap.new) (C.blames core.new from swap.new) }
    {
        if !self.is_open(k) {
            return Ok(());
        }
        match Octets::from_slice(self.alloc, line) {
            Ok(bytes) => self.event(core, swap, files, wire, out, Event::Line(k, bytes)),
            Err(_) => Err(End::NoMemory),
        }
    }

    // Lines of a connection, one after another.
    fn lines<W, C: Core<W>, F: Files, N: Wire, K: Sink>(
        &mut self,
        core: &mut C,
        swap: &mut W,
        files: &mut F,
        wire: &mut N,
        out: &mut K,
        k: u32,
        lines: &[lp_io::Octets],
    ) -> Result<(), End>
        requires running { C.goes core.now swap.now }
        ensures goes { OnOk result ((origin : Origin) (from : Option (List ℕ)) → Happens (λ slow h. lines_heard slow k lines.now h) (Recorded (C.ran core.old swap.old origin) self.old.keeps from (K.written out.old)) (Recorded (C.ran core.new swap.new origin) self.old.keeps from (K.written out.new)) self.old.connections.sessions self.old.connections.highest self.old.moment self.new.connections.sessions self.new.connections.highest self.new.moment (N.calls wire.old) (N.calls wire.new)) }
        ensures running { C.goes core.new swap.new }
        ensures keeps { self.new.keeps ≡ self.old.keeps }
        ensures faults { N.faults wire.new ≡ N.faults wire.old }
        ensures first { N.first wire.new ≡ N.first wire.old }
        ensures cut { IfErr result (CutsShort (C.ran core.old swap.old) (λ origin turns. (c : C) × (w : W) × C.ran c w origin turns) self.old.keeps (K.written out.old) (K.written out.new)) }
        ensures output { OutputTells (is_output result) (K.faults out.old) (K.faults out.new) (K.zeros out.old) (K.zeros out.new) }
        ensures files { F.faults files.old ≤ F.faults files.new }
        ensures swap { (from : W) → C.quiet from swap.old → SwapTells result (C.quiet from swap.new) (C.blames core.new from swap.new) }
    {
        for line in lines {
            match self.line(core, swap, files, wire, out, k, line.as_slice()) {
                Ok(()) => {}
                Err(end) => return Err(end),
            }
        }
        Ok(())
    }

    /// A piece of a connection's stream.
    pub fn piece<W, C: Core<W>, F: Files, N: Wire, K: Sink>(
        &mut self,
        core: &mut C,
        swap: &mut W,
        files: &mut F,
        wire: &mut N,
        out: &mut K,
        k: u32,
        bytes: &[u8],
    ) -> Result<(), End>
        requires running { C.goes core.now swap.now }
        requires number { 0 < k }
        ensures goes { OnOk result ((origin : Origin) (from : Option (List ℕ)) → Happens (λ slow h. piece_heard slow k bytes.now h) (Recorded (C.ran core.old swap.old origin) self.old.keeps from (K.written out.old)) (Recorded (C.ran core.new swap.new origin) self.old.keeps from (K.written out.new)) self.old.connections.sessions self.old.connections.highest self.old.moment self.new.connections.sessions self.new.connections.highest self.new.moment (N.calls wire.old) (N.calls wire.new)) }
        ensures running { C.goes core.new swap.new }
        ensures keeps { self.new.keeps ≡ self.old.keeps }
        ensures faults { N.faults wire.new ≡ N.faults wire.old }
        ensures first { N.first wire.new ≡ N.first wire.old }
        ensures cut { IfErr result (CutsShort (C.ran core.old swap.old) (λ origin turns. (c : C) × (w : W) × C.ran c w origin turns) self.old.keeps (K.written out.old) (K.written out.new)) }
        ensures output { OutputTells (is_output result) (K.faults out.old) (K.faults out.new) (K.zeros out.old) (K.zeros out.new) }
        ensures files { F.faults files.old ≤ F.faults files.new }
        ensures swap { (from : W) → C.quiet from swap.old → SwapTells result (C.quiet from swap.new) (C.blames core.new from swap.new) }
    {
        match self.connections.place_of(k) {
            None => Ok(()),
            Some(i) => match self.connections.feed(i, bytes) {
                Ok(lines) => self.lines(core, swap, files, wire, out, k, lines.as_slice()),
                Err(_) => Err(End::NoMemory),
            },
        }
    }
}

//! A game that is served: its players, its clock and its operator.
ghost use Rattle.std.specs.Prelude.{◌≡◌, ◌≤◌, ℕ, List, Option, Some, IfErr, IfOk, OnOk, true, false};
ghost use Rattle.lp_core.specs.Turning.{Origin};
ghost use Rattle.lp_words.specs.Paths.{is_path as is_path_lem};
ghost use Rattle.lp_wire.specs.Heard.{accept_heard, happening_heard, lost_heard, order_heard, order_lines_heard, order_of as order_of_lem, piece_heard, reload_heard, ReloadFile};
ghost use Rattle.lp_control.specs.Operator.{TellsOperator, new_operator, with_answer};
ghost use Rattle.lp_sessions.specs.Table.{no_connections};
ghost use Rattle.lp_serving.specs.Causes.{OutputTells, SwapTells, is_output};
ghost use Rattle.lp_serving.specs.CutShort.{CutsShort};
ghost use Rattle.lp_serving.specs.Recorded.{Recorded};
ghost use Rattle.lp_serving.specs.declared.server.End.TheVariants.{NoMemory};
ghost use Rattle.lp_serve.specs.Standing.{Does, TellsAgain};

use lp_control::{Control, Order, order_of};
use lp_core::Core;
use lp_events::event::Event;
use lp_events::octets::Octets;
use lp_folder::outside::{Files, FilesError};
use lp_io::Sink;
use lp_recording::Keeps;
use lp_serving::{End, Server};
use lp_tree::path::FilePath;
use lp_wire::{Happening, Wire};
use lp_words::path::is_path;
use std::alloc::{AllocError, Global};

/// What a served run keeps: of its players and its clock, and of its operator.
#[derive(Drop)]
pub struct Game {
    alloc: Global,
    /// The connections of players, and the clock.
    pub server: Server,
    /// The operator's connection.
    pub control: Control,
}

// A path of its own, from a word that is one.
#[tactic(auto, using(lp_script::proofs::Ascii::is_path_utf8))]
fn path_of(alloc: Global, word: &[u8]) -> Result<FilePath, AllocError>
    requires { is_path_lem word.now ≡ true }
    ensures { IfOk result (λ path. path ≡ word.now) }
{
    match std::str::from_utf8(word) {
        Ok(text) => FilePath::from_str(alloc, text),
        Err(_) => unreachable!(),
    }
}

impl Game {
    /// Before the first happening. Takes no memory.
    pub fn new(alloc: Global, moment: u64, keeps: Keeps) -> Game
        ensures connections { result.server.connections ≡ no_connections }
        ensures moment { result.server.moment ≡ moment }
        ensures keeps { result.server.keeps ≡ keeps }
        ensures control { result.control ≡ new_operator }
    {
        Game {
            alloc,
            server: Server::new(alloc, moment, keeps),
            control: Control::new(alloc),
        }
    }

    // The operator is answered, and all that is pending for it is offered.
    fn answer<N: Wire>(&mut self, wire: &mut N, text: &[u8]) -> Result<(), End>
        ensures tells { OnOk result (TellsOperator (with_answer text.now self.old.control) self.new.control (N.calls wire.old) (N.calls wire.new)) }
        ensures rest { self.new ≡ record self.old { control = self.new.control } }
        ensures faults { N.faults wire.new ≡ N.faults wire.old }
        ensures first { N.first wire.new ≡ N.first wire.old }
        ensures memory { IfErr result (λ end. end ≡ NoMemory) }
    {
        match self.control.answer(text) {
            Ok(()) => {
                self.control.offer(wire);
                Ok(())
            }
            Err(_) => Err(End::NoMemory),
        }
    }

    // A file that the operator asked for was read: it is an event, and is answered.
    fn reloaded<W, C: Core<W>, F: Files, N: Wire, K: Sink>(
        &mut self,
        core: &mut C,
        swap: &mut W,
        files: &mut F,
        wire: &mut N,
        out: &mut K,
        path: FilePath,
        bytes: Octets,
    ) -> Result<(), End>
        requires running { C.goes core.now swap.now }
        ensures does { OnOk result ((origin : Origin) (from : Option (List ℕ)) → Does (λ slow h. reload_heard slow path h (Some bytes)) (Recorded (C.ran core.old swap.old origin) self.old.server.keeps from (K.written out.old)) (Recorded (C.ran core.new swap.new origin) self.old.server.keeps from (K.written out.new)) self.old self.new false (N.calls wire.old) (N.calls wire.new)) }
        ensures running { C.goes core.new swap.new }
        ensures keeps { self.new.server.keeps ≡ self.old.server.keeps }
        ensures faults { N.faults wire.new ≡ N.faults wire.old }
        ensures first { N.first wire.new ≡ N.first wire.old }
        ensures cut { IfErr result (CutsShort (C.ran core.old swap.old) (λ origin turns. (c : C) × (w : W) × C.ran c w origin turns) self.old.server.keeps (K.written out.old) (K.written out.new)) }
        ensures output { OutputTells (is_output result) (K.faults out.old) (K.faults out.new) (K.zeros out.old) (K.zeros out.new) }
        ensures files { F.faults files.old ≤ F.faults files.new }
        ensures swap { (from : W) → C.quiet from swap.old → SwapTells result (C.quiet from swap.new) (C.blames core.new from swap.new) }
    {
        self.server
            .event(core, swap, files, wire, out, Event::Reload(path, bytes))?;
        self.answer(wire, b"ok\n")
    }

    // The operator asks for a file to be read again.
    fn reload<W, C: Core<W>, F: Files, N: Wire, K: Sink>(
        &mut self,
        core: &mut C,
        swap: &mut W,
        files: &mut F,
        wire: &mut N,
        out: &mut K,
        word: &[u8],
    ) -> Result<(), End>
        requires running { C.goes core.now swap.now }
        ensures does { OnOk result ((origin : Origin) (from : Option (List ℕ)) → Does (λ slow h. order_heard slow (ReloadFile word.now) h) (Recorded (C.ran core.old swap.old origin) self.old.server.keeps from (K.written out.old)) (Recorded (C.ran core.new swap.new origin) self.old.server.keeps from (K.written out.new)) self.old self.new false (N.calls wire.old) (N.calls wire.new)) }
        ensures running { C.goes core.new swap.new }
        ensures keeps { self.new.server.keeps ≡ self.old.server.keeps }
        ensures faults { N.faults wire.new ≡ N.faults wire.old }
        ensures first { N.first wire.new ≡ N.first wire.old }
        ensures cut { IfErr result (CutsShort (C.ran core.old swap.old) (λ origin turns. (c : C) × (w : W) × C.ran c w origin turns) self.old.server.keeps (K.written out.old) (K.written out.new)) }
        ensures output { OutputTells (is_output result) (K.faults out.old) (K.faults out.new) (K.zeros out.old) (K.zeros out.new) }
        ensures files { F.faults files.old ≤ F.faults files.new }
        ensures swap { (from : W) → C.quiet from swap.old → SwapTells result (C.quiet from swap.new) (C.blames core.new from swap.new) }
    {
        if !is_path(word) {
            return self.answer(wire, b"reload failed\n");
        }
        let path = match path_of(self.alloc, word) {
            Ok(path) => path,
            Err(_) => return Err(End::NoMemory),
        };
        match files.read(path.as_str()) {
            Ok(bytes) => self.reloaded(core, swap, files, wire, out, path, bytes),
            Err(FilesError::Failed) => self.answer(wire, b"reload failed\n"),
            Err(FilesError::NoMemory) => Err(End::NoMemory),
        }
    }

    // One line of the operator; whether it stops the run.
    fn order<W, C: Core<W>, F: Files, N: Wire, K: Sink>(
        &mut self,
        core: &mut C,
        swap: &mut W,
        files: &mut F,
        wire: &mut N,
        out: &mut K,
        line: &[u8],
    ) -> Result<bool, End>
        requires running { C.goes core.now swap.now }
        ensures does { IfOk result (λ stops. (origin : Origin) (from : Option (List ℕ)) → Does (λ slow h. order_heard slow (order_of_lem line.now) h) (Recorded (C.ran core.old swap.old origin) self.old.server.keeps from (K.written out.old)) (Recorded (C.ran core.new swap.new origin) self.old.server.keeps from (K.written out.new)) self.old self.new stops (N.calls wire.old) (N.calls wire.new)) }
        ensures running { C.goes core.new swap.new }
        ensures keeps { self.new.server.keeps ≡ self.old.server.keeps }
        ensures faults { N.faults wire.new ≡ N.faults wire.old }
        ensures first { N.first wire.new ≡ N.first wire.old }
        ensures cut { IfErr result (CutsShort (C.ran core.old swap.old) (λ origin turns. (c : C) × (w : W) × C.ran c w origin turns) self.old.server.keeps (K.written out.old) (K.written out.new)) }
        ensures output { OutputTells (is_output result) (K.faults out.old) (K.faults out.new) (K.zeros out.old) (K.zeros out.new) }
        ensures files { F.faults files.old ≤ F.faults files.new }
        ensures swap { (from : W) → C.quiet from swap.old → SwapTells result (C.quiet from swap.new) (C.blames core.new from swap.new) }
    {
        match order_of(line) {
            Order::Stop => Ok(true),
            Order::Reload(word) => {
                self.reload(core, swap, files, wire, out, word)?;
                Ok(false)
            }
            Order::Unknown => {
                self.answer(wire, b"unknown\n")?;
                Ok(false)
            }
        }
    }

    // Lines of the operator, up to one that stops the run; whether one does.
    fn orders<W, C: Core<W>, F: Files, N: Wire, K: Sink>(
        &mut self,
        core: &mut C,
        swap: &mut W,
        files: &mut F,
        wire: &mut N,
        out: &mut K,
        lines: &[lp_io::Octets],
    ) -> Result<bool, End>
        requires running { C.goes core.now swap.now }
        ensures does { IfOk result (λ stops. (origin : Origin) (from : Option (List ℕ)) → Does (λ slow h. order_lines_heard slow lines.now h) (Recorded (C.ran core.old swap.old origin) self.old.server.keeps from (K.written out.old)) (Recorded (C.ran core.new swap.new origin) self.old.server.keeps from (K.written out.new)) self.old self.new stops (N.calls wire.old) (N.calls wire.new)) }
        ensures running { C.goes core.new swap.new }
        ensures keeps { self.new.server.keeps ≡ self.old.server.keeps }
        ensures faults { N.faults wire.new ≡ N.faults wire.old }
        ensures first { N.first wire.new ≡ N.first wire.old }
        ensures cut { IfErr result (CutsShort (C.ran core.old swap.old) (λ origin turns. (c : C) × (w : W) × C.ran c w origin turns) self.old.server.keeps (K.written out.old) (K.written out.new)) }
        ensures output { OutputTells (is_output result) (K.faults out.old) (K.faults out.new) (K.zeros out.old) (K.zeros out.new) }
        ensures files { F.faults files.old ≤ F.faults files.new }
        ensures swap { (from : W) → C.quiet from swap.old → SwapTells result (C.quiet from swap.new) (C.blames core.new from swap.new) }
    {
        for line in lines {
            let stops = match self.order(core, swap, files, wire, out, line.as_slice()) {
                Ok(stops) => stops,
                Err(end) => return Err(end),
            };
            if stops {
                return Ok(true);
            }
        }
        Ok(false)
    }

    // A piece of a stream; whether it stops the run.
    fn piece<W, C: Core<W>, F: Files, N: Wire, K: Sink>(
        &mut self,
        core: &mut C,
        swap: &mut W,
        files: &mut F,
        wire: &mut N,
        out: &mut K,
        k: u32,
        bytes: &[u8],
    ) -> Result<bool, End>
        requires running { C.goes core.now swap.now }
        ensures does { IfOk result (λ stops. (origin : Origin) (from : Option (List ℕ)) → Does (λ slow h. piece_heard slow k bytes.now h) (Recorded (C.ran core.old swap.old origin) self.old.server.keeps from (K.written out.old)) (Recorded (C.ran core.new swap.new origin) self.old.server.keeps from (K.written out.new)) self.old self.new stops (N.calls wire.old) (N.calls wire.new)) }
        ensures running { C.goes core.new swap.new }
        ensures keeps { self.new.server.keeps ≡ self.old.server.keeps }
        ensures faults { N.faults wire.new ≡ N.faults wire.old }
        ensures first { N.first wire.new ≡ N.first wire.old }
        ensures cut { IfErr result (CutsShort (C.ran core.old swap.old) (λ origin turns. (c : C) × (w : W) × C.ran c w origin turns) self.old.server.keeps (K.written out.old) (K.written out.new)) }
        ensures output { OutputTells (is_output result) (K.faults out.old) (K.faults out.new) (K.zeros out.old) (K.zeros out.new) }
        ensures files { F.faults files.old ≤ F.faults files.new }
        ensures swap { (from : W) → C.quiet from swap.old → SwapTells result (C.quiet from swap.new) (C.blames core.new from swap.new) }
    {
        if k != 0 {
            self.server.piece(core, swap, files, wire, out, k, bytes)?;
            return Ok(false);
        }
        match self.control.feed(bytes) {
            Ok(lines) => self.orders(core, swap, files, wire, out, lines.as_slice()),
            Err(_) => Err(End::NoMemory),
        }
    }

    // A connection opens; the operator's begins anew.
    fn accept<W, C: Core<W>, F: Files, N: Wire, K: Sink>(
        &mut self,
        core: &mut C,
        swap: &mut W,
        files: &mut F,
        wire: &mut N,
        out: &mut K,
        k: u32,
    ) -> Result<(), End>
        requires running { C.goes core.now swap.now }
        ensures does { OnOk result ((origin : Origin) (from : Option (List ℕ)) → Does (λ slow h. accept_heard slow k h) (Recorded (C.ran core.old swap.old origin) self.old.server.keeps from (K.written out.old)) (Recorded (C.ran core.new swap.new origin) self.old.server.keeps from (K.written out.new)) self.old self.new false (N.calls wire.old) (N.calls wire.new)) }
        ensures running { C.goes core.new swap.new }
        ensures keeps { self.new.server.keeps ≡ self.old.server.keeps }
        ensures faults { N.faults wire.new ≡ N.faults wire.old }
        ensures first { N.first wire.new ≡ N.first wire.old }
        ensures cut { IfErr result (CutsShort (C.ran core.old swap.old) (λ origin turns. (c : C) × (w : W) × C.ran c w origin turns) self.old.server.keeps (K.written out.old) (K.written out.new)) }
        ensures output { OutputTells (is_output result) (K.faults out.old) (K.faults out.new) (K.zeros out.old) (K.zeros out.new) }
        ensures files { F.faults files.old ≤ F.faults files.new }
        ensures swap { (from : W) → C.quiet from swap.old → SwapTells result (C.quiet from swap.new) (C.blames core.new from swap.new) }
    {
        if k == 0 {
            self.control.renew();
            return Ok(());
        }
        self.server.accept(core, swap, files, wire, out, k)
    }

    // A connection was lost; the operator's begins anew.
    fn lose<W, C: Core<W>, F: Files, N: Wire, K: Sink>(
        &mut self,
        core: &mut C,
        swap: &mut W,
        files: &mut F,
        wire: &mut N,
        out: &mut K,
        k: u32,
    ) -> Result<(), End>
        requires running { C.goes core.now swap.now }
        ensures does { OnOk result ((origin : Origin) (from : Option (List ℕ)) → Does (λ slow h. lost_heard slow k h) (Recorded (C.ran core.old swap.old origin) self.old.server.keeps from (K.written out.old)) (Recorded (C.ran core.new swap.new origin) self.old.server.keeps from (K.written out.new)) self.old self.new false (N.calls wire.old) (N.calls wire.new)) }
        ensures running { C.goes core.new swap.new }
        ensures keeps { self.new.server.keeps ≡ self.old.server.keeps }
        ensures faults { N.faults wire.new ≡ N.faults wire.old }
        ensures first { N.first wire.new ≡ N.first wire.old }
        ensures cut { IfErr result (CutsShort (C.ran core.old swap.old) (λ origin turns. (c : C) × (w : W) × C.ran c w origin turns) self.old.server.keeps (K.written out.old) (K.written out.new)) }
        ensures output { OutputTells (is_output result) (K.faults out.old) (K.faults out.new) (K.zeros out.old) (K.zeros out.new) }
        ensures files { F.faults files.old ≤ F.faults files.new }
        ensures swap { (from : W) → C.quiet from swap.old → SwapTells result (C.quiet from swap.new) (C.blames core.new from swap.new) }
    {
        if k == 0 {
            self.control.renew();
            return Ok(());
        }
        self.server.lose(core, swap, files, wire, out, k)
    }

    /// One happening; whether it stops the run.
    pub fn happen<W, C: Core<W>, F: Files, N: Wire, K: Sink>(
        &mut self,
        core: &mut C,
        swap: &mut W,
        files: &mut F,
        wire: &mut N,
        out: &mut K,
        happening: &Happening,
    ) -> Result<bool, End>
        requires running { C.goes core.now swap.now }
        ensures does { IfOk result (λ stops. (origin : Origin) (from : Option (List ℕ)) → Does (λ slow h. happening_heard slow happening.now h) (Recorded (C.ran core.old swap.old origin) self.old.server.keeps from (K.written out.old)) (Recorded (C.ran core.new swap.new origin) self.old.server.keeps from (K.written out.new)) self.old self.new stops (N.calls wire.old) (N.calls wire.new)) }
        ensures running { C.goes core.new swap.new }
        ensures keeps { self.new.server.keeps ≡ self.old.server.keeps }
        ensures faults { N.faults wire.new ≡ N.faults wire.old }
        ensures first { N.first wire.new ≡ N.first wire.old }
        ensures cut { IfErr result (CutsShort (C.ran core.old swap.old) (λ origin turns. (c : C) × (w : W) × C.ran c w origin turns) self.old.server.keeps (K.written out.old) (K.written out.new)) }
        ensures output { OutputTells (is_output result) (K.faults out.old) (K.faults out.new) (K.zeros out.old) (K.zeros out.new) }
        ensures files { F.faults files.old ≤ F.faults files.new }
        ensures swap { (from : W) → C.quiet from swap.old → SwapTells result (C.quiet from swap.new) (C.blames core.new from swap.new) }
    {
        match happening {
            Happening::Accept(k) => self.accept(core, swap, files, wire, out, *k)?,
            Happening::Piece(k, bytes) => return self.piece(
                core,
                swap,
                files,
                wire,
                out,
                *k,
                bytes.as_slice(),
            ),
            Happening::Lost(k) => self.lose(core, swap, files, wire, out, *k)?,
            Happening::Tick(moment) => self.server.tick(core, swap, files, wire, out, *moment)?,
            Happening::Idle => {}
        }
        Ok(false)
    }

    /// What is pending is offered once more, to the connections and to the operator. Takes no memory.
    pub fn offer<N: Wire>(&mut self, wire: &mut N)
        ensures tells { TellsAgain self.old self.new (N.calls wire.old) (N.calls wire.new) }
        ensures keeps { self.new.server.keeps ≡ self.old.server.keeps }
        ensures faults { N.faults wire.new ≡ N.faults wire.old }
        ensures first { N.first wire.new ≡ N.first wire.old }
    {
        self.server.connections.offer_all(wire);
        self.control.offer(wire);
    }
}

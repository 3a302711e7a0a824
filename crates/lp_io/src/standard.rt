//! Sources and sinks over std's readers and writers. They tell no content; a clause of their own
//! passes on what std says of the bytes of such a reader or writer.
ghost use Rattle.std.specs.Prelude.{◌≡◌, ◌≤◌, length, None, IfOk};
ghost use Rattle.std.specs.Result.{is_err};
ghost use Rattle.std.specs.Io.KnownBytes.{Keeps, ReadConsumes, WriteAppends};
ghost use Rattle.lp_io.specs.Counts.{Counts};
ghost use Rattle.lp_io.specs.Told.{took_none};

use crate::outside::{Failed, Sink, Source};
use std::io::{Read, Write};
use std::marker::Model;

/// A source over a reader. Each error of the reader, whatever its kind, is a fault.
#[derive(Debug, Drop)]
pub struct StdSource<R> {
    reader: R,
    faults: u64,
}

impl<R> Model for StdSource<R> {
    ghost use Rattle.lp_io.specs.Standard.{OverReader};

    ghost Value = { OverReader R };

    ghost view = { λ s. record { reader = s.reader; faults = s.faults } };
}

impl<R: Read> StdSource<R> {
    /// A source of what the reader gives, without a fault so far. It takes no memory.
    pub fn new(reader: R) -> StdSource<R>
        ensures { result ≡ record { reader = reader; faults = 0 } }
    {
        StdSource { reader, faults: 0 }
    }
}

impl<R: Read> Source for StdSource<R> {
    ghost faults = { λ s. s.faults };

    ghost remaining = { λ _. None };

    /// Gives what one read of the reader gives.
    fn read(&mut self, into: &mut [u8]) -> Result<usize, Failed>
        ensures within { IfOk result (λ n. n ≤ length into.new) }
        ensures passed_on { ReadConsumes (R.remaining self.old.reader) (R.remaining self.new.reader) result into.new }
        ensures faults { Counts (is_err result) self.old.faults self.new.faults }
        ensures no_fall { self.old.faults ≤ self.new.faults }
    {
        match self.reader.read(into) {
            Ok(n) => Ok(n),
            Err(_) => {
                self.faults = self.faults.saturating_add(1);
                Err(Failed)
            }
        }
    }
}

/// A sink over a writer. Each error of the writer, whatever its kind, is a fault.
#[derive(Debug, Drop)]
pub struct StdSink<W> {
    writer: W,
    faults: u64,
    zeros: u64,
}

impl<W> Model for StdSink<W> {
    ghost use Rattle.lp_io.specs.Standard.{OverWriter};

    ghost Value = { OverWriter W };

    ghost view = { λ s. record { writer = s.writer; faults = s.faults; zeros = s.zeros } };
}

impl<W: Write> StdSink<W> {
    /// A sink into the writer, without a fault so far. It takes no memory.
    pub fn new(writer: W) -> StdSink<W>
        ensures { result ≡ record { writer = writer; faults = 0; zeros = 0 } }
    {
        StdSink {
            writer,
            faults: 0,
            zeros: 0,
        }
    }
}

impl<W: Write> Sink for StdSink<W> {
    ghost faults = { λ s. s.faults };

    ghost zeros = { λ s. s.zeros };

    ghost written = { λ _. None };

    ghost passed = { λ _. None };

    /// Takes what one write of the writer takes.
    fn write(&mut self, piece: &[u8]) -> Result<usize, Failed>
        ensures within { IfOk result (λ n. n ≤ length piece.now) }
        ensures passed_on { WriteAppends (W.contents self.old.writer) (W.contents self.new.writer) result piece.now }
        ensures faults { Counts (is_err result) self.old.faults self.new.faults }
        ensures no_fall { self.old.faults ≤ self.new.faults }
        ensures zeros { Counts (took_none piece.now result) self.old.zeros self.new.zeros }
        ensures zeros_no_fall { self.old.zeros ≤ self.new.zeros }
    {
        match self.writer.write(piece) {
            Ok(n) => {
                if n == 0 && !piece.is_empty() {
                    self.zeros = self.zeros.saturating_add(1);
                }
                Ok(n)
            }
            Err(_) => {
                self.faults = self.faults.saturating_add(1);
                Err(Failed)
            }
        }
    }

    /// Flushes the writer.
    fn flush(&mut self) -> Result<(), Failed>
        ensures passed_on { Keeps (W.contents self.old.writer) (W.contents self.new.writer) }
        ensures faults { Counts (is_err result) self.old.faults self.new.faults }
        ensures no_fall { self.old.faults ≤ self.new.faults }
        ensures zeros { self.new.zeros ≡ self.old.zeros }
    {
        match self.writer.flush() {
            Ok(()) => Ok(()),
            Err(_) => {
                self.faults = self.faults.saturating_add(1);
                Err(Failed)
            }
        }
    }
}

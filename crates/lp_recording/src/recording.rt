//! The record of a served run, or its log where there is no record.
ghost use Rattle.std.specs.Prelude.{◌≡◌, ◌≤◌, OnErr, OnOk, map};
ghost use Rattle.lp_io.specs.Counts.{Counts};
ghost use Rattle.lp_io.specs.Told.{IsPassedOn, after_adding, is_failed, is_zero_taken};
ghost use Rattle.lp_events.specs.Script.{spelling, spellings};
ghost use Rattle.lp_wire.specs.Record.{file_item, log_bytes, logged, opening_items};
ghost use Rattle.lp_script.specs.Put.{Puts};
ghost use Rattle.lp_recording.specs.Recorded.{IsFrontOf, ending, files_in, kept_of};

use crate::put::{put, put_file, put_log};
use lp_events::event::Event;
use lp_events::item::Item;
use lp_events::out::{Out, Outs};
use lp_folder::outside::Loaded;
use lp_io::{Failed, PutFault, Sink};
use lp_script::write_item;

/// What is written of a run.
#[derive(Debug, Clone, Copy, PartialEq, Eq)]
pub enum Keeps {
    /// A record: the script of the run.
    Record,
    /// The log records among its outputs, and nothing else.
    Log,
}

// Writes an item.
fn put_item<K: Sink>(out: &mut K, item: &Item) -> Result<(), PutFault>
    ensures { Puts (record { written = K.written out.old; faults = K.faults out.old; zeros = K.zeros out.old })
        (record { written = K.written out.new; faults = K.faults out.new; zeros = K.zeros out.new })
        result (spelling item.now) }
{
    write_item(out, item)
}

// Writes files as items, one after another.
fn put_files<K: Sink>(out: &mut K, files: &[Loaded]) -> Result<(), PutFault>
    ensures { Puts (record { written = K.written out.old; faults = K.faults out.old; zeros = K.zeros out.old })
        (record { written = K.written out.new; faults = K.faults out.new; zeros = K.zeros out.new })
        result (spellings (map file_item (files_in files.now))) }
{
    for file in files {
        put_file(out, file)?;
    }
    Ok(())
}

/// Writes what a record has before the first event: the head with the seed and the moment, the files in order, and the start. Takes no
/// memory.
///
/// - `Failed`: a write failed, and the count of faults rose.
/// - `ZeroTaken`: a write took no byte of what was left, and the count of such writes rose.
///
/// After either a front of it was written, and at least its last byte was not. No count changes but the one that the answer names.
pub fn write_opening<K: Sink>(
    out: &mut K,
    seed: u64,
    moment: u64,
    files: &[Loaded],
) -> Result<(), PutFault>
    ensures { Puts (record { written = K.written out.old; faults = K.faults out.old; zeros = K.zeros out.old })
        (record { written = K.written out.new; faults = K.faults out.new; zeros = K.zeros out.new })
        result (spellings (opening_items seed moment (files_in files.now))) }
{
    put_item(out, &Item::Head(seed, moment))?;
    put_files(out, files)?;
    put_item(out, &Item::Start)
}

/// Writes the log records among outputs, in order. Takes no memory. It fails as `write_opening`.
pub fn write_logs<K: Sink>(out: &mut K, outs: &Outs) -> Result<(), PutFault>
    ensures { Puts (record { written = K.written out.old; faults = K.faults out.old; zeros = K.zeros out.old })
        (record { written = K.written out.new; faults = K.faults out.new; zeros = K.zeros out.new })
        result (logged outs.now) }
{
    put_logs(out, outs.as_slice())
}

// Writes the log records among outputs, in order.
fn put_logs<K: Sink>(out: &mut K, outs: &[Out]) -> Result<(), PutFault>
    ensures { Puts (record { written = K.written out.old; faults = K.faults out.old; zeros = K.zeros out.old })
        (record { written = K.written out.new; faults = K.faults out.new; zeros = K.zeros out.new })
        result (logged outs.now) }
{
    for output in outs {
        put_logged(out, output)?;
    }
    Ok(())
}

// Writes an output that is a log record, and nothing of another.
fn put_logged<K: Sink>(out: &mut K, output: &Out) -> Result<(), PutFault>
    ensures { Puts (record { written = K.written out.old; faults = K.faults out.old; zeros = K.zeros out.old })
        (record { written = K.written out.new; faults = K.faults out.new; zeros = K.zeros out.new })
        result (log_bytes output.now) }
{
    match output {
        Out::Log(text) => put_log(out, text.as_slice()),
        Out::Text(_, _) => Ok(()),
        Out::Hide(_) => Ok(()),
        Out::Show(_) => Ok(()),
        Out::Close(_) => Ok(()),
    }
}

/// Writes what is kept of an event that had its turn: the event into a record, and else the log records among its outputs. Takes no memory. It
/// fails as `write_opening`.
pub fn write_event<K: Sink>(
    out: &mut K,
    keeps: Keeps,
    event: Event,
    outs: &Outs,
) -> Result<(), PutFault>
    ensures { Puts (record { written = K.written out.old; faults = K.faults out.old; zeros = K.zeros out.old })
        (record { written = K.written out.new; faults = K.faults out.new; zeros = K.zeros out.new })
        result (kept_of keeps event outs.now) }
{
    match keeps {
        Keeps::Record => put_item(out, &Item::Event(event)),
        Keeps::Log => write_logs(out, outs),
    }
}

/// Writes the end of a record, of a log nothing, and has the sink pass on what it may hold back. Takes no memory.
///
/// - `Failed`: a write or the flush failed, and the count of faults rose.
/// - `ZeroTaken`: a write took no byte of what was left, and the count of such writes rose.
///
/// After either a front of it was written. No count changes but the one that the answer names.
pub fn write_end<K: Sink>(out: &mut K, keeps: Keeps) -> Result<(), PutFault>
    ensures whole { OnOk result (K.written out.new ≡ after_adding (K.written out.old) (ending keeps)) }
    ensures passed { OnOk result (IsPassedOn (K.passed out.new)) }
    ensures cut { OnErr result (IsFrontOf (ending keeps) (K.written out.old) (K.written out.new)) }
    ensures faults { Counts (is_failed result) (K.faults out.old) (K.faults out.new) }
    ensures no_fall { K.faults out.old ≤ K.faults out.new }
    ensures zeros { Counts (is_zero_taken result) (K.zeros out.old) (K.zeros out.new) }
    ensures zeros_no_fall { K.zeros out.old ≤ K.zeros out.new }
{
    let text: &[u8] = match keeps {
        Keeps::Record => b"end\n",
        Keeps::Log => b"",
    };
    match put(out, text) {
        Ok(()) => match out.flush() {
            Ok(()) => Ok(()),
            Err(Failed) => Err(PutFault::Failed),
        },
        Err(fault) => Err(fault),
    }
}

//! Items of a script as bytes.
ghost use Rattle.std.specs.Prelude.{◌≡◌, ◌≤◌, OnOk, OnErr};
ghost use Rattle.lp_io.specs.Counts.{Counts};
ghost use Rattle.lp_io.specs.Told.{after_adding, IsCut, is_failed, is_zero_taken};
ghost use Rattle.lp_events.specs.Script.{spelling, event_spelling};
ghost use Rattle.lp_script.specs.Put.{Puts};

use crate::put::put_pieces;
use itoa::Buffer;
use lp_events::event::Event;
use lp_events::item::Item;
use lp_io::{PutFault, Sink};

fn put_event<K: Sink>(out: &mut K, event: &Event) -> Result<(), PutFault>
    ensures { Puts (record { written = K.written out.old; faults = K.faults out.old; zeros = K.zeros out.old })
        (record { written = K.written out.new; faults = K.faults out.new; zeros = K.zeros out.new })
        result (event_spelling event.now) }
{
    let mut number = Buffer::new();
    let mut count = Buffer::new();
    match event {
        Event::Connect(k) => put_pieces(out, &[b"connect ", number.format(*k).as_bytes(), b"\n"]),
        Event::Line(k, bytes) => {
            let bytes = bytes.as_slice();
            let k = number.format(*k).as_bytes();
            let len = count.format(bytes.len()).as_bytes();
            put_pieces(out, &[b"line ", k, b" ", len, b"\n", bytes, b"\n"])
        }
        Event::Gone(k) => put_pieces(out, &[b"gone ", number.format(*k).as_bytes(), b"\n"]),
        Event::Tick(moment) => {
            put_pieces(out, &[b"tick ", number.format(*moment).as_bytes(), b"\n"])
        }
        Event::Reload(path, bytes) => {
            let path = path.as_str().as_bytes();
            let bytes = bytes.as_slice();
            let len = count.format(bytes.len()).as_bytes();
            put_pieces(out, &[b"reload ", path, b" ", len, b"\n", bytes, b"\n"])
        }
        Event::Swap(name) => put_pieces(out, &[b"swap ", name.as_str().as_bytes(), b"\n"]),
    }
}

fn put_item<K: Sink>(out: &mut K, item: &Item) -> Result<(), PutFault>
    ensures { Puts (record { written = K.written out.old; faults = K.faults out.old; zeros = K.zeros out.old })
        (record { written = K.written out.new; faults = K.faults out.new; zeros = K.zeros out.new })
        result (spelling item.now) }
{
    let mut number = Buffer::new();
    let mut count = Buffer::new();
    match item {
        Item::Head(seed, moment) => {
            let seed = number.format(*seed).as_bytes();
            let moment = count.format(*moment).as_bytes();
            put_pieces(out, &[b"mudscript 1 ", seed, b" ", moment, b"\n"])
        }
        Item::File(path, bytes) => {
            let path = path.as_str().as_bytes();
            let bytes = bytes.as_slice();
            let len = count.format(bytes.len()).as_bytes();
            put_pieces(out, &[b"file ", path, b" ", len, b"\n", bytes, b"\n"])
        }
        Item::Start => put_pieces(out, &[b"start\n"]),
        Item::Event(event) => put_event(out, event),
        Item::End => put_pieces(out, &[b"end\n"]),
    }
}

/// Writes the one spelling of an item. It takes no memory.
///
/// - `Failed`: a write failed, and the count of faults rose.
/// - `ZeroTaken`: a write took no byte of what was left, and the count of such writes rose.
///
/// After either a front of the spelling was written, and at least its last byte was not. No count
/// changes but the one that the answer names.
pub fn write_item<K: Sink>(out: &mut K, item: &Item) -> Result<(), PutFault>
    ensures whole { OnOk result (K.written out.new ≡ after_adding (K.written out.old) (spelling item.now)) }
    ensures cut { OnErr result (IsCut (K.written out.old) (K.written out.new) (spelling item.now)) }
    ensures faults { Counts (is_failed result) (K.faults out.old) (K.faults out.new) }
    ensures no_fall { K.faults out.old ≤ K.faults out.new }
    ensures zeros { Counts (is_zero_taken result) (K.zeros out.old) (K.zeros out.new) }
    ensures zeros_no_fall { K.zeros out.old ≤ K.zeros out.new }
{
    put_item(out, item)
}

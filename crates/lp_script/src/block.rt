//! Outputs of a turn as bytes.
ghost use Rattle.std.specs.Prelude.{◌≡◌, ◌≤◌, ◌<◌, ◌^◌, OnOk, OnErr, length};
ghost use Rattle.std.specs.Str.{encode_utf8_all};
ghost use Rattle.lp_io.specs.Counts.{Counts};
ghost use Rattle.lp_io.specs.Told.{after_adding, IsCut, is_failed, is_zero_taken};
ghost use Rattle.lp_events.specs.Transcript.{block, output_spelling};
ghost use Rattle.lp_events.specs.declared.out.Out.TheVariants.{Text as the_text, Log as the_log};
ghost use Rattle.lp_script.specs.Put.{Puts};
ghost use Rattle.lp_script.specs.Runs.{goes_on as goes_on_lem, text_of as text_of_lem, texts, run_length, alone, Advances};

use crate::put::{put, put_chars, put_pieces};
use itoa::Buffer;
use lp_events::out::{Out, Outs};
use lp_io::{PutFault, Sink};

// How many bytes these characters have in UTF-8.
fn utf8_len(chars: &[char]) -> u128
    ensures value { result ≡ length (encode_utf8_all chars.now) }
    ensures small { result < 2 ^ 66 }
{
    let mut len = 0;
    for c in chars {
        len += c.len_utf8() as u128;
    }
    len
}

// The text that an output has for a connection.
fn text_of(out: &Out) -> &[char]
    ensures { result.now ≡ text_of_lem out.now }
{
    match out {
        Out::Text(_, text) => text.as_slice(),
        Out::Hide(_) | Out::Show(_) | Out::Close(_) | Out::Log(_) => &[],
    }
}

// How many bytes the texts of outputs have in UTF-8.
fn texts_len(outs: &[Out]) -> u128
    requires { length outs.now < 2 ^ 62 }
    ensures { result ≡ length (encode_utf8_all (texts outs.now)) }
{
    let mut len = 0;
    for out in outs {
        len += utf8_len(text_of(out));
    }
    len
}

// Does an output go on with a text to a connection?
fn goes_on(k: u32, out: &Out) -> bool
    ensures { result ≡ goes_on_lem k out.now }
{
    match out {
        Out::Text(j, text) => k == *j || text.as_slice().is_empty(),
        Out::Hide(_) | Out::Show(_) | Out::Close(_) | Out::Log(_) => false,
    }
}

// How many outputs from the first on go on with a text to a connection.
fn run_len(k: u32, outs: &[Out]) -> usize
    ensures { result ≡ run_length k outs.now }
{
    outs.iter().take_while(|out| goes_on(k, out)).count()
}

// Writes the texts of outputs in UTF-8.
fn put_texts<K: Sink>(out: &mut K, outs: &[Out]) -> Result<(), PutFault>
    ensures { Puts (record { written = K.written out.old; faults = K.faults out.old; zeros = K.zeros out.old })
        (record { written = K.written out.new; faults = K.faults out.new; zeros = K.zeros out.new })
        result (encode_utf8_all (texts outs.now)) }
{
    for output in outs {
        put_chars(out, text_of(output))?;
    }
    Ok(())
}

// Writes the texts of outputs as one text to a connection.
fn put_run<K: Sink>(out: &mut K, k: u32, outs: &[Out]) -> Result<(), PutFault>
    requires { length outs.now < 2 ^ 62 }
    ensures { Puts (record { written = K.written out.old; faults = K.faults out.old; zeros = K.zeros out.old })
        (record { written = K.written out.new; faults = K.faults out.new; zeros = K.zeros out.new })
        result (output_spelling (the_text k (texts outs.now))) }
{
    let mut number = Buffer::new();
    let mut count = Buffer::new();
    let k = number.format(k).as_bytes();
    let len = count.format(texts_len(outs)).as_bytes();
    put_pieces(out, &[b"to ", k, b" ", len, b"\n"])?;
    put_texts(out, outs)?;
    put(out, b"\n")
}

// Writes a log record.
fn put_log<K: Sink>(out: &mut K, text: &[char]) -> Result<(), PutFault>
    ensures { Puts (record { written = K.written out.old; faults = K.faults out.old; zeros = K.zeros out.old })
        (record { written = K.written out.new; faults = K.faults out.new; zeros = K.zeros out.new })
        result (output_spelling (the_log text.now)) }
{
    let mut count = Buffer::new();
    let len = count.format(utf8_len(text)).as_bytes();
    put_pieces(out, &[b"log ", len, b"\n"])?;
    put_chars(out, text)?;
    put(out, b"\n")
}

// Writes an output that is no text.
fn put_alone<K: Sink>(out: &mut K, output: &Out) -> Result<(), PutFault>
    ensures { Puts (record { written = K.written out.old; faults = K.faults out.old; zeros = K.zeros out.old })
        (record { written = K.written out.new; faults = K.faults out.new; zeros = K.zeros out.new })
        result (alone output.now) }
{
    let mut number = Buffer::new();
    match output {
        Out::Text(_, _) => Ok(()),
        Out::Hide(k) => put_pieces(out, &[b"hide ", number.format(*k).as_bytes(), b"\n"]),
        Out::Show(k) => put_pieces(out, &[b"show ", number.format(*k).as_bytes(), b"\n"]),
        Out::Close(k) => put_pieces(out, &[b"close ", number.format(*k).as_bytes(), b"\n"]),
        Out::Log(text) => put_log(out, text.as_slice()),
    }
}

// Writes what the first output begins, and returns how many outputs that took.
fn put_first<K: Sink>(out: &mut K, outs: &[Out]) -> Result<usize, PutFault>
    requires some { 0 < length outs.now }
    requires few { length outs.now < 2 ^ 62 }
    ensures { Advances (record { written = K.written out.old; faults = K.faults out.old; zeros = K.zeros out.old })
        (record { written = K.written out.new; faults = K.faults out.new; zeros = K.zeros out.new })
        outs.now result }
{
    let first = &outs[0];
    match first {
        Out::Text(k, text) if !text.as_slice().is_empty() => {
            let taken = 1 + run_len(*k, &outs[1..]);
            put_run(out, *k, &outs[..taken])?;
            Ok(taken)
        }
        Out::Text(_, _) => Ok(1),
        Out::Hide(_) | Out::Show(_) | Out::Close(_) | Out::Log(_) => {
            put_alone(out, first)?;
            Ok(1)
        }
    }
}

fn put_block<K: Sink>(out: &mut K, outs: &[Out]) -> Result<(), PutFault>
    requires { length outs.now < 2 ^ 62 }
    ensures { Puts (record { written = K.written out.old; faults = K.faults out.old; zeros = K.zeros out.old })
        (record { written = K.written out.new; faults = K.faults out.new; zeros = K.zeros out.new })
        result (block outs.now) }
{
    let mut done = 0;
    while done < outs.len() {
        done += put_first(out, &outs[done..])?;
    }
    Ok(())
}

/// Writes the block of the outputs of one turn: each output once and in order, where neighbouring
/// texts to one connection are one, and empty ones nothing. It takes no memory.
///
/// - `Failed`: a write failed, and the count of faults rose.
/// - `ZeroTaken`: a write took no byte of what was left, and the count of such writes rose.
///
/// After either a front of the block was written, and at least its last byte was not. No count
/// changes but the one that the answer names.
pub fn write_outs<K: Sink>(out: &mut K, outs: &Outs) -> Result<(), PutFault>
    ensures whole { OnOk result (K.written out.new ≡ after_adding (K.written out.old) (block outs.now)) }
    ensures cut { OnErr result (IsCut (K.written out.old) (K.written out.new) (block outs.now)) }
    ensures faults { Counts (is_failed result) (K.faults out.old) (K.faults out.new) }
    ensures no_fall { K.faults out.old ≤ K.faults out.new }
    ensures zeros { Counts (is_zero_taken result) (K.zeros out.old) (K.zeros out.new) }
    ensures zeros_no_fall { K.zeros out.old ≤ K.zeros out.new }
{
    put_block(out, outs.as_slice())
}

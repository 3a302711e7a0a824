//! Writing pieces, files and log records.
ghost use Rattle.std.specs.Prelude.{◌≡◌, ◌<◌, ◌^◌, flat_map, length};
ghost use Rattle.std.specs.Str.{encode_utf8_all};
ghost use Rattle.lp_events.specs.Script.{spelling};
ghost use Rattle.lp_events.specs.Transcript.{output_spelling};
ghost use Rattle.lp_events.specs.declared.item.Item.TheVariants.{File as the_file};
ghost use Rattle.lp_events.specs.declared.out.Out.TheVariants.{Log as the_log};
ghost use Rattle.lp_script.specs.Put.{Puts};

use itoa::Buffer;
use lp_folder::outside::Loaded;
use lp_io::{PutFault, Sink, put_all};

/// Writes the whole piece.
pub(crate) fn put<K: Sink>(out: &mut K, piece: &[u8]) -> Result<(), PutFault>
    ensures { Puts (record { written = K.written out.old; faults = K.faults out.old; zeros = K.zeros out.old })
        (record { written = K.written out.new; faults = K.faults out.new; zeros = K.zeros out.new })
        result piece.now }
{
    put_all(out, piece)
}

/// Writes the pieces in order.
fn put_pieces<K: Sink>(out: &mut K, pieces: &[&[u8]]) -> Result<(), PutFault>
    ensures { Puts (record { written = K.written out.old; faults = K.faults out.old; zeros = K.zeros out.old })
        (record { written = K.written out.new; faults = K.faults out.new; zeros = K.zeros out.new })
        result (flat_map (λ p. p.now) pieces.now) }
{
    for piece in pieces {
        put(out, piece)?;
    }
    Ok(())
}

// Writes the characters in UTF-8, one after another.
fn put_chars<K: Sink>(out: &mut K, chars: &[char]) -> Result<(), PutFault>
    ensures { Puts (record { written = K.written out.old; faults = K.faults out.old; zeros = K.zeros out.old })
        (record { written = K.written out.new; faults = K.faults out.new; zeros = K.zeros out.new })
        result (encode_utf8_all chars.now) }
{
    for c in chars {
        let mut one = [0; 4];
        put(out, c.encode_utf8(&mut one).as_bytes())?;
    }
    Ok(())
}

// How many bytes these characters have in UTF-8.
fn utf8_len(chars: &[char]) -> u128
    ensures value { result ≡ length (encode_utf8_all chars.now) }
    ensures small { result < 2 ^ 66 }
{
    let mut len = 0;
    for c in chars {
        len += c.len_utf8() as u128;
    }
    len
}

/// Writes a log record.
pub(crate) fn put_log<K: Sink>(out: &mut K, text: &[char]) -> Result<(), PutFault>
    ensures { Puts (record { written = K.written out.old; faults = K.faults out.old; zeros = K.zeros out.old })
        (record { written = K.written out.new; faults = K.faults out.new; zeros = K.zeros out.new })
        result (output_spelling (the_log text.now)) }
{
    let mut count = Buffer::new();
    let len = count.format(utf8_len(text)).as_bytes();
    put_pieces(out, &[b"log ", len, b"\n"])?;
    put_chars(out, text)?;
    put(out, b"\n")
}

/// Writes a file as an item of a script.
pub(crate) fn put_file<K: Sink>(out: &mut K, file: &Loaded) -> Result<(), PutFault>
    ensures { Puts (record { written = K.written out.old; faults = K.faults out.old; zeros = K.zeros out.old })
        (record { written = K.written out.new; faults = K.faults out.new; zeros = K.zeros out.new })
        result (spelling (the_file file.now.path file.now.bytes)) }
{
    let mut count = Buffer::new();
    let path = file.path.as_str().as_bytes();
    let bytes = file.bytes.as_slice();
    let len = count.format(bytes.len()).as_bytes();
    put_pieces(out, &[b"file ", path, b" ", len, b"\n", bytes, b"\n"])
}

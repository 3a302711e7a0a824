//! Writing pieces and characters.
ghost use Rattle.std.specs.Prelude.{◌≡◌, ◌≤◌, ◌*◌, length, take, flat_map};
ghost use Rattle.std.specs.Str.{encode_utf8_all};
ghost use Rattle.lp_script.specs.Put.{Puts};

use lp_io::{PutFault, Sink, put_all};

// Characters that are encoded at once, and the most bytes that they take.
const AT_ONCE: usize = 64;

const ENCODED: usize = 256;

/// Writes the whole piece.
pub(crate) fn put<K: Sink>(out: &mut K, piece: &[u8]) -> Result<(), PutFault>
    ensures { Puts (record { written = K.written out.old; faults = K.faults out.old; zeros = K.zeros out.old })
        (record { written = K.written out.new; faults = K.faults out.new; zeros = K.zeros out.new })
        result piece.now }
{
    put_all(out, piece)
}

/// Writes the pieces in order.
pub(crate) fn put_pieces<K: Sink>(out: &mut K, pieces: &[&[u8]]) -> Result<(), PutFault>
    ensures { Puts (record { written = K.written out.old; faults = K.faults out.old; zeros = K.zeros out.old })
        (record { written = K.written out.new; faults = K.faults out.new; zeros = K.zeros out.new })
        result (flat_map (λ p. p.now) pieces.now) }
{
    for piece in pieces {
        put(out, piece)?;
    }
    Ok(())
}

// The bytes of at most 64 characters, at the front of a buffer. It returns how many they are.
fn encode(chars: &[char], into: &mut [u8]) -> usize
    requires few { length chars.now ≤ 64 }
    requires room { length into.old ≡ 256 }
    ensures room { result ≤ 256 }
    ensures bytes { take result into.new ≡ encode_utf8_all chars.now }
{
    let mut len = 0;
    for c in chars {
        let mut one = [0; 4];
        let bytes = c.encode_utf8(&mut one).as_bytes();
        into[len..len + bytes.len()].copy_from_slice(bytes);
        len += bytes.len();
    }
    len
}

/// Writes the characters in UTF-8.
pub(crate) fn put_chars<K: Sink>(out: &mut K, chars: &[char]) -> Result<(), PutFault>
    ensures { Puts (record { written = K.written out.old; faults = K.faults out.old; zeros = K.zeros out.old })
        (record { written = K.written out.new; faults = K.faults out.new; zeros = K.zeros out.new })
        result (encode_utf8_all chars.now) }
{
    let mut buffer = [0; ENCODED];
    let mut rest = chars;
    while !rest.is_empty() {
        let (front, others) = rest.split_at(rest.len().min(AT_ONCE));
        let n = encode(front, &mut buffer);
        put(out, &buffer[..n])?;
        rest = others;
    }
    Ok(())
}

//! A text for a player: the message that the bytes of outputs are.
ghost use Rattle.std.specs.Prelude.{◌≡◌, ◌<◌, ◌≤◌, ◌∷◌, IfOk, drop, length};
ghost use Rattle.lp_door.specs.Doors.{marked as marked_bytes, marked_from, message_of as message_of_bytes};

use lp_line_text::text_of_line;
use std::alloc::{AllocError, Global};

// The byte that stands for the newline, the mark or the byte with which bytes begin, and how many bytes that has.
fn first_mark(rest: &[u8]) -> (u8, usize)
    requires { 1 ≤ length rest.now }
    ensures reads { marked_from 0 rest.now ≡ result.0 ∷ marked_from 0 (drop result.1 rest.now) }
    ensures count { (1 ≤ result.1) × (result.1 < 4) }
{
    if rest.starts_with(&[13, 10]) {
        return (10, 2);
    }
    if rest.starts_with(&[255, 251, 1]) {
        return (2, 3);
    }
    if rest.starts_with(&[255, 252, 1]) {
        return (3, 3);
    }
    (rest[0], 1)
}

// The bytes with one byte in place of each newline and each mark.
fn marked(alloc: Global, bytes: &[u8]) -> Result<Vec<u8>, AllocError>
    ensures { IfOk result (λ out. out.items ≡ marked_bytes bytes.now) }
{
    let mut out = Vec::new(alloc);
    let mut at = 0usize;
    while at < bytes.len() {
        let (byte, n) = first_mark(&bytes[at..]);
        out.push(byte)?;
        at += n;
    }
    Ok(out)
}

/// The text of the bytes of whole outputs: each 13 10 is a newline, 255 251 1 is U+0002, that input is to be hidden, 255 252 1 is
/// U+0003, that it is to be shown again, and in what lies between, each longest run of bytes none of which belongs to a well-formed
/// code point is one U+FFFD. Takes time in proportion to the bytes.
pub fn message_of(alloc: Global, bytes: &[u8]) -> Result<Vec<char>, AllocError>
    ensures { IfOk result (λ text. text.items ≡ message_of_bytes bytes.now) }
{
    let plain = marked(alloc, bytes)?;
    text_of_line(alloc, &plain)
}

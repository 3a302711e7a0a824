//! Lines and words.
ghost use Rattle.std.specs.Prelude.{◌≡◌, ◌+◌, ◌≤◌, ◌==◌, take, drop, length, not, take_while, IfOk, string_bytes};
ghost use Rattle.std.specs.List.{count_by};
ghost use Rattle.lp_explain.specs.Shown.{first_line as line_in, line_number, shown_byte, shown_front};

use std::alloc::{AllocError, Global};

/// How many characters of a line are shown at most.
const SHOWN: usize = 60;

/// How many line ends these bytes hold.
pub(crate) fn line_ends(bytes: &[u8]) -> usize
    ensures { result ≡ count_by (λ b. b == 10) bytes.now }
{
    bytes.iter().filter(|b| **b == b'\n').count()
}

/// The number, from 1, of the line in which the byte at this place stands: one more than the line ends before it.
pub(crate) fn line_of(bytes: &[u8], place: usize) -> u64
    requires { place ≤ length bytes.now }
    ensures { result ≡ line_number bytes.now place }
{
    line_ends(&bytes[..place]) as u64 + 1
}

/// How many bytes stand before the first one of a kind.
fn before(end: u8, bytes: &[u8]) -> usize
    ensures { result ≡ length (take_while (λ b. not (b == end)) bytes.now) }
{
    bytes.iter().take_while(|b| **b != end).count()
}

/// The bytes before the first one of a kind, and those behind it. Without one these are all, and nothing.
pub(crate) fn split(end: u8, bytes: &[u8]) -> (&[u8], &[u8])
    ensures front { result.0.now ≡ take (length (take_while (λ b. not (b == end)) bytes.now)) bytes.now }
    ensures rest { result.1.now ≡ drop (length (take_while (λ b. not (b == end)) bytes.now) + 1) bytes.now }
{
    let n = before(end, bytes);
    if n < bytes.len() {
        (&bytes[..n], &bytes[n + 1..])
    } else {
        (bytes, &[])
    }
}

/// What stands before the first line end.
pub(crate) fn first_line(bytes: &[u8]) -> &[u8]
    ensures { result.now ≡ line_in bytes.now }
{
    let (line, _) = split(b'\n', bytes);
    line
}

/// The bytes from a place on.
pub(crate) fn from(bytes: &[u8], place: usize) -> &[u8]
    requires { place ≤ length bytes.now }
    ensures { result.now ≡ drop place bytes.now }
{
    &bytes[place..]
}

/// A byte as it is shown: itself, or `?` where it is no printable ASCII.
fn shown_as(byte: u8) -> char
    ensures { result ≡ shown_byte byte }
{
    if 32 <= byte && byte <= 126 {
        char::from(byte)
    } else {
        '?'
    }
}

// The front of a line that is shown.
fn front(line: &[u8]) -> &[u8]
    ensures { result.now ≡ take 60 line.now }
{
    &line[..SHOWN.min(line.len())]
}

/// The front of a line, at most 60 characters.
pub(crate) fn shown(alloc: Global, line: &[u8]) -> Result<String, AllocError>
    ensures { IfOk result (λ text. string_bytes text ≡ shown_front line.now) }
{
    let mut text = String::new(alloc);
    for byte in front(line) {
        text.push(shown_as(*byte))?;
    }
    Ok(text)
}

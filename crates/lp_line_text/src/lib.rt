//! The text of a line that came from a connection: its bytes read as UTF-8, whatever they are.
#![tactic(auto)]

ghost use Rattle.std.specs.Prelude.{◌≡◌, ◌++◌, ◌<◌, ◌≤◌, false, true, IfNone, IfSome, IfOk, OnOk, drop, length, take};
ghost use Rattle.std.specs.Str.{chars, is_utf8};
ghost use Rattle.lp_meaning.specs.EventTurns.{line_text, line_text_from, point_len};

use lp_values::text::code_points;
use std::alloc::{AllocError, Global};

/// What stands for each longest run of bytes none of which belongs to a well-formed code point.
const UNREADABLE: char = '\u{FFFD}';

/// The first so many bytes, or all where there are fewer.
fn head(bytes: &[u8], n: usize) -> &[u8]
    ensures { result.now ≡ take n bytes.now }
{
    if n < bytes.len() { &bytes[..n] } else { bytes }
}

/// The first so many bytes, or all where there are fewer, where they are text.
#[tactic(auto, using(crate::proofs::Points::is_text, crate::proofs::Points::no_text))]
fn front(bytes: &[u8], n: usize) -> Option<&str>
    ensures some { IfSome result (λ t. (t.now ≡ take n bytes.now) × (is_utf8 (take n bytes.now) ≡ true)) }
    ensures none { IfNone result (is_utf8 (take n bytes.now) ≡ false) }
{
    match std::str::from_utf8(head(bytes, n)) {
        Ok(text) => Some(text),
        Err(_) => None,
    }
}

/// The code point with which bytes begin, as a text with its length in bytes, or none.
fn first_point(bytes: &[u8]) -> Option<(&str, usize)>
    ensures some { IfSome result (λ p. (p.0.now ≡ take p.1 bytes.now) × (p.1 ≡ point_len bytes.now) × (1 ≤ p.1) × (p.1 < 5)) }
    ensures none { IfNone result (point_len bytes.now ≡ 0) }
{
    if let Some(text) = front(bytes, 1) {
        return Some((text, 1));
    }
    if let Some(text) = front(bytes, 2) {
        return Some((text, 2));
    }
    if let Some(text) = front(bytes, 3) {
        return Some((text, 3));
    }
    match front(bytes, 4) {
        Some(text) => Some((text, 4)),
        None => None,
    }
}

/// Puts the code points of a text behind others.
fn put(alloc: Global, text: &mut Vec<char>, more: &str) -> Result<(), AllocError>
    ensures { OnOk result (text.new.items ≡ text.old.items ++ chars more.now) }
{
    let points = code_points(alloc, more)?;
    text.extend_from_slice(points.as_slice())?;
    Ok(())
}

/// Reads the code point with which what is left begins, or the next byte of a run that is unreadable. Tells how many bytes
/// were read, and whether such a run goes on.
#[tactic(auto, using(crate::proofs::Points::reads_point))]
fn read_point(
    alloc: Global,
    text: &mut Vec<char>,
    rest: &[u8],
    is_bad: bool,
) -> Result<(usize, bool), AllocError>
    requires { 1 ≤ length rest.now }
    ensures reads { IfOk result (λ r. text.old.items ++ line_text_from is_bad 0 rest.now ≡ text.new.items ++ line_text_from r.1 0 (drop r.0 rest.now)) }
    ensures count { IfOk result (λ r. (1 ≤ r.0) × (r.0 < 5)) }
{
    match first_point(rest) {
        Some((point, n)) => {
            put(alloc, text, point)?;
            Ok((n, false))
        }
        None => {
            if !is_bad {
                text.push(UNREADABLE)?;
            }
            Ok((1, true))
        }
    }
}

/// The text of a line: its bytes are read as UTF-8, each longest run of bytes none of which belongs to a well-formed code
/// point as one U+FFFD. Takes time in proportion to the bytes.
#[tactic(auto, using(crate::proofs::Points::line_text_is))]
pub fn text_of_line(alloc: Global, bytes: &[u8]) -> Result<Vec<char>, AllocError>
    ensures { IfOk result (λ t. t.items ≡ line_text bytes.now) }
{
    let mut text = Vec::new(alloc);
    let mut at = 0usize;
    let mut is_bad = false;
    while at < bytes.len() {
        let (n, still_bad) = read_point(alloc, &mut text, &bytes[at..], is_bad)?;
        at += n;
        is_bad = still_bad;
    }
    Ok(text)
}

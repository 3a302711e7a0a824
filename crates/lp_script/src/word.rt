//! Words up to their ends, texts, and counted bytes.
ghost use Rattle.std.specs.Prelude.{◌≡◌, ◌≢◌, ℕ, ◌+◌, ◌-◌, ◌^◌, ◌<◌, length, take, drop, min, MatchOption};
ghost use Rattle.std.specs.List.{list_all};
ghost use Rattle.lp_script.specs.Reading.{Gives, before as before_lem, text_at as text_at_lem, passes as passes_lem, bytes_at as bytes_at_lem};

use crate::stop::{ReadError, Stop};
use lp_events::octets::Octets;
use std::alloc::Global;

/// The text, and what is behind it.
#[tactic(auto, unfolding(crate::specs::Reading::text_at))]
pub(crate) fn text_at<'a>(text: &[u8], bytes: &'a [u8]) -> Result<&'a [u8], ReadError>
    ensures { Gives (λ x. x.now) result (text_at_lem text.now bytes.now) }
{
    match text {
        [] => Ok(bytes),
        [c, text @ ..] => match bytes {
            [] => Err(ReadError::Stop(Stop::Short)),
            [b, bytes @ ..] if c == b => text_at(text, bytes),
            [_, ..] => Err(ReadError::Stop(Stop::Wrong)),
        },
    }
}

// How many bytes stand before the first one of a kind.
fn before(end: u8, bytes: &[u8]) -> usize
    ensures { result ≡ before_lem end bytes.now }
{
    bytes.iter().take_while(|b| **b != end).count()
}

/// The word before its end, and what is behind that.
pub(crate) fn split_word(end: u8, bytes: &[u8]) -> Option<(&[u8], &[u8])>
    ensures { MatchOption result (before_lem end bytes.now ≡ length bytes.now)
        (λ p. (before_lem end bytes.now < length bytes.now) × (p.0.now ≡ take (before_lem end bytes.now) bytes.now) × (p.1.now ≡ drop (before_lem end bytes.now + 1) bytes.now)) }
{
    let n = before(end, bytes);
    if n < bytes.len() {
        Some((&bytes[..n], &bytes[n + 1..]))
    } else {
        None
    }
}

// May these bytes stand in a line, or in a file?
fn all_pass(line: bool, bytes: &[u8]) -> bool
    ensures { result ≡ list_all (passes_lem line) bytes.now }
{
    if !line {
        return true;
    }
    bytes.iter().all(|b| *b != 0 && *b != 10 && *b != 13)
}

/// So many bytes and a newline, where a number past the most of its type stands for any above it.
#[tactic(auto, unfolding(crate::specs::Reading::bytes_at))]
pub(crate) fn bytes_at(
    alloc: Global,
    line: bool,
    n: u128,
    bytes: &[u8],
) -> Result<(Octets, &[u8]), ReadError>
    ensures { (m : ℕ) → n ≡ min m (2 ^ 128 - 1) → Gives (λ x. (x.0, x.1.now)) result (bytes_at_lem line m bytes.now) }
{
    if (bytes.len() as u128) < n {
        return Err(ReadError::Stop(if all_pass(line, bytes) {
            Stop::Short
        } else {
            Stop::Wrong
        }));
    }
    let (counted, rest) = bytes.split_at(n as usize);
    if !all_pass(line, counted) {
        return Err(ReadError::Stop(Stop::Wrong));
    }
    match rest {
        [] => Err(ReadError::Stop(Stop::Short)),
        [10, rest @ ..] => Ok((Octets::from_slice(alloc, counted)?, rest)),
        [_, ..] => Err(ReadError::Stop(Stop::Wrong)),
    }
}

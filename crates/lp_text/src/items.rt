//! Single code points, parts and joins of texts.
ghost use Rattle.std.specs.Prelude.{◌≡◌, ◌++◌, slice_get};
ghost use Rattle.lp_text.specs.Gives.{GivesText};
ghost use Rattle.lp_text.specs.Texts.{part as part_of};

use crate::fault::TextFault;
use lp_values::limits::MAX_CODE_POINTS;
use lp_values::text::Text;
use std::alloc::Global;

/// The code point at place `i`, counted from 0. It takes no memory.
pub fn at(s: &[char], i: u64) -> Option<char>
    ensures { result ≡ slice_get s.now i }
{
    s.get(i as usize).copied()
}

/// These code points as a text.
///
/// - `TooLong`: exactly where they are more than 100000.
pub fn text_of(alloc: Global, s: &[char]) -> Result<Text, TextFault>
    ensures { GivesText result s.now }
{
    if s.len() > MAX_CODE_POINTS {
        return Err(TextFault::TooLong);
    }
    Ok(Text::from_slice(alloc, s)?)
}

/// The code points whose place is at least `from` and at most `to`, counted from 0: none where
/// `to` is below `from`, or `from` is past the end. A `to` past the end means the last place.
///
/// - `TooLong`: exactly where they are more than 100000.
pub fn part(alloc: Global, s: &[char], from: u64, to: u64) -> Result<Text, TextFault>
    ensures { GivesText result (part_of from to s.now) }
{
    text_of(alloc, between(s, from, to))
}

/// The code points whose place is at least `from` and at most `to`.
fn between(s: &[char], from: u64, to: u64) -> &[char]
    ensures { result.now ≡ part_of from to s.now }
{
    let n = s.len() as u64;
    if from > to || from >= n {
        return &[];
    }
    if to >= n {
        return &s[from as usize..];
    }
    &s[from as usize..to as usize + 1]
}

/// One text and then another.
///
/// - `TooLong`: exactly where both have more than 100000 code points together.
pub fn join(alloc: Global, a: &[char], b: &[char]) -> Result<Text, TextFault>
    ensures { GivesText result (a.now ++ b.now) }
{
    if a.len() > MAX_CODE_POINTS || b.len() > MAX_CODE_POINTS - a.len() {
        return Err(TextFault::TooLong);
    }
    let mut all = Vec::with_capacity(alloc, a.len() + b.len())?;
    all.extend_from_slice(a)?;
    all.extend_from_slice(b)?;
    Ok(Text::from_vec(alloc, all)?)
}

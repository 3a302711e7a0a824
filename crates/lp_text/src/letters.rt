//! Case and blanks of texts.
ghost use Rattle.std.specs.Prelude.{◌≡◌, map};
ghost use Rattle.std.specs.Char.{to_ascii_uppercase, to_ascii_lowercase};
ghost use Rattle.lp_text.specs.Gives.{GivesText};
ghost use Rattle.lp_text.specs.Texts.{is_blank as blank, without_first, without_last, trimmed};

use crate::fault::TextFault;
use crate::items::text_of;
use lp_values::limits::MAX_CODE_POINTS;
use lp_values::text::Text;
use std::alloc::Global;

/// The text with the ASCII letters as capitals.
///
/// - `TooLong`: exactly where it has more than 100000 code points.
pub fn upper(alloc: Global, s: &[char]) -> Result<Text, TextFault>
    ensures { GivesText result (map to_ascii_uppercase s.now) }
{
    if s.len() > MAX_CODE_POINTS {
        return Err(TextFault::TooLong);
    }
    let chars = s.iter().map(|c| c.to_ascii_uppercase()).collect(alloc)?;
    Ok(Text::from_vec(alloc, chars)?)
}

/// The text with the ASCII letters as small ones.
///
/// - `TooLong`: exactly where it has more than 100000 code points.
pub fn lower(alloc: Global, s: &[char]) -> Result<Text, TextFault>
    ensures { GivesText result (map to_ascii_lowercase s.now) }
{
    if s.len() > MAX_CODE_POINTS {
        return Err(TextFault::TooLong);
    }
    let chars = s.iter().map(|c| c.to_ascii_lowercase()).collect(alloc)?;
    Ok(Text::from_vec(alloc, chars)?)
}

/// The text without the spaces, tabs, line feeds and carriage returns at both ends.
///
/// - `TooLong`: exactly where what is left has more than 100000 code points.
pub fn trim(alloc: Global, s: &[char]) -> Result<Text, TextFault>
    ensures { GivesText result (trimmed s.now) }
{
    text_of(alloc, without_blanks_after(without_blanks_before(s)))
}

/// Whether a code point is a space, a tab, a line feed or a carriage return.
fn is_blank(c: char) -> bool
    ensures { result ≡ blank c }
{
    c == ' ' || c == '\t' || c == '\n' || c == '\r'
}

fn without_blanks_before(s: &[char]) -> &[char]
    ensures { result.now ≡ without_first s.now }
{
    let mut n = 0;
    while n < s.len() && is_blank(s[n]) {
        n += 1;
    }
    &s[n..]
}

fn without_blanks_after(s: &[char]) -> &[char]
    ensures { result.now ≡ without_last s.now }
{
    let mut n = s.len();
    while n > 0 && is_blank(s[n - 1]) {
        n -= 1;
    }
    &s[..n]
}

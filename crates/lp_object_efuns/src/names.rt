//! Names of functions.
ghost use Rattle.std.specs.Prelude.{◌≡◌, ◌<◌, ◌≤◌, ◌↔◌, All, IfOk, IsTrue, encode_utf8_all, length, string_bytes, take};
ghost use Rattle.lp_language.specs.Resolve.{without_c};

use lp_efuns::names::ends_in_c;
use std::alloc::{AllocError, Global};

/// Whether a text is of ASCII alone.
pub(crate) fn is_plain(text: &[char]) -> bool
    ensures { IsTrue result ↔ All (λ c. c < 128) text.now }
{
    text.iter().all(|c| (*c as u32) < 128)
}

/// A text as a text of the program.
pub(crate) fn text_of(alloc: Global, letters: &[char]) -> Result<String, AllocError>
    ensures { IfOk result (λ t. string_bytes t ≡ encode_utf8_all letters.now) }
{
    let mut text = String::new(alloc);
    for letter in letters {
        text.push(*letter)?;
    }
    Ok(text)
}

/// How many letters a path has without `.c` at its end.
pub(crate) fn length_without_c(path: &[char]) -> usize
    ensures within { result ≤ length path.now }
    ensures value { take result path.now ≡ without_c path.now }
{
    if ends_in_c(path) {
        return path.len().saturating_sub(2);
    }
    path.len()
}

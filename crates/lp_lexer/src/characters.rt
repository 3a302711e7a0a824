//! Characters of a source.
ghost use Rattle.std.specs.Prelude.{◌≡◌, ◌≤◌, [], ◌∷◌, length, map, MatchOption};
ghost use Rattle.std.specs.Str.{chars, IsUtf8};
ghost use Rattle.std.specs.Str.Lossy.{utf8_valid_len};
ghost use Rattle.lp_lexer.specs.Source.{characters, stray, width};

use std::marker::Model;
use std::str;

/// The characters that are left of a source.
#[derive(Drop)]
pub(crate) struct Characters<'a> {
    text: &'a str,
    strays: &'a [u8],
}

impl<'a> Model for Characters<'a> {
    ghost use Rattle.std.specs.Prelude.{List, ℕ, ◌++◌, map};
    ghost use Rattle.std.specs.Str.{chars, IsUtf8};
    ghost use Rattle.lp_lexer.specs.Source.{stray};

    ghost Value = { List ℕ };

    ghost view = { λ l. chars l.text.now ++ map stray l.strays.now };

    ghost invariant = { λ l. IsUtf8 l.text.now };
}

/// A byte that is not UTF-8.
fn stray_of(byte: u8) -> char
    ensures { result ≡ stray byte }
{
    if byte < 128 {
        char::from(byte)
    } else {
        '\u{7f}'
    }
}

/// The first character of a text, and what comes behind it.
#[tactic(auto, using(std::proofs::lemmas::Str::chars_past_char, crate::proofs::Decoding::chars_empty))]
fn first_char<'a>(text: &'a str) -> Option<(char, &'a str)>
    ensures { MatchOption result (chars text.now ≡ []) (λ p. chars text.now ≡ p.0 ∷ chars p.1.now) }
{
    let mut chars = text.chars();
    match chars.next() {
        Some(c) => Some((c, chars.as_str())),
        None => None,
    }
}

/// The first of some strays, and what comes behind it.
fn first_stray<'a>(strays: &'a [u8]) -> Option<(char, &'a [u8])>
    ensures { MatchOption result (map stray strays.now ≡ []) (λ p. map stray strays.now ≡ p.0 ∷ map stray p.1.now) }
{
    match strays.split_first() {
        Some((first, rest)) => Some((stray_of(*first), rest)),
        None => None,
    }
}

impl<'a> Characters<'a> {
    /// The characters of a source, and how many of its bytes are UTF-8.
    pub(crate) fn new(bytes: &'a [u8]) -> (Characters<'a>, usize)
        ensures all { result.0 ≡ characters bytes.now }
        ensures valid { result.1 ≡ utf8_valid_len bytes.now }
        ensures within { result.1 ≤ length bytes.now }
        ensures utf8 { result.1 ≡ length bytes.now → IsUtf8 bytes.now }
        ensures size { width result.0 ≡ length bytes.now }
    {
        match str::from_utf8(bytes) {
            Ok(text) => (Characters { text, strays: &[] }, bytes.len()),
            Err(fault) => {
                let (front, strays) = bytes.split_at(fault.valid_up_to());
                let text = unsafe { str::from_utf8_unchecked(front) };
                (Characters { text, strays }, fault.valid_up_to())
            }
        }
    }

    /// The next character, if one is left.
    pub(crate) fn next(&mut self) -> Option<char>
        ensures { MatchOption result ((self.old ≡ []) × (self.new ≡ [])) (λ c. self.old ≡ c ∷ self.new) }
    {
        if let Some((c, rest)) = first_char(self.text) {
            self.text = rest;
            return Some(c);
        }
        if let Some((c, rest)) = first_stray(self.strays) {
            self.strays = rest;
            return Some(c);
        }
        None
    }

    /// The same characters once more.
    pub(crate) fn copy(&self) -> Characters<'a>
        ensures { result ≡ self.now }
    {
        Characters {
            text: self.text,
            strays: self.strays,
        }
    }
}

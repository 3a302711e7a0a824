//! A place in a source.
ghost use Rattle.std.specs.Prelude.{◌≡◌, ◌+◌, ◌≤◌, ◌++◌, ◌∷◌, [], false, MatchBool, option_to_list};
ghost use Rattle.lp_lexer.specs.Source.{characters, signs, width, passed, rest, first_of, begins_join, most_bytes, code_at, skipped, EndsBy, IsLast, IsWithin};

use crate::characters::Characters;
use crate::sign::Sign;
use std::marker::Model;

/// A place in a source: the signs that are left, and where the sign before them ends.
#[derive(Drop)]
pub(crate) struct Cursor<'a> {
    first: Option<Sign>,
    characters: Characters<'a>,
    at: u32,
    line: u32,
    behind: u32,
}

impl<'a> Model for Cursor<'a> {
    ghost use Rattle.std.specs.Prelude.{◌++◌, option_to_list};
    ghost use Rattle.lp_lexer.specs.Source.{Rest, rest, signs, EndsBy, IsLast, IsWithin};

    ghost Value = { Rest };

    ghost view = { λ c. rest c.behind (option_to_list c.first ++ signs c.at c.line c.characters) };

    ghost invariant = { λ c. IsWithin c.characters c.at c.line × EndsBy c.at c.first × IsLast c.first c.characters };
}

/// Whether the characters begin with a join, which is taken then.
fn take_join(characters: &mut Characters) -> bool
    ensures { MatchBool result
        (characters.old ≡ 92 ∷ 10 ∷ characters.new)
        ((characters.new ≡ characters.old) × (begins_join characters.old ≡ false)) }
{
    let mut behind = characters.copy();
    if behind.next() == Some('\\') && behind.next() == Some('\n') {
        *characters = behind;
        return true;
    }
    false
}

/// The next sign, taken off the characters, of which the first stands at a place on a line.
fn next_sign(characters: &mut Characters, at: &mut u32, line: &mut u32) -> Option<Sign>
    requires { IsWithin characters.old at.old line.old }
    ensures same { signs at.old line.old characters.old
        ≡ option_to_list result ++ signs at.new line.new characters.new }
    ensures ends { EndsBy at.new result }
    ensures last { IsLast result characters.new }
    ensures within { IsWithin characters.new at.new line.new }
{
    'joined: while take_join(characters) {
        *at += 2;
        *line += 1;
    }
    let code = characters.next()?;
    let sign = Sign {
        code,
        at: *at,
        line: *line,
    };
    *at += code.len_utf8() as u32;
    if code == '\n' {
        *line += 1;
    }
    Some(sign)
}

impl<'a> Cursor<'a> {
    /// The begin of a source, of at most 16777216 bytes.
    pub(crate) fn start(mut characters: Characters<'a>) -> Cursor<'a>
        requires { width characters ≤ most_bytes }
        ensures { result ≡ rest 0 (signs 0 1 characters.entry) }
    {
        let mut at = 0;
        let mut line = 1;
        let first = next_sign(&mut characters, &mut at, &mut line);
        Cursor {
            first,
            characters,
            at,
            line,
            behind: 0,
        }
    }

    /// The place behind the sign that was read last.
    pub(crate) fn behind(&self) -> u32
        ensures { result ≡ self.now.behind }
    {
        self.behind
    }

    /// The code of the first sign that is left, or else 0.
    pub(crate) fn code(&self) -> char
        ensures { result ≡ code_at 0 self.now.left }
    {
        match self.first {
            Some(sign) => sign.code,
            None => '\0',
        }
    }

    /// The codes of the first three signs that are left, each 0 where there is none.
    pub(crate) fn codes(&self) -> (char, char, char)
        ensures first { result.0 ≡ code_at 0 self.now.left }
        ensures second { result.1 ≡ code_at 1 self.now.left }
        ensures third { result.2 ≡ code_at 2 self.now.left }
    {
        let mut ahead = self.copy();
        let first = ahead.code();
        ahead.pass();
        let second = ahead.code();
        ahead.pass();
        (first, second, ahead.code())
    }

    /// Reads some signs, as far as there are so many.
    pub(crate) fn skip(&mut self, count: u32)
        ensures { self.new ≡ skipped count self.old.behind self.old.left }
    {
        for _ in 0..count {
            self.pass();
        }
    }

    /// The first sign that is left.
    pub(crate) fn peek(&self) -> Option<Sign>
        ensures { result ≡ first_of self.now.left }
    {
        self.first
    }

    /// Reads a sign, if one is left.
    pub(crate) fn pass(&mut self)
        ensures { self.new ≡ passed self.old.behind self.old.left }
    {
        if let Some(sign) = self.first {
            self.behind = sign.at + sign.code.len_utf8() as u32;
            self.first = next_sign(&mut self.characters, &mut self.at, &mut self.line);
        }
    }

    /// The same place once more.
    pub(crate) fn copy(&self) -> Cursor<'a>
        ensures { result ≡ self.now }
    {
        Cursor {
            first: self.first,
            characters: self.characters.copy(),
            at: self.at,
            line: self.line,
            behind: self.behind,
        }
    }
}

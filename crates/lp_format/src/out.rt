//! A text that grows up to its greatest length.
ghost use Rattle.std.specs.Prelude.{◌≡◌, ◌≤◌, ◌∷◌, [], IfOk, length};
ghost use Rattle.std.specs.Str.{chars};
ghost use Rattle.lp_format.specs.Fill.{put_in as put_in_at};
ghost use Rattle.lp_format.specs.Answers.{AppendsText, Becomes};

use crate::fault::FormatFault;
use lp_values::limits::MAX_CODE_POINTS;
use lp_values::text::{Text, code_points};
use std::alloc::{AllocError, Global};
use std::marker::Model;

/// A text that grows up to 100000 code points.
#[derive(Drop)]
pub(crate) struct Out {
    alloc: Global,
    chars: Vec<char>,
}

impl Model for Out {
    ghost use Rattle.std.specs.Prelude.{List, ℕ};

    ghost Value = { List ℕ };

    ghost view = { λ o. o.chars.items };
}

impl Out {
    /// An empty text.
    pub(crate) fn new(alloc: Global) -> Out
        ensures { result ≡ [] }
    {
        Out {
            alloc,
            chars: Vec::new(alloc),
        }
    }

    /// Where its memory comes from.
    pub(crate) fn alloc(&self) -> Global {
        self.alloc
    }

    /// How many code points there are.
    pub(crate) fn len(&self) -> usize
        ensures { result ≡ length self.now }
    {
        self.chars.len()
    }

    /// The code points.
    pub(crate) fn as_slice(&self) -> &[char]
        ensures { result.now ≡ self.now }
    {
        self.chars.as_slice()
    }

    /// The text.
    pub(crate) fn into_text(self) -> Result<Text, AllocError>
        ensures { IfOk result (λ t. t ≡ self) }
    {
        Text::from_vec(self.alloc, self.chars)
    }

    /// One more code point.
    pub(crate) fn push(&mut self, c: char) -> Result<(), FormatFault>
        ensures { AppendsText result self.old self.new (c ∷ []) }
    {
        if self.chars.len() >= MAX_CODE_POINTS {
            return Err(FormatFault::TooLong);
        }
        self.chars.push(c)?;
        Ok(())
    }

    /// More code points.
    pub(crate) fn push_all(&mut self, s: &[char]) -> Result<(), FormatFault>
        ensures { AppendsText result self.old self.new s.now }
    {
        if s.len() > MAX_CODE_POINTS || self.chars.len() > MAX_CODE_POINTS - s.len() {
            return Err(FormatFault::TooLong);
        }
        self.chars.extend_from_slice(s)?;
        Ok(())
    }

    /// The code points of a text of the program.
    pub(crate) fn push_str(&mut self, s: &str) -> Result<(), FormatFault>
        ensures { AppendsText result self.old self.new (chars s.now) }
    {
        let points = code_points(self.alloc, s)?;
        self.push_all(points.as_slice())
    }

    /// Puts n code points in at a place.
    pub(crate) fn put_in(&mut self, place: usize, n: usize, c: char) -> Result<(), FormatFault>
        requires { place ≤ length self.old }
        ensures { Becomes result self.new (put_in_at place n c self.old) }
    {
        let len = self.chars.len();
        if n > MAX_CODE_POINTS || len > MAX_CODE_POINTS - n {
            return Err(FormatFault::TooLong);
        }
        self.chars.resize(len + n, c)?;
        self.chars[place..].rotate_right(n);
        Ok(())
    }
}

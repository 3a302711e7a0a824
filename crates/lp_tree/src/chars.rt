//! Text of a source.
ghost use Rattle.std.specs.Prelude.{◌≡◌, IfOk};

use std::alloc::{AllocError, Global};
use std::marker::Model;
use std::rc::Rc;

/// A list of code points: the letters of a name, or what a text literal stands for.
/// Copies share their memory, since macros put one token into many places.
#[derive(Debug, Drop)]
pub struct Chars {
    chars: Rc<Vec<char>>,
}

impl Model for Chars {
    ghost use Rattle.std.specs.Prelude.{List, ℕ};

    ghost Value = { List ℕ };

    ghost view = { λ t. t.chars.value.items };
}

impl Chars {
    /// The code points.
    pub fn as_slice(&self) -> &[char]
        ensures { result.now ≡ self.now }
    {
        self.chars.as_slice()
    }

    /// The text of these code points.
    pub fn from_vec(alloc: Global, chars: Vec<char>) -> Result<Chars, AllocError>
        ensures { IfOk result (λ t. t ≡ chars.items) }
    {
        Ok(Chars {
            chars: Rc::new(alloc, chars)?,
        })
    }

    /// The same text, in the same memory.
    pub fn copy(&self) -> Result<Chars, AllocError>
        ensures { IfOk result (λ t. t ≡ self.now) }
    {
        Ok(Chars {
            chars: self.chars.clone()?,
        })
    }
}

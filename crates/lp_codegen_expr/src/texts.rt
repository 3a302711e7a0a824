//! The texts of a program, each once.
ghost use Rattle.std.specs.Prelude.{◌≡◌, [], IfOk, nat_eq};
ghost use Rattle.std.specs.Cmp.Lexicographic.{pointwise};
ghost use Rattle.std.specs.List.{IsDistinct};
ghost use Rattle.lp_codegen_expr.specs.Found.{IsNumbered};

use indexmap::IndexSet;
use lp_values::text::Text;
use std::alloc::{AllocError, Global};
use std::marker::Model;

/// Texts in the order in which they were first asked for, each once. The number of a text is found by a map.
#[derive(Drop)]
pub struct Texts {
    texts: IndexSet<Text>,
}

impl Model for Texts {
    ghost use Rattle.std.specs.Prelude.{List, ℕ};

    ghost Value = { List (List ℕ) };

    ghost view = { λ t. t.texts.keys };
}

impl Texts {
    /// No text. Takes no memory.
    pub fn new(alloc: Global) -> Texts
        ensures { result ≡ [] }
    {
        Texts {
            texts: IndexSet::new(alloc),
        }
    }

    /// The number of a text, which is added where it was not there.
    pub fn number(&mut self, text: &[char]) -> Result<usize, AllocError>
        ensures { IfOk result (λ k. IsNumbered k text.now self.old self.new) }
    {
        let text = Text::from_slice(*self.texts.allocator(), text)?;
        let (number, _) = self.texts.insert_full(text)?;
        Ok(number)
    }

    /// The texts by their numbers, each once.
    pub fn as_slice(&self) -> &[Text]
        ensures same { result.now ≡ self.now }
        ensures once { IsDistinct (pointwise nat_eq) self.now }
    {
        self.texts.as_slice()
    }
}

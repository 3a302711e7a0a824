//! Paths of files.
ghost use Rattle.std.specs.Prelude.{◌≡◌, IfOk, string_bytes};

use std::alloc::{AllocError, Global};
use std::marker::Model;

/// The path of a file, which contracts see as its bytes.
#[derive(Debug, Drop)]
pub struct FilePath {
    text: String,
}

impl Model for FilePath {
    ghost use Rattle.std.specs.Prelude.{List, ℕ, string_bytes};

    ghost Value = { List ℕ };

    ghost view = { λ p. string_bytes p.text };
}

impl FilePath {
    /// The path as text.
    pub fn as_str(&self) -> &str
        ensures { result.now ≡ self.now }
    {
        self.text.as_str()
    }

    /// The path that a text spells. Takes no memory.
    pub fn from_string(text: String) -> FilePath
        ensures { result ≡ string_bytes text }
    {
        FilePath { text }
    }

    /// The path that a text spells.
    pub fn from_str(alloc: Global, text: &str) -> Result<FilePath, AllocError>
        ensures { IfOk result (λ p. p ≡ text.now) }
    {
        Ok(FilePath {
            text: String::from_str(alloc, text)?,
        })
    }
}

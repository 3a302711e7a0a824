//! The tokens of a file.
//!
//! A file is UTF-8. Spaces, tabs and newlines part its tokens, and so do comments: `//` up to the
//! line's end, and `/*` up to the first `*/`. A backslash directly before a newline joins two
//! lines before all else, also inside a token.
#![tactic(auto)]

ghost use Rattle.std.specs.Prelude.{◌≡◌, ℕ, ◌≤◌, ◌<◌, List, length, IfOk, IfErr};
ghost use Rattle.lp_tree.specs.declared.token.Token.{Token as Tok};
ghost use Rattle.lp_tree.specs.declared.token.LexKind.{LexKind as Kind};
ghost use Rattle.lp_tree.specs.Signs.{AreUnsigned};
ghost use Rattle.lp_lexer.specs.Source.{most_bytes};
ghost use Rattle.lp_lexer.specs.Lexis.{IsLexed, IsFault};
ghost use Rattle.lp_lexer.specs.Laws.{AreDisjoint, IsAccounted, HasAnswer};
ghost use Rattle.lp_lexer.specs.Answer.{IsLexFault, AreTokensUnlessMemory, IsFaultUnlessMemory};

mod characters;
mod cursor;
mod forms;
mod lexer;
mod marks;
pub mod sign;

use crate::characters::Characters;
use crate::lexer::{Walk, walk_over};
use lp_tree::token::{LexKind, Token};
use std::alloc::{AllocError, AllocFailed, Global};
use thiserror::Error;

/// Why bytes have no tokens.
#[derive(Debug, PartialEq, Eq, Drop, Error)]
pub enum LexFault {
    /// Memory ran out.
    #[error("out of memory")]
    NoMemory,
    /// The bytes from a place on are not UTF-8, or a comment that begins there has no end.
    #[error("no tokens at byte {at}")]
    At {
        /// The place of the first byte of the fault.
        at: u32,
        /// `NotUtf8` or `OpenComment`.
        kind: LexKind,
    },
}

impl From<AllocError> for LexFault {
    ghost use Rattle.lp_lexer.specs.declared.LexFault.TheVariants.{NoMemory};

    ghost from_gives = { λ _ e. e ≡ NoMemory };

    fn from(_: AllocError) -> Self {
        LexFault::NoMemory
    }
}

impl<T: Drop> From<AllocFailed<T>> for LexFault {
    ghost use Rattle.lp_lexer.specs.declared.LexFault.TheVariants.{NoMemory};

    ghost from_gives = { λ _ e. e ≡ NoMemory };

    fn from(_: AllocFailed<T>) -> Self {
        LexFault::NoMemory
    }
}

/// The tokens of a file of at most 16777216 bytes, in their order, or the first fault of the whole
/// file: bytes that are not UTF-8, or a comment without end, whichever begins first.
///
/// What begins no token is a token of kind `Bad`.
pub fn lex(alloc: Global, bytes: &[u8]) -> Result<Vec<Token>, LexFault>
    requires { length bytes.now ≤ most_bytes }
    // What is answered are the tokens.
    ensures found { IfOk result (λ ts. IsLexed bytes.now ts.items) }
    // The tokens are answered, unless memory runs out.
    ensures only { (ts : List Tok) → IsLexed bytes.now ts → AreTokensUnlessMemory ts result }
    // A fault is the first of the file.
    ensures fault { IfErr result (IsLexFault bytes.now) }
    // The first fault is answered, unless memory runs out.
    ensures only_fault { (at : ℕ) (kind : Kind)
        → IsFault bytes.now at kind → IsFaultUnlessMemory at kind result }
{
    answer(alloc, bytes)
}

/// Law: each source has tokens or a fault.
pub fn law_answered()
    ensures { (bs : List ℕ) → HasAnswer bs }
{}

/// Law: tokens have bytes, and each begins no earlier than the one before it ends.
pub fn law_apart()
    ensures { (bs : List ℕ) (ts : List Tok) → IsLexed bs ts → AreDisjoint 0 ts (length bs) }
{}

/// Law: each byte of a file with tokens is of a token, a blank, a comment or a join.
pub fn law_accounted()
    ensures { (bs : List ℕ) (ts : List Tok)
        → IsLexed bs ts → (k : ℕ) → k < length bs → IsAccounted bs ts k }
{}

/// A law of the definitions: no integer token is negative, since a sign is a token of its own.
pub fn law_unsigned()
    ensures { (bs : List ℕ) (ts : List Tok) → IsLexed bs ts → AreUnsigned ts }
{}

/// The tokens of a file, or its first fault.
fn answer(alloc: Global, bytes: &[u8]) -> Result<Vec<Token>, LexFault>
    requires { length bytes.now ≤ most_bytes }
    ensures found { IfOk result (λ ts. IsLexed bytes.now ts.items) }
    ensures fault { IfErr result (IsLexFault bytes.now) }
{
    let (characters, valid) = Characters::new(bytes);
    match walk_over(alloc, characters)? {
        Walk::Open(at) => {
            if (at as usize) < valid {
                return Err(LexFault::At {
                    at,
                    kind: LexKind::OpenComment,
                });
            }
        }
        Walk::Whole(tokens) => {
            if valid == bytes.len() {
                return Ok(tokens);
            }
        }
    }
    Err(LexFault::At {
        at: valid as u32,
        kind: LexKind::NotUtf8,
    })
}

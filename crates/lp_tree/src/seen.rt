//! Tokens as parsers see them.
ghost use Rattle.std.specs.Prelude.{◌≡◌, IfOk};
ghost use Rattle.lp_tree.specs.Seen.{named, sort_of, seen};

use crate::chars::Chars;
use crate::keyword::Keyword;
use crate::reserved::keyword;
use crate::token::{Mark, Token, TokenKind};
use std::alloc::AllocError;

/// What a parser sees of a token: a reserved word is no name.
#[derive(Debug, Drop)]
pub enum Sort {
    /// A name that is not reserved.
    Name(Chars),
    /// A text literal.
    Text(Chars),
    /// An integer or a character literal.
    Int(i64),
    /// A mark.
    Mark(Mark),
    /// A reserved word.
    Reserved(Keyword),
    /// What is no token.
    Wrong,
}

/// A token as a parser sees it, with its line.
#[derive(Debug, Drop)]
pub struct Seen {
    /// What it is.
    pub sort: Sort,
    /// Its line, from 1.
    pub line: u32,
}

// What a word is: reserved, or a name.
fn name_or_reserved(word: &Chars) -> Result<Sort, AllocError>
    ensures { IfOk result (λ s. s ≡ named word.now) }
{
    match keyword(word.as_slice()) {
        None => Ok(Sort::Name(word.copy()?)),
        Some(found) => Ok(Sort::Reserved(found)),
    }
}

fn sort_kind(kind: &TokenKind) -> Result<Sort, AllocError>
    ensures { IfOk result (λ s. s ≡ sort_of kind.now) }
{
    match kind {
        TokenKind::Name(word) => name_or_reserved(word),
        TokenKind::Text(text) => Ok(Sort::Text(text.copy()?)),
        TokenKind::Int(value) => Ok(Sort::Int(*value)),
        TokenKind::Mark(mark) => Ok(Sort::Mark(*mark)),
        TokenKind::Bad(_) => Ok(Sort::Wrong),
    }
}

/// A token as parsers see it.
pub fn see(token: &Token) -> Result<Seen, AllocError>
    ensures { IfOk result (λ s. s ≡ seen token.now) }
{
    Ok(Seen {
        sort: sort_kind(&token.kind)?,
        line: token.line,
    })
}

//! Tokens.
use crate::chars::Chars;
use crate::operator::{AssignOp, BinOp, Step};

/// A mark. `({`, `})`, `([` and `])` are two marks each.
#[derive(Clone, Copy, Debug, PartialEq, Eq)]
pub enum Mark {
    /// `(`
    OpenParen,
    /// `)`
    CloseParen,
    /// `{`
    OpenBrace,
    /// `}`
    CloseBrace,
    /// `[`
    OpenBracket,
    /// `]`
    CloseBracket,
    /// `,`
    Comma,
    /// `;`
    Semicolon,
    /// `:`
    Colon,
    /// `::`
    ColonColon,
    /// `.`
    Dot,
    /// `..`
    DotDot,
    /// `->`
    Arrow,
    /// `?`
    Question,
    /// `#`
    Hash,
    /// `!`
    Not,
    /// `~`
    Flip,
    /// `&&`
    AndThen,
    /// `||`
    OrElse,
    /// A binary operator. `-` is also a prefix, and `<` may count from the end.
    Binary(BinOp),
    /// `++` and `--`
    Step(Step),
    /// `=` and its kin
    Assign(AssignOp),
}

/// Why bytes are no token, or no tokens at all.
#[derive(Clone, Copy, Debug, PartialEq, Eq)]
pub enum LexKind {
    /// Bytes that are not UTF-8.
    NotUtf8,
    /// A `/*` without its `*/`.
    OpenComment,
    /// A character that begins no token.
    BadChar,
    /// A text without its end on its line.
    OpenString,
    /// An integer above 9223372036854775807.
    NumberTooLarge,
}

/// What a token is.
#[derive(Debug, Drop)]
pub enum TokenKind {
    /// A name, reserved words among them: a macro may have their names.
    Name(Chars),
    /// A text literal, by the text that it stands for.
    Text(Chars),
    /// An integer or a character literal.
    Int(i64),
    /// A mark.
    Mark(Mark),
    /// What is no token, and a fault where it counts.
    Bad(LexKind),
}

/// A token and where it stands.
#[derive(Debug, Drop)]
pub struct Token {
    /// What it is.
    pub kind: TokenKind,
    /// Its line, from 1.
    pub line: u32,
    /// The place of its first byte.
    pub at: u32,
    /// How many bytes it has.
    pub len: u32,
    /// Whether it is the first of its line, where joined lines are one.
    pub first: bool,
}

//! Signs: the characters of a source as the lexer sees them.

/// A character of a source and where it stands. Joined lines have no signs of their own.
#[derive(Clone, Copy, Debug, PartialEq, Eq)]
pub struct Sign {
    /// The character.
    pub code: char,
    /// The place of its first byte.
    pub at: u32,
    /// Its line, from 1.
    pub line: u32,
}

/// What stands for one character in a text or a character literal.
#[derive(Clone, Copy, Debug, PartialEq, Eq)]
pub struct Letter {
    /// The character.
    pub code: char,
    /// How many signs it has: 1, or with a backslash 2 or 4.
    pub size: u32,
}

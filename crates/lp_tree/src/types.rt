//! Types.
use crate::keyword::Base;

/// A type: what it is made of, and how many stars stand behind it.
#[derive(Clone, Copy, Debug, PartialEq, Eq)]
pub struct TypeName {
    /// What it is made of.
    pub base: Base,
    /// How many stars stand behind it: `int **` are arrays of arrays.
    pub stars: u32,
}

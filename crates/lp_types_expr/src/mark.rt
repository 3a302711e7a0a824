//! Marks of blocks.

/// How much was declared where a block began, by which the block is left again.
#[derive(Clone, Copy, Debug, PartialEq, Eq)]
pub struct Mark {
    /// How many locals are seen.
    pub locals: usize,
    /// How many of them belong to the blocks round the one that goes on behind.
    pub outer: usize,
}

//! Where a reader is.

/// How a reader ended.
#[derive(Clone, Copy, Debug, PartialEq, Eq)]
pub enum Ending {
    /// With the last item of a script.
    Whole,
    /// With a fault at this offset.
    Bad(u64),
    /// With an input that is too large.
    Large,
    /// With a read that failed.
    Failed,
}

/// Where a reader is.
#[derive(Clone, Copy, Debug, PartialEq, Eq)]
pub enum Phase {
    /// It still takes bytes of the input.
    Taking,
    /// It has all bytes, and gives items.
    Giving,
    /// It has ended.
    Over(Ending),
}

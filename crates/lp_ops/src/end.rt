//! Ends of ranges.

/// An end of a range.
#[derive(Clone, Copy, Debug, PartialEq, Eq)]
pub enum End {
    /// A place counted from the start, from 0.
    Start(i64),
    /// A place counted from the end: the length less the number.
    Back(i64),
    /// The first or the last place.
    Open,
}

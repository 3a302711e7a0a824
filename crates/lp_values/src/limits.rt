//! The limits that hold for every value. Each stands here and in `specs/Limits.antt` alone.

/// How many items an array has at most, and how many pairs a mapping, as read.
pub const MAX_ITEMS: usize = 10000;

/// How many code points a text has at most.
pub const MAX_CODE_POINTS: usize = 100000;

//! Open productions with what those round them add to the levels.
use crate::frame::Frame;

/// The levels of a whole round a part: `rise` more than the part's, and `floor` at least.
#[derive(Clone, Copy)]
pub struct Lift {
    /// The least levels of the whole.
    pub floor: u32,
    /// The levels that stand round the part.
    pub rise: u32,
}

/// An open production, with the levels of all that is open from it outwards.
#[derive(Drop)]
pub struct Open {
    /// The production.
    pub frame: Frame,
    /// The levels round a part that is a place.
    pub place: Lift,
    /// The levels round a part that is no place.
    pub other: Lift,
    /// The levels of the shallowest whole where the part has not begun.
    pub least: u32,
}

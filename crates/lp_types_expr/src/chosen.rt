//! Which of some parents were chosen.

/// Which of some parents were chosen.
#[derive(Clone, Copy)]
pub enum Chosen {
    /// None.
    Nothing,
    /// The one at a place.
    One(usize),
    /// Two or more.
    Several,
}

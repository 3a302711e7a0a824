//! Functions that parents show.
use lp_values::id::ProgId;

/// A function that a parent shows: the version in whose text it stands, and its modifiers as a number.
#[derive(Clone, Copy, Debug, PartialEq, Eq)]
pub struct Source {
    /// The version, where the parent names one for the part.
    pub version: Option<ProgId>,
    /// The modifiers.
    pub mods: u16,
}

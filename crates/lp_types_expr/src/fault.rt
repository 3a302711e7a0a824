//! Faults and their lines.
use lp_tree::fault::FaultKind;

/// A fault of a file, and the line where it stands.
#[derive(Clone, Copy, Debug, PartialEq, Eq)]
pub struct FaultAt {
    /// The line, from 1.
    pub line: u32,
    /// What is wrong.
    pub kind: FaultKind,
}

//! Events of a run.
use crate::octets::{ObjectName, Octets};
use lp_tree::path::FilePath;

/// What comes to the driver, one turn each. Connections are named by their numbers.
#[derive(Debug, Drop)]
pub enum Event {
    /// A connection opens.
    Connect(u32),
    /// A connection sends a line, without its end.
    Line(u32, Octets),
    /// A connection was lost.
    Gone(u32),
    /// The clock reaches a moment, in seconds.
    Tick(u64),
    /// A file has a new text.
    Reload(FilePath, Octets),
    /// An object is to be put out.
    Swap(ObjectName),
}

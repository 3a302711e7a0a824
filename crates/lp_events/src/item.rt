//! Items of a script.
use crate::event::Event;
use crate::octets::Octets;
use lp_tree::path::FilePath;

/// An item of a script.
#[derive(Debug, Drop)]
pub enum Item {
    /// The head: the seed of the generator, and the moment at which the run begins, in seconds.
    Head(u64, u64),
    /// A file of the mudlib, with its bytes.
    File(FilePath, Octets),
    /// The driver starts.
    Start,
    /// An event.
    Event(Event),
    /// The script ends.
    End,
}

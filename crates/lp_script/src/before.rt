//! What stands before an item.
use crate::connections::Connections;

/// How far a script has come.
#[derive(Clone, Copy, Debug, PartialEq, Eq)]
pub enum Stage {
    Beginning,
    Filing,
    Running,
    Over,
}

/// What stands before an item, as far as the next one depends on it.
#[derive(Debug, Drop)]
pub struct Before {
    pub stage: Stage,
    /// The present moment, in seconds.
    pub moment: u64,
    /// The path of the latest file, or nothing.
    pub last_path: Vec<u8>,
    /// The highest number of a connection so far, or 0.
    pub highest: u32,
    /// The connections that are not gone.
    pub connections: Connections,
}

//! By which of its ports a connection came in.

/// A wire whose players come in at more than one port.
pub trait Entrances {
    /// Whether the bytes of a connection are those of a WebSocket, by the port at which it came in. False of a number that was told as
    /// lost. Takes no memory.
    fn is_web(&self, k: u32) -> bool;
}

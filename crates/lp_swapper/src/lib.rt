//! Bytes that go out to a swap file, and come back, or the fault is shown.
#![tactic(auto)]

pub mod bytes;
pub mod swapper;
pub mod ticket;

pub use bytes::Octets;
pub use swapper::{BackFault, OutAnswer, Swapper};
pub use ticket::Ticket;

//! The outside as the driver sees it: where its input comes from, and where its output goes.
#![tactic(auto)]

pub mod bytes;
mod calls;
pub mod memory;
pub mod outside;
pub mod put;
pub mod quiet;
pub mod standard;

pub use bytes::Octets;
pub use memory::{MemSink, MemSource};
pub use outside::{Failed, Sink, Source};
pub use put::{PutFault, put_all};
pub use quiet::{QuietSink, QuietSource};
pub use standard::{StdSink, StdSource};

//! The connections of a server: their streams, what is pending for them, and how far they have come.
#![tactic(auto)]

mod each;
pub mod laws;
pub mod session;
pub mod sessions;

pub use laws::{gone_are_forgotten, offers_are_kept, outputs_are_sent, slow_are_heard};
pub use session::{Phase, Session};
pub use sessions::{MOST_PENDING, Sessions};

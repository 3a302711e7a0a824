//! Scripts without events, read in two steps: up to the start of the driver, and to the end.
#![tactic(auto)]

mod reading;

pub use reading::{read_end, read_start};

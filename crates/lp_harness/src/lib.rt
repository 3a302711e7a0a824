//! Runs of the whole driver over devices in memory, of which some calls may go wrong.
//!
//! What stands here is safe, and no clause says what it gives: a run is held by its case to what it must write.
#![tactic(auto)]

pub mod device;
pub mod running;

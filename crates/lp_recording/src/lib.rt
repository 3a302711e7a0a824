//! What is written of a served run: its record, or its log where there is no record.
#![tactic(auto)]

mod put;
pub mod recording;

pub use recording::{Keeps, write_end, write_event, write_logs, write_opening};

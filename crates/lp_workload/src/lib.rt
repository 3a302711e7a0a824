//! A large workload: a script of a small mudlib and of many events, which is made and written piece by piece.
#![tactic(auto)]

mod event;
pub mod fault;
mod laws;
mod writing;

pub use fault::WorkloadFault;
pub use laws::{examples, one_script};
pub use writing::write_workload;

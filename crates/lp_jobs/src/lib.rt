//! The tests of a mudlib as jobs of other processes: each is handed over once, and what comes back is read.
#![tactic(auto)]

mod board;
mod handing;
mod hearing;
pub mod spawner;

pub use board::spawned;
pub use spawner::{Ended, SpawnError, Spawner};

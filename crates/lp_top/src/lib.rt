//! The top call of the driver.
#![tactic(auto)]

mod check;
mod command;
mod conclude;
pub mod devices;
mod finish;
mod items;
mod make;
pub mod opening;
pub mod replay;
mod serve;
pub mod status;
mod wanting;
pub mod words;

pub use command::run;
pub use lp_serve_words::WordsFault;
pub use status::{Faults, Status, code};
pub use wanting::wants;

//! The driver as a served run uses it.
#![tactic(auto)]

pub mod driver;

pub use driver::{Core, Stop};

//! What is told of ends that nobody caught: a record in the log, and a text to the player whose call it was.
#![tactic(auto)]

mod places;
mod records;
mod texts;
pub mod uncaught;

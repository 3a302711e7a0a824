//! The load of a file as a job: what it does by itself, what it asks, and how it goes on with what was answered.
//!
//! Reading and checking the file is no question: the job compiles it at once, which gives what the front end tells.
#![tactic(auto)]

mod asking;
pub mod begin;
pub mod compiling;
mod faults;
pub mod feed;
pub mod job;
pub mod laws;
mod lines;
pub mod next;
pub mod objects;
pub mod own;
mod present;
mod reading;
mod simuls;
mod taking;
mod versions;

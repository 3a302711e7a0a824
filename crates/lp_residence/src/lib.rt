//! What of the live state is in memory and what is out in the swap file: objects and programs go out,
//! come back, and end.
//!
//! Whatever is out, the state stands for the same world.
#![tactic(auto)]

pub mod adding;
pub mod answers;
pub mod ending;
pub mod entering;
mod fitting;
pub mod idling;
mod objects;
pub mod owner;
pub mod packing;
mod programs;
pub mod putting;
mod reach;
pub mod reading;
mod residence;
pub mod returning;
pub mod unpacking;

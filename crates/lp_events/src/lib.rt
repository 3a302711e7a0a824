//! Scripts and transcripts: items, events and outputs, and how they are spelled.
//!
//! The definitions stand in `specs/`. Here are the types that they speak of.
#![tactic(auto)]

pub mod event;
pub mod item;
pub mod octets;
pub mod out;

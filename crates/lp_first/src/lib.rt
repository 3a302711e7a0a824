//! The first state: nothing was made yet, over files, with the seed of the generator and the clock.
//!
//! It stands for the first world of the written meaning. Every further state comes from one of these.
#![tactic(auto)]

pub mod first;

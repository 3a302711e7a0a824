//! What is saved is restored as it was: laws above the definitions of saving and of restoring.
#![tactic(auto)]

pub mod integers;
pub mod mappings;
pub mod round_trip;

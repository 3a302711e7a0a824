//! Objects that begin to shadow other ones, on the live state.
#![tactic(auto)]

pub mod shadows;

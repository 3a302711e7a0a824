//! What of the live state a file meets that is compiled: definitions, and laws of them.
#![tactic(auto)]

pub mod laws;

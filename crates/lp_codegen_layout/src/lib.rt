//! What is known of the names of a version while its code is made, from its tables.
#![tactic(auto)]

pub mod entry;
pub mod laws;
pub mod layout;
pub mod letters;
pub mod parents;
pub mod variables;

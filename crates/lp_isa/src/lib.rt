//! The instruction table as one definition, and what it says that code stands for a tree.
//!
//! The definitions stand in `specs/`. No code runs here: what carries them out stands above.
#![tactic(auto)]

//! The code of statements and functions.
//!
//! As the generators of expressions do, a generator adds instructions, texts and switches to code under construction, and
//! its contract says that in every finished code that has what was added the statement is translated there, and that a
//! statement that is clear is refused for want of memory or room alone.
#![tactic(auto)]

pub mod clears;
pub mod closed;
pub mod fun;
pub mod globals;
pub mod labels;
pub mod led;
pub mod plain;
pub mod stmt;

//! The encoding of programs in bytes.
#![tactic(auto)]

mod coded;
mod enums;
mod fault;
mod instrs;
mod lists;
mod numbers;
mod program;
mod reader;
mod rows;
mod texts;

pub use fault::DecodeFault;
pub use program::{decode, encode, law_prefix_free};

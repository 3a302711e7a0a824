//! The words that `serve` is called with, and what the words of every command share.
#![tactic(auto)]

mod number;
mod values;
pub mod words;

pub use number::number_in;
pub use values::is_value;
pub use words::{Serving, WordsFault, is_serve, matched, may_all_stand, serving_of};

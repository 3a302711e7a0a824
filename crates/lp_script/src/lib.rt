//! Scripts and transcripts as bytes: a reader of items, and writers of items and of outputs.
#![tactic(auto)]

mod advance;
pub mod before;
pub mod behind;
mod block;
pub mod connections;
mod fault;
pub mod items;
mod laws;
mod number;
mod phase;
mod put;
mod reader;
pub mod stop;
mod taking;
mod word;
mod writing;

pub use advance::{before_first, pass_item};
pub use block::write_outs;
pub use fault::ScriptFault;
pub use items::{one_spelling, read_item};
pub use laws::{more_items, refusals};
pub use reader::Reader;
pub use writing::write_item;

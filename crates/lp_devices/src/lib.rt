//! Devices in memory for the cases of served games, as a case spells them: a wire whose connections may take little, and a folder whose
//! files others may change.
#![tactic(auto)]

pub mod bounds;
pub mod folder;
pub mod pieces;
pub mod spelled;
pub mod wire;

pub use folder::TestFolder;
pub use spelled::{Unspelled, folder_of, numbers, wire_of};
pub use wire::TestWire;

//! The files of a server: a folder, or its like in memory.
#![tactic(auto)]

pub mod memory;
pub mod none;
pub mod outside;
pub mod storing;

pub use memory::MemFiles;
pub use none::NoFiles;
pub use outside::{Files, FilesError, Loaded};
pub use storing::store_of;

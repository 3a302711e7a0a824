//! The swap file of a run that keeps nothing on a disk.
#![tactic(auto)]

pub mod file;

pub use file::MemoryFile;

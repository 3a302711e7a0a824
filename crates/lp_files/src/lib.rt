//! The store of files: bytes by path, and the paths that were written or removed.
#![tactic(auto)]

pub mod paths;
pub mod store;

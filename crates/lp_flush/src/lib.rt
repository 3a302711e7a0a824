//! Files that turns changed are written outside.
#![tactic(auto)]

pub mod flush;
pub mod laws;

pub use flush::{write_changed, write_last};
pub use laws::changed_files_are_kept;

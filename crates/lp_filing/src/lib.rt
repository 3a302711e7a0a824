//! Efuns on files, once the master gave leave: what they read, and what they do to the files of the live state.
#![tactic(auto)]

pub mod leave;
pub mod outcome;
pub mod reading;
pub mod restoring;
mod rows;
pub mod saving;
pub mod writing;

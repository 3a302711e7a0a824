//! The steps of a load on the live state that run no LPC: a version comes, an object comes, an entry of a function counts,
//! a file has a new text.
//!
//! After each the state stands for the world that the written meaning has after it, and is closed.
#![tactic(auto)]

pub mod calls;
pub mod entries;
pub mod files;
pub mod objects;
pub mod versions;
mod watches;

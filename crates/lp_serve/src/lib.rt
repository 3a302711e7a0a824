//! A served run: happenings, one after another, over a driver, a wire, files and a record.
#![tactic(auto)]

pub mod game;
pub mod run;

pub use game::Game;
pub use run::{Served, serve};

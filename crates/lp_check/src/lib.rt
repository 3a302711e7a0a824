//! What is wrong with the files of a mudlib: what loading each of them finds, its parents first and running nothing.
#![tactic(auto)]

mod all;
pub mod law;
mod lines;
mod simul;
mod sources;

pub use all::load_all;
pub use simul::load_simul;
pub use sources::Sources;

//! A game that is hosted: the state of the driver as a served run uses it, and the run of a server from its files to its end.
#![tactic(auto)]

pub mod run;
pub mod state;

pub use run::{Hosted, Hosting, host};
pub use state::HostedState;

//! The machine of calls: what is asked is answered on the live state.
//!
//! The arguments of a call lie on top of the one stack. A call takes them away and answers how it ended; its caller goes on
//! with the value, or at its innermost catch. An efun that calls LPC is a job, which asks on behalf of the function that called it.
#![tactic(auto)]

mod asking;
pub mod calling;
mod cloning;
pub mod command;
mod command_efun;
mod commanding;
pub mod cycle;
mod efuns;
mod entering;
pub mod fault;
mod halting;
pub mod initialising;
mod keeping;
mod laying;
mod loaded;
mod loading;
mod looking;
mod making;
mod naming;
pub mod object_loading;
pub mod request;
mod shadowing;
mod working;

pub use lp_loading::job::Answer;

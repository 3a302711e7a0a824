//! Call-outs, heart beats, and the watches for `reset` and `clean_up`.
#![tactic(auto)]

pub mod call_out;
pub mod call_outs;
pub mod fault;
pub(crate) mod functions;
pub(crate) mod index;
pub mod kind;
pub(crate) mod line;
pub(crate) mod moments;
pub(crate) mod spot;
pub mod timers;
pub(crate) mod tree;

//! The operators of LPC.
#![tactic(auto)]

pub mod binary;
pub mod effect;
pub mod end;
pub mod fault;
pub mod index;
pub mod int;
pub mod list;
pub mod operation;
pub mod price;
pub mod range;
pub mod set;
pub mod unary;

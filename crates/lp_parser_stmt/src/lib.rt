//! Statements of LPC sources.
#![tactic(auto)]

pub mod begin;
pub mod class;
pub mod declaration;
pub mod ending;
pub mod expression;
pub mod focus;
pub mod frame;
pub mod label;
pub mod law;
pub mod machine;
pub mod names;
pub mod role;
pub mod stack;

//! Values of LPC, the texts among them, and the errors of its running functions.
#![tactic(auto)]

pub mod decimal;
pub mod error;
pub mod id;
pub mod limits;
pub mod text;
pub mod value;

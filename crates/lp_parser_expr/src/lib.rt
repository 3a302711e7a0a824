//! Expressions of LPC sources.
#![tactic(auto)]

pub mod behind;
pub mod build;
pub mod ending;
pub mod fault;
pub mod focus;
pub mod frame;
pub mod infix;
pub mod law;
pub mod lift;
pub mod machine;
pub mod open;
pub mod operand;
pub mod reading;
pub mod stack;
pub mod tall;

pub use fault::ParseFault;
pub use reading::expr;

//! What the names of a unit mean, the types of expressions, and the faults of expressions.
#![tactic(auto)]

pub mod around;
pub mod assign;
pub mod call;
pub mod called;
pub mod chosen;
pub mod fault;
pub mod items;
pub mod kind;
pub mod local;
pub mod mark;
pub mod named;
pub mod names;
pub mod parent;
mod parents;
mod placed;
pub mod row;
pub mod scopes;
pub mod shown;
pub mod signature;
mod simuls;
pub mod surroundings;
pub mod tables;
pub mod types;
pub mod visit;
pub mod visits;
pub mod walk;

//! Environments, inventories and shadows of objects.
#![tactic(auto)]

pub mod fault;
mod links;
pub mod places;

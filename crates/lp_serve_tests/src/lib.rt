//! Served runs over devices in memory, with a small driver.
#![tactic(auto)]

pub mod cases;
pub mod hello;
#[cfg(test)]
mod tests;

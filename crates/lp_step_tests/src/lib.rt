//! Tests of single instructions: programs of raw code, run step by step on a state made by hand.
#![tactic(auto)]

#[cfg(test)]
mod build;
#[cfg(test)]
mod containers;
#[cfg(test)]
mod running;
#[cfg(test)]
mod stacks;

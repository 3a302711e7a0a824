//! Tests of objects, places and shadows.
#![tactic(auto)]

#[cfg(test)]
mod objects;
#[cfg(test)]
mod places;

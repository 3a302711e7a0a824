//! Jobs that save and restore the variables of objects: the object and its program come into memory for that.
#![tactic(auto)]

mod keeper;
pub mod keeping;

//! The numbers of a report: how many objects are live, how many versions are kept, and how many of them are out.
#![tactic(auto)]

mod counting;
mod keeping;
mod marking;
pub mod report;

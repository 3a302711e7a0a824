//! What no clause says of scripts and workloads: the items of a script and the bytes of outputs as values, and inputs and outputs of more
//! bytes than a case of `tests/` is to have.
//!
//! The tests stand here and not beside the code, so that no library is proved twice.
#![tactic(auto)]

#[cfg(test)]
mod large;
#[cfg(test)]
mod scripts;

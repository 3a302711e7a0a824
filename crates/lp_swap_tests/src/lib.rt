//! What no clause says of the swap file and the swapper.
//!
//! The tests stand here and not beside the code, so that no library is proved twice.
#![tactic(auto)]

#[cfg(test)]
mod devices;
#[cfg(test)]
mod extents;
#[cfg(test)]
mod records;

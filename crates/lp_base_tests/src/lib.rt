//! What no clause says of sources, sinks, values, trees and the words of scripts.
//!
//! The tests stand here and not beside the code, so that no library is proved twice.
#![tactic(auto)]

#[cfg(test)]
mod devices;
#[cfg(test)]
mod trees;
#[cfg(test)]
mod values;
#[cfg(test)]
mod words;

//! What no clause says of texts.
//!
//! The tests stand here and not beside the code, so that no library is proved twice.
#![tactic(auto)]

#[cfg(test)]
mod searching;
#[cfg(test)]
mod texts;

//! What no clause says of actions, of all that is to come, and of the leave to use files.
//!
//! The tests stand here and not beside the code, so that no library is proved twice.
#![tactic(auto)]

#[cfg(test)]
mod actions;
#[cfg(test)]
mod call_outs;
#[cfg(test)]
mod policy;
#[cfg(test)]
mod timers;

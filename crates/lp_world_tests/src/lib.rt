//! What no clause says of objects that go out and come back.
//!
//! The tests stand here and not beside the code, so that no library is proved twice.
#![tactic(auto)]

#[cfg(test)]
mod causes;
#[cfg(test)]
mod globals;
#[cfg(test)]
mod idling;
#[cfg(test)]
mod programs;
#[cfg(test)]
mod records;
#[cfg(test)]
mod state;
#[cfg(test)]
mod states;

//! What `add_action`, `input_to` and `call_out` do, apart from the question whether this object has the function.
#![tactic(auto)]

mod adding;
mod awaiting;
mod delaying;
pub mod plans;
pub mod putting;
mod reach;
pub mod refusing;

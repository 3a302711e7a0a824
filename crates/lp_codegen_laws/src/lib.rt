//! Laws of the code of units: what has no fault is clear, so that no generator refuses it but for want of memory or room.
#![tactic(auto)]

pub mod laws;

//! The live state: objects, programs, cells and all that lasts from turn to turn, and what is out in
//! the swap file of it.
//!
//! The state stands for a world of the written meaning (`specs/Stands.antt`): whatever is out, it
//! stands for the same one. It is closed (`specs/Closed.antt`): what it names is there.
#![tactic(auto)]

pub mod additions;
pub mod bare;
pub mod connections;
pub mod frame;
pub mod laws;
pub mod live;
pub mod objects;
pub mod serials;
pub mod shared;
pub mod targets;
pub mod versions;

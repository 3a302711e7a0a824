//! The variables of an object as bytes.
#![tactic(auto)]

pub mod fault;
pub mod law;
pub mod list;
mod order;
mod packing;
mod reading;
pub mod record;

pub use fault::ImageFault;
pub use order::is_ordered;
pub use packing::pack;
pub use reading::unpack;
pub use record::{Packed, PackedCell, Record};

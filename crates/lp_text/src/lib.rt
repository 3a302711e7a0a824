//! The text functions of LPC, over code points.
#![tactic(auto)]

pub mod fault;
pub mod form;
pub mod items;
pub mod letters;
pub mod pieces;
pub mod scan;
pub mod search;

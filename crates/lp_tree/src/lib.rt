//! Tokens, trees and faults of LPC sources.
#![tactic(auto)]

pub mod chars;
pub mod expr;
pub mod fault;
pub mod keyword;
pub mod laws;
pub mod operator;
pub mod path;
pub mod pragma;
pub mod reserved;
pub mod seen;
pub mod stmt;
pub mod token;
pub mod types;
pub mod unit;

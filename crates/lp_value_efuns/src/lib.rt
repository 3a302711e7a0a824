//! The efuns that compute: kinds of values, numbers, texts, arrays and mappings.
#![tactic(auto)]

pub mod argument;
pub mod compute;
pub mod fit;
pub mod format;
pub mod kind;
pub mod list;
pub mod number;
pub mod price;
pub mod text;

//! The expansion of a file: includes, conditionals and macros.
#![tactic(auto)]

pub mod arguments;
pub mod bytes;
pub mod compiled;
pub mod condition;
pub mod conditionals;
pub mod definitions;
pub mod directive;
pub mod expander;
pub mod fault;
pub mod law;
pub mod list;
pub mod macros;
pub mod names;
pub mod out;
pub mod params;
pub mod place;
pub mod reader;
pub mod reading;
pub mod result;
pub mod row;
pub mod same;
pub mod source;
pub mod stack;
pub mod state;
pub mod stop;
pub mod table;
pub mod value;
pub mod word;

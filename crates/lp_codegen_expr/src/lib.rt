//! The code of expressions.
//!
//! A generator adds instructions, texts and switches to code under construction. Its contract says that in every finished
//! code that has what was added, and whose tables are those of the scope, the tree is translated there.
#![tactic(auto)]

pub mod calls;
pub mod code;
pub mod expr;
pub mod index;
pub mod kinds;
pub mod plain;
pub mod scope;
pub mod texts;

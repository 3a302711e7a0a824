//! What rows are made of.
use lp_code::tables::Slot;
use lp_tree::keyword::Modifier;
use lp_tree::types::TypeName;
use lp_tree::unit::Param;

/// What the row of a name is made of.
#[derive(Clone, Copy)]
pub enum Origin<'a> {
    /// A function or a prototype of the file: its part, its number among the part's functions, or 65535 for a prototype,
    /// its modifiers, the type of its value, and its parameters.
    Own(u16, u16, &'a [Modifier], Option<TypeName>, &'a [Param]),
    /// A parent's row, with its part.
    Inherited(u16, &'a Slot),
}

//! What goes out and comes back.
use lp_values::id::{ObjId, ProgId};

/// What a record in the swap file belongs to.
#[derive(Clone, Copy, Debug, PartialEq, Eq)]
pub enum Owner {
    /// An object: its variables.
    Object(ObjId),
    /// A version: its program.
    Program(ProgId),
}

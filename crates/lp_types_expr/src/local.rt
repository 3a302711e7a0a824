//! Locals.
use lp_tree::chars::Chars;
use lp_tree::types::TypeName;

/// A local and its type.
#[derive(Debug, Drop)]
pub struct Local {
    /// The name.
    pub name: Chars,
    /// The type.
    pub kind: TypeName,
}

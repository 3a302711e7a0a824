//! Signatures.
use lp_code::listed::Listed;
use lp_tree::types::TypeName;

/// What a caller knows of a function or a prototype.
#[derive(Debug, Drop)]
pub struct Signature {
    /// Whether arguments may be missing.
    pub varargs: bool,
    /// The type of its value.
    pub answer: TypeName,
    /// The types of its parameters.
    pub params: Listed<TypeName>,
}

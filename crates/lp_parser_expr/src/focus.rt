//! What the machine waits for.
use crate::frame::{Callee, Frame};
use crate::tall::Tall;
use lp_tree::types::TypeName;

/// What the machine waits for.
#[derive(Drop)]
pub enum Focus {
    /// An operand.
    Need,
    /// A token behind this operand.
    Have(Tall),
    /// A star, or the parenthesis that ends a cast to this type, begun on this line.
    EndCast(u32, TypeName),
    /// The parenthesis that ends this literal.
    EndLiteral(Tall),
    /// The name of a function.
    NeedName(Callee),
    /// The parenthesis that begins this production.
    NeedParen(Frame),
}

/// What a token makes of an operand.
#[derive(Drop)]
pub enum Acted {
    /// The machine goes on.
    Goes(Focus),
    /// It does not, and the operand is as it was.
    Refuses(Tall),
}

/// What a token makes of the machine.
#[derive(Drop)]
pub enum Moved {
    /// It goes on.
    Goes(Focus),
    /// No expression goes on so. This is the one that was read before the token, where it is whole.
    Ends(Option<Tall>),
}

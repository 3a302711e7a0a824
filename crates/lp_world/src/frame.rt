//! Frames of running functions.
use crate::shared::SharedProgram;
use lp_values::id::{ObjId, ProgId};

/// An open catch.
#[derive(Clone, Copy, Debug, PartialEq, Eq)]
pub struct Catch {
    /// Where it goes on.
    pub to: u32,
    /// The height of the whole stack at its begin.
    pub height: u32,
}

/// A running function. Its locals lie on the one stack from `bottom` on, its operands above them.
#[derive(Drop)]
pub struct Frame {
    /// The object.
    pub this: ObjId,
    /// The version in whose text the function stands.
    pub program: ProgId,
    /// The part of the object's version that it is.
    pub part: u16,
    /// Where its variables begin among those of the object.
    pub base: u32,
    /// The next instruction.
    pub at: u32,
    /// Where its locals begin on the stack.
    pub bottom: u32,
    /// The function's row.
    pub fun: u16,
    /// The open catches, the innermost last.
    pub catches: Vec<Catch>,
    /// The program of the version, at hand as long as the function runs.
    pub code: SharedProgram,
}

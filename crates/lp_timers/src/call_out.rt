//! One call-out.
use lp_values::id::ObjId;
use lp_values::text::Text;
use lp_values::value::Value;

/// A call that waits for a moment.
#[derive(Debug, Drop)]
pub struct CallOut {
    /// Which call-out it is. Each has another number, and a later one a higher.
    pub number: u64,
    /// The object whose function is called.
    pub ob: ObjId,
    /// The name of the function.
    pub fun: Text,
    /// The moment at which it is due, in seconds.
    pub due: u64,
    /// What the function is given.
    pub args: Vec<Value>,
}

/// What is kept of a call-out at its number.
#[derive(Debug, Drop)]
pub(crate) struct Call {
    pub(crate) ob: ObjId,
    pub(crate) fun: Text,
    pub(crate) due: u64,
    pub(crate) args: Vec<Value>,
}

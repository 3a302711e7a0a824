//! Whom a call calls.
use crate::signature::Signature;
use lp_instr::efun::Efun;

/// Whom a call calls.
#[derive(Clone, Copy)]
pub enum Called<'a> {
    /// A function of the file or its parents, or one that they only declare.
    AFunction(&'a Signature),
    /// A simul efun.
    ASimul,
    /// An efun.
    AnEfun(Efun),
    /// A parent, but two have the path that the call names.
    TwoParents,
    /// Nobody.
    Nobody,
}

//! What a running function asks.
use lp_asking::ending::Place;
use lp_instr::efun::Efun;
use lp_reaching::reached::Reached;

/// What a running function asks.
#[derive(Drop)]
pub enum Request {
    /// The function that its question reaches, if it reaches one.
    Function(Option<Reached>),
    /// An efun, which the function at this place calls.
    Efun(Place, Efun),
}

//! What a question reaches.
use lp_frames::entry::Callee;
use lp_values::id::ObjId;
use lp_world::shared::SharedProgram;

/// The function that a question reaches.
#[derive(Drop)]
pub struct Reached {
    /// Where it is.
    pub callee: Callee,
    /// Its program.
    pub code: SharedProgram,
    /// Who is the latest caller then, where a new one comes.
    pub caller: Option<ObjId>,
}

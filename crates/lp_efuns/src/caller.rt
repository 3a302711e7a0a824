//! Who calls an efun, and what an efun may change beside the live state.
use lp_values::id::ObjId;
use lp_values::text::Text;

/// The function that calls an efun.
#[derive(Clone, Copy)]
pub struct Caller<'a> {
    /// Its object.
    pub this: ObjId,
    /// `this_interactive()`.
    pub interactive: Option<ObjId>,
    /// The callers of the function, the latest last.
    pub callers: &'a [ObjId],
}

/// A running command.
#[derive(Debug, Drop)]
pub struct Command {
    /// Its verb.
    pub verb: Text,
    /// The text that it shows where no action did it.
    pub fail: Option<Text>,
}

/// What functions of a turn change beside the live state.
#[derive(Debug, Drop)]
pub struct Turn {
    /// `this_player()`.
    pub player: Option<ObjId>,
    /// The running commands, the innermost last.
    pub commands: Vec<Command>,
}

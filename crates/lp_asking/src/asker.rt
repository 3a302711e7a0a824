//! Who asks.
use lp_efuns::caller::Turn;
use lp_values::id::ObjId;
use lp_values::text::Text;

/// A load under way.
#[derive(Drop)]
pub struct Loading {
    /// The name that is loaded.
    pub name: Text,
    /// How many loads for an `inherit` led to it, one after another.
    pub nested: u32,
}

/// Who asks, beside the function that does: what the driver's calls hand down, and give back.
#[derive(Drop)]
pub struct Asker {
    /// `this_player()` and the running commands, which efuns change too.
    pub turn: Turn,
    /// `this_interactive()`.
    pub interactive: Option<ObjId>,
    /// The loads under way, the innermost last.
    pub loads: Vec<Loading>,
    /// The callers of the function that asks, the latest last.
    pub callers: Vec<ObjId>,
    /// How deep calls are nested: 0 where the driver asks.
    pub depth: u32,
}

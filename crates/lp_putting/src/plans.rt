//! What an efun does with a function of this object.
use lp_efuns::answer::Did;
use lp_values::id::ObjId;

/// What an efun does where this object has the function that it names.
#[derive(Clone, Copy)]
pub enum Plan {
    /// The function is an action of this living object from then on.
    Action(ObjId),
    /// It waits for the next line of this connection.
    Line(u32),
    /// It is called after so many seconds.
    Delay(u64),
}

/// What an efun comes to before it is asked whether this object has the function.
#[derive(Drop)]
pub enum Planned {
    /// It ends.
    Ends(Did),
    /// It does this, where the object has the function.
    Asks(Plan),
}

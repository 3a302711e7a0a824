//! What the master is asked leave for.
use lp_values::id::ObjId;
use lp_values::text::Text;

/// What an efun does with a file, once the master gave leave.
#[derive(Drop)]
pub enum FileDeed {
    /// Its text is read.
    Read,
    /// Its bytes are counted.
    Size,
    /// This text is appended to it, and it is made where it is not there.
    Write(Text),
    /// It is removed.
    Remove,
    /// The saved variables of this object become its text.
    Save(ObjId),
    /// The saved variables of this object come from it.
    Restore(ObjId),
}

/// What the master is asked leave for.
#[derive(Drop)]
pub enum Wish {
    /// A deed on the file at a path. The object that asks is none where it was destructed when it called the efun.
    File(FileDeed, Text, Option<ObjId>),
    /// That the first object shadows the second one.
    Shadow(ObjId, ObjId),
}

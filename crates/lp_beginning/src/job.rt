//! Jobs: new objects, as they stand between the questions that are asked for them.
use lp_asking::ending::Ending;
use lp_values::id::ObjId;

/// For what an object is made.
#[derive(Clone, Copy, Debug, PartialEq, Eq)]
pub enum LoadKind {
    /// By LPC or by the driver.
    Wanted,
    /// For an `inherit` of a load.
    Inherited,
}

/// What a job asks, without arguments.
#[derive(Clone, Copy)]
pub enum Question {
    /// The initialisers of one part of the program of an object.
    Initialise(ObjId, u16),
    /// `create` of an object, as the driver applies it.
    Create(ObjId),
}

/// An object that was made and begins.
#[derive(Drop)]
pub struct Making {
    /// For what it was made.
    pub kind: LoadKind,
    /// The object.
    pub object: ObjId,
    /// The parts of its program that have initialisers, in order.
    pub parts: Vec<u16>,
    /// How many of them are done.
    pub done: usize,
}

/// How an object is made.
#[derive(Drop)]
pub enum Begun {
    /// It is not, and nothing is asked.
    Ends(Ending),
    /// It is made, and begins.
    Runs(Making),
}

/// How a job goes on.
#[derive(Drop)]
pub enum Fed {
    /// It asks again.
    Goes,
    /// It ends.
    Ends(Ending),
}

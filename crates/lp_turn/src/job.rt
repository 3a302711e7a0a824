//! Turns, as they stand between the calls of the driver.
use crate::tick_job::{TickGoing, TickWaiting};
use lp_asking::ending::Ending;
use lp_tree::fault::Fault;
use lp_values::id::ObjId;
use lp_values::text::Text;
use lp_values::value::Value;

/// What the driver asks.
#[derive(Drop)]
pub enum Asked {
    /// A function of an object, by its name.
    Apply(ObjId, Text),
    /// A living object carries out a line.
    Command(ObjId, Text),
    /// An object is loaded, by its name.
    Load(Text),
}

/// A call of the driver. It begins with the full budget and no running command.
#[derive(Drop)]
pub struct Call {
    /// What is asked.
    pub asked: Asked,
    /// `this_player()`.
    pub player: Option<ObjId>,
    /// `this_interactive()`.
    pub interactive: Option<ObjId>,
    /// With which arguments.
    pub arguments: Vec<Value>,
}

/// How a call of the driver ends.
#[derive(Drop)]
pub enum CallEnd {
    /// With a value, or with a stop.
    Ended(Ending),
    /// A file has these faults, and was not loaded.
    Faulty(Vec<Fault>),
}

/// A function of the master that a turn calls.
#[derive(Clone, Copy, Debug, PartialEq, Eq)]
pub enum MasterFunction {
    /// `connect`, for a new connection: it answers the connection's object.
    Connect(u32),
    /// `disconnect`, for an object that lost its connection.
    Disconnect(ObjId),
}

/// Where a turn goes on.
#[derive(Drop)]
pub enum Going {
    /// A function of the master is called; the master is loaded first where it does not live.
    Master(MasterFunction),
    /// It is called after that load, where the master lives then.
    Loaded(MasterFunction),
    /// The object that `connect` answered gets the connection.
    Admit(u32, Value),
    /// `logon` has answered.
    Logged(u32, Value),
    /// A step of a tick goes on.
    Tick(TickGoing),
    /// There is nothing left.
    Done,
}

/// What a turn waits for.
#[derive(Drop)]
pub enum Waiting {
    /// The load of the master, for this function of it.
    Load(MasterFunction),
    /// A function of the master.
    Master(MasterFunction),
    /// `logon` of the object that has just got a connection.
    Logon(u32, ObjId),
    /// The command of an object, or its function that took the line.
    Line(ObjId),
    /// A call of a step of a tick.
    Tick(TickWaiting),
}

/// What a turn does next.
#[derive(Drop)]
pub enum Step {
    /// It asks, and waits for the end of the call.
    Asks(Call, Waiting),
    /// It ends.
    Ends,
}

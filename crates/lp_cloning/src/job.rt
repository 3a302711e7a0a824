//! Jobs of `clone_object`, as they stand between their questions.
use lp_asking::ending::Ending;
use lp_beginning::job as making;
use lp_tree::fault::Fault;
use lp_values::value::Value;

/// What a job asks, without arguments.
#[derive(Drop)]
pub enum Question {
    /// An object is loaded, by its name, for LPC.
    Load(String),
    /// What is asked for a new object.
    Make(making::Question),
}

/// What a question was answered that did not stop.
#[derive(Drop)]
pub enum Answered {
    /// A value.
    Value(Value),
    /// The faults of a load.
    Faults(Vec<Fault>),
}

/// Where a job stands.
#[derive(Drop)]
pub enum Cloning {
    /// The blueprint of this name is to be loaded.
    Load(String),
    /// The clone was made, and begins.
    Make(making::Making),
}

/// How `clone_object` begins, and how it goes on.
#[derive(Drop)]
pub enum Begun {
    /// It ends, and asks nothing.
    Ends(Ending),
    /// It goes on as this job.
    Runs(Cloning),
}

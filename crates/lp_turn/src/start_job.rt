//! The start of the driver, as it stands between its calls.
ghost use Rattle.std.specs.Prelude.{◌≡◌, ◌∷◌, [], MatchOption, reverse};

use crate::job::Call;
use lp_code::name::Name;
use lp_tree::fault::Fault;
use lp_values::text::Text;
use lp_values::value::Value;
use std::marker::Model;

/// Texts, the first of which comes next.
#[derive(Drop)]
pub struct Texts {
    left: Vec<Text>,
}

impl Model for Texts {
    ghost use Rattle.std.specs.Prelude.{List, ℕ, reverse};

    ghost Value = { List (List ℕ) };

    ghost view = { λ t. reverse t.left.items };
}

impl Texts {
    /// The texts in a vector that has the first of them last. Takes no memory.
    pub(crate) fn from_last(left: Vec<Text>) -> Texts
        ensures { result ≡ reverse left.items }
    {
        Texts { left }
    }

    /// The next text. Takes no memory.
    pub(crate) fn next(&mut self) -> Option<Text>
        ensures { MatchOption result ((self.old ≡ []) × (self.new ≡ [])) (λ t. self.old ≡ t ∷ self.new) }
    {
        self.left.pop()
    }
}

/// A function of the master that the start calls.
#[derive(Drop)]
pub enum StartFunction {
    /// `inaugurate_master`.
    Inaugurate,
    /// `get_simul_efun`: it answers the name of the simul-efun object.
    SimulEfun,
    /// `epilog`: it answers what is to be preloaded.
    Epilog,
    /// `preload` of a text. These come after it.
    Preload(Text, Texts),
}

/// Where the start goes on.
#[derive(Drop)]
pub enum StartGoing {
    /// A function of the master is called; the master is loaded first where it does not live.
    Master(StartFunction),
    /// It is called after that load, where the master lives then.
    Loaded(StartFunction),
    /// `get_simul_efun` has answered.
    Answered(Value),
    /// `epilog` has answered.
    Listed(Value),
    /// These texts are to be preloaded.
    Preloading(Texts),
    /// There is no master, for these faults.
    NoMaster(Vec<Fault>),
}

/// What the start waits for.
#[derive(Drop)]
pub enum StartWaiting {
    /// The first load of the master.
    First,
    /// The load of the master, for this function of it.
    Load(StartFunction),
    /// A function of the master.
    Master(StartFunction),
    /// The load of the simul-efun object, by this name.
    Simul(Name),
}

/// What the start does next.
#[derive(Drop)]
pub enum StartStep {
    /// It asks, and waits for the end of the call.
    Asks(Call, StartWaiting),
    /// The driver has started.
    Begins,
    /// There is no master, for these faults.
    NoMaster(Vec<Fault>),
}

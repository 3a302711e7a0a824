//! Loads, as they stand between their questions.
ghost use Rattle.std.specs.Prelude.{◌≡◌};
ghost use Rattle.lp_loading.specs.declared.job.LoadFault.TheVariants.{NoMemory};

use lp_asking::ending::Stop;
use lp_beginning::job::Making;
use lp_residence::answers::SwapCause;
use lp_tree::fault::Fault;
use lp_values::id::ProgId;
use lp_values::text::Text;
use lp_values::value::Value;
use std::alloc::{AllocError, AllocFailed};
use thiserror::Error;

/// For what an object is loaded.
#[derive(Clone, Copy, Debug, PartialEq, Eq)]
pub enum Purpose {
    /// LPC or the driver wants it.
    Wanted,
    /// A file that is loaded inherits its file.
    Inherited,
}

/// A version that a load made for a parent.
#[derive(Drop)]
pub struct MadeFor {
    /// The name of the parent.
    pub name: Text,
    /// The version of the object that was made.
    pub version: ProgId,
}

/// Where a load goes on.
#[derive(Clone, Copy, Debug, PartialEq, Eq)]
pub enum Going {
    /// The simul-efun object comes first.
    Simul,
    /// The file is read.
    Read,
}

/// What a load waits for.
#[derive(Drop)]
pub enum Waiting {
    /// The load of the simul-efun object.
    Simul,
    /// The load of the parent with a name.
    Parent(Text),
}

/// The load of a file.
#[derive(Drop)]
pub struct LoadJob {
    /// The name that is loaded: the path of the file without `.c`.
    pub name: Text,
    /// For what.
    pub purpose: Purpose,
    /// How many loads for an `inherit` led to it, one after another, itself among them; 0 where it is for none.
    pub nested: u32,
    /// The versions that it made for parents so far, the latest first.
    pub made: Vec<MadeFor>,
}

/// How a load begins.
#[derive(Drop)]
pub enum Begun {
    /// It goes on as this job, with the simul-efun object.
    Runs(LoadJob),
    /// Its price could not be paid.
    Spent,
}

/// How a load ends, and so what another load that asked for it is told.
#[derive(Drop)]
pub enum Answer {
    /// With a value: of a load it is the object.
    Value(Value),
    /// A file has these faults, which were logged.
    Faulty(Vec<Fault>),
    /// With a stop.
    Stopped(Stop),
}

/// What a load does next.
#[derive(Drop)]
pub enum Step {
    /// It asks for the load of the object with this name, which is made for an `inherit`, and waits for the answer.
    Asks(Text, Waiting),
    /// Its object was made, and begins as this job: what that ends with, the load ends with.
    Makes(Making),
    /// It ends.
    Ends(Answer),
}

/// What a load does with an answer.
#[derive(Drop)]
pub enum Fed {
    /// It goes on.
    Goes(Going),
    /// It ends.
    Ends(Answer),
}

/// Why a load is not carried out.
#[derive(Debug, Drop, Error)]
pub enum LoadFault {
    /// A read of the swap file failed, or gave other bytes than were written.
    #[error("the swap file failed")]
    Swap(SwapCause),
    /// Memory ran out. It also comes where a number of the program has no room in an instruction or a row of it, where a live object
    /// has the name of the object that was to be made (only where the name of the file has a `#`), and where there is a file whose
    /// name has letters beyond ASCII, which no script and no efun makes.
    #[error("out of memory")]
    NoMemory,
}

impl From<AllocError> for LoadFault {
    ghost from_gives = { λ _ e. e ≡ NoMemory };

    fn from(_e: AllocError) -> LoadFault {
        LoadFault::NoMemory
    }
}

impl<T: Drop> From<AllocFailed<T>> for LoadFault {
    ghost from_gives = { λ _ e. e ≡ NoMemory };

    fn from(_e: AllocFailed<T>) -> LoadFault {
        LoadFault::NoMemory
    }
}

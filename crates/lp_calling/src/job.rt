//! Jobs: efuns that call LPC, as they stand between their questions.
ghost use Rattle.std.specs.Prelude.{◌≡◌};
ghost use Rattle.std.specs.Str.{chars};
ghost use Rattle.lp_calling.specs.Questions.{applied_name};
ghost use Rattle.lp_calling.specs.declared.job.CallingFault.TheVariants.{NoMemory};

use crate::moving::Moving;
use crate::wish::{FileDeed, Wish};
use lp_efuns::answer::{Answer, EfunFault};
use lp_instr::efun::Efun;
use lp_values::error::ErrorKind;
use lp_values::id::ObjId;
use lp_values::text::Text;
use std::alloc::{AllocError, AllocFailed};
use thiserror::Error;

/// A function that efuns apply.
#[derive(Clone, Copy, Debug, PartialEq, Eq)]
pub enum Applied {
    /// `catch_tell`, with a text.
    CatchTell,
    /// `init`, where living objects meet.
    Init,
    /// `query_allow_shadow` of the master.
    QueryAllowShadow,
    /// `valid_read` of the master.
    ValidRead,
    /// `valid_write` of the master.
    ValidWrite,
}

impl Applied {
    /// Its name, in letters of ASCII. Takes no memory.
    pub fn name(self) -> &'static str
        ensures bytes { result.now ≡ applied_name self }
        ensures letters { chars result.now ≡ applied_name self }
    {
        match self {
            Applied::CatchTell => "catch_tell",
            Applied::Init => "init",
            Applied::QueryAllowShadow => "query_allow_shadow",
            Applied::ValidRead => "valid_read",
            Applied::ValidWrite => "valid_write",
        }
    }
}

/// What a job asks.
#[derive(Drop)]
pub enum Question {
    /// A function of an object, by its name, as another object calls it.
    Other(ObjId, Text),
    /// A function of an object, as the driver applies it.
    Apply(ObjId, Applied),
    /// An object is loaded, by its name, for LPC. That takes no arguments; the value is the object.
    Load(Text),
}

/// A function of an object is called for items, one after another. On the stack lie the arguments of the efun, the items of
/// the array as it stood, and what was taken so far.
#[derive(Drop)]
pub struct Round {
    /// The object.
    pub object: ObjId,
    /// The name of the function.
    pub function: Text,
    /// How many arguments the efun has.
    pub arguments: usize,
    /// How many items there are.
    pub count: usize,
    /// How many of them are done.
    pub done: usize,
    /// Whether an item is taken where the answer is not 0. Else the answer is taken.
    pub is_filter: bool,
}

/// Objects are given a text, one after another.
#[derive(Drop)]
pub struct Audience {
    /// The text.
    pub text: Text,
    /// An object that is left out, if there is one.
    pub but: Option<ObjId>,
    /// The objects, the first one first.
    pub listeners: Vec<ObjId>,
    /// How many of them are done.
    pub done: usize,
}

/// An object is searched for that a text names, among some objects, one after another.
#[derive(Drop)]
pub struct Search {
    /// The text.
    pub text: Text,
    /// The objects, the first one first.
    pub objects: Vec<ObjId>,
    /// How many of them are done.
    pub done: usize,
    /// The object in whose environment is searched next, if it is none of them.
    pub around: Option<ObjId>,
}

/// Where a job stands.
#[derive(Drop)]
pub enum Stage {
    /// It calls a function of an object, by its name. Its values on the stack are the arguments of the efun.
    Call(ObjId, Text),
    /// It loads the object of this name, and then calls the function of this other name in it. Its values on the stack are the
    /// arguments of the efun.
    Target(Text, Text),
    /// It loads the object of this name, and comes to that.
    Load(Text),
    /// It moves an object.
    Move(Moving),
    /// It calls a function for the items that are left.
    Items(Round),
    /// It gives an object a text.
    Tell(ObjId, Text),
    /// It gives `this_player()` a text.
    Write(Text),
    /// It gives a text to those around `this_player()`, or around this object.
    Say(ObjId, Text),
    /// It gives a text to the objects that are left.
    TellEach(Audience),
    /// It searches among the objects that are left.
    Seek(Search),
    /// It loads the master, to ask it for leave.
    MasterLoad(Wish),
    /// It asks the master, which is this object, for leave.
    Master(ObjId, Wish),
    /// The master gave leave for a deed on the file at this path, or refused it.
    File(FileDeed, Option<String>),
    /// The first object begins to shadow the second one, where it may by then.
    Shadow(ObjId, ObjId),
    /// It has come to the first of its values on the stack.
    Value,
    /// It has come to 0.
    Zero,
    /// It has come to an error of this kind.
    Error(ErrorKind),
}

/// An efun that calls LPC.
#[derive(Drop)]
pub struct Job {
    /// The efun.
    pub efun: Efun,
    /// How many values lie on the stack below its own.
    pub low: usize,
    /// Where it stands.
    pub stage: Stage,
}

/// How an efun begins.
#[derive(Drop)]
pub enum Begun {
    /// It asks nothing, and ends.
    Ends(Answer),
    /// It goes on as this job.
    Runs(Job),
}

/// What a job does next.
#[derive(Drop)]
pub enum Step {
    /// It ends.
    Ends(Answer),
    /// It asks, with so many arguments on top of the stack.
    Asks(Question, usize),
}

/// Why an efun is not carried out.
#[derive(Debug, PartialEq, Eq, Drop, Error)]
pub enum CallingFault {
    /// Memory ran out.
    #[error("out of memory")]
    NoMemory,
}

impl From<AllocError> for CallingFault {
    ghost from_gives = { λ _ e. e ≡ NoMemory };

    fn from(_e: AllocError) -> CallingFault {
        CallingFault::NoMemory
    }
}

impl<T: Drop> From<AllocFailed<T>> for CallingFault {
    ghost from_gives = { λ _ e. e ≡ NoMemory };

    fn from(_e: AllocFailed<T>) -> CallingFault {
        CallingFault::NoMemory
    }
}

impl From<EfunFault> for CallingFault {
    ghost from_gives = { λ _ e. e ≡ NoMemory };

    fn from(_e: EfunFault) -> CallingFault {
        CallingFault::NoMemory
    }
}

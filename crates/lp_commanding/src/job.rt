//! Commands of living objects, as they stand between their questions.
use lp_actions::sentence::Sentence;
use lp_efuns::answer::Answer;
use lp_values::id::ObjId;
use lp_values::text::Text;
use lp_values::value::Value;

/// A command of a living object.
#[derive(Drop)]
pub struct Commanding {
    /// The object that carries out the line.
    pub holder: ObjId,
    /// The argument of the line, if it has one.
    pub argument: Option<Text>,
    /// The actions that are left, the next one last. One that was asked is among them until its answer was told.
    pub left: Vec<Sentence>,
    /// Whether the holder was asked for `catch_tell`, since no action did the command.
    pub is_told: bool,
}

/// What a command asks, with one argument.
#[derive(Drop)]
pub enum Question {
    /// The function of an action, in the object that gave it and by its name, as the driver applies it.
    Action(ObjId, Text),
    /// `catch_tell` of the object that carries out the line, as the driver applies it.
    CatchTell(ObjId),
}

/// How a command begins.
#[derive(Drop)]
pub enum Begun {
    /// It ends, and asks nothing.
    Ends(Value),
    /// It goes on as this job.
    Runs(Commanding),
}

/// What a command does next.
#[derive(Drop)]
pub enum Step {
    /// It ends.
    Ends(Value),
    /// It asks, with one argument on top of the stack.
    Asks(Question),
}

/// What a command does with an answer.
#[derive(Drop)]
pub enum Fed {
    /// It goes on.
    Goes,
    /// It ends.
    Ends(Value),
}

/// How the efun `command` begins.
#[derive(Drop)]
pub enum CommandBegun {
    /// It ends, and no line is carried out.
    Ends(Answer),
    /// This object carries out the line, as `this_player()`.
    Runs(ObjId, Text),
}

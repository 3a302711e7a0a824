//! What the expansion of a file keeps.
use crate::arguments::Arguments;
use crate::macros::Body;
use crate::params::Params;
use crate::word::Word;

/// How far a conditional has come.
#[derive(Clone, Copy, Debug, PartialEq, Eq)]
pub enum Stage {
    /// None of its groups was read yet, and the present one is skipped.
    Waiting,
    /// The present group is read.
    Live,
    /// One of its groups was read, and the present one is skipped.
    Done,
}

/// An open conditional.
#[derive(Clone, Copy, Debug, PartialEq, Eq)]
pub struct Group {
    /// How far it has come.
    pub stage: Stage,
    /// Whether its `#else` was passed.
    pub after_else: bool,
    /// Whether it stands in a skipped group.
    pub inner: bool,
}

/// The use of a macro that was defined with parentheses.
#[derive(Drop)]
pub struct Use {
    /// Its name, where it stands.
    pub word: Word,
    /// The macro's parameters.
    pub params: Params,
    /// Its body.
    pub body: Body,
}

/// What is being read.
#[derive(Drop)]
pub enum Reading {
    /// Nothing but the next word.
    Plain,
    /// The name of a macro with parameters was read; a `(` may follow.
    Named(Use),
    /// Its arguments are being read.
    Within(Arguments),
}

/// What a list of words is expanded for.
#[derive(Clone, Copy, Debug, PartialEq, Eq)]
pub enum Purpose {
    /// It is the file.
    File,
    /// It is an argument of a macro.
    Argument,
    /// It is the condition of an `#if`.
    Condition,
}

/// What a word is to the arguments of a use.
#[derive(Clone, Copy, Debug, PartialEq, Eq)]
pub enum Part {
    /// `(`
    Opens,
    /// `)`
    Closes,
    /// `,`
    Parts,
    /// Anything else.
    Other,
}

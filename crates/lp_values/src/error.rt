//! Errors of running functions.
ghost use Rattle.std.specs.Prelude.{◌≡◌, ◌++◌, IfOk};
ghost use Rattle.std.specs.Str.{chars};
ghost use Rattle.lp_values.specs.Errors.{bad_arg, bad_save, error, error_text, plain, words_of};

use crate::decimal::spelling;
use crate::text::{Text, code_points};
use std::alloc::{AllocError, Global};

/// How many code points of an error's text count.
const LONGEST_TEXT: usize = 1000;

/// What went wrong in a running function.
#[derive(Clone, Copy, Debug, PartialEq, Eq)]
pub enum ErrorKind {
    BadOperands,
    Overflow,
    ZeroDivisor,
    BadIndex,
    TooLong,
    TextTooLong,
    BadArg,
    BadFormat,
    TooFewArgs,
    BadTarget,
    NoClone,
    NoFunction,
    TooMany,
    WouldContainItself,
    IsShadow,
    TooDeep,
    TooNested,
    CouldNotLoad,
    BadSave,
    /// An error that LPC raised, with a text of its own.
    Raised,
}

impl ErrorKind {
    /// The words with which the text of such an error begins.
    pub fn words(self) -> &'static str
        ensures { result.now ≡ words_of self }
    {
        match self {
            ErrorKind::BadOperands => "Bad operands",
            ErrorKind::Overflow => "Overflow",
            ErrorKind::ZeroDivisor => "Division by zero",
            ErrorKind::BadIndex => "Illegal index",
            ErrorKind::TooLong => "Array too long",
            ErrorKind::TextTooLong => "Text too long",
            ErrorKind::BadArg => "Bad argument ",
            ErrorKind::BadFormat => "Bad format",
            ErrorKind::TooFewArgs => "Too few arguments",
            ErrorKind::BadTarget => "Bad target",
            ErrorKind::NoClone => "Not clonable",
            ErrorKind::NoFunction => "No such function",
            ErrorKind::TooMany => "Too many",
            ErrorKind::WouldContainItself => "Would contain itself",
            ErrorKind::IsShadow => "Shadow cannot move",
            ErrorKind::TooDeep => "Too deep recursion",
            ErrorKind::TooNested => "Too deep nesting",
            ErrorKind::CouldNotLoad => "Could not load ",
            ErrorKind::BadSave => "Illegal save text in ",
            ErrorKind::Raised => "",
        }
    }
}

/// An error of a running function.
#[derive(Debug, PartialEq, Eq, Drop)]
pub struct RunError {
    /// What went wrong.
    pub kind: ErrorKind,
    /// What LPC and the log are told: at most 1000 code points and a newline.
    pub text: Text,
}

impl RunError {
    /// An error of this kind whose text is the kind's words and then `rest`.
    pub fn new(alloc: Global, kind: ErrorKind, rest: &[char]) -> Result<RunError, AllocError>
        ensures { IfOk result (λ e. e ≡ error kind rest.now) }
    {
        let mut all = code_points(alloc, kind.words())?;
        all.extend_from_slice(rest)?;
        Ok(RunError {
            kind,
            text: Text::from_vec(alloc, finished(all)?)?,
        })
    }

    /// An error of a kind whose words are its whole text.
    pub fn plain(alloc: Global, kind: ErrorKind) -> Result<RunError, AllocError>
        ensures { IfOk result (λ e. e ≡ plain kind) }
    {
        RunError::new(alloc, kind, &[])
    }

    /// A bad argument of an efun. Arguments count from 1.
    pub fn bad_arg(alloc: Global, number: u64, efun: &str) -> Result<RunError, AllocError>
        ensures { IfOk result (λ e. e ≡ bad_arg number (chars efun.now)) }
    {
        let mut rest = spelling(alloc, number)?;
        rest.extend_from_slice(code_points(alloc, " to ")?.as_slice())?;
        rest.extend_from_slice(code_points(alloc, efun)?.as_slice())?;
        RunError::new(alloc, ErrorKind::BadArg, rest.as_slice())
    }

    /// A load that failed, with the name of the object whose file failed.
    pub fn could_not_load(alloc: Global, name: &str) -> Result<RunError, AllocError>
        ensures { IfOk result (λ e. e ≡ error ErrorKind.CouldNotLoad (chars name.now)) }
    {
        let rest = code_points(alloc, name)?;
        RunError::new(alloc, ErrorKind::CouldNotLoad, rest.as_slice())
    }

    /// A line of a file that is no save text. Lines count from 1.
    pub fn bad_save(alloc: Global, file: &str, line: u64) -> Result<RunError, AllocError>
        ensures { IfOk result (λ e. e ≡ bad_save (chars file.now) line) }
    {
        let mut rest = code_points(alloc, file)?;
        rest.extend_from_slice(code_points(alloc, " line ")?.as_slice())?;
        rest.extend_from_slice(spelling(alloc, line)?.as_slice())?;
        RunError::new(alloc, ErrorKind::BadSave, rest.as_slice())
    }
}

/// Cuts a text to 1000 code points, takes a newline from its end, and gives it one.
#[tactic(auto, unfolding(crate::specs::Errors::error_text))]
fn finished(mut text: Vec<char>) -> Result<Vec<char>, AllocError>
    ensures { IfOk result (λ v. v.items ≡ error_text text.items) }
{
    text.truncate(LONGEST_TEXT);
    let n = text.len();
    if n > 0 && text[n - 1] == '\n' {
        text.truncate(n - 1);
    }
    text.push('\n')?;
    Ok(text)
}

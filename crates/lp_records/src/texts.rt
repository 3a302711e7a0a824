//! The parts of a record.
ghost use Rattle.std.specs.Prelude.{◌≡◌, ◌++◌, OnOk, codes};
ghost use Rattle.std.specs.Str.{chars};
ghost use Rattle.lp_values.specs.Errors.{without_newline};
ghost use Rattle.lp_language.specs.Resolve.{without_c};
ghost use Rattle.lp_meaning.specs.Askers.{cause_text};
ghost use Rattle.lp_asking.specs.Endings.{cause_of};

use lp_asking::ending::Cause;
use lp_efuns::names::ends_in_c;
use lp_values::text::code_points;
use std::alloc::{AllocError, Global};

/// Code points come behind others.
fn put_points(text: &mut Vec<char>, points: &[char]) -> Result<(), AllocError>
    ensures { OnOk result (text.new.items ≡ text.old.items ++ points.now) }
{
    text.extend_from_slice(points)?;
    Ok(())
}

/// The code points of words come behind others.
pub(crate) fn put_words(alloc: Global, text: &mut Vec<char>, words: &str) -> Result<(), AllocError>
    ensures { OnOk result (text.new.items ≡ text.old.items ++ chars words.now) }
{
    let points = code_points(alloc, words)?;
    put_points(text, points.as_slice())
}

/// A name of a program comes behind others: each of its bytes is a code point.
pub(crate) fn put_name(text: &mut Vec<char>, name: &[u8]) -> Result<(), AllocError>
    ensures { OnOk result (text.new.items ≡ text.old.items ++ name.now) }
{
    for byte in name {
        text.push(*byte as char)?;
    }
    Ok(())
}

/// A path comes behind others, without `.c` at its end.
pub(crate) fn put_path(text: &mut Vec<char>, path: &[char]) -> Result<(), AllocError>
    ensures { OnOk result (text.new.items ≡ text.old.items ++ without_c path.now) }
{
    if ends_in_c(path) {
        return put_points(text, &path[..path.len().saturating_sub(2)]);
    }
    put_points(text, path)
}

/// A text comes behind others, without the newline that it may end in.
fn put_line(text: &mut Vec<char>, line: &[char]) -> Result<(), AllocError>
    ensures { OnOk result (text.new.items ≡ text.old.items ++ without_newline line.now) }
{
    let n = line.len();
    if n > 0 && line[n - 1] == '\n' {
        return put_points(text, &line[..n - 1]);
    }
    put_points(text, line)
}

/// The text of a cause comes behind others.
pub(crate) fn put_cause(
    alloc: Global,
    text: &mut Vec<char>,
    cause: &Cause,
) -> Result<(), AllocError>
    ensures { OnOk result (text.new.items ≡ text.old.items ++ cause_text (cause_of cause.now)) }
{
    match cause {
        Cause::Thrown(_) => put_words(alloc, text, "Throw without catch"),
        Cause::Failed(e) => put_line(text, e.text.as_slice()),
        Cause::Spent => put_words(alloc, text, "Too long evaluation. Execution aborted."),
    }
}

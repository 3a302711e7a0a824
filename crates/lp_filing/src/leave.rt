//! Paths, and what the master answers of them.
ghost use Rattle.std.specs.Prelude.{◌≡◌, ◌<◌, ◌↔◌, All, IfOk, IfSome, IsTrue, encode_utf8_all, string_bytes, true};
ghost use Rattle.std.specs.Option.{option_map};
ghost use Rattle.lp_cells.specs.Cells.{Store};
ghost use Rattle.lp_meaning.specs.FileEfuns.{is_path as path_test, path_answered, path_if};
ghost use Rattle.lp_ops.specs.Operands.{operand};

use lp_policy::answer::{Answer, read_answer};
use lp_values::value::{Living, Value};
use lp_words::path::is_path;
use std::alloc::{AllocError, Global};

/// How long a path is at most.
const LONGEST_PATH: usize = 256;

/// Whether a text is of ASCII alone.
fn is_ascii(text: &[char]) -> bool
    ensures { IsTrue result ↔ All (λ c. c < 128) text.now }
{
    text.iter().all(|c| (*c as u32) < 128)
}

/// A text as a text of the program.
fn spelled(alloc: Global, text: &[char]) -> Result<String, AllocError>
    ensures { IfOk result (λ t. string_bytes t ≡ encode_utf8_all text.now) }
{
    let spelled: String = text.iter().copied().collect(alloc)?;
    Ok(spelled)
}

/// The path, where it is one.
fn if_path(path: String) -> Option<String>
    ensures { option_map string_bytes result ≡ path_if (string_bytes path) }
{
    if is_path(path.as_bytes()) {
        return Some(path);
    }
    drop(path);
    None
}

/// The path that a text is, or none where it is no path: one is at most 256 long, and has one or more parts with a `/` before each,
/// each of one or more ASCII letters, digits, `_`, `-` or `.`, but neither `.` nor `..`.
pub fn path_of(alloc: Global, text: &[char]) -> Result<Option<String>, AllocError>
    ensures { IfOk result (λ o. option_map string_bytes o ≡ path_if text.now) }
{
    if text.len() > LONGEST_PATH || !is_ascii(text) {
        return Ok(None);
    }
    Ok(if_path(spelled(alloc, text)?))
}

/// The path to use, if any, by what the master answered of this one: 0 refuses it, and so does an object that was destructed, since
/// it reads as 0; a text is the path to use, where it is one; every other value allows the path.
pub fn path_used<L: Living>(
    alloc: Global,
    path: &[char],
    answer: &Value,
    live: &L,
) -> Result<Option<String>, AllocError>
    requires { path_test path.now ≡ true }
    ensures used { IfOk result (λ o. (cells : Store) → option_map string_bytes o ≡ path_answered path.now (operand (L.live live.now) cells answer.now)) }
    ensures path { IfOk result (λ o. IfSome o (λ p. path_test (string_bytes p) ≡ true)) }
{
    match read_answer(answer, live) {
        Answer::Denied => Ok(None),
        Answer::Given => path_of(alloc, path),
        Answer::Named(text) => path_of(alloc, text.as_slice()),
    }
}

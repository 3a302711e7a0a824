//! The verdict that a line tells.
ghost use Rattle.std.specs.Prelude.{◌≡◌, ◌++◌, IfOk, IfSome, codes};
ghost use Rattle.lp_verdicts.specs.Lines.{line_text, verdict_text};

use crate::verdict::Verdict;
use lp_io::Octets;
use std::alloc::{AllocError, Global};

// What stands behind a front of some bytes, where they begin so.
fn behind<'a>(bytes: &'a [u8], front: &[u8]) -> Option<&'a [u8]>
    ensures { IfSome result (λ rest. bytes.entry.now ≡ front.now ++ rest.now) }
{
    bytes.strip_prefix(front)
}

// Whether a text has no byte below 32.
fn is_shown(text: &[u8]) -> bool {
    text.iter().all(|byte| *byte >= 32)
}

// What stands before the newline with which a line ends, where it has no byte below 32 before that.
fn before_newline(line: &[u8]) -> Option<&[u8]>
    ensures { IfSome result (λ text. line.entry.now ≡ text.now ++ codes "\n") }
{
    match line.strip_suffix(b"\n") {
        Some(text) => { if is_shown(text) { Some(text) } else { None } }
        None => None,
    }
}

// The verdict of an error whose text and newline these are.
fn error_in(alloc: Global, line: &[u8]) -> Result<Option<Verdict>, AllocError>
    ensures { IfOk result (λ r. IfSome r (λ v. codes "error " ++ line.now ≡ verdict_text v ++ codes "\n")) }
{
    match before_newline(line) {
        Some(text) => Ok(Some(Verdict::Error(Octets::from_vec(text.to_vec(alloc)?)))),
        None => Ok(None),
    }
}

// The verdict that these bytes and a newline spell, if any.
fn verdict_in(alloc: Global, text: &[u8]) -> Result<Option<Verdict>, AllocError>
    ensures { IfOk result (λ r. IfSome r (λ v. text.now ≡ verdict_text v ++ codes "\n")) }
{
    if text == b"pass\n".as_slice() {
        return Ok(Some(Verdict::Pass));
    }
    if text == b"fail\n".as_slice() {
        return Ok(Some(Verdict::Fail));
    }
    if text == b"spent\n".as_slice() {
        return Ok(Some(Verdict::Spent));
    }
    match behind(text, b"error ") {
        Some(line) => error_in(alloc, line),
        None => Ok(None),
    }
}

// What stands behind the file and the name of a test.
fn behind_front<'a>(line: &'a [u8], path: &str, fun: &str) -> Option<&'a [u8]>
    ensures { IfSome result (λ rest. line.entry.now ≡ path.now ++ codes " " ++ fun.now ++ codes " " ++ rest.now) }
{
    let rest = match behind(line, path.as_bytes()) {
        Some(rest) => rest,
        None => return None,
    };
    let rest = match behind(rest, b" ") {
        Some(rest) => rest,
        None => return None,
    };
    let rest = match behind(rest, fun.as_bytes()) {
        Some(rest) => rest,
        None => return None,
    };
    behind(rest, b" ")
}

/// The verdict that these bytes tell of a test, where they are a line of it. They are none where the text of an error has a byte
/// below 32.
pub fn read_verdict(
    alloc: Global,
    line: &[u8],
    path: &str,
    fun: &str,
) -> Result<Option<Verdict>, AllocError>
    ensures { IfOk result (λ r. IfSome r (λ v. line.now ≡ line_text path.now fun.now v)) }
{
    match behind_front(line, path, fun) {
        Some(text) => verdict_in(alloc, text),
        None => Ok(None),
    }
}

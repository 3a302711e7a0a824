//! The line that tells why a script is none.
ghost use Rattle.std.specs.Prelude.{◌≡◌, ◌≤◌, ◌++◌, codes, length, IfOk, string_bytes};
ghost use Rattle.std.specs.Fmt.{decimal};
ghost use Rattle.lp_explain.specs.Shown.{listed as listed_line, IsTold};

use crate::item::check_item;
use crate::line::{first_line, from, line_of, shown};
use crate::reason::Reason;
use lp_script::before::{Before, Stage};
use lp_script::stop::{ReadError, Stop};
use lp_script::{before_first, pass_item, read_item};
use std::alloc::{AllocError, Global};

// Passes the item at the front of these bytes, and returns how many bytes it takes: none where none stands there.
fn pass(alloc: Global, before: &mut Before, bytes: &[u8]) -> Result<usize, AllocError>
    ensures { IfOk result (λ n. n ≤ length bytes.now) }
{
    match read_item(alloc, before, bytes) {
        Ok((item, rest)) => {
            let len = bytes.len().saturating_sub(rest.len());
            match pass_item(alloc, before, &item) {
                Ok(()) => Ok(len),
                Err(e) => {
                    drop(item);
                    Err(e)
                }
            }
        }
        Err(ReadError::NoMemory) => Err(AllocError),
        Err(ReadError::Stop(_)) => Ok(0),
    }
}

// Passes the items before a place, and returns whether they end there.
fn pass_all(
    alloc: Global,
    before: &mut Before,
    script: &[u8],
    place: usize,
) -> Result<bool, AllocError>
    requires { place ≤ length script.now }
{
    let mut cut = 0;
    while cut < place {
        match pass(alloc, before, &script[cut..])? {
            0 => return Ok(false),
            len => cut += len,
        }
    }
    Ok(cut == place)
}

// The reason where the items before end at these bytes.
fn reason_behind(
    alloc: Global,
    before: &Before,
    bytes: &[u8],
    number: u64,
) -> Result<Reason, AllocError> {
    let stop = match read_item(alloc, before, bytes) {
        Ok(_) => return Ok(Reason::Unknown),
        Err(ReadError::NoMemory) => return Err(AllocError),
        Err(ReadError::Stop(stop)) => stop,
    };
    if bytes.is_empty() {
        return Ok(end_reason(before.stage));
    }
    Ok(match (check_item(before, bytes, number), stop) {
        (Err(reason), Stop::Wrong) => reason,
        (Ok(()), Stop::Wrong) => Reason::Unknown,
        (Err(Reason::Above(what, most)), Stop::Short) => Reason::Above(what, most),
        (Err(Reason::BytesEnd(count, len)), Stop::Short) => Reason::BytesEnd(count, len),
        (Err(Reason::LineEndMissing), Stop::Short) => Reason::LineEndMissing,
        (_, Stop::Short) => Reason::Ends,
    })
}

// The reason where the script ends behind the items before.
fn end_reason(stage: Stage) -> Reason {
    match stage {
        Stage::Beginning => Reason::NoHead,
        Stage::Filing => Reason::EndsFiling,
        Stage::Running => Reason::EndsRunning,
        Stage::Over => Reason::BehindEnd,
    }
}

// The reason at a place of a script.
fn reason_at(alloc: Global, script: &[u8], place: usize, number: u64) -> Result<Reason, AllocError>
    requires { place ≤ length script.now }
{
    let mut before = before_first(alloc);
    match pass_all(alloc, &mut before, script, place) {
        Ok(true) => reason_behind(alloc, &before, from(script, place), number),
        Ok(false) => Ok(Reason::Unknown),
        Err(e) => Err(e),
    }
}

// What a line holds as it is told behind its number, where it holds something.
fn listed(alloc: Global, line: &[u8]) -> Result<String, AllocError>
    ensures { IfOk result (λ text. string_bytes text ≡ listed_line line.now) }
{
    match line {
        [] => Ok(String::new(alloc)),
        [_, ..] => {
            let text = shown(alloc, line)?;
            format!(in alloc; ", {text}")
        }
    }
}

// The line that tells a number of a line, what that line holds, and a reason.
fn told(alloc: Global, number: u64, line: &[u8], reason: &str) -> Result<String, AllocError>
    ensures { IfOk result (λ told. string_bytes told ≡ codes "line " ++ (decimal number ++ (listed_line line.now ++ (codes ": " ++ reason.now)))) }
{
    let text = listed(alloc, line)?;
    format!(in alloc; "line {number}{text}: {reason}")
}

/// One line, without its end, on why no item of this script stands at the byte `at`, counted from 0, that may stand there: the
/// number of the line in which that byte stands, from 1, what the item's first line holds, at most 60 characters of it, and the reason.
///
/// The script may end before its end, as where a reader took no more of it. Where none of the reasons fits, as
/// where an item stands there that may stand there, the reason is `no item stands here`.
///
/// The items before are read once more. It takes time in proportion to the bytes, and memory for one item. It fails only for want
/// of memory.
pub fn explain(alloc: Global, script: &[u8], at: u64) -> Result<String, AllocError>
    ensures told { IfOk result (λ told. IsTold script.now at (string_bytes told)) }
{
    let place = at.min(script.len() as u64) as usize;
    let number = line_of(script, place);
    let line = first_line(from(script, place));
    let reason = reason_at(alloc, script, place, number)?.to_string(alloc)?;
    told(alloc, number, line, reason.as_str())
}

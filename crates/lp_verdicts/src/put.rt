//! Verdicts and lines as bytes.
ghost use Rattle.std.specs.Prelude.{◌≡◌, ◌++◌, IfOk, OnOk, codes};
ghost use Rattle.lp_verdicts.specs.Lines.{faulty_text, front_text, line_text, missing_text, verdict_text};

use crate::verdict::Verdict;
use std::alloc::{AllocError, Global};

// Puts the text of a verdict behind others.
fn put_verdict(out: &mut Vec<u8>, verdict: &Verdict) -> Result<(), AllocError>
    ensures { OnOk result (out.new.items ≡ out.old.items ++ verdict_text verdict.now) }
{
    match verdict {
        Verdict::Pass => out.extend_from_slice(b"pass"),
        Verdict::Fail => out.extend_from_slice(b"fail"),
        Verdict::Spent => out.extend_from_slice(b"spent"),
        Verdict::Error(text) => {
            out.extend_from_slice(b"error ")?;
            out.extend_from_slice(text.as_slice())
        }
    }
}

// Puts the front of a test's line behind others: its file and its name.
fn put_front(out: &mut Vec<u8>, path: &str, fun: &str) -> Result<(), AllocError>
    ensures { OnOk result (out.new.items ≡ out.old.items ++ front_text path.now fun.now) }
{
    out.extend_from_slice(path.as_bytes())?;
    out.extend_from_slice(b" ")?;
    out.extend_from_slice(fun.as_bytes())?;
    out.extend_from_slice(b" ")
}

/// Puts the line of a test behind others.
pub(crate) fn put_line(
    out: &mut Vec<u8>,
    path: &str,
    fun: &str,
    verdict: &Verdict,
) -> Result<(), AllocError>
    ensures { OnOk result (out.new.items ≡ out.old.items ++ line_text path.now fun.now verdict.now) }
{
    put_front(out, path, fun)?;
    put_verdict(out, verdict)?;
    out.extend_from_slice(b"\n")
}

/// Puts the line of a faulty file behind others.
pub(crate) fn put_faulty(out: &mut Vec<u8>, path: &str) -> Result<(), AllocError>
    ensures { OnOk result (out.new.items ≡ out.old.items ++ faulty_text path.now) }
{
    out.extend_from_slice(path.as_bytes())?;
    out.extend_from_slice(b" faulty\n")
}

/// The line of a test: `PATH FUN VERDICT`.
pub fn line_of(
    alloc: Global,
    path: &str,
    fun: &str,
    verdict: &Verdict,
) -> Result<Vec<u8>, AllocError>
    ensures { IfOk result (λ v. v.items ≡ line_text path.now fun.now verdict.now) }
{
    let mut out = Vec::new(alloc);
    put_line(&mut out, path, fun, verdict)?;
    Ok(out)
}

/// The line of what is no test: `PATH FUN missing`.
pub fn missing_line(alloc: Global, path: &str, fun: &str) -> Result<Vec<u8>, AllocError>
    ensures { IfOk result (λ v. v.items ≡ missing_text path.now fun.now) }
{
    let mut out = Vec::new(alloc);
    put_front(&mut out, path, fun)?;
    out.extend_from_slice(b"missing\n")?;
    Ok(out)
}

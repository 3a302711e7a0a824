//! The lines of a report.
ghost use Rattle.std.specs.Prelude.{◌≡◌, ◌++◌, ◌∷◌, [], IfOk, OnOk, flat_map, length};
ghost use Rattle.std.specs.Fmt.{decimal};
ghost use Rattle.std.specs.List.{list_all};
ghost use Rattle.lp_verdicts.specs.Lines.{counts_text, is_good, is_test, passed_in, report, tests_in, text_of};

use crate::put::{put_faulty, put_line};
use crate::verdict::Verdict;
use lp_code::name::Name;
use lp_tree::path::FilePath;
use std::alloc::{AllocError, Global};

/// A line of a report.
#[derive(Debug, Drop)]
pub enum Line {
    /// The file with this path is faulty.
    Faulty(FilePath),
    /// The test in the file with this path and of this name has a verdict.
    Judged(FilePath, Name, Verdict),
}

// Whether a line is of a test that passed.
fn is_good_line(line: &Line) -> bool
    ensures { result ≡ is_good line.now }
{
    match line {
        Line::Judged(_, _, Verdict::Pass) => true,
        Line::Judged(_, _, _) => false,
        Line::Faulty(_) => false,
    }
}

// Whether a line is of a test.
fn is_test_line(line: &Line) -> bool
    ensures { result ≡ is_test line.now }
{
    match line {
        Line::Judged(_, _, _) => true,
        Line::Faulty(_) => false,
    }
}

/// Whether each line is of a test that passed. Takes no memory.
pub fn is_clean(lines: &[Line]) -> bool
    ensures { result ≡ list_all is_good lines.now }
{
    lines.iter().all(|line| is_good_line(line))
}

// How many lines are of tests.
fn tests_of(lines: &[Line]) -> usize
    ensures { result ≡ tests_in lines.now }
{
    lines.iter().filter(|line| is_test_line(*line)).count()
}

// How many lines are of tests that passed.
fn passed_of(lines: &[Line]) -> usize
    ensures { result ≡ passed_in lines.now }
{
    lines.iter().filter(|line| is_good_line(*line)).count()
}

// Puts a line behind others.
fn put_text(out: &mut Vec<u8>, line: &Line) -> Result<(), AllocError>
    ensures { OnOk result (out.new.items ≡ out.old.items ++ text_of line.now) }
{
    match line {
        Line::Faulty(path) => put_faulty(out, path.as_str()),
        Line::Judged(path, fun, verdict) => put_line(out, path.as_str(), fun.as_str(), verdict),
    }
}

// Puts lines behind others, in their order.
fn put_texts(out: &mut Vec<u8>, lines: &[Line]) -> Result<(), AllocError>
    ensures { OnOk result (out.new.items ≡ out.old.items ++ flat_map text_of lines.now) }
{
    for line in lines {
        put_text(out, line)?;
    }
    Ok(())
}

// Puts a number behind others, and some text.
fn put_number(
    alloc: Global,
    out: &mut Vec<u8>,
    number: u64,
    behind: &[u8],
) -> Result<(), AllocError>
    ensures { OnOk result (out.new.items ≡ out.old.items ++ decimal number ++ behind.now) }
{
    let text = number.to_string(alloc)?;
    out.extend_from_slice(text.as_bytes())?;
    out.extend_from_slice(behind)
}

// Puts the line of counts behind others.
fn put_counts(alloc: Global, out: &mut Vec<u8>, tests: u64, passed: u64) -> Result<(), AllocError>
    ensures { OnOk result (out.new.items ≡ out.old.items ++ counts_text tests passed) }
{
    put_number(alloc, out, tests, b" tests, ")?;
    put_number(alloc, out, passed, b" passed\n")
}

/// The report: the lines, and behind them the line `T tests, P passed`.
pub fn report_of(alloc: Global, lines: &[Line]) -> Result<Vec<u8>, AllocError>
    ensures { IfOk result (λ v. v.items ≡ report lines.now) }
{
    let mut out = Vec::new(alloc);
    put_texts(&mut out, lines)?;
    put_counts(
        alloc,
        &mut out,
        tests_of(lines) as u64,
        passed_of(lines) as u64,
    )?;
    Ok(out)
}

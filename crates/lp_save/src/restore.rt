//! Restoring values.
ghost use Rattle.std.specs.Prelude.{All, ◌≡◌, ◌≤◌, ◌<◌, ◌+◌, IfOk, IfSome, IsUtf8, [], chars, codes, length, map, nat_eq, take, if◌then◌else◌};
ghost use Rattle.std.specs.Char.{is_ascii_digit};
ghost use Rattle.std.specs.List.{list_all, position_or_len};
ghost use Rattle.std.specs.Str.Lossy.{utf8_valid_len};
ghost use Rattle.lp_cells.specs.Cells.{IsClosed, IsThere, KeepsThere};
ghost use Rattle.lp_text.specs.Pieces.{pieces};
ghost use Rattle.lp_save.specs.Desks.{Answers, AnswersLines, GivesLines, Headed, NextLine, Restores, as_line, fault_in, rest_of};
ghost use Rattle.lp_save.specs.Reading.{bytes_at, lines_from, outcome, spoilt};
ghost use Rattle.lp_save.specs.SaveText.{given, is_header};

use crate::fault::{FaultKind, ReadFault, RestoreFault};
use crate::given::given;
use crate::read::Reader;
use lp_cells::cells::Cells;
use lp_cells::content::Content;
use lp_values::id::CellId;
use lp_values::text::{Text, code_points};
use lp_values::value::Value;
use std::alloc::{AllocError, Global};

/// Reads a saved text: a value for each name that has a line, where the k-th line of a name is for the
/// k-th such name, and nothing for the others; names of other lines are passed over. What is restored
/// has new cells. The whole text is read before anything changes.
///
/// - `Line`: exactly where a line is faulty: the number of the first such line, from 1, and what is
///   wrong at its leftmost fault.
///
/// On a fault the cells are as they were. No cell that was there changes in any case, closed cells stay
/// closed, and what the values name is there.
pub fn restore_text(
    alloc: Global,
    bytes: &[u8],
    names: &[Text],
    cells: &mut Cells,
) -> Result<Vec<Option<Value>>, RestoreFault>
    ensures restores { Restores result cells.old cells.new (outcome names.now bytes.now cells.old) }
    ensures kept { take (length cells.old) cells.new ≡ cells.old }
    ensures stay { KeepsThere cells.old cells.new }
    ensures closed { IsClosed cells.old → IsClosed cells.new }
    ensures there { IfOk result (λ vs. All (λ o. IfSome o (IsThere cells.new)) vs.items) }
{
    restored(alloc, bytes, names, cells)
}

/// Reads a saved text: the values for names, and the new cells are kept.
fn restored(
    alloc: Global,
    bytes: &[u8],
    names: &[Text],
    cells: &mut Cells,
) -> Result<Vec<Option<Value>>, RestoreFault>
    ensures restores { Restores result cells.old cells.new (outcome names.now bytes.now cells.old) }
    ensures kept { take (length cells.old) cells.new ≡ cells.old }
{
    let first = cells.add_all(Vec::new(alloc))?;
    let (lines, made) = read_all(alloc, bytes, cells, first)?;
    let values = given(alloc, names, lines.as_slice())?;
    cells.add_all(made)?;
    Ok(values)
}

/// Reads all lines: each with its name and its value, and the new cells.
fn read_all(
    alloc: Global,
    bytes: &[u8],
    cells: &Cells,
    first: CellId,
) -> Result<(Vec<(Text, Value)>, Vec<Option<Content>>), RestoreFault>
    requires { first.0 ≡ length cells.now }
    ensures { GivesLines result cells.now (lines_from (pieces (codes "\n") bytes.now) (record { text = []; shared = []; cells = cells.now })) }
{
    let mut reader = Reader::new(alloc, cells, first);
    let lines = read_lines(alloc, &mut reader, bytes)?;
    Ok((lines, reader.into_made()))
}

/// Reads all lines.
fn read_lines(
    alloc: Global,
    reader: &mut Reader,
    bytes: &[u8],
) -> Result<Vec<(Text, Value)>, RestoreFault>
    ensures { AnswersLines result reader.old reader.new (lines_from (pieces (codes "\n") bytes.now) (rest_of reader.old)) }
{
    let mut lines = Vec::new(alloc);
    let mut at = header_len(bytes)?;
    let mut number = first_number(at);
    while at < bytes.len() {
        let taken = read_next(alloc, reader, &mut lines, &bytes[at..], number)?;
        at += taken;
        number += 1;
    }
    Ok(lines)
}

/// The number of the first line behind a header that is so long.
fn first_number(at: usize) -> u64
    ensures value { result ≡ (if nat_eq at 0 then 1 else 2) }
    ensures small { result ≤ at + 1 }
{
    if at == 0 { 1 } else { 2 }
}

/// How long the header with its newline is: 0 where there is none.
fn header_len(bytes: &[u8]) -> Result<usize, RestoreFault>
    ensures { Headed result bytes.now }
{
    if bytes.is_empty() || bytes[0] != b'#' {
        return Ok(0);
    }
    let end = line_len(bytes);
    if end >= bytes.len() {
        return Err(RestoreFault::Line {
            line: 1,
            kind: FaultKind::BadHeader,
        });
    }
    if !is_header(&bytes[..end]) {
        return Err(RestoreFault::Line {
            line: 1,
            kind: FaultKind::BadHeader,
        });
    }
    Ok(end + 1)
}

/// Whether a line that begins with `#` is a header: then one of the digits 0 to 2, `:` and one or more
/// digits.
fn is_header(line: &[u8]) -> bool
    ensures { result ≡ is_header line.now }
{
    line.len() >= 4
        && line[1] >= b'0'
        && line[1] <= b'2'
        && line[2] == b':'
        && are_digits(&line[3..])
}

/// Whether all bytes are digits.
fn are_digits(bytes: &[u8]) -> bool
    ensures { result ≡ list_all is_ascii_digit bytes.now }
{
    bytes.iter().all(|b| b.is_ascii_digit())
}

/// Reads the line that the rest begins with, and gives how many bytes it takes with its newline.
fn read_next(
    alloc: Global,
    reader: &mut Reader,
    lines: &mut Vec<(Text, Value)>,
    rest: &[u8],
    number: u64,
) -> Result<usize, RestoreFault>
    requires { 0 < length rest.now }
    ensures { NextLine result number rest.now (map as_line lines.old.items) (map as_line lines.new.items) reader.old reader.new }
{
    let end = line_len(rest);
    match read_bytes(alloc, reader, &rest[..end], end < rest.len()) {
        Ok(line) => {
            lines.push(line)?;
            Ok(end + 1)
        }
        Err(fault) => Err(in_line(number, fault)),
    }
}

/// A fault of a line, with its number.
fn in_line(number: u64, fault: ReadFault) -> RestoreFault
    ensures { result ≡ fault_in number fault }
{
    match fault {
        ReadFault::NoMemory => RestoreFault::NoMemory,
        ReadFault::Wrong(kind) => RestoreFault::Line { line: number, kind },
    }
}

/// How long the first line is, without its newline.
fn line_len(bytes: &[u8]) -> usize
    ensures { result ≡ position_or_len (λ b. nat_eq b 10) bytes.now }
{
    let mut n = 0;
    while n < bytes.len() && bytes[n] != b'\n' {
        n += 1;
    }
    n
}

/// Reads a line as bytes, which has its newline or not.
fn read_bytes(
    alloc: Global,
    reader: &mut Reader,
    bytes: &[u8],
    has_newline: bool,
) -> Result<(Text, Value), ReadFault>
    ensures { Answers as_line result reader.old reader.new (if has_newline then bytes_at bytes.now (rest_of reader.old) else spoilt (bytes_at bytes.now (rest_of reader.old))) }
{
    let (text, is_whole) = decoded(alloc, bytes)?;
    let line = reader.read_line(text)?;
    if is_whole && has_newline {
        Ok(line)
    } else {
        Err(ReadFault::Wrong(FaultKind::BadValue))
    }
}

/// The code points of the front that is UTF-8, and whether that is all.
fn decoded(alloc: Global, bytes: &[u8]) -> Result<(Vec<char>, bool), AllocError>
    ensures points { IfOk result (λ x. x.0.items ≡ chars (take (utf8_valid_len bytes.now) bytes.now)) }
    ensures all { IfOk result (λ x. x.1 ≡ nat_eq (utf8_valid_len bytes.now) (length bytes.now)) }
{
    match std::str::from_utf8(bytes) {
        Ok(text) => Ok((code_points(alloc, text)?, true)),
        Err(fault) => Ok((valid_part(alloc, &bytes[..fault.valid_up_to()])?, false)),
    }
}

/// The code points of bytes that are UTF-8.
fn valid_part(alloc: Global, bytes: &[u8]) -> Result<Vec<char>, AllocError>
    requires { IsUtf8 bytes.now }
    ensures { IfOk result (λ v. v.items ≡ chars bytes.now) }
{
    match std::str::from_utf8(bytes) {
        Ok(text) => code_points(alloc, text),
        Err(_) => Ok(Vec::new(alloc)),
    }
}

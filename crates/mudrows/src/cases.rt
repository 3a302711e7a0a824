//! Cases as `.ci/rows` puts them together, one behind the other: a line
//! `case NAME STATUS SCRIPT WRITTEN TOLD WIRE FOLDER TAKEN HELD READS WRITES TAKES SWAP_READS SWAP_LIE SWAP_WRITES`, a line of the words,
//! each behind a tab, and then the bytes of the script, of what must be written and of what must be told, those that spell the wire and the
//! folder, and those of what the wire must have taken and the folder must hold, each piece with a line feed behind it.
//!
//! `SCRIPT` to `HELD` count bytes; with `-` for `TOLD` nothing is said of it, and its piece is empty. The others are numbers
//! of calls that go wrong, with commas between them, or `-` for none, and how many bytes a write takes at most.
ghost use Rattle.std.specs.Prelude.{◌<◌, IfSome, length};

use lp_devices::pieces::{line, piece};

/// A case of the input.
#[derive(Clone, Copy)]
pub struct Case<'a> {
    pub head: Head<'a>,
    pub words: &'a str,
    pub script: &'a [u8],
    pub written: &'a [u8],
    pub told: Option<&'a [u8]>,
    pub outside: Outside<'a>,
}

/// The wire and the folder of a case, and what must have been taken and must be held at its end.
#[derive(Clone, Copy)]
pub struct Outside<'a> {
    pub wire: &'a [u8],
    pub folder: &'a [u8],
    pub taken: &'a [u8],
    pub held: &'a [u8],
}

/// What the first line of a case says.
#[derive(Clone, Copy)]
pub struct Head<'a> {
    pub name: &'a str,
    pub status: u8,
    pub counts: Counts,
    pub reads: &'a str,
    pub writes: &'a str,
    pub takes: usize,
    pub swap: Swap<'a>,
}

/// How many bytes the pieces of a case have.
#[derive(Clone, Copy)]
pub struct Counts {
    script: usize,
    written: usize,
    told: Option<usize>,
    wire: usize,
    folder: usize,
    taken: usize,
    held: usize,
}

/// The calls of the swap file that go wrong.
#[derive(Clone, Copy)]
pub struct Swap<'a> {
    pub reads: &'a str,
    pub lie: &'a str,
    pub writes: &'a str,
}

/// A count of bytes, which may be none.
fn count(field: &str) -> Option<Option<usize>> {
    if field == "-" {
        return Some(None);
    }
    Some(Some(field.parse::<usize>().ok()?))
}

/// The most bytes that a write takes: as many as there are, where nothing is said.
fn takes(field: &str) -> Option<usize> {
    if field == "-" {
        return Some(65536);
    }
    field.parse::<usize>().ok()
}

/// The head that a line says.
fn head_of(text: &str) -> Option<Head<'_>> {
    let mut fields = text.split(' ');
    if fields.next()? != "case" {
        return None;
    }
    let name = fields.next()?;
    let status = fields.next()?.parse::<u8>().ok()?;
    let script = fields.next()?.parse::<usize>().ok()?;
    let written = fields.next()?.parse::<usize>().ok()?;
    let told = count(fields.next()?)?;
    let wire = fields.next()?.parse::<usize>().ok()?;
    let folder = fields.next()?.parse::<usize>().ok()?;
    let taken = fields.next()?.parse::<usize>().ok()?;
    let held = fields.next()?.parse::<usize>().ok()?;
    let reads = fields.next()?;
    let writes = fields.next()?;
    let takes = takes(fields.next()?)?;
    let swap_reads = fields.next()?;
    let lie = fields.next()?;
    let swap_writes = fields.next()?;
    Some(Head {
        name,
        status,
        counts: Counts {
            script,
            written,
            told,
            wire,
            folder,
            taken,
            held,
        },
        reads,
        writes,
        takes,
        swap: Swap {
            reads: swap_reads,
            lie,
            writes: swap_writes,
        },
    })
}

/// The piece of what must be told, which is empty where nothing is said of it.
fn told(bytes: &[u8], len: Option<usize>) -> Option<(Option<&[u8]>, &[u8])>
    ensures shorter { IfSome result (λ p. length p.1.now < length bytes.now) }
{
    match len {
        None => {
            let (_, rest) = piece(bytes, 0)?;
            Some((None, rest))
        }
        Some(len) => {
            let (found, rest) = piece(bytes, len)?;
            Some((Some(found), rest))
        }
    }
}

/// The pieces of the wire and the folder, and what stands behind them.
fn read_outside(bytes: &[u8], counts: Counts) -> Option<(Outside<'_>, &[u8])>
    ensures shorter { IfSome result (λ p. length p.1.now < length bytes.now) }
{
    let (wire, behind_wire) = piece(bytes, counts.wire)?;
    let (folder, behind_folder) = piece(behind_wire, counts.folder)?;
    let (taken, behind_taken) = piece(behind_folder, counts.taken)?;
    let (held, rest) = piece(behind_taken, counts.held)?;
    Some((
        Outside {
            wire,
            folder,
            taken,
            held,
        },
        rest,
    ))
}

/// The case that begins here, and what stands behind it. None where no case is spelled here.
pub fn next(bytes: &[u8]) -> Option<(Case<'_>, &[u8])>
    ensures shorter { IfSome result (λ p. length p.1.now < length bytes.now) }
{
    let (first, behind_head) = line(bytes)?;
    let head = head_of(str::from_utf8(first).ok()?)?;
    let (second, behind_words) = line(behind_head)?;
    let words = str::from_utf8(second).ok()?;
    let (script, behind_script) = piece(behind_words, head.counts.script)?;
    let (written, behind_written) = piece(behind_script, head.counts.written)?;
    let (told, behind_told) = told(behind_written, head.counts.told)?;
    let (outside, rest) = read_outside(behind_told, head.counts)?;
    Some((
        Case {
            head,
            words,
            script,
            written,
            told,
            outside,
        },
        rest,
    ))
}

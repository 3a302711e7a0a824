//! What is wrong with an item.
use crate::counted::{check_end, check_line};
use crate::line::split;
use crate::number::number;
use crate::reason::Reason;
use lp_script::before::{Before, Stage};
use lp_words::path::{is_above, is_name, is_path};

/// The most seconds of a moment.
const LAST_MOMENT: u64 = 1_000_000_000_000;

/// The most bytes of a script.
const LONGEST: u64 = 67_108_864;

/// The most bytes of a line from a connection.
const LONGEST_LINE: u64 = 4096;

const SEED: &str = "the seed";

const MOMENT: &str = "the moment";

const COUNT: &str = "the count of bytes";

const CONNECTION: &str = "the connection's number";

/// An item where it stands: the words behind its first one, the number of its line, counted from 1, and the bytes behind that line.
#[derive(Clone, Copy)]
pub(crate) struct Place<'a> {
    pub(crate) words: &'a [u8],
    pub(crate) line: u64,
    pub(crate) behind: &'a [u8],
}

fn check_head(line: &[u8]) -> Result<(), Reason> {
    match line.strip_prefix(b"mudscript 1 ".as_slice()) {
        None => Err(Reason::NoHead),
        Some(words) => {
            let (seed, moment) = split(b' ', words);
            number(SEED, u64::MAX, seed)?;
            number(MOMENT, LAST_MOMENT, moment)?;
            Ok(())
        }
    }
}

fn check_path(last: &[u8], path: &[u8]) -> Result<(), Reason> {
    if path.is_empty() {
        return Err(Reason::Missing("the path"));
    }
    if !is_path(path) {
        return Err(Reason::NoPath);
    }
    if !is_above(last, path) {
        return Err(Reason::PathNotAbove);
    }
    Ok(())
}

// A file or a reload, whose path stands above another one.
fn check_file(last: &[u8], at: &Place<'_>) -> Result<(), Reason> {
    let (path, count) = split(b' ', at.words);
    check_path(last, path)?;
    let count = number(COUNT, LONGEST, count)?;
    check_end(count, at.line.saturating_add(1), at.behind)
}

fn check_connect(before: &Before, words: &[u8]) -> Result<(), Reason> {
    let k = number(CONNECTION, u64::from(u32::MAX), words)?;
    if k == 0 {
        return Err(Reason::NoZero);
    }
    if k <= u64::from(before.highest) {
        return Err(Reason::NotNew(before.highest));
    }
    Ok(())
}

// The number of a connection that is there.
fn check_there(before: &Before, word: &[u8]) -> Result<(), Reason> {
    let k = number(CONNECTION, u64::from(u32::MAX), word)?;
    if before.connections.named(word).is_some() {
        return Ok(());
    }
    if k <= u64::from(before.highest) {
        return Err(Reason::NotThere(k));
    }
    Err(Reason::NeverThere(k))
}

fn check_line_item(before: &Before, at: &Place<'_>) -> Result<(), Reason> {
    let (k, count) = split(b' ', at.words);
    check_there(before, k)?;
    let count = number(COUNT, LONGEST_LINE, count)?;
    let len = at.behind.len().min(count as usize);
    check_line(count, &at.behind[..len])?;
    check_end(count, at.line.saturating_add(1), at.behind)
}

fn check_tick(before: &Before, words: &[u8]) -> Result<(), Reason> {
    let moment = number(MOMENT, LAST_MOMENT, words)?;
    if moment < before.moment {
        return Err(Reason::Clock(before.moment));
    }
    Ok(())
}

fn check_swap(words: &[u8]) -> Result<(), Reason> {
    if is_name(words) {
        return Ok(());
    }
    Err(Reason::NoName)
}

fn check_filing(before: &Before, word: &[u8], at: &Place<'_>) -> Result<(), Reason> {
    match word {
        b"file" => check_file(before.last_path.as_slice(), at),
        b"start" => Err(Reason::NotAlone),
        b"mudscript" => Err(Reason::HeadAgain),
        b"connect" | b"line" | b"gone" | b"tick" | b"reload" | b"swap" | b"end" => {
            Err(Reason::BeforeStart)
        }
        _ => Err(Reason::NoFile),
    }
}

fn check_running(before: &Before, word: &[u8], at: &Place<'_>) -> Result<(), Reason> {
    match word {
        b"connect" => check_connect(before, at.words),
        b"line" => check_line_item(before, at),
        b"gone" => check_there(before, at.words),
        b"tick" => check_tick(before, at.words),
        b"reload" => check_file(&[], at),
        b"swap" => check_swap(at.words),
        b"end" => Err(Reason::NotAlone),
        b"file" => Err(Reason::FileBehindStart),
        b"start" => Err(Reason::StartAgain),
        b"mudscript" => Err(Reason::HeadAgain),
        _ => Err(Reason::NoEvent),
    }
}

/// What is wrong with the item of these bytes, of which the first stands in this line, counted from 1.
pub(crate) fn check_item(before: &Before, bytes: &[u8], number: u64) -> Result<(), Reason> {
    let (line, behind) = split(b'\n', bytes);
    let (word, words) = split(b' ', line);
    let at = Place {
        words,
        line: number,
        behind,
    };
    if line.ends_with(b"\r".as_slice()) {
        return Err(Reason::CarriageReturn);
    }
    match before.stage {
        Stage::Beginning => check_head(line),
        Stage::Filing => check_filing(before, word, &at),
        Stage::Running => check_running(before, word, &at),
        Stage::Over => Err(Reason::BehindEnd),
    }
}

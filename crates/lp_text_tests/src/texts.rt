use lp_text::fault::TextFault;
use lp_text::form::wanted;
use lp_text::items::{at, join, part, text_of};
use lp_text::letters::{lower, trim, upper};
use lp_text::pieces::{explode, implode};
use lp_text::scan::{Scanned, scan};
use lp_values::text::{Text, code_points};
use std::alloc::Global;
use std::test::Fail;

/// What is done with a text.
#[derive(Clone, Copy)]
enum Task {
    Upper,
    Lower,
    Join(&'static str),
    Part(u64, u64),
    Trim,
    /// It is taken apart by the first text, and put together with the second.
    Replace(&'static str, &'static str),
}

/// A text, what is done with it, and what comes of it.
type Row = (&'static str, Task, &'static str);

static ROWS: [Row; 16] = [
    ("Äb{c}Ω", Task::Upper, "ÄB{C}Ω"),
    ("ÄB{C}Ω", Task::Lower, "Äb{c}Ω"),
    ("Äb{c}Ω", Task::Join("!"), "Äb{c}Ω!"),
    ("Äb{c}Ω", Task::Part(1, 3), "b{c"),
    ("Äb{c}Ω", Task::Part(5, 99), "Ω"),
    ("Äb{c}Ω", Task::Part(3, 2), ""),
    ("abcd", Task::Part(1, 2), "bc"),
    (" \t\r\n", Task::Trim, ""),
    ("", Task::Trim, ""),
    ("\r\n ä b\t ", Task::Trim, "ä b"),
    ("x", Task::Trim, "x"),
    ("a,b,,c", Task::Replace(",", "|"), "a|b||c"),
    (",ä,", Task::Replace(",", "--"), "--ä--"),
    ("aaa", Task::Replace("aa", "|"), "|a"),
    ("aäb", Task::Replace("", "|"), "a|ä|b"),
    ("aab", Task::Replace("ab", ""), "a"),
];

fn joined(alloc: Global, s: &[char], other: &str) -> Result<Text, TextFault> {
    let other = code_points(alloc, other)?;
    join(alloc, s, other.as_slice())
}

fn replaced(alloc: Global, s: &[char], by: &str, with: &str) -> Result<Text, TextFault> {
    let by = code_points(alloc, by)?;
    let with = code_points(alloc, with)?;
    let parts = explode(alloc, s, by.as_slice())?;
    implode(alloc, parts.as_slice(), with.as_slice())
}

fn done(alloc: Global, s: &[char], task: Task) -> Result<Text, TextFault> {
    match task {
        Task::Upper => upper(alloc, s),
        Task::Lower => lower(alloc, s),
        Task::Join(other) => joined(alloc, s, other),
        Task::Part(from, to) => part(alloc, s, from, to),
        Task::Trim => trim(alloc, s),
        Task::Replace(by, with) => replaced(alloc, s, by, with),
    }
}

fn gives(alloc: Global, row: Row) -> Result<bool, TextFault> {
    let s = code_points(alloc, row.0)?;
    let want = code_points(alloc, row.2)?;
    let found = done(alloc, s.as_slice(), row.1)?;
    Ok(found.as_slice() == want.as_slice())
}

/// How many pieces a text has between separators.
fn count(alloc: Global, s: &[char], by: &[char]) -> Result<usize, TextFault> {
    Ok(explode(alloc, s, by)?.len())
}

#[test]
fn texts_are_made(rt: HostRuntime) -> Result<(), Fail> {
    let alloc = rt.alloc();
    for i in 0..ROWS.len() {
        assert!(rt; gives(alloc, ROWS[i])?, "{i}");
    }
    let s = ['Ä', 'b', '{', 'c', '}', 'Ω'];
    assert!(rt; at(&s, 0) == Some('Ä') && at(&s, 5) == Some('Ω') && at(&s, 6).is_none());
    assert!(rt; count(alloc, &[], &[','])? == 1);
    assert!(rt; count(alloc, &[], &[])? == 0);
    assert!(rt; count(alloc, &[','], &[','])? == 2);
    Ok(())
}

/// `ä` so many times, and `x` behind.
fn long(alloc: Global, count: usize, behind: &[char]) -> Result<Vec<char>, TextFault> {
    let mut all = Vec::new(alloc);
    all.resize(count, 'ä')?;
    all.extend_from_slice(behind)?;
    Ok(all)
}

fn is_too_long(found: &Result<Text, TextFault>) -> bool {
    matches!(found, Err(TextFault::TooLong))
}

/// Whether a text has so many code points.
fn has(found: &Result<Text, TextFault>, count: usize) -> bool {
    match found {
        Ok(text) => text.as_slice().len() == count,
        Err(_) => false,
    }
}

/// Whether 100000 code points are as many as may be.
fn are_most(alloc: Global, all: &[char]) -> bool {
    has(&join(alloc, all, &[]), 100000) && is_too_long(&join(alloc, all, &['x']))
}

/// Whether the one piece of them is as long, alone and beside an empty one.
fn is_piece(alloc: Global, all: &[char]) -> Result<bool, TextFault> {
    let mut parts = explode(alloc, all, &['x'])?;
    let alone = has(&implode(alloc, parts.as_slice(), &['x']), 100000);
    parts.push(Text::from_slice(alloc, &[])?)?;
    let beside = has(&implode(alloc, parts.as_slice(), &[]), 100000);
    Ok(alone && beside && is_too_long(&implode(alloc, parts.as_slice(), &['x'])))
}

/// Whether a text with one more is refused, and its parts are not.
fn are_too_many(alloc: Global, all: &[char]) -> bool {
    is_too_long(&text_of(alloc, all))
        && is_too_long(&upper(alloc, all))
        && explode(alloc, all, &['x']).is_err()
        && has(&part(alloc, all, 1, 100000), 100000)
}

/// How many values a scan gives, or the fault.
fn scanned(alloc: Global, s: &[char], form: &[char]) -> Result<usize, TextFault> {
    Ok(scan(alloc, s, form)?.len())
}

/// Whether a form is looked at before the length of a text is.
fn is_form_first(alloc: Global, all: &[char]) -> bool {
    scanned(alloc, all, &['%', 's']) == Err(TextFault::TooLong)
        && scanned(alloc, all, &['ä', '%']) == Err(TextFault::BadFormat { at: 1 })
}

#[test]
fn limits(rt: HostRuntime) -> Result<(), Fail> {
    let alloc = rt.alloc();
    let most = long(alloc, 100000, &[])?;
    assert!(rt; are_most(alloc, most.as_slice()));
    assert!(rt; is_piece(alloc, most.as_slice())?);
    assert!(rt; scanned(alloc, most.as_slice(), &['%', 's'])? == 1);
    let more = long(alloc, 100000, &['x'])?;
    assert!(rt; are_too_many(alloc, more.as_slice()));
    assert!(rt; is_form_first(alloc, more.as_slice()));
    Ok(())
}

/// What a scan gave, in a line: each value with `;` behind it, a text in quotes.
fn spelled(alloc: Global, found: &[Scanned]) -> Result<String, Fail> {
    let mut all = String::new(alloc);
    for value in found {
        match value {
            Scanned::Int(n) => all.push_str(format!(in alloc; "{n};")?.as_str())?,
            Scanned::Text(text) => {
                all.push('"')?;
                for c in text.as_slice() {
                    all.push(*c)?;
                }
                all.push_str("\";")?;
            }
        }
    }
    Ok(all)
}

/// A text, a form, and what scanning the text by it gives.
type ScanRow = (&'static str, &'static str, &'static str);

static SCAN_ROWS: [ScanRow; 20] = [
    ("give 3 coins", "%s %d %s", "\"give\";3;\"coins\";"),
    ("ä ö ü", "%s ö%s", "\"ä\";\" ü\";"),
    ("5 apples", "%*d %s", "\"apples\";"),
    ("a-b-c", "%*s-%s", "\"b-c\";"),
    ("50% off", "%d%% %s", "50;\"off\";"),
    ("x", "x%s", "\"\";"),
    // Integers.
    ("-007x", "%dx%s", "-7;\"\";"),
    ("9223372036854775807", "%d", "9223372036854775807;"),
    ("9223372036854775808", "%d", ""),
    ("-9223372036854775808", "%d", "-9223372036854775808;"),
    ("-9223372036854775809", "%d", ""),
    ("99999999999999999999999", "%d", ""),
    ("- 1", "%d", ""),
    ("+1", "%d", ""),
    // Scans that stop.
    ("1 2,3", "%d,%d", "1;"),
    ("1 x 3", "%d %d %d", "1;"),
    ("abc", "%s,%s", ""),
    ("abc", "", ""),
    ("", "%s", "\"\";"),
    ("", "%d", ""),
];

fn scans(alloc: Global, row: ScanRow) -> Result<bool, Fail> {
    let s = code_points(alloc, row.0)?;
    let form = code_points(alloc, row.1)?;
    let found = scan(alloc, s.as_slice(), form.as_slice())?;
    let line = spelled(alloc, found.as_slice())?;
    Ok(line.as_str() == row.2)
}

/// A form, and how many of its parts are assigned, or the place of its fault.
static FORMS: [(&str, Result<u64, u64>); 7] = [
    ("ä%d%%%s %*d%*s", Ok(2)),
    ("ä%s%d", Err(1)),
    ("%s%%", Err(0)),
    ("%d%*s%s", Err(2)),
    ("ä %q %s%d", Err(2)),
    ("%*", Err(0)),
    ("abc%", Err(3)),
];

fn wants(alloc: Global, form: &str, count: Result<u64, u64>) -> Result<bool, TextFault> {
    let parts = code_points(alloc, form)?;
    match wanted(parts.as_slice()) {
        Ok(n) => Ok(count == Ok(n)),
        Err(TextFault::BadFormat { at }) => Ok(count == Err(at)),
        Err(_) => Ok(false),
    }
}

#[test]
fn texts_are_scanned(rt: HostRuntime) -> Result<(), Fail> {
    let alloc = rt.alloc();
    for i in 0..SCAN_ROWS.len() {
        assert!(rt; scans(alloc, SCAN_ROWS[i])?, "{i}");
    }
    for i in 0..FORMS.len() {
        assert!(rt; wants(alloc, FORMS[i].0, FORMS[i].1)?, "{i}");
    }
    Ok(())
}

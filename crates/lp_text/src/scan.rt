//! Scanning a text by a form.
ghost use Rattle.std.specs.Prelude.{◌≡◌, ◌≤◌, ◌<◌, ◌++◌, ◌^◌, Some, IfOk, OnOk, SomeIff, length, take, drop};
ghost use Rattle.std.specs.Char.{is_ascii_digit};
ghost use Rattle.std.specs.List.{prefix_len};
ghost use Rattle.std.specs.Option.{option_to_list};
ghost use Rattle.lp_text.specs.declared.scan.Scanned.TheVariants.{Int as scanned_int};
ghost use Rattle.lp_text.specs.Forms.{fault_of, parts};
ghost use Rattle.lp_text.specs.Scans.{GivesScan, digits_number, if_kept, literal, number_step, plain_step, scanned, signed, step, words_step, words_taken};
ghost use Rattle.lp_text.specs.Texts.{place_from};

use crate::fault::TextFault;
use crate::form::{Item, item_of, point, rest_of, wanted, width_of};
use crate::search::find;
use lp_values::limits::MAX_CODE_POINTS;
use lp_values::text::Text;
use std::alloc::{AllocError, Global};

/// What a part of a form assigns.
#[derive(Debug, PartialEq, Eq, Drop)]
pub enum Scanned {
    /// An integer.
    Int(i64),
    /// A text.
    Text(Text),
}

/// What a part took of a text.
#[derive(Drop)]
pub(crate) struct Taken {
    /// What is assigned.
    value: Option<Scanned>,
    /// How many code points it took.
    length: usize,
}

/// Takes a text apart by a form, and gives what its parts assign, up to the first part that does
/// not match.
///
/// - `%d`: an optional `-` and digits, which do not match where the integer is out of range.
/// - `%s`: what comes before the first place of the literal text that follows up to the next `%` or
///   the end of the form, or the whole rest where the form ends.
/// - `%*d`, `%*s`: the same, not assigned.
/// - `%%`: a `%`. Other text must be equal.
///
/// Faults, in this order:
///
/// - `BadFormat`: exactly where `wanted` gives it. The whole form is looked at before anything is
///   matched.
/// - `TooLong`: exactly where the text has more than 100000 code points.
pub fn scan(alloc: Global, s: &[char], form: &[char]) -> Result<Vec<Scanned>, TextFault>
    ensures { GivesScan result (fault_of (parts form.now)) s.now (scanned (parts form.now) s.now) }
{
    wanted(form)?;
    if s.len() > MAX_CODE_POINTS {
        return Err(TextFault::TooLong);
    }
    Ok(matched(alloc, s, form)?)
}

/// What the parts of a form assign.
fn matched(alloc: Global, s: &[char], form: &[char]) -> Result<Vec<Scanned>, AllocError>
    ensures { IfOk result (λ v. v.items ≡ scanned (parts form.now) s.now) }
{
    let mut all = Vec::new(alloc);
    let mut at = 0;
    let mut text = s;
    while at < form.len() {
        let item = item_of(rest_of(form, at));
        let end = at + width_of(item);
        match take_part(alloc, item, rest_of(form, end), text)? {
            None => return Ok(all),
            Some(taken) => {
                text = rest_of(text, taken.length);
                add(&mut all, taken.value)?;
            }
        }
        at = end;
    }
    Ok(all)
}

/// Adds a value, if there is one.
fn add(all: &mut Vec<Scanned>, value: Option<Scanned>) -> Result<(), AllocError>
    ensures { OnOk result (all.new.items ≡ all.old.items ++ option_to_list value) }
{
    if let Some(x) = value {
        all.push(x)?;
    }
    Ok(())
}

/// What a part takes of a text, before this rest of the form.
fn take_part(
    alloc: Global,
    item: Item,
    rest: &[char],
    s: &[char],
) -> Result<Option<Taken>, AllocError>
    ensures { IfOk result (λ r. r ≡ step item rest.now s.now) }
{
    match item {
        Item::Bad => Ok(None),
        Item::Percent => Ok(take_plain('%', s)),
        Item::Plain(c) => Ok(take_plain(c, s)),
        Item::Number(kept) => Ok(take_number(kept, s)),
        Item::Words(kept) => take_words(alloc, kept, rest, s),
    }
}

/// Takes a code point that must be equal.
fn take_plain(c: char, s: &[char]) -> Option<Taken>
    ensures { result ≡ plain_step c s.now }
{
    match s {
        [first, ..] if *first == c => Some(Taken {
            value: None,
            length: 1,
        }),
        _ => None,
    }
}

/// Takes an integer.
fn take_number(kept: bool, s: &[char]) -> Option<Taken>
    ensures { result ≡ number_step kept s.now }
{
    let minus = point(s, 0) == '-';
    let start = if minus { 1 } else { 0 };
    let rest = rest_of(s, start);
    let digits = digit_count(rest);
    if digits == 0 {
        return None;
    }
    match integer(minus, &rest[..digits]) {
        Some(n) => Some(Taken {
            value: number_value(kept, n),
            length: start + digits,
        }),
        None => None,
    }
}

/// What is assigned of an integer.
fn number_value(kept: bool, n: i64) -> Option<Scanned>
    ensures { result ≡ if_kept kept (scanned_int n) }
{
    if kept { Some(Scanned::Int(n)) } else { None }
}

/// How many digits a text begins with.
pub fn digit_count(s: &[char]) -> usize
    ensures value { result ≡ prefix_len is_ascii_digit s.now }
    ensures within { result ≤ length s.now }
{
    let mut n = 0;
    while n < s.len() && s[n].is_ascii_digit() {
        n += 1;
    }
    n
}

/// The integer of a sign and digits, if it is in range.
fn integer(minus: bool, digits: &[char]) -> Option<i64>
    ensures { result ≡ signed minus (digits_number digits.now) }
{
    match magnitude(digits) {
        Some(n) => with_sign(minus, n),
        None => None,
    }
}

/// The integer of a sign and a number, if it is in range.
fn with_sign(minus: bool, n: u64) -> Option<i64>
    requires { n ≤ 2 ^ 63 }
    ensures { result ≡ signed minus n }
{
    if minus {
        if n == 9223372036854775808 {
            return Some(i64::MIN);
        }
        return Some(-(n as i64));
    }
    if n < 9223372036854775808 {
        Some(n as i64)
    } else {
        None
    }
}

/// The number that digits write, if it is at most 2^63.
pub fn magnitude(digits: &[char]) -> Option<u64>
    ensures { SomeIff result (digits_number digits.now ≤ 2 ^ 63) (digits_number digits.now) }
{
    let mut n: u64 = 0;
    for c in digits {
        if n > 922337203685477580 {
            return None;
        }
        n = n * 10 + (*c as u64).saturating_sub(48);
        if n > 9223372036854775808 {
            return None;
        }
    }
    Some(n)
}

/// Takes a text up to the literal text that follows in the form.
fn take_words(
    alloc: Global,
    kept: bool,
    rest: &[char],
    s: &[char],
) -> Result<Option<Taken>, AllocError>
    ensures { IfOk result (λ r. r ≡ words_step kept rest.now s.now) }
{
    if rest.is_empty() {
        return Ok(Some(front(alloc, kept, s, s.len())?));
    }
    match find(s, literal_of(rest), 0) {
        Some(i) => Ok(Some(front(alloc, kept, s, i as usize)?)),
        None => Ok(None),
    }
}

/// Takes the first code points.
fn front(alloc: Global, kept: bool, s: &[char], n: usize) -> Result<Taken, AllocError>
    ensures { IfOk result (λ t. Some t ≡ words_taken kept s.now (Some n)) }
{
    if !kept {
        return Ok(Taken {
            value: None,
            length: n,
        });
    }
    let text = Text::from_slice(alloc, front_of(s, n))?;
    Ok(Taken {
        value: Some(Scanned::Text(text)),
        length: n,
    })
}

/// The first code points, or all where there are fewer.
fn front_of(s: &[char], n: usize) -> &[char]
    ensures { result.now ≡ take n s.now }
{
    if n >= s.len() { s } else { &s[..n] }
}

/// The literal text that a form begins with.
fn literal_of(form: &[char]) -> &[char]
    ensures { result.now ≡ literal form.now }
{
    let mut n = 0;
    while n < form.len() && form[n] != '%' {
        n += 1;
    }
    &form[..n]
}

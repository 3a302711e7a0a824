//! The parts of a form of scanning.
ghost use Rattle.std.specs.Prelude.{ℕ, List, None, ◌≡◌, ◌≤◌, ◌<◌, drop, slice_index, if◌then◌else◌};
ghost use Rattle.lp_text.specs.Forms.{GivesCount, count_of, fault_of, is_fault, is_kept, item, lettered_item, marked_item, parts, spelled, width};

use crate::fault::TextFault;

/// A part of a form of scanning.
#[derive(Clone, Copy)]
pub(crate) enum Item {
    /// A `%` that begins no part.
    Bad,
    /// `%d`, or `%*d`, which is not assigned.
    Number(bool),
    /// `%%`.
    Percent,
    /// Another code point than `%`.
    Plain(char),
    /// `%s`, or `%*s`, which is not assigned.
    Words(bool),
}

/// How many parts of a form of scanning are assigned. It takes no memory.
///
/// - `BadFormat`: exactly where a `%` begins no part, or a `%s` or `%*s` stands directly before a
///   `%`, with the place of the first such `%`.
pub fn wanted(form: &[char]) -> Result<u64, TextFault>
    ensures { GivesCount result (fault_of (parts form.now)) (count_of (parts form.now)) }
{
    let mut at = 0;
    let mut count = 0;
    while at < form.len() {
        let item = item_of(rest_of(form, at));
        let end = at + width_of(item);
        if faulty(item, rest_of(form, end)) {
            return Err(TextFault::BadFormat { at: at as u64 });
        }
        count += assigned(item);
        at = end;
    }
    Ok(count)
}

/// Law: the parts of a form without a fault, one after another, spell the form.
pub fn law_spelled()
    ensures { (form : List ℕ) → fault_of (parts form) ≡ None → spelled (parts form) ≡ form }
{}

/// What follows the first code points.
pub fn rest_of(s: &[char], from: usize) -> &[char]
    ensures { result.now ≡ drop from s.now }
{
    if from >= s.len() { &[] } else { &s[from..] }
}

/// The part that a form begins with.
pub(crate) fn item_of(form: &[char]) -> Item
    ensures { result ≡ item form.now }
{
    let first = point(form, 0);
    if first == '%' {
        marked(point(form, 1), point(form, 2))
    } else {
        Item::Plain(first)
    }
}

/// The part that `%` and two more code points begin.
fn marked(first: char, second: char) -> Item
    ensures { result ≡ marked_item first second }
{
    if first == '%' {
        return Item::Percent;
    }
    if first == '*' {
        return lettered(second, false);
    }
    lettered(first, true)
}

/// The part of a letter.
fn lettered(letter: char, kept: bool) -> Item
    ensures { result ≡ lettered_item letter kept }
{
    if letter == 'd' {
        return Item::Number(kept);
    }
    if letter == 's' {
        return Item::Words(kept);
    }
    Item::Bad
}

/// The code point at a place, and code point 0 past the end.
pub fn point(s: &[char], i: usize) -> char
    ensures { result ≡ slice_index s.now i }
{
    if i < s.len() { s[i] } else { '\0' }
}

/// How many code points a part has.
pub(crate) fn width_of(item: Item) -> usize
    ensures value { result ≡ width item }
    ensures some { 0 < result }
    ensures few { result ≤ 3 }
{
    match item {
        Item::Bad | Item::Plain(_) => 1,
        Item::Percent | Item::Number(true) | Item::Words(true) => 2,
        Item::Number(false) | Item::Words(false) => 3,
    }
}

/// Whether a part is faulty before this rest of the form.
fn faulty(item: Item, rest: &[char]) -> bool
    ensures { result ≡ is_fault item rest.now }
{
    match item {
        Item::Bad => true,
        Item::Words(_) => point(rest, 0) == '%',
        _ => false,
    }
}

/// 1 for a part that is assigned, and 0 for another.
fn assigned(item: Item) -> u64
    ensures value { result ≡ (if is_kept item then 1 else 0) }
    ensures few { result ≤ 1 }
{
    match item {
        Item::Number(true) | Item::Words(true) => 1,
        _ => 0,
    }
}

//! Texts in pieces, and pieces joined.
ghost use Rattle.std.specs.Prelude.{◌≡◌, ◌+◌, ◌<◌, ◌≤◌, ◌++◌, ◌∷◌, ℕ, List, [], IfOk, SomeIff, length, map};
ghost use Rattle.std.specs.List.{flat_map};
ghost use Rattle.lp_text.specs.Gives.{GivesText};
ghost use Rattle.lp_text.specs.Pieces.{AreNext, AreRoundFirst, GivesPieces, exploded, imploded, pieces as pieces_of};
ghost use Rattle.lp_text.specs.Singles.{AreSingles};
ghost use Rattle.lp_text.specs.Texts.{place as place_of};
ghost use Rattle.lp_values.specs.Limits.{max_code_points};

use crate::fault::TextFault;
use crate::items::text_of;
use crate::search::find;
use lp_values::limits::MAX_CODE_POINTS;
use lp_values::text::Text;
use std::alloc::{AllocError, Global};

/// The pieces of a text round a separator, also those that are empty: at least one. Round an empty
/// separator each code point is a piece.
///
/// - `TooLong`: exactly where the text has more than 100000 code points.
pub fn explode(alloc: Global, s: &[char], by: &[char]) -> Result<Vec<Text>, TextFault>
    ensures { GivesPieces result s.now (exploded by.now s.now) }
{
    if s.len() > MAX_CODE_POINTS {
        return Err(TextFault::TooLong);
    }
    if by.is_empty() {
        return Ok(singles(alloc, s)?);
    }
    Ok(pieces(alloc, s, by)?)
}

/// Law: the pieces are those round the first place of the separator, and then those of the rest.
pub fn law_first()
    ensures { (by cs : List ℕ) → 0 < length by → AreRoundFirst by cs (exploded by cs) (place_of by cs 0) }
{}

/// Law: imploding what was exploded gives the text.
pub fn law_round_trip()
    ensures { (by cs : List ℕ) → imploded by (exploded by cs) ≡ cs }
{}

/// From how many code points on the same ones share their texts.
const MANY: usize = 1000;

/// Each code point as a text. Of many, equal ones below 128 share their memory.
fn singles(alloc: Global, s: &[char]) -> Result<Vec<Text>, AllocError>
    ensures { IfOk result (λ v. v.items ≡ map (λ c. c ∷ []) s.now) }
{
    let shared = first_singles(alloc, if s.len() < MANY { 0 } else { 128 })?;
    let mut all = Vec::with_capacity(alloc, s.len())?;
    for c in s {
        all.push(single(alloc, shared.as_slice(), *c)?)?;
    }
    Ok(all)
}

/// The texts of the first code points, each by itself.
fn first_singles(alloc: Global, n: u8) -> Result<Vec<Text>, AllocError>
    ensures { IfOk result (λ v. AreSingles v.items) }
{
    let mut all = Vec::new(alloc);
    for k in 0..n {
        all.push(Text::from_slice(alloc, &[k as char])?)?;
    }
    Ok(all)
}

/// A code point as a text: a shared one, where there is one.
fn single(alloc: Global, shared: &[Text], c: char) -> Result<Text, AllocError>
    requires { AreSingles shared.now }
    ensures { IfOk result (λ t. t ≡ c ∷ []) }
{
    let k = c as usize;
    if k < shared.len() {
        return shared[k].copy();
    }
    Text::from_slice(alloc, &[c])
}

/// The pieces round a separator that is not empty.
fn pieces(alloc: Global, s: &[char], by: &[char]) -> Result<Vec<Text>, AllocError>
    requires { 0 < length by.now }
    ensures { IfOk result (λ v. v.items ≡ pieces_of by.now s.now) }
{
    let empty = Text::from_slice(alloc, &[])?;
    let mut all = Vec::new(alloc);
    let mut from = 0;
    while let Some(place) = next_place(s, by, from) {
        all.push(piece(alloc, &empty, &s[from..place])?)?;
        from = place + by.len();
    }
    all.push(piece(alloc, &empty, &s[from..])?)?;
    Ok(all)
}

/// A piece as a text. Empty pieces share their memory.
fn piece(alloc: Global, empty: &Text, part: &[char]) -> Result<Text, AllocError>
    requires { empty.now ≡ [] }
    ensures { IfOk result (λ t. t ≡ part.now) }
{
    if part.is_empty() {
        return empty.copy();
    }
    Text::from_slice(alloc, part)
}

/// The next place of the separator.
fn next_place(s: &[char], by: &[char], from: usize) -> Option<usize>
    requires some { 0 < length by.now }
    requires within { from ≤ length s.now }
    ensures { AreNext by.now s.now from result }
{
    match find(s, by, from as u64) {
        Some(place) => Some(place as usize),
        None => None,
    }
}

/// Texts with a separator between each two. The result is written once.
///
/// - `TooLong`: exactly where it would have more than 100000 code points.
pub fn implode(alloc: Global, parts: &[Text], by: &[char]) -> Result<Text, TextFault>
    ensures { GivesText result (imploded by.now parts.now) }
{
    match parts {
        [] => text_of(alloc, &[]),
        [first, rest @ ..] => implode_from(alloc, first.as_slice(), rest, by),
    }
}

/// A text, and then more, each with the separator before it.
fn implode_from(
    alloc: Global,
    first: &[char],
    rest: &[Text],
    by: &[char],
) -> Result<Text, TextFault>
    ensures { GivesText result (first.now ++ flat_map (λ p. by.now ++ p) rest.now) }
{
    if first.len() > MAX_CODE_POINTS {
        return Err(TextFault::TooLong);
    }
    match length_with(first.len(), rest, by) {
        Some(n) => Ok(Text::from_vec(alloc, joined(alloc, first, rest, by, n)?)?),
        None => Err(TextFault::TooLong),
    }
}

/// How many code points there are after more texts, each with the separator before it: none above
/// 100000.
fn length_with(start: usize, rest: &[Text], by: &[char]) -> Option<usize>
    requires { start ≤ max_code_points }
    ensures { SomeIff result (start + length (flat_map (λ p. by.now ++ p) rest.now) ≤ max_code_points) (start + length (flat_map (λ p. by.now ++ p) rest.now)) }
{
    let mut total = start;
    for part in rest {
        let room = MAX_CODE_POINTS - total;
        let more = part.as_slice().len();
        if by.len() > room || more > room - by.len() {
            return None;
        }
        total += by.len() + more;
    }
    Some(total)
}

/// A text, and then more, each with the separator before it: `n` code points.
fn joined(
    alloc: Global,
    first: &[char],
    rest: &[Text],
    by: &[char],
    n: usize,
) -> Result<Vec<char>, AllocError>
    ensures { IfOk result (λ v. v.items ≡ first.now ++ flat_map (λ p. by.now ++ p) rest.now) }
{
    let mut all = Vec::with_capacity(alloc, n)?;
    all.extend_from_slice(first)?;
    for part in rest {
        all.extend_from_slice(by)?;
        all.extend_from_slice(part.as_slice())?;
    }
    Ok(all)
}

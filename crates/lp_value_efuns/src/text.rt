//! Efuns of texts.
ghost use Rattle.std.specs.Prelude.{◌≡◌, ◌<◌, ◌^◌, ◌++◌, [], ◌∷◌, map, filter_map, IfOk, IfSome, OnOk};
ghost use Rattle.std.specs.Char.{to_ascii_lowercase, to_ascii_uppercase};
ghost use Rattle.lp_text.specs.Pieces.{exploded, imploded};
ghost use Rattle.lp_text.specs.Texts.{place, trimmed};
ghost use Rattle.lp_ops.specs.Effects.{within};
ghost use Rattle.lp_ops.specs.Operators.{array, text};
ghost use Rattle.lp_meaning.specs.ComputingEfuns.{capitalized, from_zero, place_or_none, text_among};

use lp_ops::effect::{Effect, array, from_text};
use lp_ops::int::int;
use lp_text::letters::{lower, trim, upper};
use lp_text::pieces::{explode, implode};
use lp_text::search::find;
use lp_values::text::Text;
use lp_values::value::Value;
use std::alloc::{AllocError, Global};

/// `explode`: the pieces of a text round a separator; round an empty one each code point is a piece.
pub fn exploded(alloc: Global, s: &[char], by: &[char]) -> Result<Effect, AllocError>
    ensures { IfOk result (λ e. e ≡ array (map Value.Str (exploded by.now s.now))) }
{
    match explode(alloc, s, by) {
        Ok(pieces) => Ok(array(as_values(alloc, pieces)?)),
        // No value is a text above the limit, so that what is left is want of memory.
        Err(_) => Err(AllocError),
    }
}

/// Texts as values.
fn as_values(alloc: Global, texts: Vec<Text>) -> Result<Vec<Value>, AllocError>
    ensures { IfOk result (λ v. v.items ≡ map Value.Str texts.items) }
{
    texts.into_iter().map(|t| Value::Str(t)).collect(alloc)
}

/// `implode`: the texts among some items with a separator between each two. The result is written once, and one that
/// is too long is refused before it is written.
pub fn imploded(alloc: Global, items: &[Value], by: &[char]) -> Result<Effect, AllocError>
    ensures { IfOk result (λ e. within e ≡ within (text (imploded by.now (filter_map text_among items.now)))) }
{
    let texts = texts_among(alloc, items)?;
    from_text(alloc, implode(alloc, texts.as_slice(), by))
}

/// The texts among some items, in their memory.
fn texts_among(alloc: Global, items: &[Value]) -> Result<Vec<Text>, AllocError>
    ensures { IfOk result (λ v. v.items ≡ filter_map text_among items.now) }
{
    let mut texts = Vec::new(alloc);
    for v in items {
        keep_text(&mut texts, v)?;
    }
    Ok(texts)
}

/// Adds a text at the end, where the value is one.
fn keep_text(texts: &mut Vec<Text>, v: &Value) -> Result<(), AllocError>
    ensures { OnOk result (texts.new.items ≡ texts.old.items ++ filter_map text_among (v.now ∷ [])) }
{
    if let Value::Str(s) = v {
        texts.push(s.copy()?)?;
    }
    Ok(())
}

/// `lower_case`: a text with the ASCII letters as small ones.
pub fn lowered(alloc: Global, s: &[char]) -> Result<Effect, AllocError>
    ensures { IfOk result (λ e. within e ≡ within (text (map to_ascii_lowercase s.now))) }
{
    from_text(alloc, lower(alloc, s))
}

/// `upper_case`: a text with the ASCII letters as capitals.
pub fn raised(alloc: Global, s: &[char]) -> Result<Effect, AllocError>
    ensures { IfOk result (λ e. within e ≡ within (text (map to_ascii_uppercase s.now))) }
{
    from_text(alloc, upper(alloc, s))
}

/// `trim`: a text without the blanks at both ends.
pub fn trimmed(alloc: Global, s: &[char]) -> Result<Effect, AllocError>
    ensures { IfOk result (λ e. within e ≡ within (text (trimmed s.now))) }
{
    from_text(alloc, trim(alloc, s))
}

/// `capitalize`: a text with its first code point as a capital, where that is an ASCII letter.
pub fn capitalized(alloc: Global, s: &[char]) -> Result<Effect, AllocError>
    ensures { IfOk result (λ e. e ≡ text (capitalized s.now)) }
{
    Ok(Effect::Gives(Value::Str(with_capital(alloc, s)?)))
}

/// The text with its first code point as a capital.
fn with_capital(alloc: Global, s: &[char]) -> Result<Text, AllocError>
    ensures { IfOk result (λ t. t ≡ capitalized s.now) }
{
    match s {
        [] => Text::from_slice(alloc, &[]),
        [first, rest @ ..] => {
            let mut all = Vec::with_capacity(alloc, s.len())?;
            all.push(first.to_ascii_uppercase())?;
            all.extend_from_slice(rest)?;
            Text::from_vec(alloc, all)
        }
    }
}

/// `strstr`: the first place of `t` in `s` from the place `from` on, or -1. A `from` below 0 is 0.
pub fn place_in(s: &[char], t: &[char], from: i64) -> Effect
    ensures { result ≡ place_or_none (place t.now s.now (from_zero from)) }
{
    match first_place(s, t, from_zero(from)) {
        Some(i) => int(i as i64),
        None => int(-1),
    }
}

/// A number from 0 up.
pub(crate) fn from_zero(n: i64) -> u64
    ensures value { result ≡ from_zero n }
    ensures small { result < 2 ^ 63 }
{
    if n < 0 { 0 } else { n as u64 }
}

/// The first place of `t` in `s` from the place `from` on.
#[tactic(auto, using(crate::proofs::TextLemmas::place_small))]
fn first_place(s: &[char], t: &[char], from: u64) -> Option<u64>
    requires { from < 2 ^ 63 }
    ensures value { result ≡ place t.now s.now from }
    ensures small { IfSome result (λ i. i < 2 ^ 63) }
{
    find(s, t, from)
}

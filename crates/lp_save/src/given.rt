//! Which line is for which name.
ghost use Rattle.std.specs.Prelude.{◌≡◌, ◌<◌, ◌^◌, ◌+◌, ◌&&◌, ℕ, List, Some, IfOk, OnOk, [], bytes_eq, map, nat_eq, slice_get, if◌then◌else◌};
ghost use Rattle.lp_save.specs.Desks.{as_line};
ghost use Rattle.lp_save.specs.Names.{found_at, times, values_of};
ghost use Rattle.lp_save.specs.SaveText.{given as given_of};

use indexmap::IndexMap;
use lp_values::text::Text;
use lp_values::value::Value;
use std::alloc::{AllocError, Global};

/// The name of a line, and how many lines before it have that name.
#[derive(PartialEq, Eq, Hash, Drop)]
pub(crate) struct Place {
    name: Text,
    before: u64,
}

/// The value of the k-th line of a name for the k-th such name, or nothing.
pub(crate) fn given(
    alloc: Global,
    names: &[Text],
    lines: &[(Text, Value)],
) -> Result<Vec<Option<Value>>, AllocError>
    ensures { IfOk result (λ vs. vs.items ≡ given_of [] names.now (map as_line lines.now)) }
{
    // A length is a number of 64 bits, so the counts are.
    let _count = names.len();
    let found = places(alloc, lines)?;
    let mut counts = IndexMap::new(alloc);
    let mut values = Vec::new(alloc);
    for name in names {
        let before = rank(&mut counts, name)?;
        values.push(value_at(&found, name, before)?)?;
    }
    Ok(values)
}

/// The values of lines by their places.
fn places(alloc: Global, lines: &[(Text, Value)]) -> Result<IndexMap<Place, Value>, AllocError>
    ensures { IfOk result (λ m. (q : List ℕ) (k : ℕ) → found_at m q k ≡ slice_get (values_of q (map as_line lines.now)) k) }
{
    // A length is a number of 64 bits, so the counts are.
    let _count = lines.len();
    let mut counts = IndexMap::new(alloc);
    let mut found = IndexMap::new(alloc);
    for line in lines {
        let before = rank(&mut counts, &line.0)?;
        put(&mut found, line, before)?;
    }
    Ok(found)
}

/// Puts the value of a line at its place.
fn put(
    found: &mut IndexMap<Place, Value>,
    line: &(Text, Value),
    before: u64,
) -> Result<(), AllocError>
    ensures { OnOk result ((q : List ℕ) (k : ℕ) → found_at found.new q k ≡ (if bytes_eq line.now.0 q && nat_eq before k then Some line.now.1 else found_at found.old q k)) }
{
    let place = Place {
        name: line.0.copy()?,
        before,
    };
    found.insert(place, line.1.copy()?)?;
    Ok(())
}

/// The value at a place, if there is one.
fn value_at(
    found: &IndexMap<Place, Value>,
    name: &Text,
    before: u64,
) -> Result<Option<Value>, AllocError>
    ensures { IfOk result (λ v. v ≡ found_at found.now name.now before) }
{
    let place = Place {
        name: name.copy()?,
        before,
    };
    match found.get(&place) {
        Some(v) => Ok(Some(v.copy()?)),
        None => Ok(None),
    }
}

/// How often a name came before, and counts it.
fn rank(counts: &mut IndexMap<Text, u64>, name: &Text) -> Result<u64, AllocError>
    requires { times counts.old name.now + 1 < 2 ^ 64 }
    ensures before { IfOk result (λ n. n ≡ times counts.old name.now) }
    ensures after { OnOk result ((q : List ℕ) → times counts.new q ≡ (if bytes_eq name.now q then times counts.old name.now + 1 else times counts.old q)) }
{
    let before = match counts.get(name) {
        Some(n) => *n,
        None => 0,
    };
    counts.insert(name.copy()?, before + 1)?;
    Ok(before)
}

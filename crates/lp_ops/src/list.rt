//! Operators on arrays, mappings and texts.
ghost use Rattle.std.specs.Prelude.{◌≡◌, ◌++◌, [], ◌∷◌, if◌then◌else◌, IfOk, OnOk};
ghost use Rattle.std.specs.Option.{option_to_list};
ghost use Rattle.indexmap.specs.IndexMap.{insert_all};
ghost use Rattle.lp_values.specs.Read.{value_eq};
ghost use Rattle.lp_cells.specs.Mapping.{pairs_of, pairs_there};
ghost use Rattle.lp_ops.specs.Operators.{items_common, items_without, pairs_without};

use crate::set::ValueSet;
use lp_cells::pairs::Pairs;
use lp_values::value::{Living, Value, as_read};
use std::alloc::{AllocError, Global};

/// Adds copies of the items at the end.
fn add_copies(items: &[Value], into: &mut Vec<Value>) -> Result<(), AllocError>
    ensures { OnOk result (into.new.items ≡ into.old.items ++ items.now) }
{
    for v in items {
        into.push(v.copy()?)?;
    }
    Ok(())
}

/// Copies of the items.
pub fn copies(alloc: Global, items: &[Value]) -> Result<Vec<Value>, AllocError>
    ensures { IfOk result (λ v. v.items ≡ items.now) }
{
    let mut all = Vec::with_capacity(alloc, items.len())?;
    add_copies(items, &mut all)?;
    Ok(all)
}

/// The items of the first, and then those of the second.
pub fn items_joined(
    alloc: Global,
    first: &[Value],
    second: &[Value],
) -> Result<Vec<Value>, AllocError>
    ensures { IfOk result (λ v. v.items ≡ first.now ++ second.now) }
{
    let mut all = Vec::with_capacity(alloc, first.len().saturating_add(second.len()))?;
    add_copies(first, &mut all)?;
    add_copies(second, &mut all)?;
    Ok(all)
}

/// Adds a copy of an item at the end, where it is kept.
fn keep(kept: &mut Vec<Value>, x: &Value, is_kept: bool) -> Result<(), AllocError>
    ensures { OnOk result (kept.new.items ≡ kept.old.items ++ (if is_kept then x.now ∷ [] else [])) }
{
    if is_kept {
        kept.push(x.copy()?)?;
    }
    Ok(())
}

/// The items of the first that equal none of the second, as read, in time of both lengths.
pub fn items_without<L: Living>(
    alloc: Global,
    first: &[Value],
    second: &[Value],
    live: &L,
) -> Result<Vec<Value>, AllocError>
    ensures { IfOk result (λ v. v.items ≡ items_without (L.live live.now) first.now second.now) }
{
    let gone = ValueSet::of(alloc, second, live)?;
    let mut kept = Vec::new(alloc);
    for x in first {
        let is_gone = gone.has_read(x, live);
        keep(&mut kept, x, !is_gone)?;
    }
    Ok(kept)
}

/// The items of the first that equal one of the second, as read, in time of both lengths.
pub fn items_common<L: Living>(
    alloc: Global,
    first: &[Value],
    second: &[Value],
    live: &L,
) -> Result<Vec<Value>, AllocError>
    ensures { IfOk result (λ v. v.items ≡ items_common (L.live live.now) first.now second.now) }
{
    let wanted = ValueSet::of(alloc, second, live)?;
    let mut kept = Vec::new(alloc);
    for x in first {
        let is_wanted = wanted.has_read(x, live);
        keep(&mut kept, x, is_wanted)?;
    }
    Ok(kept)
}

/// The pairs of both that are there, the second winning at a key of both.
pub fn pairs_joined<L: Living>(
    alloc: Global,
    first: &Pairs,
    second: &Pairs,
    live: &L,
) -> Result<Pairs, AllocError>
    ensures { IfOk result (λ t. t ≡ pairs_of (pairs_there (L.live live.now) first.now ++ pairs_there (L.live live.now) second.now)) }
{
    Pairs::new(alloc)
        .with_there(first, live)?
        .with_there(second, live)
}

/// The pairs of the first that are there and whose key is not in the second.
pub fn pairs_without<L: Living>(
    alloc: Global,
    first: &Pairs,
    second: &Pairs,
    live: &L,
) -> Result<Pairs, AllocError>
    ensures { IfOk result (λ t. t ≡ pairs_of (pairs_without (L.live live.now) (pairs_there (L.live live.now) first.now) (pairs_there (L.live live.now) second.now))) }
{
    let slots = first.slots();
    let mut kept = Pairs::new(alloc);
    for slot in slots {
        keep_pair(&mut kept, slot, second, live)?;
    }
    Ok(kept)
}

/// Puts the pair in a slot of the first, where it is there and its key is not in the second.
fn keep_pair<L: Living>(
    kept: &mut Pairs,
    slot: &Option<(Value, Value)>,
    second: &Pairs,
    live: &L,
) -> Result<(), AllocError>
    ensures { OnOk result (kept.new ≡ insert_all value_eq kept.old (pairs_without (L.live live.now) (pairs_there (L.live live.now) (option_to_list slot.now)) (pairs_there (L.live live.now) second.now))) }
{
    if let Some((key, v)) = slot {
        if as_read(key, live).is_some() && second.find_read(key, live).is_none() {
            kept.put(key.copy()?, v.copy()?)?;
        }
    }
    Ok(())
}

//! Efuns of arrays and mappings.
ghost use Rattle.std.specs.Prelude.{◌≡◌, ◌≤◌, ◌<◌, ◌^◌, ◌++◌, Bool, map, min, not, nat_eq, nat_lt, length, position, replicate, Some, None, IfOk, OnOk, if◌then◌else◌};
ghost use Rattle.std.specs.List.{prefix_len};
ghost use Rattle.std.specs.Option.{option_to_list};
ghost use Rattle.lp_values.specs.declared.id.ObjId.{ObjId};
ghost use Rattle.lp_values.specs.Read.{same};
ghost use Rattle.lp_cells.specs.Cells.{IsThere, Store};
ghost use Rattle.lp_cells.specs.Mapping.{HasDistinctKeys, pairs_of, pairs_there};
ghost use Rattle.lp_ops.specs.Effects.{within};
ghost use Rattle.lp_ops.specs.Operands.{Number, opened};
ghost use Rattle.lp_ops.specs.Operators.{array, mapping};
ghost use Rattle.lp_language.specs.Course.{zero_value};
ghost use Rattle.lp_meaning.specs.EfunArguments.{pairs_in};
ghost use Rattle.lp_meaning.specs.ComputingEfuns.{allocate, copied, member, paired, place_of_point, place_or_none};

use crate::argument::bad;
use crate::text::from_zero;
use lp_cells::cells::Cells;
use lp_cells::pairs::Pairs;
use lp_instr::efun::Efun;
use lp_ops::effect::{Effect, array, mapping, refused};
use lp_ops::int::{int, truth};
use lp_ops::list::copies;
use lp_values::error::ErrorKind;
use lp_values::limits::MAX_ITEMS;
use lp_values::value::{Living, Value, as_read, same};
use std::alloc::{AllocError, Global};

/// `allocate`: an array of zeros. A number below 0 is a bad argument, and one above the limit is refused before
/// anything is made.
pub fn allocated(alloc: Global, n: i64) -> Result<Effect, AllocError>
    ensures { IfOk result (λ e. within e ≡ within (allocate n)) }
{
    if n < 0 {
        return bad(alloc, Efun::Allocate, 1);
    }
    zeros(alloc, n as usize)
}

/// An array of so many zeros, or the refusal.
#[tactic(auto, using(crate::proofs::ListLemmas::too_many_zeros))]
fn zeros(alloc: Global, n: usize) -> Result<Effect, AllocError>
    ensures { IfOk result (λ e. within e ≡ within (array (replicate n zero_value))) }
{
    if n > MAX_ITEMS {
        return refused(alloc, ErrorKind::TooLong);
    }
    Ok(array(zero_items(alloc, n)?))
}

/// So many zeros.
#[tactic(auto, using(crate::proofs::ListLemmas::one_more))]
fn zero_items(alloc: Global, n: usize) -> Result<Vec<Value>, AllocError>
    ensures { IfOk result (λ v. v.items ≡ replicate n zero_value) }
{
    let mut all = Vec::with_capacity(alloc, n)?;
    for i in 0..n {
        all.push(Value::Int(0))?;
    }
    Ok(all)
}

/// `member`: whether a mapping has a key, found by hashing; the place of the first equal item of an array, or of a
/// code point of a text, or -1. Takes no memory.
#[tactic(auto, using(crate::proofs::ListLemmas::value_opened))]
pub fn member<L: Living>(v: &Value, x: &Value, cells: &Cells, live: &L) -> Effect
    requires { IsThere cells.now v.now }
    ensures { result ≡ member (L.live live.now) (opened (L.live live.now) cells.now v.now) (opened (L.live live.now) cells.now x.now) }
{
    match v {
        Value::Arr(c) => item_place(cells.items(*c), x, live),
        Value::Map(c) => truth(cells.map_get(*c, x, live).is_some()),
        Value::Str(s) => point_place(s.as_slice(), x),
        _ => int(-1),
    }
}

/// A place that was found below the length, or -1 where it is the length.
fn place_below(place: usize, len: usize) -> Effect
    requires { place < 2 ^ 63 }
    ensures { result ≡ place_or_none (if nat_lt place len then Some place else None) }
{
    if place < len {
        return int(place as i64);
    }
    int(-1)
}

/// How many items of an array stand before the first that reads as the same value.
fn first_same_len<L: Living>(items: &[Value], x: &Value, live: &L) -> usize
    ensures value { result ≡ prefix_len (λ v. not (same (L.live live.now) v x.now)) items.now }
    ensures within { result ≤ length items.now }
{
    let mut n = 0;
    while n < items.len() && !same(&items[n], x, live) {
        n += 1;
    }
    n
}

/// The place of the first item that reads as the same value, or -1.
fn item_place<L: Living>(items: &[Value], x: &Value, live: &L) -> Effect
    ensures { result ≡ place_or_none (position (λ v. same (L.live live.now) v x.now) items.now) }
{
    place_below(first_same_len(items, x, live), items.len())
}

/// How many code points stand before the first with a number.
fn first_point_len(s: &[char], c: u64) -> usize
    ensures value { result ≡ prefix_len (λ p. not (nat_eq c p)) s.now }
    ensures within { result ≤ length s.now }
{
    let mut n = 0;
    while n < s.len() && s[n] as u64 != c {
        n += 1;
    }
    n
}

/// The place of the first code point with the number that a value is, or -1.
fn point_place(s: &[char], x: &Value) -> Effect
    ensures { (live : ObjId → Bool) (cells : Store) → result ≡ place_or_none (place_of_point s.now (opened live cells x.now)) }
{
    match x {
        Value::Int(n) => number_place(s, *n),
        _ => int(-1),
    }
}

/// The place of the first code point with a number, or -1.
#[tactic(auto, using(crate::proofs::ListLemmas::natural_is))]
fn number_place(s: &[char], n: i64) -> Effect
    ensures { result ≡ place_or_none (place_of_point s.now (Number n)) }
{
    if n < 0 {
        return int(-1);
    }
    natural_place(s, from_zero(n))
}

/// The place of the first code point with a number from 0 up, or -1.
fn natural_place(s: &[char], c: u64) -> Effect
    ensures { result ≡ place_or_none (position (nat_eq c) s.now) }
{
    place_below(first_point_len(s, c), s.len())
}

/// `copy`: a new array or mapping with the same items, or the value itself.
pub fn copied<L: Living>(
    alloc: Global,
    v: &Value,
    cells: &Cells,
    live: &L,
) -> Result<Effect, AllocError>
    requires { IsThere cells.now v.now }
    ensures { IfOk result (λ e. e ≡ copied (opened (L.live live.now) cells.now v.now)) }
{
    match v {
        Value::Arr(c) => Ok(array(copies(alloc, cells.items(*c))?)),
        Value::Map(c) => Ok(mapping(pairs_copied(alloc, cells.pairs(*c), live)?)),
        _ => Ok(Effect::Gives(v.copy()?)),
    }
}

/// The pairs that are there.
#[tactic(auto, using(crate::proofs::ListLemmas::there_again))]
fn pairs_copied<L: Living>(alloc: Global, pairs: &Pairs, live: &L) -> Result<Pairs, AllocError>
    requires { HasDistinctKeys pairs.now }
    ensures { IfOk result (λ t. t ≡ pairs_there (L.live live.now) pairs.now) }
{
    Pairs::new(alloc).with_there(pairs, live)
}

/// `m_indices`: the keys of a mapping, in order of insertion.
pub fn keys<L: Living>(
    alloc: Global,
    v: &Value,
    cells: &Cells,
    live: &L,
) -> Result<Effect, AllocError>
    requires { IsThere cells.now v.now }
    ensures { IfOk result (λ e. e ≡ array (map (λ p. p.0) (pairs_in (opened (L.live live.now) cells.now v.now)))) }
{
    match v {
        Value::Map(c) => Ok(array(keys_there(alloc, cells.pairs(*c), live)?)),
        _ => Ok(array(Vec::new(alloc))),
    }
}

/// The keys that are there.
fn keys_there<L: Living>(alloc: Global, pairs: &Pairs, live: &L) -> Result<Vec<Value>, AllocError>
    ensures { IfOk result (λ v. v.items ≡ map (λ p. p.0) (pairs_there (L.live live.now) pairs.now)) }
{
    let slots = pairs.slots();
    let mut keys = Vec::new(alloc);
    for slot in slots {
        keep_key(&mut keys, slot, live)?;
    }
    Ok(keys)
}

/// Adds the key in a slot of a mapping, where it is there.
fn keep_key<L: Living>(
    keys: &mut Vec<Value>,
    slot: &Option<(Value, Value)>,
    live: &L,
) -> Result<(), AllocError>
    ensures { OnOk result (keys.new.items ≡ keys.old.items ++ map (λ p. p.0) (pairs_there (L.live live.now) (option_to_list slot.now))) }
{
    if let Some((key, _)) = slot {
        if as_read(key, live).is_some() {
            keys.push(key.copy()?)?;
        }
    }
    Ok(())
}

/// `m_values`: the values of a mapping, in order of insertion.
pub fn contents<L: Living>(
    alloc: Global,
    v: &Value,
    cells: &Cells,
    live: &L,
) -> Result<Effect, AllocError>
    requires { IsThere cells.now v.now }
    ensures { IfOk result (λ e. e ≡ array (map (λ p. p.1) (pairs_in (opened (L.live live.now) cells.now v.now)))) }
{
    match v {
        Value::Map(c) => Ok(array(values_there(alloc, cells.pairs(*c), live)?)),
        _ => Ok(array(Vec::new(alloc))),
    }
}

/// The values at the keys that are there.
fn values_there<L: Living>(alloc: Global, pairs: &Pairs, live: &L) -> Result<Vec<Value>, AllocError>
    ensures { IfOk result (λ v. v.items ≡ map (λ p. p.1) (pairs_there (L.live live.now) pairs.now)) }
{
    let slots = pairs.slots();
    let mut values = Vec::new(alloc);
    for slot in slots {
        keep_value(&mut values, slot, live)?;
    }
    Ok(values)
}

/// Adds the value in a slot of a mapping, where its key is there.
fn keep_value<L: Living>(
    values: &mut Vec<Value>,
    slot: &Option<(Value, Value)>,
    live: &L,
) -> Result<(), AllocError>
    ensures { OnOk result (values.new.items ≡ values.old.items ++ map (λ p. p.1) (pairs_there (L.live live.now) (option_to_list slot.now))) }
{
    if let Some((key, v)) = slot {
        if as_read(key, live).is_some() {
            values.push(v.copy()?)?;
        }
    }
    Ok(())
}

/// `mkmapping`: a mapping of the items of two arrays, keys and values, up to the shorter one. Keys are read, and a later
/// equal key wins at the first one's place.
pub fn made_mapping<L: Living>(
    alloc: Global,
    keys: &[Value],
    values: &[Value],
    live: &L,
) -> Result<Effect, AllocError>
    ensures { IfOk result (λ e. e ≡ mapping (pairs_of (paired (L.live live.now) keys.now values.now))) }
{
    Ok(mapping(paired(alloc, keys, values, live)?))
}

/// The pairs of two lists.
fn paired<L: Living>(
    alloc: Global,
    keys: &[Value],
    values: &[Value],
    live: &L,
) -> Result<Pairs, AllocError>
    ensures { IfOk result (λ t. t ≡ pairs_of (paired (L.live live.now) keys.now values.now)) }
{
    let mut all = Pairs::new(alloc);
    for i in 0..shorter(keys.len(), values.len()) {
        all.put(keys[i].copy_as_read(live)?, values[i].copy()?)?;
    }
    Ok(all)
}

/// The smaller of two lengths.
fn shorter(m: usize, n: usize) -> usize
    ensures { result ≡ min m n }
{
    if m <= n { m } else { n }
}

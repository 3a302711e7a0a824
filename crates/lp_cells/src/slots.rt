//! Pairs in slots, found by hashing.
ghost use Rattle.std.specs.Prelude.{◌≡◌, ◌+◌, ◌<◌, ◌^◌, ◌++◌, [], ◌∷◌, Some, None, IfOk, IfSome, IsSome, OnErr, OnOk, filter, if◌then◌else◌, is_some, length, not, slice_get};
ghost use Rattle.std.specs.Map.{lookup, remove_entry};
ghost use Rattle.std.specs.Map.Iter.{deref_pair};
ghost use Rattle.std.specs.Option.{option_copied, option_map, option_to_list};
ghost use Rattle.std.specs.Vec.{vec_capacity, vec_len};
ghost use Rattle.indexmap.specs.IndexMap.{insert_entry};
ghost use Rattle.lp_values.specs.Read.{value_eq};
ghost use Rattle.lp_values.specs.declared.value.Value.{Value as V};
ghost use Rattle.lp_cells.specs.Mapping.{HasDistinctKeys, pairs_there};
ghost use Rattle.lp_cells.specs.Slots.{IsIndexed, IsNumbered, IsSweptTo, dead_in, filled};

use indexmap::IndexMap;
use lp_values::value::{Living, Value, as_read};
use std::alloc::{AllocError, Global};
use std::marker::Model;

/// Pairs of a key and a value, each in a slot, in order of insertion. A pair that is dropped leaves a gap. Gaps
/// are closed once more than half of the slots are gaps, so that each call takes constant time, one with another.
#[derive(Drop)]
pub struct Slots {
    // In which slot each key stands.
    places: IndexMap<Value, usize>,
    slots: Vec<Option<(Value, Value)>>,
}

impl Model for Slots {
    ghost use Rattle.std.specs.Prelude.{List};
    ghost use Rattle.lp_values.specs.declared.value.Value.{Value as V};

    ghost Value = { List (V × V) };

    ghost use Rattle.lp_cells.specs.Slots.{filled};

    ghost view = { λ t. filled t.slots.items };

    ghost use Rattle.lp_cells.specs.Slots.{IsIndexed};

    ghost invariant = { λ t. IsIndexed t.places.entries t.slots.items };
}

impl Slots {
    /// No pairs.
    pub(crate) fn new(alloc: Global) -> Slots
        ensures { result ≡ [] }
    {
        Slots {
            places: IndexMap::new(alloc),
            slots: Vec::new(alloc),
        }
    }

    /// How many pairs there are. No key stands twice.
    pub(crate) fn len(&self) -> usize
        ensures value { result ≡ length self.now }
        ensures small { result < 2 ^ 63 }
        ensures unique { HasDistinctKeys self.now }
    {
        self.places.len()
    }

    /// The slots in order of insertion, nothing in a gap.
    pub(crate) fn as_slice(&self) -> &[Option<(Value, Value)>]
        ensures { filled result.now ≡ self.now }
    {
        self.slots.as_slice()
    }

    /// The pair at a place, from 0. In constant time where there are no gaps.
    pub(crate) fn at(&self, i: usize) -> Option<(&Value, &Value)>
        ensures { option_map deref_pair result ≡ slice_get self.now i }
    {
        if self.slots.len() == self.places.len() {
            return dense_at(&self.slots, i);
        }
        nth(&self.slots, i)
    }

    /// The value at a key.
    pub(crate) fn find(&self, key: &Value) -> Option<&Value>
        ensures { option_copied result ≡ lookup (value_eq key.now) self.now }
    {
        match place_of(&self.places, key) {
            Some(s) => value_in(&self.slots[s]),
            None => None,
        }
    }

    /// Puts a value at a key, at its slot where the key is there, else last, and tells whether it is new.
    pub(crate) fn put(&mut self, key: Value, v: Value) -> Result<bool, AllocError>
        ensures ok { OnOk result (self.new ≡ insert_entry value_eq self.old key v) }
        ensures is_new { IfOk result (λ b. b ≡ not (is_some (lookup (value_eq key) self.old))) }
        ensures err { OnErr result (self.new ≡ self.old) }
    {
        match place_of(&self.places, &key) {
            Some(s) => {
                drop(key);
                write_value(&mut self.slots[s], v);
                Ok(false)
            }
            None => {
                put_last(&mut self.places, &mut self.slots, key, v)?;
                Ok(true)
            }
        }
    }

    /// Drops a key, and tells whether it was there. Takes no memory.
    pub(crate) fn remove(&mut self, key: &Value) -> bool
        ensures after { self.new ≡ remove_entry (value_eq key.now) self.old }
        ensures found { result ≡ is_some (lookup (value_eq key.now) self.old) }
    {
        let was_there = take_out(&mut self.places, &mut self.slots, key);
        tidy(&mut self.places, &mut self.slots);
        was_there
    }

    /// Drops the pairs whose keys are dead. Takes no memory.
    pub(crate) fn sweep<L: Living>(&mut self, live: &L)
        ensures { self.new ≡ pairs_there (L.live live.now) self.old }
    {
        sweep_all(&mut self.places, &mut self.slots, live);
        tidy(&mut self.places, &mut self.slots);
    }
}

/// The pair in a slot.
pub fn pair_in(slot: &Option<(Value, Value)>) -> Option<(&Value, &Value)>
    ensures { option_map deref_pair result ≡ slot.now }
{
    match slot {
        Some((key, v)) => Some((key, v)),
        None => None,
    }
}

/// The pair in a slot, where it is there, as read.
pub fn there_in<'a, L: Living>(
    slot: &'a Option<(Value, Value)>,
    live: &L,
) -> Option<(&'a Value, &'a Value)>
    ensures there { option_to_list (option_map deref_pair result) ≡ pairs_there (L.live live.now) (option_to_list slot.now) }
    ensures same { IfSome result (λ p. slot.now ≡ Some (p.0.now, p.1.now)) }
{
    match slot {
        Some((key, v)) if as_read(key, live).is_some() => Some((key, v)),
        _ => None,
    }
}

/// The value in a slot.
fn value_in(slot: &Option<(Value, Value)>) -> Option<&Value>
    ensures { option_copied result ≡ option_map (λ p. p.1) slot.now }
{
    match slot {
        Some((_, v)) => Some(v),
        None => None,
    }
}

/// Writes the value in a slot.
fn write_value(slot: &mut Option<(Value, Value)>, v: Value)
    ensures { slot.new ≡ option_map (λ p. (p.0, v)) slot.old }
{
    if let Some((_, old)) = slot {
        *old = v;
    }
}

/// The pair at a place, where there are no gaps.
fn dense_at(slots: &[Option<(Value, Value)>], i: usize) -> Option<(&Value, &Value)>
    requires { length (filled slots.now) ≡ length slots.now }
    ensures { option_map deref_pair result ≡ slice_get (filled slots.now) i }
{
    if i < slots.len() {
        return pair_in(&slots[i]);
    }
    None
}

/// The pair at a place, past the gaps.
fn nth(slots: &[Option<(Value, Value)>], i: usize) -> Option<(&Value, &Value)>
    ensures { option_map deref_pair result ≡ slice_get (filled slots.now) i }
{
    let mut left = i;
    for slot in slots {
        if slot.is_some() {
            if left == 0 {
                return pair_in(slot);
            }
            left -= 1;
        }
    }
    None
}

/// The slot of a key.
fn place_of(places: &IndexMap<Value, usize>, key: &Value) -> Option<usize>
    ensures { result ≡ lookup (value_eq key.now) places.now.entries }
{
    match places.get(key) {
        Some(s) => Some(*s),
        None => None,
    }
}

/// Notes the slot of a new key.
fn note_place(places: &mut IndexMap<Value, usize>, key: &Value, s: usize) -> Result<(), AllocError>
    requires { lookup (value_eq key.now) places.old.entries ≡ None }
    ensures places { OnOk result ((q : V) → lookup (value_eq q) places.new.entries ≡ (if value_eq key.now q then Some s else lookup (value_eq q) places.old.entries)) }
    ensures len { OnOk result (length places.new.entries ≡ length places.old.entries + 1) }
    ensures err { OnErr result (places.new.entries ≡ places.old.entries) }
{
    places.insert(key.copy()?, s)?;
    Ok(())
}

/// Puts a pair with a new key last. Full slots with many gaps are tidied before more memory is taken.
fn put_last(
    places: &mut IndexMap<Value, usize>,
    slots: &mut Vec<Option<(Value, Value)>>,
    key: Value,
    v: Value,
) -> Result<(), AllocError>
    requires indexed { IsIndexed places.old.entries slots.old.items }
    requires absent { lookup (value_eq key) places.old.entries ≡ None }
    ensures indexed { IsIndexed places.new.entries slots.new.items }
    ensures ok { OnOk result (filled slots.new.items ≡ filled slots.old.items ++ (key, v) ∷ []) }
    ensures err { OnErr result (filled slots.new.items ≡ filled slots.old.items) }
{
    tidy_full(places, slots);
    add(places, slots, key, v)?;
    Ok(())
}

/// Closes the gaps where there is no room for one slot more and about a quarter of the slots are gaps.
fn tidy_full(places: &mut IndexMap<Value, usize>, slots: &mut Vec<Option<(Value, Value)>>)
    requires { IsIndexed places.old.entries slots.old.items }
    ensures indexed { IsIndexed places.new.entries slots.new.items }
    ensures kept { filled slots.new.items ≡ filled slots.old.items }
{
    if slots.len() == slots.capacity() && places.len() / 3 < slots.len() / 4 {
        close_gaps(places, slots);
    }
}

/// Puts a pair with a new key behind the slots.
fn add(
    places: &mut IndexMap<Value, usize>,
    slots: &mut Vec<Option<(Value, Value)>>,
    key: Value,
    v: Value,
) -> Result<(), AllocError>
    requires indexed { IsIndexed places.old.entries slots.old.items }
    requires absent { lookup (value_eq key) places.old.entries ≡ None }
    ensures indexed { IsIndexed places.new.entries slots.new.items }
    ensures ok { OnOk result (slots.new.items ≡ slots.old.items ++ Some (key, v) ∷ []) }
    ensures err { OnErr result (slots.new.items ≡ slots.old.items) }
{
    let place = next_slot(slots)?;
    note_place(places, &key, place)?;
    slots.push_reserved(Some((key, v)));
    Ok(())
}

/// Makes room for one slot more, and tells which it will be.
fn next_slot(slots: &mut Vec<Option<(Value, Value)>>) -> Result<usize, AllocError>
    ensures place { IfOk result (λ s. s ≡ length slots.old.items) }
    ensures room { OnOk result (vec_len slots.new < vec_capacity slots.new) }
    ensures kept { slots.new.items ≡ slots.old.items }
{
    slots.reserve(1)?;
    Ok(slots.len())
}

/// Takes a key out, and tells whether it was there. Its slot becomes a gap.
fn take_out(
    places: &mut IndexMap<Value, usize>,
    slots: &mut Vec<Option<(Value, Value)>>,
    key: &Value,
) -> bool
    requires { IsIndexed places.old.entries slots.old.items }
    ensures indexed { IsIndexed places.new.entries slots.new.items }
    ensures after { filled slots.new.items ≡ remove_entry (value_eq key.now) (filled slots.old.items) }
    ensures found { result ≡ is_some (lookup (value_eq key.now) (filled slots.old.items)) }
{
    match forget_place(places, key) {
        Some(s) => {
            slots[s] = None;
            true
        }
        None => false,
    }
}

/// Forgets the slot of a key, and tells which it was.
fn forget_place(places: &mut IndexMap<Value, usize>, key: &Value) -> Option<usize>
    ensures value { result ≡ lookup (value_eq key.now) places.old.entries }
    ensures places { (q : V) → lookup (value_eq q) places.new.entries ≡ (if value_eq key.now q then None else lookup (value_eq q) places.old.entries) }
    ensures len { length places.new.entries + (if is_some result then 1 else 0) ≡ length places.old.entries }
{
    places.swap_remove(key)
}

/// Closes the gaps where more than half of the slots are gaps, and more than a few.
fn tidy(places: &mut IndexMap<Value, usize>, slots: &mut Vec<Option<(Value, Value)>>)
    requires { IsIndexed places.old.entries slots.old.items }
    ensures indexed { IsIndexed places.new.entries slots.new.items }
    ensures kept { filled slots.new.items ≡ filled slots.old.items }
{
    if slots.len() / 2 > places.len() + 8 {
        close_gaps(places, slots);
    }
}

/// Closes the gaps.
fn close_gaps(places: &mut IndexMap<Value, usize>, slots: &mut Vec<Option<(Value, Value)>>)
    requires { IsIndexed places.old.entries slots.old.items }
    ensures indexed { IsIndexed places.new.entries slots.new.items }
    ensures kept { filled slots.new.items ≡ filled slots.old.items }
{
    keep_filled(slots);
    number_all(places, slots);
}

/// Leaves the gaps out.
fn keep_filled(slots: &mut Vec<Option<(Value, Value)>>)
    ensures { slots.new.items ≡ filter is_some slots.old.items }
{
    slots.retain(
        |slot: &Option<(Value, Value)>| -> bool
            ensures { result ≡ is_some slot.now }
        { slot.is_some() },
    );
}

/// Notes the slot of each key anew.
fn number_all(places: &mut IndexMap<Value, usize>, slots: &[Option<(Value, Value)>])
    requires { IsNumbered 0 places.old.entries slots.now }
    ensures { IsIndexed places.new.entries slots.now }
{
    for s in 0..slots.len() {
        number_slot(places, slots, s);
    }
}

/// Notes the slot of the key that stands there.
fn number_slot(places: &mut IndexMap<Value, usize>, slots: &[Option<(Value, Value)>], s: usize)
    requires within { s < length slots.now }
    requires before { IsNumbered s places.old.entries slots.now }
    ensures { IsNumbered (s + 1) places.new.entries slots.now }
{
    if let Some((key, _)) = &slots[s] {
        set_place(places, key, s);
    }
}

/// Notes another slot of a key that is known.
fn set_place(places: &mut IndexMap<Value, usize>, key: &Value, s: usize)
    requires { IsSome (lookup (value_eq key.now) places.old.entries) }
    ensures places { (q : V) → lookup (value_eq q) places.new.entries ≡ (if value_eq key.now q then Some s else lookup (value_eq q) places.old.entries) }
    ensures len { length places.new.entries ≡ length places.old.entries }
{
    if let Some(place) = places.get_mut(key) {
        *place = s;
    }
}

/// Takes the dead keys out.
fn sweep_all<L: Living>(
    places: &mut IndexMap<Value, usize>,
    slots: &mut Vec<Option<(Value, Value)>>,
    live: &L,
)
    requires { IsIndexed places.old.entries slots.old.items }
    ensures indexed { IsIndexed places.new.entries slots.new.items }
    ensures swept { filled slots.new.items ≡ pairs_there (L.live live.now) (filled slots.old.items) }
{
    for s in 0..slots.len() {
        sweep_slot(places, slots, s, live);
    }
}

/// Takes the key in a slot out where it is dead.
fn sweep_slot<L: Living>(
    places: &mut IndexMap<Value, usize>,
    slots: &mut Vec<Option<(Value, Value)>>,
    s: usize,
    live: &L,
)
    requires within { s < length slots.old.items }
    requires indexed { IsIndexed places.old.entries slots.old.items }
    requires swept { IsSweptTo (L.live live.now) s slots.old.items }
    ensures len { length slots.new.items ≡ length slots.old.items }
    ensures indexed { IsIndexed places.new.entries slots.new.items }
    ensures same { pairs_there (L.live live.now) (filled slots.new.items) ≡ pairs_there (L.live live.now) (filled slots.old.items) }
    ensures swept { IsSweptTo (L.live live.now) (s + 1) slots.new.items }
{
    match dead_key(&slots[s], live) {
        Some(key) => {
            forget_place(places, key);
        }
        None => return,
    }
    slots[s] = None;
}

/// The key in a slot, where it is dead.
fn dead_key<'a, L: Living>(slot: &'a Option<(Value, Value)>, live: &L) -> Option<&'a Value>
    ensures { option_copied result ≡ dead_in (L.live live.now) slot.now }
{
    match slot {
        Some((key, _)) if as_read(key, live).is_none() => Some(key),
        _ => None,
    }
}

//! The pairs of a mapping.
ghost use Rattle.std.specs.Prelude.{◌≡◌, ◌≢◌, ◌+◌, ◌<◌, ◌≤◌, ◌^◌, ◌↔◌, ⊤, [], length, is_some, slice_get, if◌then◌else◌, IfOk, IsSome, OnOk, OnErr};
ghost use Rattle.std.specs.Map.{lookup, remove_entry};
ghost use Rattle.std.specs.Map.Iter.{deref_pair};
ghost use Rattle.std.specs.Option.{option_copied, option_map, option_to_list};
ghost use Rattle.indexmap.specs.IndexMap.{insert_all, insert_entry};
ghost use Rattle.lp_values.specs.Read.{as_read, live_part, value_eq};
ghost use Rattle.lp_cells.specs.Mapping.{HasDistinctKeys, IsFullFor, has_room_for, is_object, objects_in, pairs_dropped, pairs_of, pairs_put, pairs_there, value_at_key};
ghost use Rattle.lp_cells.specs.Refusals.{UnlessFull};
ghost use Rattle.lp_cells.specs.Slots.{filled};
ghost use Rattle.lp_values.specs.Limits.{max_items};

use crate::fault::CellFault;
use crate::slots::Slots;
use lp_values::limits::MAX_ITEMS;
use lp_values::value::{Living, Value, as_read};
use std::alloc::{AllocError, Global};
use std::marker::Model;

/// Pairs of a key and a value, in order of insertion. No two keys are one value; keys are found by hashing.
#[derive(Drop)]
pub struct Pairs {
    slots: Slots,
    // How many of the keys are objects: where none is, no key can be dead.
    objects: usize,
}

impl Model for Pairs {
    ghost use Rattle.std.specs.Prelude.{List};
    ghost use Rattle.lp_values.specs.declared.value.Value.{Value as V};

    ghost Value = { List (V × V) };

    ghost view = { λ t. t.slots };

    ghost use Rattle.std.specs.Prelude.{◌≡◌};
    ghost use Rattle.lp_cells.specs.Mapping.{objects_in};

    ghost invariant = { λ t. t.objects ≡ objects_in t.slots };
}

impl Pairs {
    /// No pairs.
    #[tactic(auto, using(crate::proofs::ObjectLemmas::objects_none))]
    pub fn new(alloc: Global) -> Pairs
        ensures { result ≡ [] }
    {
        Pairs {
            slots: Slots::new(alloc),
            objects: 0,
        }
    }

    /// These pairs, a later equal key winning at the first one's place, where they have at most
    /// [`MAX_ITEMS`] keys. No more than one pair above that is stored before it is refused.
    ///
    /// - `TooLong`: exactly where they have more keys.
    pub fn from_vec(alloc: Global, pairs: Vec<(Value, Value)>) -> Result<Pairs, CellFault>
        ensures { UnlessFull (max_items < length (pairs_of pairs.items)) (λ t. t ≡ pairs_of pairs.items) ⊤ result }
    {
        let mut all = Pairs::new(alloc);
        for (key, v) in pairs {
            all.put(key, v)?;
            if all.len() > MAX_ITEMS {
                return Err(CellFault::TooLong);
            }
        }
        Ok(all)
    }

    /// How many pairs are stored, dead keys included. No key is stored twice.
    pub fn len(&self) -> usize
        ensures value { result ≡ length self.now }
        ensures small { result < 2 ^ 63 }
        ensures unique { HasDistinctKeys self.now }
    {
        self.slots.len()
    }

    /// The slots in order of insertion: the stored pairs, and a gap for some that were dropped. A walk over them
    /// meets each pair in constant time.
    pub fn slots(&self) -> &[Option<(Value, Value)>]
        ensures { filled result.now ≡ self.now }
    {
        self.slots.as_slice()
    }

    /// The stored pair at a place, in order of insertion, from 0. Where pairs were dropped it looks at all slots
    /// before that one: for a walk take [`Pairs::slots`].
    pub fn at(&self, i: usize) -> Option<(&Value, &Value)>
        ensures { option_map deref_pair result ≡ slice_get self.now i }
    {
        self.slots.at(i)
    }

    /// The value at a key, where the key is taken as it stands.
    pub fn find(&self, key: &Value) -> Option<&Value>
        ensures { option_copied result ≡ lookup (value_eq key.now) self.now }
    {
        self.slots.find(key)
    }

    /// The value at a key as read, among the pairs that are there. Takes no memory.
    #[tactic(auto, using(crate::proofs::MappingLemmas::find_part))]
    pub fn find_read<L: Living>(&self, key: &Value, live: &L) -> Option<&Value>
        ensures { option_copied result ≡ value_at_key (L.live live.now) self.now key.now }
    {
        match as_read(key, live) {
            Some(key) => self.find(key),
            None => self.find(&Value::Int(0)),
        }
    }

    /// Puts a value at a key: at its place where the key is stored, else last.
    pub fn put(&mut self, key: Value, v: Value) -> Result<(), AllocError>
        ensures ok { OnOk result (self.new ≡ insert_entry value_eq self.old key v) }
        ensures err { OnErr result (self.new ≡ self.old) }
    {
        let counts = is_object(&key);
        // No more keys are objects than pairs are stored, so that the sum below fits.
        let _stored = self.slots.len();
        let is_new = self.slots.put(key, v)?;
        if is_new && counts {
            self.objects += 1;
        }
        Ok(())
    }

    /// Drops a key, taken as it stands, and tells whether it was stored. Takes no memory.
    pub fn remove(&mut self, key: &Value) -> bool
        ensures after { self.new ≡ remove_entry (value_eq key.now) self.old }
        ensures found { result ≡ is_some (lookup (value_eq key.now) self.old) }
    {
        let was_stored = self.slots.remove(key);
        if was_stored && is_object(key) {
            self.objects -= 1;
        }
        was_stored
    }

    /// How many pairs are there, as read. Takes no memory. In constant time where no key is an object.
    pub fn count_there<L: Living>(&self, live: &L) -> usize
        ensures value { result ≡ length (pairs_there (L.live live.now) self.now) }
        ensures within { result ≤ length self.now }
        ensures small { result < 2 ^ 63 }
    {
        if self.objects == 0 {
            return self.len();
        }
        self.count_each_there(live)
    }

    /// How many pairs are there, as read, from a look at each.
    #[tactic(auto, using(crate::proofs::MappingLemmas::length_there))]
    fn count_each_there<L: Living>(&self, live: &L) -> usize
        ensures value { result ≡ length (pairs_there (L.live live.now) self.now) }
        ensures within { result ≤ length self.now }
        ensures small { result < 2 ^ 63 }
    {
        // No more pairs are there than are stored, and their number is small.
        let _stored = self.len();
        count_in(self.slots(), live)
    }

    /// Drops a key as read, and tells whether it was there. Takes no memory.
    #[tactic(auto, using(crate::proofs::MappingLemmas::find_part))]
    pub fn remove_read<L: Living>(&mut self, key: &Value, live: &L) -> bool
        ensures after { self.new ≡ pairs_dropped (L.live live.now) self.old key.now }
        ensures found { result ≡ is_some (value_at_key (L.live live.now) self.old key.now) }
    {
        match as_read(key, live) {
            Some(key) => self.remove(key),
            None => self.remove(&Value::Int(0)),
        }
    }

    /// Whether a put needs no sweep: the key is there, or there is room for one more pair.
    fn has_room_for<L: Living>(&self, key: &Value, live: &L) -> bool
        ensures { result ≡ has_room_for (L.live live.now) self.now key.now }
    {
        self.find_read(key, live).is_some() || self.len() < MAX_ITEMS
    }

    /// Puts a value at a key as read. A full mapping gives up its dead pairs for a new key.
    #[tactic(auto, using(crate::proofs::SlotLemmas::read_lives))]
    pub fn put_read<L: Living>(&mut self, key: Value, v: Value, live: &L) -> Result<(), CellFault>
        ensures { UnlessFull (IsFullFor (L.live live.now) self.old key) (λ _. self.new ≡ pairs_put (L.live live.now) self.old key v) (self.new ≡ self.old) result }
    {
        if self.has_room_for(&key, live) {
            return Ok(self.put(key.into_read(live), v)?);
        }
        if self.count_there(live) >= MAX_ITEMS {
            return Err(CellFault::TooLong);
        }
        Ok(self.put_swept(key.into_read(live), v, live)?)
    }

    /// Puts a value at a key that is no dead object, and drops the dead pairs.
    #[tactic(auto, using(crate::proofs::SlotLemmas::there_inserted))]
    fn put_swept<L: Living>(&mut self, key: Value, v: Value, live: &L) -> Result<(), AllocError>
        requires { IsSome (live_part (L.live live.now) key) }
        ensures ok { OnOk result (self.new ≡ insert_entry value_eq (pairs_there (L.live live.now) self.old) key v) }
        ensures err { OnErr result (self.new ≡ self.old) }
    {
        self.put(key, v)?;
        self.sweep(live);
        Ok(())
    }

    /// Drops the dead pairs.
    fn sweep<L: Living>(&mut self, live: &L)
        ensures { self.new ≡ pairs_there (L.live live.now) self.old }
    {
        self.slots.sweep(live);
        self.objects = count_objects(self.slots.as_slice());
    }

    /// These pairs, and then those of `from` that are there, a later equal key winning at the first one's place.
    #[tactic(auto, using(crate::proofs::SlotLemmas::inserted_filled))]
    pub fn with_there<L: Living>(self, from: &Pairs, live: &L) -> Result<Pairs, AllocError>
        ensures { IfOk result (λ t. t ≡ insert_all value_eq self (pairs_there (L.live live.now) from.now)) }
    {
        let slots = from.slots();
        let mut all = self;
        for slot in slots {
            all.put_slot(slot, live)?;
        }
        Ok(all)
    }

    /// Puts the pair in a slot of another mapping, where it is there.
    fn put_slot<L: Living>(
        &mut self,
        slot: &Option<(Value, Value)>,
        live: &L,
    ) -> Result<(), AllocError>
        ensures { OnOk result (self.new ≡ insert_all value_eq self.old (pairs_there (L.live live.now) (option_to_list slot.now))) }
    {
        if let Some((key, v)) = slot {
            if as_read(key, live).is_some() {
                self.put(key.copy()?, v.copy()?)?;
            }
        }
        Ok(())
    }
}

/// Whether a value is a reference to an object.
fn is_object(v: &Value) -> bool
    ensures { result ≡ is_object v.now }
{
    matches!(v, Value::Obj(_))
}

/// How many keys are objects, from a look at each.
#[tactic(auto, using(crate::proofs::ObjectLemmas::objects_none, crate::proofs::SlotLemmas::objects_filled))]
fn count_objects(slots: &[Option<(Value, Value)>]) -> usize
    ensures { result ≡ objects_in (filled slots.now) }
{
    let mut count = 0;
    for slot in slots {
        if has_object(slot) {
            count += 1;
        }
    }
    count
}

/// Whether an object is the key in a slot.
#[tactic(auto, unfolding(crate::specs::Mapping::objects_in))]
fn has_object(slot: &Option<(Value, Value)>) -> bool
    ensures { objects_in (option_to_list slot.now) ≡ (if result then 1 else 0) }
{
    match slot {
        Some((key, _)) => is_object(key),
        None => false,
    }
}

/// How many pairs in slots are there, as read.
#[tactic(auto, using(crate::proofs::SlotLemmas::there_filled))]
fn count_in<L: Living>(slots: &[Option<(Value, Value)>], live: &L) -> usize
    ensures { result ≡ length (pairs_there (L.live live.now) (filled slots.now)) }
{
    let mut count = 0;
    for slot in slots {
        if is_there(slot, live) {
            count += 1;
        }
    }
    count
}

/// Whether the pair in a slot is there, as read.
fn is_there<L: Living>(slot: &Option<(Value, Value)>, live: &L) -> bool
    ensures { length (pairs_there (L.live live.now) (option_to_list slot.now)) ≡ (if result then 1 else 0) }
{
    match slot {
        Some((key, _)) => as_read(key, live).is_some(),
        None => false,
    }
}

//! The cells of a world.
ghost use Rattle.std.specs.Prelude.{◌≡◌, ◌<◌, ◌↔◌, IsTrue, [], ◌∷◌, ◌++◌, length, All, Some, None, Ok, Err, IsSome, IfErr, IfOk, IfSome, OnOk, OnErr, MatchResult, is_some, slice_get, slice_set, unwrap_or};
ghost use Rattle.std.specs.Map.Iter.{deref_pair};
ghost use Rattle.std.specs.Option.{option_copied, option_map};
ghost use Rattle.lp_cells.specs.Cells.{AreThere, IsClosed, IsPairThere, IsSlotThere, IsThere, KeepsThere, as_pairs, content_at, content_set, item_at, item_set, items_at, items_of, kind_of, pairs_at, size_read, stored_pairs, with_cell};
ghost use Rattle.lp_cells.specs.Mapping.{HasDistinctKeys, IsFullFor, pairs_dropped, pairs_of, pairs_put, value_at_key};
ghost use Rattle.lp_cells.specs.Refusals.{UnlessFull};
ghost use Rattle.lp_cells.specs.Slots.{filled};
ghost use Rattle.lp_values.specs.Limits.{max_items};

use crate::content::{Content, Items, Kind};
use crate::fault::CellFault;
use crate::pairs::Pairs;
use lp_values::id::CellId;
use lp_values::limits::MAX_ITEMS;
use lp_values::value::{Living, Value};
use std::alloc::Global;
use std::marker::Model;

/// The arrays and mappings. The n-th that was made, from 0, has the serial n.
#[derive(Drop)]
pub struct Cells {
    alloc: Global,
    slots: Vec<Option<Content>>,
}

impl Model for Cells {
    ghost use Rattle.std.specs.Prelude.{List, Option};
    ghost use Rattle.lp_cells.specs.declared.content.Content.{Content};

    ghost Value = { List (Option Content) };

    ghost view = { λ c. c.slots.items };
}

impl Cells {
    /// No cells. Takes no memory.
    pub fn new(alloc: Global) -> Cells
        ensures { result ≡ [] }
    {
        Cells {
            alloc,
            slots: Vec::new(alloc),
        }
    }

    /// A new cell.
    fn new_cell(&mut self, content: Content) -> Result<CellId, CellFault>
        ensures made { IfOk result (λ c. c.0 ≡ length self.old) }
        ensures ok { OnOk result (self.new ≡ with_cell self.old content) }
        ensures err { IfErr result (λ e. (e ≡ CellFault.NoMemory) × (self.new ≡ self.old)) }
        ensures stay { KeepsThere self.old self.new }
        ensures closed { IsClosed self.old → AreThere self.old content → IsClosed self.new }
    {
        let serial = self.slots.len() as u64;
        self.slots.push(Some(content))?;
        Ok(CellId(serial))
    }

    /// A new array. `TooLong` comes exactly above 10000 items.
    pub fn new_array(&mut self, items: Vec<Value>) -> Result<CellId, CellFault>
        ensures made { UnlessFull (max_items < length items.items) (λ c. (c.0 ≡ length self.old) × (self.new ≡ with_cell self.old (Content.Array items.items))) (self.new ≡ self.old) result }
        ensures stay { KeepsThere self.old self.new }
        ensures closed { IsClosed self.old → All (IsThere self.old) items.items → IsClosed self.new }
    {
        if items.len() > MAX_ITEMS {
            return Err(CellFault::TooLong);
        }
        self.new_cell(Content::Array(Items::from_vec(items)))
    }

    /// A new mapping of these pairs. `TooLong` comes exactly above 10000 pairs.
    pub fn new_mapping(&mut self, pairs: Pairs) -> Result<CellId, CellFault>
        ensures made { UnlessFull (max_items < length pairs) (λ c. (c.0 ≡ length self.old) × (self.new ≡ with_cell self.old (Content.Mapping pairs))) (self.new ≡ self.old) result }
        ensures stay { KeepsThere self.old self.new }
        ensures closed { IsClosed self.old → All (IsPairThere self.old) pairs → IsClosed self.new }
    {
        if pairs.len() > MAX_ITEMS {
            return Err(CellFault::TooLong);
        }
        self.new_cell(Content::Mapping(pairs))
    }

    /// A new mapping. A later equal key wins, at the first one's place. Keys are taken as they stand.
    /// `TooLong` comes exactly above 10000 pairs with different keys.
    pub fn new_map(&mut self, pairs: Vec<(Value, Value)>) -> Result<CellId, CellFault>
        ensures made { UnlessFull (max_items < length (pairs_of pairs.items)) (λ c. (c.0 ≡ length self.old) × (self.new ≡ with_cell self.old (Content.Mapping (pairs_of pairs.items)))) (self.new ≡ self.old) result }
        ensures stay { KeepsThere self.old self.new }
        ensures closed { IsClosed self.old → All (IsPairThere self.old) pairs.items → IsClosed self.new }
    {
        let pairs = match Pairs::from_vec(self.alloc, pairs) {
            Ok(pairs) => pairs,
            Err(fault) => return Err(fault),
        };
        Ok(self.new_cell(Content::Mapping(pairs))?)
    }

    /// New cells, whose serials follow those that are there, in their order. A place may be empty; each
    /// content is taken as it stands. Gives the serial of the first one; of none, that of the cell that is
    /// made next, and then it takes no memory. After an error nothing has changed.
    pub fn add_all(&mut self, slots: Vec<Option<Content>>) -> Result<CellId, CellFault>
        ensures made { IfOk result (λ c. c.0 ≡ length self.old) }
        ensures ok { OnOk result (self.new ≡ self.old ++ slots.items) }
        ensures err { IfErr result (λ e. (e ≡ CellFault.NoMemory) × (self.new ≡ self.old)) }
        ensures stay { KeepsThere self.old self.new }
    {
        let first = self.slots.len() as u64;
        let mut slots = slots;
        self.slots.append(&mut slots)?;
        Ok(CellId(first))
    }

    /// Whether the array or mapping that a value names is there. Takes no memory.
    pub fn is_there(&self, v: &Value) -> bool
        ensures { IsTrue result ↔ IsThere self.now v.now }
    {
        match v {
            Value::Arr(c) => self.kind(*c) == Kind::Array,
            Value::Map(c) => self.kind(*c) == Kind::Mapping,
            _ => true,
        }
    }

    /// What kind of cell has a serial.
    fn kind(&self, id: CellId) -> Kind
        ensures { result ≡ kind_of (content_at self.now id) }
    {
        if self.slots.len() <= id.0 as usize {
            return Kind::Nothing;
        }
        match &self.slots[id.0 as usize] {
            Some(Content::Array(_)) => Kind::Array,
            Some(Content::Mapping(_)) => Kind::Mapping,
            None => Kind::Nothing,
        }
    }

    /// The items of an array. Takes no memory.
    pub fn items(&self, id: CellId) -> &[Value]
        requires { IsSome (items_at self.now id) }
        ensures value { items_at self.now id ≡ Some result.now }
        ensures there { IsClosed self.now → All (IsThere self.now) result.now }
    {
        self.array_items(id)
    }

    /// The items of an array.
    fn array_items(&self, id: CellId) -> &[Value]
        requires { IsSome (items_at self.now id) }
        ensures value { items_at self.now id ≡ Some result.now }
    {
        match &self.slots[id.0 as usize] {
            Some(Content::Array(items)) => items.as_slice(),
            _ => unreachable!(),
        }
    }

    /// The pairs of a mapping, no key of which is stored twice. Takes no memory.
    pub fn pairs(&self, id: CellId) -> &Pairs
        requires { IsSome (pairs_at self.now id) }
        ensures value { pairs_at self.now id ≡ Some result.now }
        ensures unique { HasDistinctKeys result.now }
        ensures there { IsClosed self.now → All (IsPairThere self.now) result.now }
    {
        let pairs = self.mapping_pairs(id);
        // The map's length comes with what it says of its keys.
        let _stored = pairs.len();
        pairs
    }

    /// The slots of a mapping in order of insertion: its pairs, and a gap for some that were dropped. A walk over
    /// them meets each pair in constant time. Takes no memory.
    pub fn slots(&self, id: CellId) -> &[Option<(Value, Value)>]
        requires { IsSome (pairs_at self.now id) }
        ensures value { pairs_at self.now id ≡ Some (filled result.now) }
        ensures there { IsClosed self.now → All (IsSlotThere self.now) result.now }
    {
        self.pairs(id).slots()
    }

    /// The pairs of a mapping.
    fn mapping_pairs(&self, id: CellId) -> &Pairs
        requires { IsSome (pairs_at self.now id) }
        ensures value { pairs_at self.now id ≡ Some result.now }
    {
        match &self.slots[id.0 as usize] {
            Some(Content::Mapping(pairs)) => pairs,
            _ => unreachable!(),
        }
    }

    /// The item at a place of an array, from 0. Takes no memory.
    pub fn get(&self, id: CellId, i: u64) -> Result<&Value, CellFault>
        requires { IsSome (items_at self.now id) }
        ensures value { MatchResult result (λ v. item_at self.now id i ≡ Some v.now) (λ e. (e ≡ CellFault.BadIndex) × (item_at self.now id i ≡ None)) }
        ensures there { IsClosed self.now → IfOk result (λ v. IsThere self.now v.now) }
    {
        match self.items(id).get(i as usize) {
            Some(v) => Ok(v),
            None => Err(CellFault::BadIndex),
        }
    }

    /// Writes the item at a place of an array, from 0. Takes no memory.
    pub fn set(&mut self, id: CellId, i: u64, v: Value) -> Result<(), CellFault>
        requires { IsSome (items_at self.old id) }
        ensures ok { OnOk result (self.new ≡ item_set self.old id i v) }
        ensures cases { MatchResult result (λ _. IsSome (item_at self.old id i)) (λ e. (e ≡ CellFault.BadIndex) × (item_at self.old id i ≡ None)) }
        ensures err { OnErr result (self.new ≡ self.old) }
        ensures stay { KeepsThere self.old self.new }
        ensures closed { IsClosed self.old → IsThere self.old v → IsClosed self.new }
    {
        self.write_item(id, i, v)
    }

    /// Writes the item at a place of an array.
    fn write_item(&mut self, id: CellId, i: u64, v: Value) -> Result<(), CellFault>
        requires { IsSome (items_at self.old id) }
        ensures ok { OnOk result (self.new ≡ item_set self.old id i v) }
        ensures cases { MatchResult result (λ _. IsSome (item_at self.old id i)) (λ e. (e ≡ CellFault.BadIndex) × (item_at self.old id i ≡ None)) }
        ensures err { OnErr result (self.new ≡ self.old) }
    {
        match &mut self.slots[id.0 as usize] {
            Some(Content::Array(items)) => {
                let i = i as usize;
                if items.as_slice().len() <= i {
                    return Err(CellFault::BadIndex);
                }
                items.write(i, v);
                Ok(())
            }
            _ => unreachable!(),
        }
    }

    /// The value at a key of a mapping, as read, or none. Takes no memory.
    pub fn map_get<L: Living>(&self, id: CellId, k: &Value, live: &L) -> Option<&Value>
        requires { IsSome (pairs_at self.now id) }
        ensures value { option_copied result ≡ value_at_key (L.live live.now) (stored_pairs self.now id) k.now }
        ensures there { IsClosed self.now → IfSome result (λ v. IsThere self.now v.now) }
    {
        self.pairs(id).find_read(k, live)
    }

    /// Writes the value at a key of a mapping. A key that is there keeps its place, a new one goes last.
    /// `TooLong` comes exactly for a new key where 10000 pairs are there.
    pub fn map_put<L: Living>(
        &mut self,
        id: CellId,
        k: Value,
        v: Value,
        live: &L,
    ) -> Result<(), CellFault>
        requires { IsSome (pairs_at self.old id) }
        ensures put { UnlessFull (IsFullFor (L.live live.now) (stored_pairs self.old id) k) (λ _. self.new ≡ content_set self.old id (Content.Mapping (pairs_put (L.live live.now) (stored_pairs self.old id) k v))) (self.new ≡ self.old) result }
        ensures stay { KeepsThere self.old self.new }
        ensures closed { IsClosed self.old → IsThere self.old k → IsThere self.old v → IsClosed self.new }
    {
        put_in_slot(&mut self.slots[id.0 as usize], k, v, live)
    }

    /// Drops a key of a mapping, and tells whether it was there. Takes no memory.
    pub fn map_drop<L: Living>(&mut self, id: CellId, k: &Value, live: &L) -> bool
        requires { IsSome (pairs_at self.old id) }
        ensures after { self.new ≡ content_set self.old id (Content.Mapping (pairs_dropped (L.live live.now) (stored_pairs self.old id) k.now)) }
        ensures found { result ≡ is_some (value_at_key (L.live live.now) (stored_pairs self.old id) k.now) }
        ensures stay { KeepsThere self.old self.new }
        ensures closed { IsClosed self.old → IsClosed self.new }
    {
        self.drop_key(id, k, live)
    }

    /// Drops a key of a mapping.
    fn drop_key<L: Living>(&mut self, id: CellId, k: &Value, live: &L) -> bool
        requires { IsSome (pairs_at self.old id) }
        ensures after { self.new ≡ content_set self.old id (Content.Mapping (pairs_dropped (L.live live.now) (stored_pairs self.old id) k.now)) }
        ensures found { result ≡ is_some (value_at_key (L.live live.now) (stored_pairs self.old id) k.now) }
    {
        match &mut self.slots[id.0 as usize] {
            Some(Content::Mapping(pairs)) => pairs.remove_read(k, live),
            _ => unreachable!(),
        }
    }

    /// How many items an array has, or how many pairs are there in a mapping. Takes no memory.
    /// In constant time for an array and for a mapping without objects among its keys.
    pub fn len<L: Living>(&self, id: CellId, live: &L) -> u64
        requires { IsSome (content_at self.now id) }
        ensures { option_map (size_read (L.live live.now)) (content_at self.now id) ≡ Some result }
    {
        match &self.slots[id.0 as usize] {
            Some(Content::Array(items)) => items.as_slice().len() as u64,
            Some(Content::Mapping(pairs)) => pairs.count_there(live) as u64,
            None => unreachable!(),
        }
    }

    /// The stored pair at a place of a mapping, in order of insertion, from 0, whether its key is live or not.
    /// Where pairs were dropped it looks at all slots before that one. Takes no memory.
    pub fn pair(&self, id: CellId, i: u64) -> Option<(&Value, &Value)>
        requires { IsSome (pairs_at self.now id) }
        ensures value { option_map deref_pair result ≡ slice_get (stored_pairs self.now id) i }
        ensures there { IsClosed self.now → IfSome result (λ p. IsThere self.now p.0.now × IsThere self.now p.1.now) }
    {
        self.pairs(id).at(i as usize)
    }
}

/// Writes the value at a key of the mapping in a slot.
fn put_in_slot<L: Living>(
    slot: &mut Option<Content>,
    k: Value,
    v: Value,
    live: &L,
) -> Result<(), CellFault>
    requires { IsSome (as_pairs slot.old) }
    ensures { UnlessFull (IsFullFor (L.live live.now) (unwrap_or (as_pairs slot.old) []) k) (λ _. slot.new ≡ Some (Content.Mapping (pairs_put (L.live live.now) (unwrap_or (as_pairs slot.old) []) k v))) (slot.new ≡ slot.old) result }
{
    match slot {
        Some(Content::Mapping(pairs)) => pairs.put_read(k, v, live),
        _ => unreachable!(),
    }
}

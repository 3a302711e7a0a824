//! A table of links, by both ends.
ghost use Rattle.std.specs.Prelude.{◌≡◌, ◌∷◌, ◌++◌, IfOk, List, None, OnErr, OnOk, Some, [], cond, filter, is_some, nat_eq, not, true, ℕ};
ghost use Rattle.std.specs.Ordering.{nat_cmp};
ghost use Rattle.std.specs.BTreeMap.{get};
ghost use Rattle.lp_places.specs.Places.{Lying, environment, inventory, is_inside, is_object, moved, next_at, places_without, without_item};
ghost use Rattle.lp_places.specs.Table.{IsTable, all_but, before_at, before_in, behind_in, is_among, is_number, items_in, left_for, second, with_behind};

use lp_values::id::ObjId;
use std::alloc::{AllocError, Global};
use std::collections::BTreeMap;

/// Links from objects to objects, one from each at most, found by either end.
#[derive(Drop)]
pub struct Links {
    alloc: Global,
    forward: BTreeMap<u64, ObjId>,
    backward: BTreeMap<u64, Vec<ObjId>>,
    behind: BTreeMap<u64, Option<ObjId>>,
}

// Which object is behind one, by what there may be of that.
fn behind_in(entry: Option<Option<ObjId>>) -> Option<ObjId>
    ensures { result ≡ behind_in entry }
{
    match entry {
        Some(behind) => behind,
        None => None,
    }
}

// Which object is behind another one.
fn behind_of(behinds: &BTreeMap<u64, Option<ObjId>>, o: ObjId) -> Option<ObjId>
    ensures { result ≡ behind_in (get nat_cmp behinds.now o.0) }
{
    behind_in(behinds.get(&o.0).copied())
}

// The object before another one in a list.
fn before_in(items: &[ObjId], item: ObjId) -> Option<ObjId>
    ensures { result ≡ before_in None item items.now }
{
    let mut last: Option<ObjId> = None;
    for o in items {
        if *o == item {
            return last;
        }
        last = Some(*o);
    }
    None
}

// The object before another one in the list of a place, if there is that place.
fn before_at(
    backward: &BTreeMap<u64, Vec<ObjId>>,
    place: Option<ObjId>,
    item: ObjId,
) -> Option<ObjId>
    ensures { result ≡ before_at backward.now place item }
{
    match place {
        Some(place) => match backward.get(&place.0) {
            Some(items) => before_in(items.as_slice(), item),
            None => None,
        },
        None => None,
    }
}

// Another object is behind the one that there may be, where it has an entry.
fn set_behind(
    behinds: &mut BTreeMap<u64, Option<ObjId>>,
    before: Option<ObjId>,
    behind: Option<ObjId>,
)
    ensures { (n : ℕ) → get nat_cmp behinds.new n ≡ cond (is_number before n) (with_behind behind (get nat_cmp behinds.old n)) (get nat_cmp behinds.old n) }
{
    if let Some(before) = before {
        if let Some(entry) = behinds.get_mut(&before.0) {
            *entry = behind;
        }
    }
}

// Makes an entry for what is behind an object, if it has none.
fn open_behind(behinds: &mut BTreeMap<u64, Option<ObjId>>, item: ObjId) -> Result<(), AllocError>
    ensures there { OnOk result (is_some (get nat_cmp behinds.new item.0) ≡ true) }
    ensures same { (n : ℕ) → behind_in (get nat_cmp behinds.new n) ≡ behind_in (get nat_cmp behinds.old n) }
    ensures kept { (n : ℕ) → is_some (get nat_cmp behinds.old n) ≡ true → is_some (get nat_cmp behinds.new n) ≡ true }
{
    if !behinds.contains_key(&item.0) {
        behinds.insert(item.0, None)?;
    }
    Ok(())
}

// Takes an object out of some.
fn leave_out(items: &mut Vec<ObjId>, item: ObjId)
    ensures { items.new.items ≡ all_but item items.old.items }
{
    items.retain(
        |x: &ObjId| -> bool
            ensures { result ≡ not (is_object x.now item) }
        { *x != item },
    );
}

// Puts an object behind others, unless it is a certain one.
fn push_other(all: &mut Vec<ObjId>, o: ObjId, item: ObjId) -> Result<(), AllocError>
    ensures { OnOk result (all.new.items ≡ all.old.items ++ all_but item (o ∷ [])) }
{
    if o != item {
        all.push(o)?;
    }
    Ok(())
}

// An object first, and behind it the others of some.
fn with_first(alloc: Global, item: ObjId, items: &[ObjId]) -> Result<Vec<ObjId>, AllocError>
    ensures { IfOk result (λ v. v.items ≡ item ∷ all_but item items.now) }
{
    let mut all = Vec::with_capacity(alloc, items.len())?;
    all.push(item)?;
    for o in items {
        push_other(&mut all, *o, item)?;
    }
    Ok(all)
}

// The object behind the first.
fn second(items: &[ObjId]) -> Option<ObjId>
    ensures { result ≡ second items.now }
{
    match items {
        [_, behind, ..] => Some(*behind),
        _ => None,
    }
}

// Makes a list for a place, if it has none.
fn open(
    alloc: Global,
    backward: &mut BTreeMap<u64, Vec<ObjId>>,
    place: ObjId,
) -> Result<(), AllocError>
    ensures there { OnOk result (is_some (get nat_cmp backward.new place.0) ≡ true) }
    ensures same { (n : ℕ) → items_in (get nat_cmp backward.new n) ≡ items_in (get nat_cmp backward.old n) }
{
    if !backward.contains_key(&place.0) {
        backward.insert(place.0, Vec::new(alloc))?;
    }
    Ok(())
}

// Gives a place its list.
fn set_items(backward: &mut BTreeMap<u64, Vec<ObjId>>, place: ObjId, items: Vec<ObjId>)
    ensures { is_some (get nat_cmp backward.old place.0) ≡ true → (n : ℕ) → items_in (get nat_cmp backward.new n) ≡ cond (nat_eq place.0 n) items.items (items_in (get nat_cmp backward.old n)) }
{
    if let Some(slot) = backward.get_mut(&place.0) {
        *slot = items;
    }
}

// Takes an object out of the list of a place, if there is that place.
fn leave_place(backward: &mut BTreeMap<u64, Vec<ObjId>>, place: Option<ObjId>, item: ObjId)
    ensures { (n : ℕ) → items_in (get nat_cmp backward.new n) ≡ cond (is_number place n) (all_but item (items_in (get nat_cmp backward.old n))) (items_in (get nat_cmp backward.old n)) }
{
    if let Some(place) = place {
        if let Some(items) = backward.get_mut(&place.0) {
            leave_out(items, item);
        }
    }
}

// The place that an object leaves, where it goes to another one.
fn left_for(was: Option<ObjId>, place: ObjId) -> Option<ObjId>
    ensures { result ≡ left_for was place }
{
    match was {
        Some(before) if before != place => Some(before),
        _ => None,
    }
}

// Takes out the links from these objects.
fn cut_all(forward: &mut BTreeMap<u64, ObjId>, objects: &[ObjId])
    ensures { (n : ℕ) → get nat_cmp forward.new n ≡ cond (is_among n objects.now) None (get nat_cmp forward.old n) }
{
    for o in objects {
        forward.remove(&o.0);
    }
}

// Takes out what is behind these objects.
fn cut_behinds(behinds: &mut BTreeMap<u64, Option<ObjId>>, objects: &[ObjId])
    ensures { (n : ℕ) → get nat_cmp behinds.new n ≡ cond (is_among n objects.now) None (get nat_cmp behinds.old n) }
{
    for o in objects {
        behinds.remove(&o.0);
    }
}

// Takes out the links from the objects of a list, if there is that list, and what is behind them.
fn cut_listed(
    forward: &mut BTreeMap<u64, ObjId>,
    behinds: &mut BTreeMap<u64, Option<ObjId>>,
    items: Option<Vec<ObjId>>,
)
    ensures forward { (n : ℕ) → get nat_cmp forward.new n ≡ cond (is_among n (items_in items)) None (get nat_cmp forward.old n) }
    ensures behind { (n : ℕ) → get nat_cmp behinds.new n ≡ cond (is_among n (items_in items)) None (get nat_cmp behinds.old n) }
{
    if let Some(items) = items {
        cut_all(forward, items.as_slice());
        cut_behinds(behinds, items.as_slice());
    }
}

impl Links {
    /// No links. Takes no memory.
    pub fn new(alloc: Global) -> Links
        ensures { IsTable result [] }
    {
        Links {
            alloc,
            forward: BTreeMap::new(alloc),
            backward: BTreeMap::new(alloc),
            behind: BTreeMap::new(alloc),
        }
    }

    /// Where the link from an object goes. Takes no memory.
    pub fn target(&self, o: ObjId) -> Option<ObjId>
        ensures { (links : List Lying) → IsTable self.now links → result ≡ environment links o }
    {
        self.forward.get(&o.0).copied()
    }

    /// The object behind another one in the list of where its link goes. Takes no memory, and time as a
    /// look-up.
    pub fn next(&self, o: ObjId) -> Option<ObjId>
        ensures { (links : List Lying) → IsTable self.now links → result ≡ next_at links o }
    {
        behind_of(&self.behind, o)
    }

    /// From where links go to an object, the latest first. Takes no memory.
    pub fn sources(&self, o: ObjId) -> &[ObjId]
        ensures is { (links : List Lying) → IsTable self.now links → result.now ≡ inventory links o }
        ensures items { result.now ≡ items_in (get nat_cmp self.now.backward o.0) }
    {
        match self.backward.get(&o.0) {
            Some(items) => items.as_slice(),
            None => &[],
        }
    }

    /// Links an object to another one, as the latest there, in place of its link so far.
    pub fn join(&mut self, item: ObjId, place: ObjId) -> Result<(), AllocError>
        ensures ok { OnOk result ((links : List Lying) → IsTable self.old links → IsTable self.new (moved links item place)) }
        ensures err { OnErr result ((links : List Lying) → IsTable self.old links → IsTable self.new links) }
    {
        let items = with_first(self.alloc, item, self.sources(place))?;
        open(self.alloc, &mut self.backward, place)?;
        open_behind(&mut self.behind, item)?;
        let was = self.forward.insert(item.0, place)?;
        let mended = behind_of(&self.behind, item);
        set_behind(
            &mut self.behind,
            before_at(&self.backward, was, item),
            mended,
        );
        set_behind(&mut self.behind, Some(item), second(items.as_slice()));
        set_items(&mut self.backward, place, items);
        leave_place(&mut self.backward, left_for(was, place), item);
        Ok(())
    }

    /// Takes out the link from an object. Takes no memory.
    pub fn leave(&mut self, item: ObjId)
        ensures { (links : List Lying) → IsTable self.old links → IsTable self.new (without_item links item) }
    {
        let was = self.forward.remove(&item.0);
        let mended = behind_in(self.behind.remove(&item.0));
        set_behind(
            &mut self.behind,
            before_at(&self.backward, was, item),
            mended,
        );
        leave_place(&mut self.backward, was, item);
    }

    /// Takes out the link from an object and those to it. Takes no memory.
    pub fn take_out(&mut self, o: ObjId)
        ensures { (links : List Lying) → IsTable self.old links → IsTable self.new (places_without links o) }
    {
        self.leave(o);
        let items = self.backward.remove(&o.0);
        cut_listed(&mut self.forward, &mut self.behind, items);
    }

    /// Whether an object is another one, or links lead from it to that one. Takes no memory.
    pub fn is_inside(&self, o: ObjId, outer: ObjId) -> bool
        ensures { (links : List Lying) → IsTable self.now links → result ≡ is_inside links o outer }
    {
        let mut at = o;
        let mut left = self.forward.len();
        while left > 0 {
            if at == outer {
                return true;
            }
            match self.target(at) {
                Some(place) => at = place,
                None => return false,
            }
            left -= 1;
        }
        at == outer
    }
}

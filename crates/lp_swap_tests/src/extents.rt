use lp_swapfile::*;
use std::alloc::{AllocError, Global};
use std::test::Fail;

// Gives an extent back, if it is taken.
fn give_back(room: &mut Extents, e: Extent) -> bool {
    if !room.is_taken(e.place, e.len) {
        return false;
    }
    room.give_back(e.place, e.len);
    true
}

// The places of a file one by one, with those that are taken, and the end.
#[derive(Drop)]
struct Plain {
    taken: [bool; 64],
    end: u64,
}

impl Plain {
    fn is_free(&self, place: u64, len: u64) -> bool {
        for (i, taken) in self.taken.iter().enumerate() {
            if *taken && i as u64 >= place && (i as u64) - place < len {
                return false;
            }
        }
        true
    }

    // The first place from which so many places before the end are free, else the end.
    fn place_for(&self, len: u64) -> u64 {
        for place in 0..64u64 {
            if place < self.end && len <= self.end - place && self.is_free(place, len) {
                return place;
            }
        }
        self.end
    }

    fn set(&mut self, e: Extent, taken: bool) {
        for (i, place) in self.taken.iter_mut().enumerate() {
            if i as u64 >= e.place && (i as u64) - e.place < e.len {
                *place = taken;
            }
        }
    }

    fn take(&mut self, len: u64) -> u64 {
        let place = self.place_for(len);
        self.set(Extent { place, len }, true);
        self.end = self.end.max(place.saturating_add(len));
        place
    }
}

fn extent(place: u64, len: u64) -> Extent {
    Extent { place, len }
}

// Takes out of the list the one with this number, or else the last.
fn pick(left: &mut Vec<Extent>, number: u64) -> Option<Extent> {
    let last = left.len().checked_sub(1)?;
    let i = (number as usize).min(last);
    Some(left.remove(i))
}

// The order with this number of the five extents that were taken.
fn order(alloc: Global, number: u64) -> Result<Vec<Extent>, AllocError> {
    let mut left = vec![in alloc;
        extent(0, 3),
        extent(3, 1),
        extent(4, 4),
        extent(8, 2),
        extent(10, 5),
    ]?;
    let mut picked = Vec::new(alloc);
    let mut rest = number;
    for _ in 0..5u8 {
        if let Some(e) = pick(&mut left, rest % 5) {
            picked.push(e)?;
        }
        rest /= 5;
    }
    Ok(picked)
}

// Takes room here and there, and answers whether it is the same.
fn take_same(room: &mut Extents, plain: &mut Plain, lens: &[u64]) -> Result<bool, ExtentFault> {
    for len in lens {
        if room.take(*len)? != plain.take(*len) {
            return Ok(false);
        }
    }
    Ok(true)
}

// Gives extents back here and there, if they are taken.
fn give_all(room: &mut Extents, plain: &mut Plain, es: &[Extent]) -> bool {
    for e in es {
        if !give_back(room, *e) {
            return false;
        }
        plain.set(*e, false);
    }
    true
}

// Whether room is the same here and there, when the first `back` of an order are given back and then is taken what fits.
fn is_same(
    room: &mut Extents,
    plain: &mut Plain,
    es: &[Extent],
    len: u64,
) -> Result<bool, ExtentFault> {
    Ok(
        take_same(room, plain, &[3, 1, 4, 2, 5])?
            && give_all(room, plain, es)
            && take_same(room, plain, &[len, 1, 2, len])?,
    )
}

fn try_order(alloc: Global, number: u64, back: usize, len: u64) -> Result<bool, Fail> {
    let es = order(alloc, number)?;
    let back = back.min(es.len());
    let mut plain = Plain {
        taken: [false; 64],
        end: 0,
    };
    let mut room = Extents::new(alloc);
    let found = is_same(&mut room, &mut plain, &es[..back], len);
    drop(room);
    Ok(found?)
}

// Whether it is so for each number of extents that are given back, and each of some lengths.
fn try_orders(alloc: Global, number: u64) -> Result<bool, Fail> {
    for i in 0..30u64 {
        if !try_order(alloc, number, (i / 6) as usize + 1, i % 6 + 1)? {
            return Ok(false);
        }
    }
    Ok(true)
}

// Orders by numbers in the base of five: among them each of the 120 orders of five extents.
#[test]
fn room_is_given_back_in_every_order(rt: HostRuntime) -> Result<(), Fail> {
    for number in 0..625u64 {
        assert!(rt; try_orders(rt.alloc(), number)?, "{number}");
    }
    Ok(())
}

// Whether room of a length is taken at this place, or there is none.
fn takes(room: &mut Extents, len: u64, place: Option<u64>) -> bool {
    match (room.take(len), place) {
        (Ok(found), Some(place)) => found == place,
        (Err(ExtentFault::Full), None) => true,
        _ => false,
    }
}

fn takes_all(room: &mut Extents, rows: &[(u64, Option<u64>)]) -> bool {
    for (len, place) in rows {
        if !takes(room, *len, *place) {
            return false;
        }
    }
    true
}

// Lengths, and the places that they take in turn: the end is at 2^40.
static UP_TO_THE_END: [(u64, Option<u64>); 6] = [
    (1099511627777, None),
    (1099511627775, Some(0)),
    (2, None),
    (1, Some(1099511627775)),
    (1, None),
    (0, Some(1099511627776)),
];

// The same once the first of them is given back.
static UP_TO_THE_LAST: [(u64, Option<u64>); 2] = [(1099511627776, None), (1099511627775, Some(0))];

fn ends(room: &mut Extents) -> bool {
    let found = takes_all(room, &UP_TO_THE_END)
        && give_back(room, extent(0, 1099511627775))
        && takes_all(room, &UP_TO_THE_LAST);
    room.law();
    found
}

// Numbers that look drawn at random, by a linear congruence.
fn next(seed: u64) -> u64 {
    seed.wrapping_mul(6364136223846793005)
        .wrapping_add(1442695040888963407)
}

// Takes out of the list the one that a number chooses.
fn choose(held: &mut Vec<Extent>, number: u64) -> Option<Extent> {
    let last = held.len().checked_sub(1)?;
    let i = (number % (last as u64).saturating_add(1)) as usize;
    Some(held.swap_remove(i.min(last)))
}

// Room, and the extents of it that are taken.
#[derive(Drop)]
struct Holding {
    room: Extents,
    held: Vec<Extent>,
    seed: u64,
}

// An extent of a random length is taken.
fn take_one(all: &mut Holding) -> Result<(), Fail> {
    all.seed = next(all.seed);
    let len = (all.seed >> 40) % 1000;
    let place = all.room.take(len)?;
    all.held.push(extent(place, len))?;
    Ok(())
}

// A random one is given back, if there is one and it was taken. Where it ends.
fn give_one(all: &mut Holding) -> Option<u64> {
    all.seed = next(all.seed);
    let e = choose(&mut all.held, all.seed >> 20)?;
    if give_back(&mut all.room, e) {
        Some(e.place.saturating_add(e.len))
    } else {
        None
    }
}

fn take_many(all: &mut Holding) -> Result<(), Fail> {
    for _ in 0..1000000u64 {
        take_one(all)?;
    }
    Ok(())
}

fn change_many(all: &mut Holding) -> Result<bool, Fail> {
    for _ in 0..1000000u64 {
        if give_one(all).is_none() {
            return Ok(false);
        }
        take_one(all)?;
    }
    Ok(true)
}

// Where the last of them ended, if all were given back.
fn give_many(all: &mut Holding) -> Option<u64> {
    let mut most = 0u64;
    for _ in 0..1000000u64 {
        most = most.max(give_one(all)?);
    }
    Some(most)
}

// Whether all that is free is one hole from the beginning on.
fn is_one_hole(all: &mut Holding) -> bool {
    match give_many(all) {
        Some(most) => all.held.is_empty() && takes(&mut all.room, most, Some(0)),
        None => false,
    }
}

fn changes(all: &mut Holding) -> Result<bool, Fail> {
    take_many(all)?;
    Ok(change_many(all)? && is_one_hole(all))
}

fn hold_in_random_order(alloc: Global) -> Result<bool, Fail> {
    let mut all = Holding {
        room: Extents::new(alloc),
        held: Vec::new(alloc),
        seed: 7,
    };
    let found = changes(&mut all);
    drop(all);
    found
}

fn end_there(alloc: Global) -> bool {
    let mut room = Extents::new(alloc);
    let found = ends(&mut room);
    drop(room);
    found
}

// A million extents are taken; then a million times one is given back at random and another is
// taken; then all are given back at random, and what is free is one hole from the beginning on.
#[test]
fn a_million_extents_in_random_order(rt: HostRuntime) -> Result<(), Fail> {
    assert!(rt; end_there(rt.alloc()));
    assert!(rt; hold_in_random_order(rt.alloc())?);
    Ok(())
}

//! Moves, destructions, and chains of shadows.
use lp_places::fault::{PlaceFault, ShadowNo};
use lp_places::places::Places;
use lp_values::id::ObjId;
use std::alloc::Global;
use std::test::Fail;

/// What is done with objects, which are told by their serials, and what has to come of it.
#[derive(Clone, Copy)]
enum Step {
    /// An item is moved into another one.
    Puts(u64, u64),
    /// It is not, since it would contain itself.
    Contains(u64, u64),
    /// It is not, since it is a shadow.
    Stays(u64, u64),
    /// What an object holds.
    Holds(u64, &'static [ObjId]),
    /// Where an object is.
    In(u64, Option<ObjId>),
    /// An object is destructed.
    Ends(u64),
    /// An object may shadow another one, and begins to.
    Shadows(u64, u64),
    /// It may not, for this reason.
    MayNot(u64, u64, ShadowNo),
    /// It may.
    May(u64, u64),
    /// It stops.
    Stops(u64),
    /// The shadows of an object, the outermost first.
    Chain(u64, &'static [ObjId]),
    /// Whom an object shadows.
    Shadowing(u64, Option<ObjId>),
}

/// An item that is moved to where it is stands first there.
static INVENTORIES: [Step; 12] = [
    Step::Puts(1, 9),
    Step::Puts(2, 9),
    Step::Puts(3, 9),
    Step::Puts(4, 8),
    Step::Holds(9, &[ObjId(3), ObjId(2), ObjId(1)]),
    Step::In(2, Some(ObjId(9))),
    Step::In(9, None),
    Step::Puts(1, 9),
    Step::Holds(9, &[ObjId(1), ObjId(3), ObjId(2)]),
    Step::Puts(3, 8),
    Step::Holds(9, &[ObjId(1), ObjId(2)]),
    Step::Holds(8, &[ObjId(3), ObjId(4)]),
];

/// Out of its way, an object can take in what it was in.
static WOULD_CONTAIN_ITSELF: [Step; 11] = [
    Step::Puts(2, 1),
    Step::Puts(3, 2),
    Step::Contains(1, 1),
    Step::Contains(1, 2),
    Step::Contains(1, 3),
    Step::Holds(1, &[ObjId(2)]),
    Step::Holds(3, &[]),
    Step::Puts(3, 4),
    Step::Puts(1, 3),
    Step::In(1, Some(ObjId(3))),
    Step::Contains(4, 2),
];

static DESTRUCTIONS: [Step; 12] = [
    Step::Puts(1, 9),
    Step::Puts(2, 9),
    Step::Puts(3, 2),
    Step::Puts(4, 2),
    Step::Puts(5, 4),
    Step::Ends(2),
    Step::Holds(9, &[ObjId(1)]),
    Step::Holds(2, &[]),
    Step::In(2, None),
    Step::In(3, None),
    Step::In(4, None),
    Step::In(5, Some(ObjId(4))),
];

/// One in the middle dies, and one stops shadowing: the chain closes up. The victim dies: nobody shadows any more.
static TEN_SHADOWS: [Step; 20] = [
    Step::Shadows(1, 0),
    Step::Shadows(2, 0),
    Step::Shadows(3, 0),
    Step::Shadows(4, 0),
    Step::Shadows(5, 0),
    Step::Shadows(6, 0),
    Step::Shadows(7, 0),
    Step::Shadows(8, 0),
    Step::Shadows(9, 0),
    Step::Shadows(10, 0),
    Step::Chain(
        0,
        &[
            ObjId(10),
            ObjId(9),
            ObjId(8),
            ObjId(7),
            ObjId(6),
            ObjId(5),
            ObjId(4),
            ObjId(3),
            ObjId(2),
            ObjId(1),
        ],
    ),
    Step::Shadowing(4, Some(ObjId(0))),
    Step::Ends(5),
    Step::Stops(9),
    Step::Chain(
        0,
        &[
            ObjId(10),
            ObjId(8),
            ObjId(7),
            ObjId(6),
            ObjId(4),
            ObjId(3),
            ObjId(2),
            ObjId(1),
        ],
    ),
    Step::Shadowing(5, None),
    Step::Ends(0),
    Step::Chain(0, &[]),
    Step::Shadowing(4, None),
    Step::May(4, 3),
];

/// Each of the five reasons, where the ones after it are there too.
static REFUSALS: [Step; 9] = [
    Step::Shadows(1, 0),
    Step::MayNot(1, 1, ShadowNo::Same),
    Step::MayNot(1, 2, ShadowNo::AlreadyShadowing),
    Step::Puts(0, 5),
    Step::MayNot(0, 1, ShadowNo::IsShadowed),
    Step::Puts(3, 5),
    Step::MayNot(3, 1, ShadowNo::HasEnvironment),
    Step::MayNot(4, 1, ShadowNo::VictimShadows),
    Step::May(4, 0),
];

/// Others may be moved into a shadow.
static STAYS_WHERE_IT_IS: [Step; 7] = [
    Step::Shadows(1, 0),
    Step::Stays(1, 2),
    Step::Stays(1, 1),
    Step::Puts(2, 1),
    Step::In(2, Some(ObjId(1))),
    Step::Stops(1),
    Step::Puts(1, 3),
];

fn puts(places: &mut Places, item: u64, dest: u64) -> bool {
    places.put(ObjId(item), ObjId(dest)).is_ok()
}

fn refuses(places: &mut Places, item: u64, dest: u64, fault: &PlaceFault) -> bool {
    match places.put(ObjId(item), ObjId(dest)) {
        Ok(()) => false,
        Err(e) => e == *fault,
    }
}

fn shadows(places: &mut Places, by: u64, ob: u64) -> bool {
    places.may_shadow(ObjId(by), ObjId(ob)).is_ok() && places.shadow(ObjId(by), ObjId(ob)).is_ok()
}

/// Whether that comes of a step.
fn holds(places: &mut Places, step: Step) -> bool {
    match step {
        Step::Puts(item, dest) => puts(places, item, dest),
        Step::Contains(item, dest) => {
            refuses(places, item, dest, &PlaceFault::WouldContainItself)
        }
        Step::Stays(item, dest) => refuses(places, item, dest, &PlaceFault::IsShadow),
        Step::Holds(ob, items) => places.inventory(ObjId(ob)) == items,
        Step::In(ob, found) => places.environment(ObjId(ob)) == found,
        Step::Ends(ob) => {
            places.take_out(ObjId(ob));
            true
        }
        Step::Shadows(by, ob) => shadows(places, by, ob),
        Step::MayNot(by, ob, why) => places.may_shadow(ObjId(by), ObjId(ob)) == Err(why),
        Step::May(by, ob) => places.may_shadow(ObjId(by), ObjId(ob)).is_ok(),
        Step::Stops(by) => {
            places.unshadow(ObjId(by));
            true
        }
        Step::Chain(ob, all) => places.shadows(ObjId(ob)) == all,
        Step::Shadowing(by, found) => places.shadowing(ObjId(by)) == found,
    }
}

/// The place of the first step that does not hold, if one does not.
fn first_wrong_on(places: &mut Places, steps: &[Step]) -> Option<usize> {
    for i in 0..steps.len() {
        if !holds(places, steps[i]) {
            return Some(i);
        }
    }
    None
}

fn first_wrong(alloc: Global, steps: &[Step]) -> Option<usize> {
    let mut places = Places::new(alloc);
    let found = first_wrong_on(&mut places, steps);
    drop(places);
    found
}

/// Whether objects are put in a chain, each in the next.
fn are_chained(places: &mut Places, count: u64) -> bool {
    for i in 0..count {
        if !puts(places, i, i + 1) {
            return false;
        }
    }
    true
}

/// Whether the outermost of a deep chain is not put into the innermost, but into another one.
fn is_chain(alloc: Global) -> bool {
    let mut places = Places::new(alloc);
    let found = are_chained(&mut places, 100000)
        && refuses(&mut places, 100000, 0, &PlaceFault::WouldContainItself)
        && puts(&mut places, 100000, 100001);
    drop(places);
    found
}

#[test]
fn places_and_shadows(rt: HostRuntime) -> Result<(), Fail> {
    let alloc = rt.alloc();
    assert_eq!(rt; first_wrong(alloc, &INVENTORIES), None);
    assert_eq!(rt; first_wrong(alloc, &WOULD_CONTAIN_ITSELF), None);
    assert_eq!(rt; first_wrong(alloc, &DESTRUCTIONS), None);
    assert_eq!(rt; first_wrong(alloc, &TEN_SHADOWS), None);
    assert_eq!(rt; first_wrong(alloc, &REFUSALS), None);
    assert_eq!(rt; first_wrong(alloc, &STAYS_WHERE_IT_IS), None);
    Ok(())
}

#[test]
fn a_deep_chain(rt: HostRuntime) -> Result<(), Fail> {
    assert!(rt; is_chain(rt.alloc()));
    Ok(())
}

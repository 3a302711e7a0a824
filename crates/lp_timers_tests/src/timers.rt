//! Heart beats and watches.
use lp_timers::fault::TimerFault;
use lp_timers::kind::Watch;
use lp_timers::timers::Timers;
use lp_values::id::ObjId;
use lp_values::text::Text;
use std::alloc::{AllocError, Global};
use std::test::Fail;

/// What is done, and what has to come of it. Objects are told by their serials.
#[derive(Clone, Copy)]
enum Step {
    /// An object's heart is switched on or off at a moment, and whether that changes anything.
    Switches(u64, bool, u32, bool),
    /// An object's heart beats at a moment next.
    BeatsNext(u64, u64),
    /// These hearts are due at a moment, in this order.
    Beats(u64, &'static [ObjId]),
    /// Whether an object's heart is due by a moment.
    BeatsBy(u64, u64, bool),
    /// An object is watched for a moment.
    Watches(u64, Watch, u64),
    /// An object is watched no more.
    Unwatches(u64, Watch),
    /// These watches are due at a moment, in this order.
    Dues(Watch, u64, &'static [ObjId]),
    /// Whether an object is watched.
    IsWatched(u64, Watch, bool),
    /// An object gets a call-out of the function `f` at a moment.
    Calls(u64, u64),
    /// The moment at which the earliest of an object's call-outs of `f` is due.
    Leaves(u64, Option<u64>),
    /// Whether a call-out of an object that ends is given back.
    Drops(u64, bool),
    /// So many call-outs wait.
    Counts(usize),
}

const A: ObjId = ObjId(1);

const B: ObjId = ObjId(2);

const C: ObjId = ObjId(3);

/// The hearts of three objects are switched on at 0 in this order: 1, 3, 2.
static BEATS_IN_ORDER: [Step; 5] = [
    Step::Switches(1, true, 0, true),
    Step::Switches(3, true, 0, true),
    Step::Switches(2, true, 0, true),
    Step::Beats(1, &[]),
    Step::Beats(2, &[A, C, B]),
];

static OFF_AND_ON_IN_ONE_TICK: [Step; 11] = [
    Step::Switches(1, true, 0, true),
    Step::Switches(3, true, 0, true),
    Step::Switches(2, true, 0, true),
    Step::Switches(3, false, 2, true),
    Step::Switches(3, false, 2, false),
    Step::Switches(3, true, 2, true),
    Step::Switches(3, true, 9, false),
    Step::Beats(3, &[A, B]),
    Step::BeatsBy(3, 3, false),
    Step::BeatsBy(3, 4, true),
    Step::Beats(4, &[A, B, C]),
];

/// The object 7 has no heart that beats.
static A_NEXT_BEAT_KEEPS_THE_ORDER: [Step; 7] = [
    Step::Switches(1, true, 0, true),
    Step::Switches(3, true, 0, true),
    Step::Switches(2, true, 0, true),
    Step::BeatsNext(1, 5),
    Step::BeatsNext(7, 1),
    Step::Beats(4, &[C, B]),
    Step::Beats(5, &[A, C, B]),
];

/// Three objects wait for `reset`, and the first for `clean_up` too.
static WATCHES_OF_TWO_KINDS: [Step; 9] = [
    Step::Watches(1, Watch::Reset, 1800),
    Step::Watches(1, Watch::CleanUp, 3600),
    Step::Watches(2, Watch::Reset, 1800),
    Step::Watches(3, Watch::Reset, 1700),
    Step::Dues(Watch::Reset, 1799, &[C]),
    Step::Dues(Watch::Reset, 1800, &[A, B, C]),
    Step::Dues(Watch::CleanUp, 3599, &[]),
    Step::Dues(Watch::CleanUp, 3600, &[A]),
    Step::Beats(9000, &[]),
];

/// It keeps its place and takes the new moment; behind an end it gets a place of its own.
static A_WATCH_PUT_AGAIN: [Step; 12] = [
    Step::Watches(1, Watch::Reset, 1800),
    Step::Watches(1, Watch::CleanUp, 3600),
    Step::Watches(2, Watch::Reset, 1800),
    Step::Watches(3, Watch::Reset, 1700),
    Step::Watches(1, Watch::Reset, 2000),
    Step::Dues(Watch::Reset, 1999, &[B, C]),
    Step::Dues(Watch::Reset, 2000, &[A, B, C]),
    Step::Unwatches(1, Watch::Reset),
    Step::IsWatched(1, Watch::Reset, false),
    Step::IsWatched(1, Watch::CleanUp, true),
    Step::Watches(1, Watch::Reset, 1800),
    Step::Dues(Watch::Reset, 9000, &[B, C, A]),
];

/// Two objects have a call-out, both watches, and a heart that beats. Call-outs are given back one by one; the heart and the watches
/// end when none is left.
static ALL_OF_AN_OBJECT_ENDS: [Step; 16] = [
    Step::Calls(1, 5),
    Step::Watches(1, Watch::Reset, 1800),
    Step::Watches(1, Watch::CleanUp, 3600),
    Step::Switches(1, true, 0, true),
    Step::Calls(2, 5),
    Step::Watches(2, Watch::Reset, 1800),
    Step::Watches(2, Watch::CleanUp, 3600),
    Step::Switches(2, true, 0, true),
    Step::Drops(1, true),
    Step::Beats(2, &[A, B]),
    Step::Drops(1, false),
    Step::Beats(2, &[B]),
    Step::Dues(Watch::Reset, 1800, &[B]),
    Step::Dues(Watch::CleanUp, 3600, &[B]),
    Step::Leaves(2, Some(5)),
    Step::Counts(1),
];

fn call(alloc: Global, timers: &mut Timers, ob: u64, at: u64) -> Result<bool, TimerFault> {
    let fun = Text::from_str(alloc, "f")?;
    timers.call_out(ObjId(ob), &fun, at, Vec::new(alloc))?;
    Ok(true)
}

fn leaves(alloc: Global, timers: &Timers, ob: u64) -> Result<Option<u64>, TimerFault> {
    let fun = Text::from_str(alloc, "f")?;
    Ok(timers.left(ObjId(ob), &fun))
}

/// Whether that comes of a step.
fn holds(alloc: Global, timers: &mut Timers, step: Step) -> Result<bool, TimerFault> {
    match step {
        Step::Switches(ob, on, at, changes) => Ok(
            timers.beat(ObjId(ob), on, at as u64)? == changes,
        ),
        Step::BeatsNext(ob, at) => {
            timers.next_beat(ObjId(ob), at);
            Ok(true)
        }
        Step::Beats(at, obs) => Ok(timers.beats(at)?.as_slice() == obs),
        Step::BeatsBy(ob, at, is_due) => Ok(timers.beats_by(ObjId(ob), at) == is_due),
        Step::Watches(ob, kind, at) => {
            timers.watch(ObjId(ob), kind, at)?;
            Ok(true)
        }
        Step::Unwatches(ob, kind) => {
            timers.unwatch(ObjId(ob), kind);
            Ok(true)
        }
        Step::Dues(kind, at, obs) => Ok(timers.watched(kind, at)?.as_slice() == obs),
        Step::IsWatched(ob, kind, is) => Ok(timers.is_watched(ObjId(ob), kind) == is),
        Step::Calls(ob, at) => call(alloc, timers, ob, at),
        Step::Leaves(ob, at) => Ok(leaves(alloc, timers, ob)? == at),
        Step::Drops(ob, is_some) => Ok(timers.drop_of(ObjId(ob)).is_some() == is_some),
        Step::Counts(count) => Ok(timers.count() == count),
    }
}

/// How many steps hold before the first that does not, if one does not.
fn first_wrong_on(
    alloc: Global,
    timers: &mut Timers,
    steps: &[Step],
) -> Result<Option<usize>, TimerFault> {
    for i in 0..steps.len() {
        if !holds(alloc, timers, steps[i])? {
            return Ok(Some(i));
        }
    }
    Ok(None)
}

fn first_wrong(alloc: Global, steps: &[Step]) -> Result<Option<usize>, TimerFault> {
    let mut timers = Timers::new(alloc);
    first_wrong_on(alloc, &mut timers, steps)
}

#[test]
fn timers_hold(rt: HostRuntime) -> Result<(), Fail> {
    let alloc = rt.alloc();
    assert_eq!(rt; first_wrong(alloc, &BEATS_IN_ORDER)?, None);
    assert_eq!(rt; first_wrong(alloc, &OFF_AND_ON_IN_ONE_TICK)?, None);
    assert_eq!(rt; first_wrong(alloc, &A_NEXT_BEAT_KEEPS_THE_ORDER)?, None);
    assert_eq!(rt; first_wrong(alloc, &WATCHES_OF_TWO_KINDS)?, None);
    assert_eq!(rt; first_wrong(alloc, &A_WATCH_PUT_AGAIN)?, None);
    assert_eq!(rt; first_wrong(alloc, &ALL_OF_AN_OBJECT_ENDS)?, None);
    Ok(())
}

/// So many hearts are switched on at 0; each second one is switched off at 1.
fn switch_many(timers: &mut Timers, count: u64) -> Result<(), AllocError> {
    for ob in 0..count {
        timers.beat(ObjId(ob), true, 0)?;
        if ob % 2 == 0 {
            timers.beat(ObjId(ob), false, 1)?;
        }
    }
    Ok(())
}

/// Whether so many hearts are due, and this is the last.
fn is_last_due(
    timers: &Timers,
    moment: u64,
    count: usize,
    last: Option<ObjId>,
) -> Result<bool, AllocError> {
    let due = timers.beats(moment)?;
    Ok(due.len() == count && due.as_slice().last().copied() == last)
}

fn ten_thousand_beat(alloc: Global) -> Result<bool, AllocError> {
    let mut timers = Timers::new(alloc);
    switch_many(&mut timers, 10000)?;
    Ok(is_last_due(&timers, 2, 5000, Some(ObjId(9999)))? && is_last_due(&timers, 1, 0, None)?)
}

#[test]
fn ten_thousand_hearts(rt: HostRuntime) -> Result<(), Fail> {
    assert!(rt; ten_thousand_beat(rt.alloc())?);
    Ok(())
}

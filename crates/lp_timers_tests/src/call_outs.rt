//! Call-outs that wait.
use lp_timers::call_out::CallOut;
use lp_timers::call_outs::{CallOuts, MAX_CALL_OUTS};
use lp_timers::fault::TimerFault;
use lp_values::id::ObjId;
use lp_values::text::Text;
use lp_values::value::Value;
use std::alloc::Global;
use std::test::Fail;

/// What is done, and what has to come of it. Objects are told by their serials, and call-outs by their numbers.
#[derive(Clone, Copy)]
enum Step {
    /// An object gets a call-out of a function at a moment, with an integer: its number.
    Makes(u64, &'static str, u64, i64, u64),
    /// An object gets no call-out of the function `f`, since as many wait as may.
    Refuses(u64),
    /// These are due at a moment.
    Dues(u64, &'static [u64]),
    /// So many are due at a moment.
    CountsDue(u64, usize),
    /// The moment at which the earliest of an object's function is due.
    Leaves(u64, &'static str, Option<u64>),
    /// The earliest of an object's function is taken out: its number, its moment and its integer.
    Removes(u64, &'static str, u64, u64, i64),
    /// An object's function has none to be taken out.
    RemovesNone(u64, &'static str),
    /// Whether that with a number is taken out.
    Takes(u64, bool),
    /// The earliest of an object is taken out: its number.
    Drops(u64, Option<u64>),
    /// So many wait.
    Counts(usize),
}

static DUE_BY_MOMENT_THEN_BY_MAKING: [Step; 8] = [
    Step::Makes(1, "f", 20, 0, 1),
    Step::Makes(2, "f", 10, 0, 2),
    Step::Makes(1, "f", 10, 0, 3),
    Step::Makes(1, "f", u64::MAX, 0, 4),
    Step::Dues(9, &[]),
    Step::Dues(10, &[2, 3]),
    Step::Dues(20, &[2, 3, 1]),
    Step::Dues(u64::MAX, &[2, 3, 1, 4]),
];

static THE_EARLIEST_OF_A_FUNCTION: [Step; 10] = [
    Step::Makes(1, "f", 30, 7, 1),
    Step::Makes(1, "f", 10, 8, 2),
    Step::Makes(2, "f", 5, 9, 3),
    Step::Makes(1, "g", 4, 10, 4),
    Step::Leaves(1, "f", Some(10)),
    Step::Leaves(3, "f", None),
    Step::Removes(1, "f", 2, 10, 8),
    Step::Removes(1, "f", 1, 30, 7),
    Step::RemovesNone(1, "f"),
    Step::Leaves(2, "f", Some(5)),
];

static TAKEN_ONCE: [Step; 10] = [
    Step::Makes(1, "f", 30, 0, 1),
    Step::Makes(1, "g", 10, 0, 2),
    Step::Makes(2, "g", 20, 0, 3),
    Step::Takes(3, true),
    Step::Takes(3, false),
    Step::Drops(1, Some(2)),
    Step::Drops(1, Some(1)),
    Step::Drops(1, None),
    Step::Counts(0),
    Step::Dues(100, &[]),
];

/// Behind as many call-outs as may wait, of which 100 are due at 0.
static FULL: [Step; 4] = [
    Step::Refuses(2),
    Step::CountsDue(0, 100),
    Step::Takes(1, true),
    Step::Makes(2, "f", 0, 0, 100001),
];

/// The number of a new call-out.
fn made(
    alloc: Global,
    timers: &mut CallOuts,
    ob: u64,
    fun: &str,
    at: u64,
    n: i64,
) -> Result<u64, TimerFault> {
    let fun = Text::from_str(alloc, fun)?;
    let args = vec![in alloc; Value::Int(n)]?;
    timers.call_out(ObjId(ob), &fun, at, args)
}

fn refuses(alloc: Global, timers: &mut CallOuts, ob: u64) -> Result<bool, TimerFault> {
    match made(alloc, timers, ob, "f", 0, 0) {
        Ok(_) => Ok(false),
        Err(e) => Ok(e == TimerFault::TooMany),
    }
}

fn leaves(alloc: Global, timers: &CallOuts, ob: u64, fun: &str) -> Result<Option<u64>, TimerFault> {
    let fun = Text::from_str(alloc, fun)?;
    Ok(timers.left(ObjId(ob), &fun))
}

fn removed(
    alloc: Global,
    timers: &mut CallOuts,
    ob: u64,
    fun: &str,
) -> Result<Option<CallOut>, TimerFault> {
    let fun = Text::from_str(alloc, fun)?;
    Ok(timers.remove(ObjId(ob), &fun))
}

/// Whether this is a call-out with an integer.
fn is_call(found: &Option<CallOut>, ob: u64, number: u64, due: u64, n: i64) -> bool {
    match found {
        Some(call) => {
            call.ob.0 == ob
                && call.number == number
                && call.due == due
                && call.args.as_slice() == [Value::Int(n)].as_slice()
        }
        None => false,
    }
}

/// Whether that comes of a step.
fn holds(alloc: Global, timers: &mut CallOuts, step: Step) -> Result<bool, TimerFault> {
    match step {
        Step::Makes(ob, fun, at, n, number) => Ok(made(alloc, timers, ob, fun, at, n)? == number),
        Step::Refuses(ob) => refuses(alloc, timers, ob),
        Step::Dues(at, numbers) => Ok(timers.due(at)?.as_slice() == numbers),
        Step::CountsDue(at, count) => Ok(timers.due(at)?.len() == count),
        Step::Leaves(ob, fun, at) => Ok(leaves(alloc, timers, ob, fun)? == at),
        Step::Removes(ob, fun, number, due, n) => {
            Ok(is_call(&removed(alloc, timers, ob, fun)?, ob, number, due, n))
        }
        Step::RemovesNone(ob, fun) => Ok(removed(alloc, timers, ob, fun)?.is_none()),
        Step::Takes(number, is_there) => Ok(timers.take(number).is_some() == is_there),
        Step::Drops(ob, number) => Ok(timers.drop_of(ObjId(ob)).map(|c| c.number) == number),
        Step::Counts(count) => Ok(timers.count() == count),
    }
}

/// How many steps hold before the first that does not, if one does not.
fn first_wrong_on(
    alloc: Global,
    timers: &mut CallOuts,
    steps: &[Step],
) -> Result<Option<usize>, TimerFault> {
    for i in 0..steps.len() {
        if !holds(alloc, timers, steps[i])? {
            return Ok(Some(i));
        }
    }
    Ok(None)
}

fn first_wrong(alloc: Global, steps: &[Step]) -> Result<Option<usize>, TimerFault> {
    let mut timers = CallOuts::new(alloc);
    first_wrong_on(alloc, &mut timers, steps)
}

/// As many call-outs come as may wait, at moments below 1000 in turn.
fn fill(alloc: Global, timers: &mut CallOuts) -> Result<(), TimerFault> {
    let fun = Text::from_str(alloc, "f")?;
    for at in 0..MAX_CALL_OUTS {
        timers.call_out(ObjId(1), &fun, at as u64 % 1000, Vec::new(alloc))?;
    }
    Ok(())
}

fn first_wrong_when_full(alloc: Global) -> Result<Option<usize>, TimerFault> {
    let mut timers = CallOuts::new(alloc);
    fill(alloc, &mut timers)?;
    first_wrong_on(alloc, &mut timers, &FULL)
}

#[test]
fn call_outs_hold(rt: HostRuntime) -> Result<(), Fail> {
    let alloc = rt.alloc();
    assert_eq!(rt; first_wrong(alloc, &DUE_BY_MOMENT_THEN_BY_MAKING)?, None);
    assert_eq!(rt; first_wrong(alloc, &THE_EARLIEST_OF_A_FUNCTION)?, None);
    assert_eq!(rt; first_wrong(alloc, &TAKEN_ONCE)?, None);
    Ok(())
}

#[test]
fn as_many_as_may_wait(rt: HostRuntime) -> Result<(), Fail> {
    assert_eq!(rt; first_wrong_when_full(rt.alloc())?, None);
    Ok(())
}

//! Actions of living objects.
ghost use Rattle.std.specs.Prelude.{nat_eq};

use lp_actions::actions::Actions;
use lp_actions::reach::Reach;
use lp_actions::sentence::Sentence;
use lp_values::id::ObjId;
use lp_values::text::Text;
use std::alloc::{AllocError, Global};
use std::test::Fail;

/// Only the object with the serial 1 is in reach.
#[derive(Clone, Copy)]
struct One;

impl Reach for One {
    ghost reaches = { λ _ _ giver. nat_eq giver.0 1 };

    fn in_reach(&self, _holder: ObjId, giver: ObjId) -> bool {
        giver.0 == 1
    }
}

/// What is done, and what has to come of it.
#[derive(Clone, Copy)]
enum Step {
    /// The object 7 gets an action of a function of the object 1: the function, the verb, whether it takes words that the verb is
    /// the front of, and the action's number.
    Adds(&'static str, &'static str, bool, u64),
    /// A holder gets one of a giver for the verb `say`: the function, and the number.
    Gets(u64, u64, &'static str, u64),
    /// A word of the object 7 calls for functions with these first letters.
    Calls(&'static str, &'static [char]),
    /// Whether a holder has the action with a number.
    Has(u64, u64, bool),
    /// What is out of reach ends.
    Reaches,
    /// A holder's actions end.
    Ends(u64),
}

static THE_LATEST_FIRST: [Step; 7] = [
    Step::Adds("one", "say", false, 1),
    Step::Adds("two", "say", false, 2),
    Step::Adds("go", "go", false, 3),
    Step::Calls("say", &['t', 'o']),
    Step::Calls("go", &['g']),
    Step::Calls("sa", &[]),
    Step::Calls("sayhi", &[]),
];

static FRONTS: [Step; 6] = [
    Step::Adds("one", "s", true, 1),
    Step::Adds("two", "s", true, 2),
    Step::Adds("all", "", true, 3),
    Step::Calls("say", &['a', 't', 'o']),
    Step::Calls("sa", &['a', 't', 'o']),
    Step::Calls("go", &['a']),
];

static ENDS: [Step; 14] = [
    Step::Adds("one", "say", false, 1),
    Step::Gets(7, 2, "far", 2),
    Step::Gets(8, 1, "other", 3),
    Step::Calls("say", &['f', 'o']),
    Step::Has(7, 2, true),
    Step::Has(8, 2, false),
    Step::Reaches,
    Step::Has(7, 1, true),
    Step::Has(7, 2, false),
    Step::Has(8, 3, true),
    Step::Ends(7),
    Step::Has(7, 1, false),
    Step::Has(8, 3, true),
    Step::Calls("say", &[]),
];

/// The number of a new action.
fn added(
    alloc: Global,
    actions: &mut Actions,
    holder: u64,
    giver: u64,
    fun: &str,
    verb: &str,
    flag: bool,
) -> Result<u64, AllocError> {
    let fun = Text::from_str(alloc, fun)?;
    let verb = Text::from_str(alloc, verb)?;
    actions.add(ObjId(holder), ObjId(giver), &fun, &verb, flag)
}

/// Whether the functions of these sentences have these first letters.
fn are_firsts(found: &[Sentence], letters: &[char]) -> bool {
    if found.len() != letters.len() {
        return false;
    }
    for i in 0..letters.len() {
        if found[i].fun.as_slice().first() != Some(&letters[i]) {
            return false;
        }
    }
    true
}

/// Whether the functions that a word of the object 7 calls for have these first letters.
fn calls(
    alloc: Global,
    actions: &Actions,
    typed: &str,
    letters: &[char],
) -> Result<bool, AllocError> {
    let typed = Text::from_str(alloc, typed)?;
    let found = actions.matching(ObjId(7), typed.as_slice())?;
    Ok(are_firsts(found.as_slice(), letters))
}

/// Whether that comes of a step.
fn holds(alloc: Global, actions: &mut Actions, step: Step) -> Result<bool, AllocError> {
    match step {
        Step::Adds(fun, verb, flag, number) => {
            Ok(added(alloc, actions, 7, 1, fun, verb, flag)? == number)
        }
        Step::Gets(holder, giver, fun, number) => {
            Ok(added(alloc, actions, holder, giver, fun, "say", false)? == number)
        }
        Step::Calls(typed, letters) => calls(alloc, actions, typed, letters),
        Step::Has(holder, number, is_held) => { Ok(actions.held(ObjId(holder), number) == is_held) }
        Step::Reaches => {
            actions.keep_reach(&One);
            Ok(true)
        }
        Step::Ends(holder) => {
            actions.drop_of(ObjId(holder));
            Ok(true)
        }
    }
}

/// How many steps hold before the first that does not, if one does not.
fn first_wrong_on(
    alloc: Global,
    actions: &mut Actions,
    steps: &[Step],
) -> Result<Option<usize>, AllocError> {
    for i in 0..steps.len() {
        if !holds(alloc, actions, steps[i])? {
            return Ok(Some(i));
        }
    }
    Ok(None)
}

fn first_wrong(alloc: Global, steps: &[Step]) -> Result<Option<usize>, AllocError> {
    let mut actions = Actions::new(alloc);
    first_wrong_on(alloc, &mut actions, steps)
}

#[test]
fn actions_hold(rt: HostRuntime) -> Result<(), Fail> {
    let alloc = rt.alloc();
    assert_eq!(rt; first_wrong(alloc, &THE_LATEST_FIRST)?, None);
    assert_eq!(rt; first_wrong(alloc, &FRONTS)?, None);
    assert_eq!(rt; first_wrong(alloc, &ENDS)?, None);
    Ok(())
}

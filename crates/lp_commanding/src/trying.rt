//! The actions of a command, one after another.
ghost use Rattle.std.specs.Prelude.{◌≡◌, ◌≤◌, IfOk, IsTrue, length, take, true};
ghost use Rattle.lp_values.specs.declared.id.ObjId.{ObjId as O};
ghost use Rattle.lp_meaning.specs.MovesAndCommands.{argument_value};
ghost use Rattle.lp_world.specs.Rows.{live_in};
ghost use Rattle.lp_commanding.specs.Trying.{AreTriedAs, IsLeft, IsNext, IsTried, actions_in, question_of};

use crate::job::Question;
use lp_actions::sentence::Sentence;
use lp_values::id::ObjId;
use lp_values::text::Text;
use lp_values::value::{Living, Value};
use lp_world::live::Live;
use std::alloc::AllocError;

/// Whether an action is tried: its holder still holds it, and its giver is live.
fn is_tried(live: &Live, holder: ObjId, x: &Sentence) -> bool
    ensures tried { IsTried result live.now holder x.now }
    ensures giver { result ≡ true → live_in live.now.objects x.now.giver ≡ true }
{
    if !live.objects.is_live(x.giver) {
        return false;
    }
    live.actions.held(holder, x.number)
}

/// How many actions are left without the last ones that are not tried any more.
fn count_left(live: &Live, holder: ObjId, left: &[Sentence]) -> usize
    ensures { IsLeft live.now holder left.now result }
{
    let mut n = left.len();
    while n > 0 {
        if is_tried(live, holder, &left[n - 1]) {
            return n;
        }
        n -= 1;
    }
    0
}

/// Drops the last actions until one is to be tried.
pub(crate) fn skip(live: &Live, holder: ObjId, left: &mut Vec<Sentence>)
    ensures same { AreTriedAs live.now holder left.old.items left.new.items }
    ensures next { IsNext live.now holder left.new.items }
    ensures less { length left.new.items ≤ length left.old.items }
{
    let n = count_left(live, holder, left.as_slice());
    left.truncate(n);
}

/// What the last action asks, if there is one.
pub(crate) fn question_of(left: &[Sentence]) -> Result<Option<Question>, AllocError>
    ensures { IfOk result (λ q. (o : O) → q ≡ question_of (actions_in o left.now)) }
{
    match left.last() {
        Some(x) => Ok(Some(Question::Action(x.giver, x.fun.copy()?))),
        None => Ok(None),
    }
}

/// The argument of a line as a value: 0 where it has none.
pub(crate) fn argument_value(argument: &Option<Text>) -> Result<Value, AllocError>
    ensures { IfOk result (λ v. v ≡ argument_value argument.now) }
{
    match argument {
        Some(text) => Ok(Value::Str(text.copy()?)),
        None => Ok(Value::Int(0)),
    }
}

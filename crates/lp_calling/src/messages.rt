//! `tell_object`, `write` and `printf`.
ghost use Rattle.std.specs.Prelude.{◌≡◌, ◌≤◌, ◌++◌, ◌∷◌, [], All, IfOk, IfSome, MatchResult, List, OnOk, Option, Result, Err, Some, None, ℕ, drop, length, map, true};
ghost use Rattle.std.specs.Option.{option_map};
ghost use Rattle.lp_values.specs.declared.id.ObjId.{ObjId as Oid};
ghost use Rattle.lp_values.specs.declared.value.Value.{Value as V};
ghost use Rattle.lp_cells.specs.Cells.{IsClosed as AreClosed};
ghost use Rattle.lp_cells.specs.Cells.{IsThere, KeepsThere, Store};
ghost use Rattle.lp_format.specs.Answers.{Gives};
ghost use Rattle.lp_format.specs.declared.fault.FormatFault.{FormatFault as FF};
ghost use Rattle.lp_ops.specs.Operands.{operand};
ghost use Rattle.lp_ops.specs.declared.effect.Effect.{Effect as E};
ghost use Rattle.lp_language.specs.Course.{State};
ghost use Rattle.lp_language.specs.Operations.{living};
ghost use Rattle.lp_meaning.specs.ComputingEfuns.{as_text, format, name_in, written};
ghost use Rattle.lp_meaning.specs.EfunArguments.{arg, object_arg, opened_args, text_arg};
ghost use Rattle.lp_world.specs.Closed.{IsClosed};
ghost use Rattle.lp_world.specs.Rows.{live_in};
ghost use Rattle.lp_world.specs.Stands.{IsPart};
ghost use Rattle.lp_world.specs.declared.live.Live.{Live as L};
ghost use Rattle.lp_world.specs.declared.objects.Object.{Object};
ghost use Rattle.lp_efuns.specs.Names.{AreNamed, name_at};
ghost use Rattle.lp_efuns.specs.Subjects.{number_of};
ghost use Rattle.lp_efuns.specs.declared.caller.Turn.{Turn as T};
ghost use Rattle.lp_step.specs.Steps.{IsFit};
ghost use Rattle.lp_calling.specs.Beginning.{IsBegunReady, IsBegunThere, Starts};
ghost use Rattle.lp_calling.specs.Going.{IsAskedThere, IsStepThere, StageGoes};
ghost use Rattle.lp_calling.specs.Targets.{Prints, reader, told_stage};

use crate::ends::{begin_end, end_zero};
use crate::job::{Applied, Begun, CallingFault, Job, Question, Stage, Step};
use crate::laying::above;
use lp_efuns::answer::Answer;
use lp_efuns::arguments::text_shared;
use lp_efuns::caller::Turn;
use lp_efuns::known::KnownObjects;
use lp_efuns::subjects::object_at;
use lp_events::out::Out;
use lp_format::fault::FormatFault;
use lp_format::sprintf::sprintf;
use lp_instr::efun::Efun;
use lp_ops::effect::Effect;
use lp_value_efuns::argument::{argument, rest, text_in};
use lp_value_efuns::format::written;
use lp_values::error::{ErrorKind, RunError};
use lp_values::id::ObjId;
use lp_values::text::Text;
use lp_values::value::{Living, Value};
use lp_world::live::Live;
use lp_world::objects::ObjectTable;
use std::alloc::{AllocError, Global};

// Beginning

/// The stage at which a text goes to the object that the first argument is.
fn tell_stage(args: &[Value], objects: &ObjectTable, text: Text) -> Stage
    ensures { (cells : Store) → result ≡ told_stage (object_arg (map (operand (live_in objects.now) cells) args.now) 0) text }
{
    match object_at(args, 0, objects) {
        Some(o) => Stage::Tell(o, text),
        None => Stage::Zero,
    }
}

/// `tell_object` goes on as a job.
pub(crate) fn begin_tell(live: &Live, stack: &Vec<Value>, low: usize) -> Result<Begun, CallingFault>
    requires low { low ≤ length stack.now.items }
    ensures starts { IfOk result (λ r. (caller : _) → Starts r Efun.TellObject caller live.now low stack.now.items stack.now.items) }
    ensures there { IfOk result (λ r. (cells : Store) → IsBegunThere cells r) }
    ensures ready { IfOk result (λ r. (objects : List (Option Object)) → IsBegunReady objects r) }
{
    let text = text_shared(live.alloc, above(stack, low), 1)?;
    let stage = tell_stage(above(stack, low), &live.objects, text);
    Ok(Begun::Runs(Job {
        efun: Efun::TellObject,
        low,
        stage,
    }))
}

/// The text of an effect that gives one.
fn text_given(effect: Effect) -> Result<Text, AllocError>
    ensures { IfOk result (λ t. effect ≡ E.Gives (V.Str t)) }
{
    match effect {
        Effect::Gives(Value::Str(t)) => Ok(t),
        _ => Err(AllocError),
    }
}

/// What is written of the first argument.
fn written_text(live: &Live, args: &[Value]) -> Result<Text, AllocError>
    requires { AreNamed live.now.names }
    ensures { IfOk result (λ t. (s : State) → living s ≡ live_in live.now.objects → ((o : Oid) → live_in live.now.objects o ≡ true → name_in s.world o ≡ name_at live.now.names o) → t ≡ written s.world (arg (opened_args s args.now) 0)) }
{
    let v = argument(args, 0, &live.objects)?;
    let known = KnownObjects {
        objects: &live.objects,
        names: &live.names,
    };
    let effect = written(live.alloc, &v, &known)?;
    text_given(effect)
}

/// `write` goes on as a job.
pub(crate) fn begin_write(
    live: &Live,
    stack: &Vec<Value>,
    low: usize,
) -> Result<Begun, CallingFault>
    requires named { AreNamed live.now.names }
    requires low { low ≤ length stack.now.items }
    ensures starts { IfOk result (λ r. (caller : _) → Starts r Efun.Write caller live.now low stack.now.items stack.now.items) }
    ensures there { IfOk result (λ r. (cells : Store) → IsBegunThere cells r) }
    ensures ready { IfOk result (λ r. (objects : List (Option Object)) → IsBegunReady objects r) }
{
    let text = written_text(live, above(stack, low))?;
    Ok(Begun::Runs(Job {
        efun: Efun::Write,
        low,
        stage: Stage::Write(text),
    }))
}

/// Why a form makes no text, as an error of `printf`.
fn format_error(alloc: Global, fault: FormatFault) -> Result<RunError, AllocError>
    ensures { IfOk result (λ e. (wanted : Result (List ℕ) FF) → Gives (Err fault) wanted → as_text Efun.Printf wanted ≡ E.Fault e) }
{
    match fault {
        FormatFault::BadFormat { .. } => RunError::plain(alloc, ErrorKind::BadFormat),
        FormatFault::TooFewArgs => RunError::plain(alloc, ErrorKind::TooFewArgs),
        FormatFault::BadArg { n } => RunError::bad_arg(alloc, n, Efun::Printf.name()),
        FormatFault::TooLong => RunError::plain(alloc, ErrorKind::TextTooLong),
        FormatFault::NoMemory => Err(AllocError),
    }
}

/// The text that `printf` writes, or its error.
fn printed(live: &Live, args: &[Value]) -> Result<Result<Text, RunError>, AllocError>
    requires named { AreNamed live.now.names }
    requires closed { AreClosed live.now.cells }
    requires there { All (IsThere live.now.cells) args.now }
    ensures { IfOk result (λ r. (s : State) → IsPart live.now.cells s.world.cells → living s ≡ live_in live.now.objects → ((o : Oid) → live_in live.now.objects o ≡ true → name_in s.world o ≡ name_at live.now.names o) → Prints r (format Efun.Printf s (text_arg (opened_args s args.now) 0) (drop 1 args.now))) }
{
    let form = argument(args, 0, &live.objects)?;
    let known = KnownObjects {
        objects: &live.objects,
        names: &live.names,
    };
    match sprintf(live.alloc, text_in(&form), rest(args), &live.cells, &known) {
        Ok(text) => Ok(Ok(text)),
        Err(fault) => Ok(Err(format_error(live.alloc, fault)?)),
    }
}

/// `printf` goes on as a job, or its form is refused.
pub(crate) fn begin_printf(
    live: &Live,
    stack: &mut Vec<Value>,
    low: usize,
) -> Result<Begun, CallingFault>
    requires named { AreNamed live.now.names }
    requires low { low ≤ length stack.old.items }
    requires fit { IsFit live.now stack.old.items }
    ensures starts { IfOk result (λ r. (caller : _) → Starts r Efun.Printf caller live.now low stack.old.items stack.new.items) }
    ensures fit { OnOk result (IsFit live.now stack.new.items) }
    ensures there { IfOk result (λ r. (cells : Store) → IsBegunThere cells r) }
    ensures ready { IfOk result (λ r. (objects : List (Option Object)) → IsBegunReady objects r) }
{
    match printed(live, above(stack, low))? {
        Ok(text) => Ok(Begun::Runs(Job {
            efun: Efun::Printf,
            low,
            stage: Stage::Write(text),
        })),
        Err(e) => Ok(begin_end(stack, low, Answer::Error(e))),
    }
}

// Going on

/// One more output.
pub(crate) fn put_out(live: &mut Live, out: Out) -> Result<(), AllocError>
    requires closed { IsClosed live.old }
    ensures out { OnOk result (live.new ≡ record live.old { outputs = live.old.outputs ++ out ∷ [] }) }
    ensures same { live.new ≡ record live.old { outputs = live.new.outputs } }
    ensures closed { IsClosed live.new }
    ensures cells { live.new.cells ≡ live.old.cells }
    ensures objects { live.new.objects ≡ live.old.objects }
    ensures names { live.new.names ≡ live.old.names }
{
    live.outputs.push(out)
}

/// There is one more output, and the job ends with 0.
fn tell_out(
    efun: Efun,
    out: Out,
    live: &mut Live,
    stack: &mut Vec<Value>,
    low: usize,
    budget: &mut u64,
) -> Result<Step, AllocError>
    requires fit { IsFit live.old stack.old.items }
    ensures told { IfOk result (λ r. (live.new ≡ record live.old { outputs = live.old.outputs ++ out ∷ [] }) × ((turn : T) → StageGoes r efun Stage.Zero low live.new turn stack.old.items budget.old live.new turn stack.new.items budget.new)) }
    ensures closed { IsClosed live.new }
    ensures fit { OnOk result (IsFit live.new stack.new.items) }
    ensures there { IfOk result (IsStepThere live.new.cells) }
    ensures asked { IfOk result (IsAskedThere live.new.objects) }
    ensures cells { live.new.cells ≡ live.old.cells }
    ensures spends { budget.new ≤ budget.old }
    ensures objects { live.new.objects ≡ live.old.objects }
    ensures names { live.new.names ≡ live.old.names }
{
    put_out(live, out)?;
    Ok(end_zero(efun, live, stack, low, budget))
}

/// `catch_tell` is asked, with the text on top.
pub(crate) fn ask_tell(o: ObjId, text: &Text, stack: &mut Vec<Value>) -> Result<Step, AllocError>
    ensures asks { IfOk result (λ r. (r ≡ Step.Asks (Question.Apply o Applied.CatchTell) 1) × (stack.new.items ≡ stack.old.items ++ V.Str text.now ∷ [])) }
    ensures fit { OnOk result ((l : L) → IsFit l stack.old.items → IsFit l stack.new.items) }
    ensures there { IfOk result (λ r. (cells : Store) → IsStepThere cells r) }
{
    stack.push(Value::Str(text.copy()?))?;
    Ok(Step::Asks(Question::Apply(o, Applied::CatchTell), 1))
}

/// A text goes to a live object: to its connection, and where it has none `catch_tell` is asked.
fn tell_live(
    efun: Efun,
    o: ObjId,
    text: &Text,
    live: &mut Live,
    stack: &mut Vec<Value>,
    low: usize,
    budget: &mut u64,
) -> Result<Step, AllocError>
    requires low { low ≤ length stack.old.items }
    requires fit { IsFit live.old stack.old.items }
    requires live { live_in live.old.objects o ≡ true }
    ensures goes { IfOk result (λ r. (turn : T) → StageGoes r efun (Stage.Tell o text.now) low live.old turn stack.old.items budget.old live.new turn stack.new.items budget.new) }
    ensures closed { IsClosed live.new }
    ensures fit { OnOk result (IsFit live.new stack.new.items) }
    ensures there { IfOk result (IsStepThere live.new.cells) }
    ensures asked { IfOk result (IsAskedThere live.new.objects) }
    ensures cells { live.new.cells ≡ live.old.cells }
    ensures spends { budget.new ≤ budget.old }
    ensures objects { live.new.objects ≡ live.old.objects }
    ensures names { live.new.names ≡ live.old.names }
{
    match live.connections.of(o) {
        Some(number) => {
            let out = Out::Text(number, text.copy()?);
            tell_out(efun, out, live, stack, low, budget)
        }
        None => ask_tell(o, text, stack),
    }
}

/// A text goes to an object. A destructed one gets none.
pub(crate) fn step_tell(
    efun: Efun,
    o: ObjId,
    text: &Text,
    live: &mut Live,
    stack: &mut Vec<Value>,
    low: usize,
    budget: &mut u64,
) -> Result<Step, AllocError>
    requires low { low ≤ length stack.old.items }
    requires fit { IsFit live.old stack.old.items }
    ensures goes { IfOk result (λ r. (turn : T) → StageGoes r efun (Stage.Tell o text.now) low live.old turn stack.old.items budget.old live.new turn stack.new.items budget.new) }
    ensures closed { IsClosed live.new }
    ensures fit { OnOk result (IsFit live.new stack.new.items) }
    ensures there { IfOk result (IsStepThere live.new.cells) }
    ensures asked { IfOk result (IsAskedThere live.new.objects) }
    ensures cells { live.new.cells ≡ live.old.cells }
    ensures spends { budget.new ≤ budget.old }
    ensures objects { live.new.objects ≡ live.old.objects }
    ensures names { live.new.names ≡ live.old.names }
{
    if !live.objects.is_live(o) {
        return Ok(end_zero(efun, live, stack, low, budget));
    }
    tell_live(efun, o, text, live, stack, low, budget)
}

/// Who reads what is written.
pub(crate) fn reader(player: Option<ObjId>, objects: &ObjectTable) -> Option<ObjId>
    ensures { result ≡ reader (live_in objects.now) player }
{
    match player {
        Some(o) => if objects.is_live(o) { Some(o) } else { None },
        None => None,
    }
}

/// A text goes to `this_player()`, and to the log where that is no live object.
pub(crate) fn step_write(
    efun: Efun,
    text: &Text,
    live: &mut Live,
    turn: &Turn,
    stack: &mut Vec<Value>,
    low: usize,
    budget: &mut u64,
) -> Result<Step, AllocError>
    requires low { low ≤ length stack.old.items }
    requires fit { IsFit live.old stack.old.items }
    ensures goes { IfOk result (λ r. StageGoes r efun (Stage.Write text.now) low live.old turn.now stack.old.items budget.old live.new turn.now stack.new.items budget.new) }
    ensures closed { IsClosed live.new }
    ensures fit { OnOk result (IsFit live.new stack.new.items) }
    ensures there { IfOk result (IsStepThere live.new.cells) }
    ensures asked { IfOk result (IsAskedThere live.new.objects) }
    ensures cells { live.new.cells ≡ live.old.cells }
    ensures spends { budget.new ≤ budget.old }
    ensures objects { live.new.objects ≡ live.old.objects }
    ensures names { live.new.names ≡ live.old.names }
{
    match reader(turn.player, &live.objects) {
        Some(o) => step_tell(efun, o, text, live, stack, low, budget),
        None => {
            let out = Out::Log(text.copy()?);
            tell_out(efun, out, live, stack, low, budget)
        }
    }
}

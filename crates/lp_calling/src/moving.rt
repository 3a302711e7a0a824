//! `move_object`: its destination, the move, and the calls of `init` that follow.
ghost use Rattle.std.specs.Prelude.{◌≡◌, ◌<◌, ◌≤◌, IfOk, List, Option, length, map, slice_get, true, ℕ};
ghost use Rattle.std.specs.Str.{chars};
ghost use Rattle.lp_values.specs.declared.value.Value.{Value as V};
ghost use Rattle.lp_cells.specs.Cells.{Store};
ghost use Rattle.lp_meaning.specs.EfunArguments.{arg, value_arg};
ghost use Rattle.lp_moving.specs.Moving.{IsRefused};
ghost use Rattle.lp_ops.specs.Operands.{operand};
ghost use Rattle.lp_places.specs.Places.{MoveNo};
ghost use Rattle.lp_world.specs.Closed.{IsClosed};
ghost use Rattle.lp_world.specs.Rows.{live_in};
ghost use Rattle.lp_world.specs.declared.live.Live.{Live as L};
ghost use Rattle.lp_world.specs.declared.objects.Object.{Object};
ghost use Rattle.lp_efuns.specs.declared.caller.Turn.{Turn as T};
ghost use Rattle.lp_calling.specs.Beginning.{IsBegunReady, IsBegunThere, Starts};
ghost use Rattle.lp_calling.specs.Entering.{Advances, IsPoised};
ghost use Rattle.lp_calling.specs.Going.{IsAskedThere, IsStepThere, StageGoes, StageTakes};
ghost use Rattle.lp_calling.specs.Jobs.{IsStageOn, IsStageReady, move_left, stage_left, unknown_many};
ghost use Rattle.lp_calling.specs.Moves.{IsMoveAsking, IsMoveOn, move_back};
ghost use Rattle.lp_calling.specs.Moving.{ActsAs, IsMovePoised, IsNextMade, IsVisitPoised, IsWhom, Passes, Refuses, TellsMade, move_stage, unnamed_stage};
ghost use Rattle.lp_calling.specs.Targets.{target_of};
ghost use Rattle.lp_calling.specs.declared.target.CallTarget.TheVariants as targets;

use crate::job::{Applied, Begun, CallingFault, Job, Question, Stage, Step};
use crate::laying::above;
use crate::target::{CallTarget, is_clone_name, target_of};
use lp_efuns::arguments::text_at;
use lp_efuns::caller::Turn;
use lp_efuns::names::as_name;
use lp_instr::efun::Efun;
use lp_moving::fault::MoveFault;
use lp_moving::moving::move_into;
use lp_moving::visits::{InitCall, may_init};
use lp_values::error::ErrorKind;
use lp_values::id::ObjId;
use lp_values::text::Text;
use lp_values::value::{Living, Value};
use lp_world::live::Live;
use lp_world::objects::ObjectTable;
use std::alloc::AllocError;

/// The calls of `init` that follow a move, one after another.
#[derive(Drop)]
pub struct Visits {
    /// The item that was moved.
    pub item: ObjId,
    /// Its destination.
    pub dest: ObjId,
    /// The calls, the first one first.
    pub calls: Vec<InitCall>,
    /// How many of them are done.
    pub done: usize,
    /// `this_player()` behind a call that is asked.
    pub back: Option<ObjId>,
}

/// Where a move stands. The values on the stack are the arguments of the efun, the item first.
#[derive(Drop)]
pub enum Moving {
    /// It loads the destination of this name.
    Destination(Text),
    /// It moves an item into a destination.
    Into(ObjId, ObjId),
    /// The item was moved, and the calls of `init` that are left are made.
    Visiting(Visits),
}

// Item and destination

/// An object, where it is live.
fn if_live(o: ObjId, objects: &ObjectTable) -> Option<ObjId>
    ensures { IsWhom (live_in objects.now) (V.Obj o) result }
{
    if objects.is_live(o) {
        return Some(o);
    }
    None
}

/// The live object that a value is.
fn live_object(v: &Value, objects: &ObjectTable) -> Option<ObjId>
    ensures { IsWhom (live_in objects.now) v.now result }
{
    match v {
        Value::Obj(o) => if_live(*o, objects),
        _ => None,
    }
}

/// The live object that the first argument is.
fn item_in(args: &[Value], objects: &ObjectTable) -> Option<ObjId>
    ensures { IsWhom (live_in objects.now) (value_arg args.now 0) result }
{
    match args.get(0) {
        Some(v) => live_object(v, objects),
        None => None,
    }
}

/// What the second argument names as the destination.
fn destination(args: &[Value], objects: &ObjectTable) -> CallTarget
    ensures { (cells : Store) → result ≡ target_of (arg (map (operand (live_in objects.now) cells) args.now) 1) }
{
    match args.get(1) {
        Some(v) => target_of(v, objects),
        None => CallTarget::Nothing,
    }
}

/// The stage at which an item comes into its destination. Where one of them is no live object there is no target.
fn move_stage(item: Option<ObjId>, dest: Option<ObjId>) -> Stage
    ensures stage { result ≡ move_stage item dest }
    ensures on { (low n : ℕ) → low ≤ n → IsStageOn result low n }
    ensures less { stage_left result ≤ unknown_many }
    ensures ready { (objects : List (Option Object)) → IsStageReady objects result }
{
    match item {
        Some(i) => match dest {
            Some(d) => Stage::Move(Moving::Into(i, d)),
            None => Stage::Error(ErrorKind::BadTarget),
        },
        None => Stage::Error(ErrorKind::BadTarget),
    }
}

// Beginning

/// The stage at which the destination has this name, which no live object has. A clone is none.
fn unnamed_stage(live: &Live, name: &str) -> Result<Stage, CallingFault>
    ensures stage { IfOk result (λ st. st ≡ unnamed_stage (chars name.now)) }
    ensures on { IfOk result (λ st. (low n : ℕ) → low ≤ n → IsStageOn st low n) }
    ensures ready { IfOk result (λ st. (objects : List (Option Object)) → IsStageReady objects st) }
{
    if is_clone_name(name) {
        return Ok(Stage::Error(ErrorKind::BadTarget));
    }
    Ok(Stage::Move(Moving::Destination(Text::from_str(live.alloc, name)?)))
}

/// The first stage where the destination is a text: the live object with the name that it means.
fn named_stage(live: &Live, args: &[Value]) -> Result<Stage, CallingFault>
    requires { (cells : Store) → targets.Named ≡ target_of (arg (map (operand (live_in live.now.objects) cells) args.now) 1) }
    ensures acts { IfOk result (λ st. ActsAs live.now args.now st) }
    ensures on { IfOk result (λ st. (low n : ℕ) → low ≤ n → IsStageOn st low n) }
    ensures ready { IfOk result (λ st. (objects : List (Option Object)) → IsStageReady objects st) }
{
    let name = as_name(live.alloc, text_at(args, 1))?;
    match live.names.find(name.as_str()) {
        Some(o) => Ok(move_stage(item_in(args, &live.objects), if_live(o, &live.objects))),
        None => unnamed_stage(live, name.as_str()),
    }
}

/// The first stage.
fn first_stage(live: &Live, args: &[Value]) -> Result<Stage, CallingFault>
    ensures acts { IfOk result (λ st. ActsAs live.now args.now st) }
    ensures on { IfOk result (λ st. (low n : ℕ) → low ≤ n → IsStageOn st low n) }
    ensures ready { IfOk result (λ st. (objects : List (Option Object)) → IsStageReady objects st) }
{
    match destination(args, &live.objects) {
        CallTarget::Live(dest) => Ok(move_stage(item_in(args, &live.objects), Some(dest))),
        CallTarget::Named => named_stage(live, args),
        CallTarget::Nothing => Ok(Stage::Zero),
    }
}

/// `move_object` goes on as a job. Its values are its arguments, where they lie.
pub(crate) fn begin_move(live: &Live, stack: &Vec<Value>, low: usize) -> Result<Begun, CallingFault>
    requires low { low ≤ length stack.now.items }
    ensures starts { IfOk result (λ r. (caller : _) → Starts r Efun.MoveObject caller live.now low stack.now.items stack.now.items) }
    ensures there { IfOk result (λ r. (cells : Store) → IsBegunThere cells r) }
    ensures ready { IfOk result (λ r. (objects : List (Option Object)) → IsBegunReady objects r) }
{
    let stage = first_stage(live, above(stack, low))?;
    Ok(Begun::Runs(Job {
        efun: Efun::MoveObject,
        low,
        stage,
    }))
}

/// The destination was loaded: it is what the load gave. The item and it are to be live then.
fn take_destination(objects: &ObjectTable, stack: &Vec<Value>, low: usize, v: &Value) -> Stage
    requires low { low ≤ length stack.now.items }
    ensures takes { (name : List ℕ) → StageTakes (Stage.Move (Moving.Destination name)) v.now (live_in objects.now) low stack.now.items result stack.now.items }
    ensures on { (low n : ℕ) → low ≤ n → IsStageOn result low n }
    ensures less { stage_left result ≤ unknown_many }
    ensures ready { (objects : List (Option Object)) → IsStageReady objects result }
{
    move_stage(item_in(above(stack, low), objects), live_object(v, objects))
}

// Calls of `init`

/// Whether a call of `init` is made.
fn is_made(live: &Live, item: ObjId, dest: ObjId, call: InitCall) -> bool
    ensures is { TellsMade result live.now item dest call }
    ensures lives { result ≡ true → live_in live.now.objects call.of ≡ true }
{
    may_init(live, item, dest, call.of, call.player)
}

/// The place of the first call of `init`, from one place on, that is made; or how many calls there are.
fn next_made(live: &Live, item: ObjId, dest: ObjId, calls: &Vec<InitCall>, from: usize) -> usize
    requires { from ≤ length calls.now.items }
    ensures inside { result ≤ length calls.now.items }
    ensures order { from ≤ result }
    ensures passes { Passes live.now item dest calls.now.items from result }
    ensures made { IsNextMade live.now item dest (slice_get calls.now.items result) }
{
    let mut at = from;
    while at < calls.len() {
        let call = calls[at];
        if is_made(live, item, dest, call) {
            return at;
        }
        at += 1;
    }
    at
}

/// The calls of `init` that are left come to the next one that is made; where there is none, the value is 0.
fn enter_visits(visits: Visits, live: &Live, turn: &Turn) -> Stage
    requires done { visits.done ≤ length visits.calls.items }
    ensures advances { Advances (Stage.Move (Moving.Visiting visits)) live.now turn.now result live.now turn.now }
    ensures poised { IsPoised result live.now turn.now }
    ensures on { (low n : ℕ) → low ≤ n → IsStageOn result low n }
    ensures ready { (objects : List (Option Object)) → IsStageReady objects result }
    ensures left { stage_left result ≤ stage_left (Stage.Move (Moving.Visiting visits)) }
    ensures room { stage_left result ≤ unknown_many }
{
    let mut visits = visits;
    let at = next_made(live, visits.item, visits.dest, &visits.calls, visits.done);
    if at >= visits.calls.len() {
        drop(visits);
        return Stage::Zero;
    }
    visits.done = at;
    visits.back = turn.player;
    Stage::Move(Moving::Visiting(visits))
}

/// The next call of `init` is asked, for its player, who is `this_player()` until the answer.
fn ask_init(visits: &Visits, live: &Live, turn: &mut Turn, stack: &Vec<Value>, low: usize) -> Step
    requires low { low ≤ length stack.now.items }
    requires poised { IsVisitPoised visits.now live.now turn.old }
    ensures goes { (efun : _) (budget : ℕ) → StageGoes result efun (Stage.Move (Moving.Visiting visits.now)) low live.now turn.old stack.now.items budget live.now turn.new stack.now.items budget }
    ensures there { (cells : Store) → IsStepThere cells result }
    ensures asked { IsAskedThere live.now.objects result }
{
    let call = visits.calls[visits.done];
    turn.player = Some(call.player);
    Step::Asks(Question::Apply(call.of, Applied::Init), 0)
}

/// A call of `init` was answered, whatever the answer.
fn take_visit(visits: Visits) -> Stage
    requires asking { visits.done < length visits.calls.items }
    ensures takes { (v : V) (live : _) (low : ℕ) (stack : List V) → StageTakes (Stage.Move (Moving.Visiting visits)) v live low stack result stack }
    ensures on { (low n : ℕ) → low ≤ n → IsStageOn result low n }
    ensures less { stage_left result < stage_left (Stage.Move (Moving.Visiting visits)) }
    ensures ready { (objects : List (Option Object)) → IsStageReady objects result }
{
    let mut visits = visits;
    visits.done += 1;
    Stage::Move(Moving::Visiting(visits))
}

// The move

/// The error of a move that was refused.
fn error_of(fault: MoveFault) -> Result<ErrorKind, AllocError>
    ensures { IfOk result (λ kind. (r : Option MoveNo) → IsRefused fault r → Refuses r kind) }
{
    match fault {
        MoveFault::IsShadow => Ok(ErrorKind::IsShadow),
        MoveFault::WouldContainItself => Ok(ErrorKind::WouldContainItself),
        MoveFault::NoMemory => Err(AllocError),
    }
}

/// An item is moved into its destination, and the calls of `init` that follow come to the first one that is made. An item that may not
/// be moved is an error.
///
/// # Errors
/// Where memory runs out. The state stands for what it stood for then.
fn enter_into(item: ObjId, dest: ObjId, live: &mut Live, turn: &Turn) -> Result<Stage, AllocError>
    requires closed { IsClosed live.old }
    ensures advances { IfOk result (λ t. Advances (Stage.Move (Moving.Into item dest)) live.old turn.now t live.new turn.now) }
    ensures poised { IfOk result (λ t. IsPoised t live.new turn.now) }
    ensures on { IfOk result (λ t. (low n : ℕ) → low ≤ n → IsStageOn t low n) }
    ensures ready { IfOk result (λ t. (objects : List (Option Object)) → IsStageReady objects t) }
    ensures left { IfOk result (λ t. stage_left t ≤ unknown_many) }
    ensures closed { IsClosed live.new }
    ensures cells { live.new.cells ≡ live.old.cells }
    ensures objects { live.new.objects ≡ live.old.objects }
    ensures names { live.new.names ≡ live.old.names }
{
    match move_into(live, item, dest) {
        Ok(calls) => {
            let visits = Visits {
                item,
                dest,
                calls,
                done: 0,
                back: None,
            };
            Ok(enter_visits(visits, live, turn))
        }
        Err(fault) => {
            let kind = error_of(fault)?;
            Ok(Stage::Error(kind))
        }
    }
}

// At any stage

/// `this_player()` once a question of a move has ended.
pub(crate) fn move_back(moving: &Moving, player: Option<ObjId>) -> Option<ObjId>
    ensures { result ≡ move_back moving.now player }
{
    match moving {
        Moving::Destination(_) | Moving::Into(_, _) => player,
        Moving::Visiting(visits) => visits.back,
    }
}

/// A move goes on up to where it asks or ends: the item is moved, and calls of `init` that are not made are passed.
///
/// # Errors
/// Where memory runs out. The state stands for what it stood for then.
pub(crate) fn enter_moving(
    moving: Moving,
    live: &mut Live,
    turn: &Turn,
) -> Result<Stage, AllocError>
    requires closed { IsClosed live.old }
    requires on { IsMoveOn moving }
    ensures advances { IfOk result (λ t. Advances (Stage.Move moving) live.old turn.now t live.new turn.now) }
    ensures poised { IfOk result (λ t. IsPoised t live.new turn.now) }
    ensures on { IfOk result (λ t. (low n : ℕ) → low ≤ n → IsStageOn t low n) }
    ensures ready { IfOk result (λ t. (objects : List (Option Object)) → IsStageReady objects t) }
    ensures left { IfOk result (λ t. stage_left t ≤ move_left moving) }
    ensures closed { IsClosed live.new }
    ensures cells { live.new.cells ≡ live.old.cells }
    ensures objects { live.new.objects ≡ live.old.objects }
    ensures names { live.new.names ≡ live.old.names }
{
    match moving {
        Moving::Destination(name) => Ok(Stage::Move(Moving::Destination(name))),
        Moving::Into(item, dest) => enter_into(item, dest, live, turn),
        Moving::Visiting(visits) => Ok(enter_visits(visits, live, turn)),
    }
}

/// The destination of this name is to be loaded, without arguments.
fn ask_destination(name: &Text) -> Result<Step, AllocError>
    ensures goes { IfOk result (λ r. (efun : _) (low : ℕ) (live : L) (turn : T) (stack : List V) (budget : ℕ) → low ≤ length stack → StageGoes r efun (Stage.Move (Moving.Destination name.now)) low live turn stack budget live turn stack budget) }
    ensures there { IfOk result (λ r. (cells : Store) → IsStepThere cells r) }
    ensures asked { IfOk result (λ r. (objects : List (Option Object)) → IsAskedThere objects r) }
{
    Ok(Step::Asks(Question::Load(name.copy()?), 0))
}

/// A move asks: for the load of its destination, or for the next call of `init`.
pub(crate) fn ask_moving(
    moving: &Moving,
    live: &Live,
    turn: &mut Turn,
    stack: &Vec<Value>,
    low: usize,
) -> Result<Step, AllocError>
    requires low { low ≤ length stack.now.items }
    requires poised { IsMovePoised moving.now live.now turn.old }
    ensures goes { IfOk result (λ r. (efun : _) (budget : ℕ) → StageGoes r efun (Stage.Move moving.now) low live.now turn.old stack.now.items budget live.now turn.new stack.now.items budget) }
    ensures there { IfOk result (λ r. (cells : Store) → IsStepThere cells r) }
    ensures asked { IfOk result (IsAskedThere live.now.objects) }
{
    match moving {
        Moving::Destination(name) => ask_destination(name),
        Moving::Into(_, _) => unreachable!(),
        Moving::Visiting(visits) => Ok(ask_init(visits, live, turn, stack, low)),
    }
}

/// A question of a move was answered.
pub(crate) fn take_moving(
    moving: Moving,
    objects: &ObjectTable,
    stack: &Vec<Value>,
    low: usize,
    v: &Value,
) -> Stage
    requires low { low ≤ length stack.now.items }
    requires asking { IsMoveAsking moving }
    ensures takes { StageTakes (Stage.Move moving) v.now (live_in objects.now) low stack.now.items result stack.now.items }
    ensures on { (low n : ℕ) → low ≤ n → IsStageOn result low n }
    ensures less { stage_left result < move_left moving }
    ensures ready { (objects : List (Option Object)) → IsStageReady objects result }
{
    match moving {
        Moving::Destination(_) => take_destination(objects, stack, low, v),
        Moving::Into(_, _) => unreachable!(),
        Moving::Visiting(visits) => take_visit(visits),
    }
}

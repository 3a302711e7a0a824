//! `present`: an object is searched for.
ghost use Rattle.std.specs.Prelude.{◌≡◌, ◌+◌, ◌-◌, ◌<◌, ◌≤◌, ◌++◌, ◌∷◌, [], IfOk, List, OnOk, Option, Some, codes, drop, length, map, take};
ghost use Rattle.lp_values.specs.declared.value.Value.{Value as V};
ghost use Rattle.lp_cells.specs.Cells.{IsThere, Store};
ghost use Rattle.lp_ops.specs.Operands.{operand};
ghost use Rattle.lp_meaning.specs.EfunArguments.{arg, object_arg};
ghost use Rattle.lp_world.specs.Rows.{live_in};
ghost use Rattle.lp_world.specs.declared.live.Live.{Live as L};
ghost use Rattle.lp_world.specs.declared.objects.Object.{Object};
ghost use Rattle.lp_efuns.specs.declared.caller.Turn.{Turn as T};
ghost use Rattle.lp_step.specs.Steps.{IsFit};
ghost use Rattle.lp_calling.specs.Beginning.{IsBegunReady, IsBegunThere, Starts};
ghost use Rattle.lp_calling.specs.Entering.{Advances, IsPoised, IsSearchPoised};
ghost use Rattle.lp_calling.specs.Going.{IsAskedThere, IsStepThere, StageGoes, StageTakes};
ghost use Rattle.lp_calling.specs.Jobs.{IsStageOn, IsStageReady, left_around, stage_left, unknown_many};
ghost use Rattle.lp_calling.specs.Searches.{IsBeside, IsFirstSearch, IsSearchIn, IsSkipped, SearchesAround, SearchesIn, is_in, is_near};
ghost use Rattle.lp_calling.specs.Targets.{target_of};
ghost use Rattle.lp_calling.specs.declared.job.Question.{Question as Q};
ghost use Rattle.lp_calling.specs.declared.job.Step.{Step as S};
ghost use Rattle.lp_calling.specs.declared.target.CallTarget.TheVariants as targets;

use crate::audience::is_at;
use crate::job::{Begun, CallingFault, Job, Question, Search, Stage, Step};
use crate::laying::{above, put_at};
use crate::target::{CallTarget, target};
use lp_efuns::arguments::text_shared;
use lp_efuns::caller::Caller;
use lp_efuns::subjects::object_at;
use lp_instr::efun::Efun;
use lp_values::id::ObjId;
use lp_values::text::Text;
use lp_values::value::{Living, Value, is_zero};
use lp_world::live::Live;
use lp_world::objects::ObjectTable;
use std::alloc::{AllocError, Global};

// Beginning

/// Whether an object lies beside another one, or in the given one.
fn is_beside(live: &Live, this: ObjId, around: Option<ObjId>, o: ObjId) -> bool
    ensures { IsBeside result live.now this around o }
{
    let place = live.places.environment(o);
    match around {
        Some(e) => is_at(place, e),
        None => is_near(place, live.places.environment(this), this),
    }
}

/// Whether a place is this object, or the place where this object is.
fn is_near(place: Option<ObjId>, around: Option<ObjId>, this: ObjId) -> bool
    ensures { result ≡ is_near place around this }
{
    if is_at(place, this) {
        return true;
    }
    is_in(place, around)
}

/// Whether two places are one.
fn is_in(place: Option<ObjId>, around: Option<ObjId>) -> bool
    ensures { result ≡ is_in place around }
{
    match around {
        Some(e) => is_at(place, e),
        None => false,
    }
}

/// `present` of an object: it is its value where it is there, and else 0 is.
fn begin_object(
    live: &Live,
    caller: &Caller<'_>,
    stack: &mut Vec<Value>,
    low: usize,
    o: ObjId,
) -> Result<Begun, CallingFault>
    requires low { low ≤ length stack.old.items }
    requires object { (cells : Store) → targets.Live o ≡ target_of (arg (map (operand (live_in live.now.objects) cells) (drop low stack.old.items)) 0) }
    ensures starts { IfOk result (λ r. Starts r Efun.Present caller.now live.now low stack.old.items stack.new.items) }
    ensures fit { OnOk result (IsFit live.now stack.old.items → IsFit live.now stack.new.items) }
    ensures there { IfOk result (λ r. (cells : Store) → IsBegunThere cells r) }
    ensures ready { IfOk result (λ r. (objects : List (Option Object)) → IsBegunReady objects r) }
{
    let around = object_at(above(stack, low), 1, &live.objects);
    if !is_beside(live, caller.this, around, o) {
        return Ok(Begun::Runs(Job {
            efun: Efun::Present,
            low,
            stage: Stage::Zero,
        }));
    }
    put_at(stack, low, Value::Obj(o))?;
    Ok(Begun::Runs(Job {
        efun: Efun::Present,
        low,
        stage: Stage::Value,
    }))
}

/// All that lies in an object, to be searched for what a text names.
fn search_in(
    live: &Live,
    place: ObjId,
    around: Option<ObjId>,
    text: Text,
) -> Result<Search, AllocError>
    ensures { IfOk result (λ k. IsSearchIn k live.now place around text) }
{
    let objects = live.places.inventory(place).to_vec(live.alloc)?;
    Ok(Search {
        text,
        objects,
        done: 0,
        around,
    })
}

/// The first search of `present`: in the given object, or in this one, and then around it.
fn first_search(
    live: &Live,
    this: ObjId,
    around: Option<ObjId>,
    text: Text,
) -> Result<Search, AllocError>
    ensures { IfOk result (λ k. IsFirstSearch k live.now this around text) }
{
    match around {
        Some(place) => search_in(live, place, None, text),
        None => search_in(live, this, Some(this), text),
    }
}

/// `present` of a text goes on as a job.
fn begin_text(
    live: &Live,
    caller: &Caller<'_>,
    stack: &Vec<Value>,
    low: usize,
) -> Result<Begun, CallingFault>
    requires low { low ≤ length stack.now.items }
    requires text { (cells : Store) → targets.Named ≡ target_of (arg (map (operand (live_in live.now.objects) cells) (drop low stack.now.items)) 0) }
    ensures starts { IfOk result (λ r. Starts r Efun.Present caller.now live.now low stack.now.items stack.now.items) }
    ensures there { IfOk result (λ r. (cells : Store) → IsBegunThere cells r) }
    ensures ready { IfOk result (λ r. (objects : List (Option Object)) → IsBegunReady objects r) }
{
    let text = text_shared(live.alloc, above(stack, low), 0)?;
    let around = object_at(above(stack, low), 1, &live.objects);
    let search = first_search(live, caller.this, around, text)?;
    Ok(Begun::Runs(Job {
        efun: Efun::Present,
        low,
        stage: Stage::Seek(search),
    }))
}

/// `present` begins.
pub(crate) fn begin_present(
    live: &Live,
    caller: &Caller<'_>,
    stack: &mut Vec<Value>,
    low: usize,
) -> Result<Begun, CallingFault>
    requires low { low ≤ length stack.old.items }
    ensures starts { IfOk result (λ r. Starts r Efun.Present caller.now live.now low stack.old.items stack.new.items) }
    ensures fit { OnOk result (IsFit live.now stack.old.items → IsFit live.now stack.new.items) }
    ensures there { IfOk result (λ r. (cells : Store) → IsBegunThere cells r) }
    ensures ready { IfOk result (λ r. (objects : List (Option Object)) → IsBegunReady objects r) }
{
    match target(above(stack, low), &live.objects) {
        CallTarget::Live(o) => begin_object(live, caller, stack, low, o),
        CallTarget::Named => begin_text(live, caller, stack, low),
        CallTarget::Nothing => Ok(Begun::Runs(Job {
            efun: Efun::Present,
            low,
            stage: Stage::Zero,
        })),
    }
}

// Going on

/// How many objects are done, once those that are destructed are passed up to one that is live. Costs a look at each.
fn skip_dead(live: &Live, objects: &Vec<ObjId>, done: usize) -> usize
    ensures { IsSkipped live.now objects.now.items done result }
{
    let mut n = done;
    while n < objects.len() {
        if live.objects.is_live(objects[n]) {
            return n;
        }
        n += 1;
    }
    n
}

/// All that lies in an object is searched.
fn enter_place(live: &Live, place: ObjId, text: Text) -> Result<Stage, AllocError>
    ensures searches { IfOk result (λ t. SearchesIn t live.now text place) }
    ensures poised { IfOk result (λ t. (turn : T) → IsPoised t live.now turn) }
    ensures on { IfOk result (λ t. (low n : _) → low ≤ n → IsStageOn t low n) }
    ensures ready { IfOk result (λ t. (objects : List (Option Object)) → IsStageReady objects t) }
    ensures left { IfOk result (λ t. stage_left t ≤ unknown_many) }
{
    let objects = live.places.inventory(place).to_vec(live.alloc)?;
    let n = skip_dead(live, &objects, 0);
    if n < objects.len() {
        return Ok(Stage::Seek(Search {
            text,
            objects,
            done: n,
            around: None,
        }));
    }
    Ok(Stage::Zero)
}

/// The environment of an object is searched, where it has one.
fn enter_environment(live: &Live, o: ObjId, text: Text) -> Result<Stage, AllocError>
    ensures searches { IfOk result (λ t. SearchesAround t live.now text (Some o)) }
    ensures poised { IfOk result (λ t. (turn : T) → IsPoised t live.now turn) }
    ensures on { IfOk result (λ t. (low n : _) → low ≤ n → IsStageOn t low n) }
    ensures ready { IfOk result (λ t. (objects : List (Option Object)) → IsStageReady objects t) }
    ensures left { IfOk result (λ t. stage_left t ≤ unknown_many) }
{
    match live.places.environment(o) {
        Some(place) => enter_place(live, place, text),
        None => Ok(Stage::Zero),
    }
}

/// Nothing was found so far: the environment of an object is searched, where there is an object.
fn enter_around(live: &Live, around: Option<ObjId>, text: Text) -> Result<Stage, AllocError>
    ensures searches { IfOk result (λ t. SearchesAround t live.now text around) }
    ensures poised { IfOk result (λ t. (turn : T) → IsPoised t live.now turn) }
    ensures on { IfOk result (λ t. (low n : _) → low ≤ n → IsStageOn t low n) }
    ensures ready { IfOk result (λ t. (objects : List (Option Object)) → IsStageReady objects t) }
    ensures left { IfOk result (λ t. stage_left t ≤ left_around around) }
{
    match around {
        Some(o) => enter_environment(live, o, text),
        None => Ok(Stage::Zero),
    }
}

/// Objects are passed up to one that is to be asked, if there is one.
pub(crate) fn enter_search(search: Search, live: &Live) -> Result<Stage, AllocError>
    ensures advances { IfOk result (λ t. (turn : T) → Advances (Stage.Seek search) live.now turn t live.now turn) }
    ensures poised { IfOk result (λ t. (turn : T) → IsPoised t live.now turn) }
    ensures on { IfOk result (λ t. (low n : _) → low ≤ n → IsStageOn t low n) }
    ensures ready { IfOk result (λ t. (objects : List (Option Object)) → IsStageReady objects t) }
    ensures left { IfOk result (λ t. stage_left t ≤ length search.objects.items - search.done + left_around search.around) }
{
    let n = skip_dead(live, &search.objects, search.done);
    if n < search.objects.len() {
        return Ok(Stage::Seek(Search {
            text: search.text,
            objects: search.objects,
            done: n,
            around: search.around,
        }));
    }
    enter_around(live, search.around, search.text)
}

/// The name of the function that tells whether an object is what a text names.
fn id_name(alloc: Global) -> Result<Text, AllocError>
    ensures { IfOk result (λ t. t ≡ codes "id") }
{
    Text::from_str(alloc, "id")
}

/// An object is asked for `id`, with the text on top.
fn ask_id(alloc: Global, o: ObjId, text: &Text, stack: &mut Vec<Value>) -> Result<Step, AllocError>
    ensures asks { IfOk result (λ r. (r ≡ S.Asks (Q.Other o (codes "id")) 1) × (stack.new.items ≡ stack.old.items ++ V.Str text.now ∷ [])) }
    ensures fit { OnOk result ((l : L) → IsFit l stack.old.items → IsFit l stack.new.items) }
    ensures there { IfOk result (λ r. (cells : Store) → IsStepThere cells r) }
{
    let name = id_name(alloc)?;
    stack.push(Value::Str(text.copy()?))?;
    Ok(Step::Asks(Question::Other(o, name), 1))
}

/// The next object is asked for `id`.
pub(crate) fn ask_object(
    search: &Search,
    live: &Live,
    stack: &mut Vec<Value>,
    low: usize,
) -> Result<Step, AllocError>
    requires low { low ≤ length stack.old.items }
    requires poised { IsSearchPoised search.now live.now }
    ensures goes { IfOk result (λ r. (efun : _) (turn : T) (budget : _) → StageGoes r efun (Stage.Seek search.now) low live.now turn stack.old.items budget live.now turn stack.new.items budget) }
    ensures fit { OnOk result ((l : L) → IsFit l stack.old.items → IsFit l stack.new.items) }
    ensures there { IfOk result (λ r. (cells : Store) → IsStepThere cells r) }
    ensures asked { IfOk result (IsAskedThere live.now.objects) }
{
    ask_id(live.alloc, search.objects[search.done], &search.text, stack)
}

/// An object was found, which is the value.
fn take_found(o: ObjId, stack: &mut Vec<Value>, low: usize) -> Result<Stage, AllocError>
    requires { low ≤ length stack.old.items }
    ensures found { IfOk result (λ t. (t ≡ Stage.Value) × (stack.new.items ≡ take low stack.old.items ++ V.Obj o ∷ [])) }
    ensures on { IfOk result (λ t. IsStageOn t low (length stack.new.items)) }
    ensures none { IfOk result (λ t. stage_left t ≡ 0) }
    ensures ready { IfOk result (λ t. (objects : List (Option Object)) → IsStageReady objects t) }
    ensures fit { OnOk result ((l : L) → IsFit l stack.old.items → IsFit l stack.new.items) }
{
    put_at(stack, low, Value::Obj(o))?;
    Ok(Stage::Value)
}

/// An object was asked: it is the value where it did not answer 0; else the next one is to be asked.
pub(crate) fn take_sought(
    search: Search,
    objects: &ObjectTable,
    stack: &mut Vec<Value>,
    low: usize,
    v: Value,
) -> Result<Stage, AllocError>
    requires low { low ≤ length stack.old.items }
    requires left { search.done < length search.objects.items }
    ensures takes { IfOk result (λ t. StageTakes (Stage.Seek search) v (live_in objects.now) low stack.old.items t stack.new.items) }
    ensures on { IfOk result (λ t. IsStageOn t low (length stack.new.items)) }
    ensures less { IfOk result (λ t. stage_left t < length search.objects.items - search.done + left_around search.around) }
    ensures ready { IfOk result (λ t. (objects : List (Option Object)) → IsStageReady objects t) }
    ensures fit { OnOk result ((l : L) → IsThere l.cells v → IsFit l stack.old.items → IsFit l stack.new.items) }
{
    if is_zero(&v, objects) {
        return Ok(Stage::Seek(Search {
            text: search.text,
            objects: search.objects,
            done: search.done + 1,
            around: search.around,
        }));
    }
    take_found(search.objects[search.done], stack, low)
}

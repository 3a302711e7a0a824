//! The master is asked for leave: efuns on files begin, and the master is asked and answers.
ghost use Rattle.std.specs.Prelude.{◌≡◌, ◌<◌, ◌≤◌, ◌++◌, ◌∷◌, [], IfOk, IfSome, IsSome, List, OnOk, Option, Some, drop, length, true, ℕ};
ghost use Rattle.lp_values.specs.declared.id.ObjId.{ObjId as Oid};
ghost use Rattle.lp_values.specs.declared.value.Value.{Value as V};
ghost use Rattle.lp_cells.specs.Cells.{Store};
ghost use Rattle.lp_instr.specs.EfunList.{efun_name};
ghost use Rattle.lp_language.specs.Course.{zero_value};
ghost use Rattle.lp_meaning.specs.FileEfuns.{is_path as path_test, with_o};
ghost use Rattle.lp_meaning.specs.FileLoads.{object_of_value};
ghost use Rattle.lp_world.specs.Rows.{live_in, row_at};
ghost use Rattle.lp_world.specs.declared.live.Live.{Live as L};
ghost use Rattle.lp_world.specs.declared.objects.Object.{Object};
ghost use Rattle.lp_efuns.specs.declared.caller.Turn.{Turn};
ghost use Rattle.lp_step.specs.Steps.{IsFit};
ghost use Rattle.lp_calling.specs.Beginning.{IsBegunReady, IsBegunThere, Starts};
ghost use Rattle.lp_calling.specs.Going.{IsAskedThere, IsStepThere, StageGoes, StageTakes};
ghost use Rattle.lp_calling.specs.Jobs.{IsReady, IsStageOn, IsStageReady, stage_left};
ghost use Rattle.lp_calling.specs.Questions.{applied_name};
ghost use Rattle.lp_calling.specs.Leave.{IsWish, asker_value, leave_function, wish_arguments, wish_function};
ghost use Rattle.lp_calling.specs.Leaving.{AsksLeave, AsksToShadow, GrantedAs, IsDeedOf, IsLiveObject, IsMaster, master_stage, where_live};

use crate::job::{Applied, Begun, CallingFault, Job, Question, Stage, Step};
use crate::laying::above;
use crate::wish::{FileDeed, Wish};
use lp_efuns::arguments::{text_at, text_shared};
use lp_efuns::caller::Caller;
use lp_filing::leave::{path_of, path_used};
use lp_instr::efun::Efun;
use lp_values::id::ObjId;
use lp_values::text::Text;
use lp_values::value::{Living, Value, is_zero};
use lp_world::live::Live;
use lp_world::objects::ObjectTable;
use std::alloc::{AllocError, Global};

// Beginning

/// An object, where it lives.
fn where_live(objects: &ObjectTable, o: ObjId) -> Option<ObjId>
    ensures value { result ≡ where_live (live_in objects.now) o }
    ensures live { IfSome result (λ m. live_in objects.now m ≡ true) }
{
    if objects.is_live(o) { Some(o) } else { None }
}

/// The master, where it lives.
pub(crate) fn master(live: &Live) -> Option<ObjId>
    ensures master { IsMaster live.now result }
    ensures live { IfSome result (λ m. live_in live.now.objects m ≡ true) }
{
    match live.names.find("/secure/master") {
        Some(m) => where_live(&live.objects, m),
        None => None,
    }
}

/// The stage at which the master is asked, which is loaded first where it does not live.
pub(crate) fn master_stage(master: Option<ObjId>, wish: Wish) -> Stage
    ensures { result ≡ master_stage master wish }
{
    match master {
        Some(m) => Stage::Master(m, wish),
        None => Stage::MasterLoad(wish),
    }
}

/// Whether a text is a path.
fn is_path(alloc: Global, text: &[char]) -> Result<bool, AllocError>
    ensures { IfOk result (λ b. b ≡ path_test text.now) }
{
    let path = path_of(alloc, text)?;
    Ok(path.is_some())
}

/// The stage at which leave is asked for a deed on the file at a path.
fn leave_stage(live: &Live, this: ObjId, deed: FileDeed, path: Text) -> Stage
    requires { path_test path ≡ true }
    ensures asks { AsksLeave live.now this deed path result }
    ensures on { (low n : ℕ) → low ≤ n → IsStageOn result low n }
    ensures ready { IsStageReady live.now.objects result }
{
    let asker = where_live(&live.objects, this);
    let master = master(live);
    master_stage(master, Wish::File(deed, path, asker))
}

/// The stage of an efun that an object calls, for a deed on the file at a path. A text that is no path is refused at once.
fn file_stage(live: &Live, this: ObjId, deed: FileDeed, path: Text) -> Result<Stage, AllocError>
    ensures asks { IfOk result (AsksLeave live.now this deed path) }
    ensures on { IfOk result (λ r. (low n : ℕ) → low ≤ n → IsStageOn r low n) }
    ensures ready { IfOk result (IsStageReady live.now.objects) }
{
    if is_path(live.alloc, path.as_slice())? {
        return Ok(leave_stage(live, this, deed, path));
    }
    Ok(Stage::File(deed, None))
}

/// An efun on the file at a path goes on as a job.
fn begin_deed(
    live: &Live,
    caller: &Caller<'_>,
    stack: &Vec<Value>,
    low: usize,
    efun: Efun,
    deed: FileDeed,
    path: Text,
) -> Result<Begun, CallingFault>
    requires low { low ≤ length stack.now.items }
    requires deed { IsDeedOf efun caller.now deed path (drop low stack.now.items) }
    ensures starts { IfOk result (λ r. Starts r efun caller.now live.now low stack.now.items stack.now.items) }
    ensures there { IfOk result (λ r. (cells : Store) → IsBegunThere cells r) }
    ensures ready { IfOk result (IsBegunReady live.now.objects) }
{
    let stage = file_stage(live, caller.this, deed, path)?;
    Ok(Begun::Runs(Job { efun, low, stage }))
}

/// `read_file` begins.
pub(crate) fn begin_read(
    live: &Live,
    caller: &Caller<'_>,
    stack: &Vec<Value>,
    low: usize,
) -> Result<Begun, CallingFault>
    requires low { low ≤ length stack.now.items }
    ensures starts { IfOk result (λ r. Starts r Efun.ReadFile caller.now live.now low stack.now.items stack.now.items) }
    ensures there { IfOk result (λ r. (cells : Store) → IsBegunThere cells r) }
    ensures ready { IfOk result (IsBegunReady live.now.objects) }
{
    let path = text_shared(live.alloc, above(stack, low), 0)?;
    begin_deed(
        live,
        caller,
        stack,
        low,
        Efun::ReadFile,
        FileDeed::Read,
        path,
    )
}

/// `file_size` begins.
pub(crate) fn begin_size(
    live: &Live,
    caller: &Caller<'_>,
    stack: &Vec<Value>,
    low: usize,
) -> Result<Begun, CallingFault>
    requires low { low ≤ length stack.now.items }
    ensures starts { IfOk result (λ r. Starts r Efun.FileSize caller.now live.now low stack.now.items stack.now.items) }
    ensures there { IfOk result (λ r. (cells : Store) → IsBegunThere cells r) }
    ensures ready { IfOk result (IsBegunReady live.now.objects) }
{
    let path = text_shared(live.alloc, above(stack, low), 0)?;
    begin_deed(
        live,
        caller,
        stack,
        low,
        Efun::FileSize,
        FileDeed::Size,
        path,
    )
}

/// `write_file` begins.
pub(crate) fn begin_append(
    live: &Live,
    caller: &Caller<'_>,
    stack: &Vec<Value>,
    low: usize,
) -> Result<Begun, CallingFault>
    requires low { low ≤ length stack.now.items }
    ensures starts { IfOk result (λ r. Starts r Efun.WriteFile caller.now live.now low stack.now.items stack.now.items) }
    ensures there { IfOk result (λ r. (cells : Store) → IsBegunThere cells r) }
    ensures ready { IfOk result (IsBegunReady live.now.objects) }
{
    let path = text_shared(live.alloc, above(stack, low), 0)?;
    let text = text_shared(live.alloc, above(stack, low), 1)?;
    begin_deed(
        live,
        caller,
        stack,
        low,
        Efun::WriteFile,
        FileDeed::Write(text),
        path,
    )
}

/// `rm` begins.
pub(crate) fn begin_remove(
    live: &Live,
    caller: &Caller<'_>,
    stack: &Vec<Value>,
    low: usize,
) -> Result<Begun, CallingFault>
    requires low { low ≤ length stack.now.items }
    ensures starts { IfOk result (λ r. Starts r Efun.Rm caller.now live.now low stack.now.items stack.now.items) }
    ensures there { IfOk result (λ r. (cells : Store) → IsBegunThere cells r) }
    ensures ready { IfOk result (IsBegunReady live.now.objects) }
{
    let path = text_shared(live.alloc, above(stack, low), 0)?;
    begin_deed(live, caller, stack, low, Efun::Rm, FileDeed::Remove, path)
}

/// A path with `.o` behind it.
fn with_o(alloc: Global, path: &[char]) -> Result<Text, AllocError>
    ensures { IfOk result (λ t. t ≡ with_o path.now) }
{
    let mut all = Vec::from_slice(alloc, path)?;
    all.push('.')?;
    all.push('o')?;
    Text::from_vec(alloc, all)
}

/// `save_object` begins.
pub(crate) fn begin_save(
    live: &Live,
    caller: &Caller<'_>,
    stack: &Vec<Value>,
    low: usize,
) -> Result<Begun, CallingFault>
    requires low { low ≤ length stack.now.items }
    ensures starts { IfOk result (λ r. Starts r Efun.SaveObject caller.now live.now low stack.now.items stack.now.items) }
    ensures there { IfOk result (λ r. (cells : Store) → IsBegunThere cells r) }
    ensures ready { IfOk result (IsBegunReady live.now.objects) }
{
    let path = with_o(live.alloc, text_at(above(stack, low), 0))?;
    begin_deed(
        live,
        caller,
        stack,
        low,
        Efun::SaveObject,
        FileDeed::Save(caller.this),
        path,
    )
}

/// `restore_object` begins.
pub(crate) fn begin_restore(
    live: &Live,
    caller: &Caller<'_>,
    stack: &Vec<Value>,
    low: usize,
) -> Result<Begun, CallingFault>
    requires low { low ≤ length stack.now.items }
    ensures starts { IfOk result (λ r. Starts r Efun.RestoreObject caller.now live.now low stack.now.items stack.now.items) }
    ensures there { IfOk result (λ r. (cells : Store) → IsBegunThere cells r) }
    ensures ready { IfOk result (IsBegunReady live.now.objects) }
{
    let path = with_o(live.alloc, text_at(above(stack, low), 0))?;
    begin_deed(
        live,
        caller,
        stack,
        low,
        Efun::RestoreObject,
        FileDeed::Restore(caller.this),
        path,
    )
}

/// The job of `shadow` that asks the master whether an object may shadow another one, once nothing else stands in the way; the master is
/// loaded first where it does not live. So many values lie below its arguments, which it needs no longer. Takes no memory.
pub fn ask_to_shadow(live: &Live, low: usize, this: ObjId, o: ObjId) -> Job
    ensures efun { result.efun ≡ Efun.Shadow }
    ensures low { result.low ≡ low }
    ensures asks { AsksToShadow live.now this o result.stage }
    ensures on { (n : ℕ) → low ≤ n → IsStageOn result.stage low n }
    ensures ready { IsReady live.now.objects result }
{
    let master = master(live);
    Job {
        efun: Efun::Shadow,
        low,
        stage: master_stage(master, Wish::Shadow(this, o)),
    }
}

// Going on

/// The master is loaded, without arguments.
pub(crate) fn load_master(alloc: Global, wish: &Wish) -> Result<Step, AllocError>
    requires { IsWish wish.now }
    ensures goes { IfOk result (λ r. (e : _) (low : ℕ) (live : L) (turn : Turn) (stack : List V) (budget : ℕ) → low ≤ length stack → StageGoes r e (Stage.MasterLoad wish.now) low live turn stack budget live turn stack budget) }
    ensures there { IfOk result (λ r. (cells : Store) → IsStepThere cells r) }
    ensures asked { IfOk result (λ r. (objects : List (Option Object)) → IsAskedThere objects r) }
{
    let name = Text::from_str(alloc, "/secure/master")?;
    Ok(Step::Asks(Question::Load(name), 0))
}

/// The function that the master is asked for a deed on a file.
fn applied_for(deed: &FileDeed) -> Applied
    ensures { applied_name result ≡ leave_function deed.now }
{
    match deed {
        FileDeed::Read => Applied::ValidRead,
        FileDeed::Size => Applied::ValidRead,
        FileDeed::Write(_) => Applied::ValidWrite,
        FileDeed::Remove => Applied::ValidWrite,
        FileDeed::Save(_) => Applied::ValidWrite,
        FileDeed::Restore(_) => Applied::ValidRead,
    }
}

/// The function that the master is asked.
fn applied(wish: &Wish) -> Applied
    ensures { applied_name result ≡ wish_function wish.now }
{
    match wish {
        Wish::File(deed, _, _) => applied_for(deed),
        Wish::Shadow(_, _) => Applied::QueryAllowShadow,
    }
}

/// The object that asks, as the master is given it.
fn asker_value(asker: Option<ObjId>) -> Value
    ensures value { result ≡ asker_value asker }
    ensures fit { (l : L) (stack : List V) → IsFit l stack → IsFit l (stack ++ result ∷ []) }
{
    match asker {
        Some(o) => Value::Obj(o),
        None => Value::Int(0),
    }
}

/// The name of an efun is laid on top.
fn lay_name(alloc: Global, efun: Efun, stack: &mut Vec<Value>) -> Result<(), AllocError>
    ensures items { OnOk result (stack.new.items ≡ stack.old.items ++ V.Str (efun_name efun) ∷ []) }
    ensures fit { OnOk result ((l : L) → IsFit l stack.old.items → IsFit l stack.new.items) }
{
    let name = Text::from_str(alloc, efun.name())?;
    stack.push(Value::Str(name))?;
    Ok(())
}

/// A path and 0 are laid on top.
fn lay_path(path: &Text, stack: &mut Vec<Value>) -> Result<(), AllocError>
    ensures items { OnOk result (stack.new.items ≡ stack.old.items ++ V.Str path.now ∷ zero_value ∷ []) }
    ensures fit { OnOk result ((l : L) → IsFit l stack.old.items → IsFit l stack.new.items) }
{
    stack.push(Value::Str(path.copy()?))?;
    stack.push(Value::Int(0))?;
    Ok(())
}

/// What the master is asked with for a deed on the file at a path is laid on top.
fn lay_file(
    alloc: Global,
    efun: Efun,
    path: &Text,
    asker: Option<ObjId>,
    stack: &mut Vec<Value>,
) -> Result<(), AllocError>
    ensures items { OnOk result (stack.new.items ≡ stack.old.items ++ V.Str path.now ∷ zero_value ∷ V.Str (efun_name efun) ∷ asker_value asker ∷ []) }
    ensures fit { OnOk result ((l : L) → IsFit l stack.old.items → IsFit l stack.new.items) }
{
    lay_path(path, stack)?;
    lay_name(alloc, efun, stack)?;
    stack.push(asker_value(asker))?;
    Ok(())
}

/// What the master is asked with is laid on top. Tells how many values that are.
fn lay_wish(
    alloc: Global,
    efun: Efun,
    wish: &Wish,
    stack: &mut Vec<Value>,
) -> Result<usize, AllocError>
    ensures items { OnOk result (stack.new.items ≡ stack.old.items ++ wish_arguments efun wish.now) }
    ensures count { IfOk result (λ n. n ≡ length (wish_arguments efun wish.now)) }
    ensures fit { OnOk result ((l : L) → IsFit l stack.old.items → IsFit l stack.new.items) }
{
    match wish {
        Wish::File(_, path, asker) => {
            lay_file(alloc, efun, path, *asker, stack)?;
            Ok(4)
        }
        Wish::Shadow(_, o) => {
            stack.push(Value::Obj(*o))?;
            Ok(1)
        }
    }
}

/// The master is asked.
pub(crate) fn ask_master(
    alloc: Global,
    efun: Efun,
    m: ObjId,
    wish: &Wish,
    stack: &mut Vec<Value>,
    low: usize,
) -> Result<Step, AllocError>
    requires low { low ≤ length stack.old.items }
    requires wish { IsWish wish.now }
    ensures goes { IfOk result (λ r. (live : L) (turn : Turn) (budget : ℕ) → StageGoes r efun (Stage.Master m wish.now) low live turn stack.old.items budget live turn stack.new.items budget) }
    ensures fit { OnOk result ((l : L) → IsFit l stack.old.items → IsFit l stack.new.items) }
    ensures there { IfOk result (λ r. (cells : Store) → IsStepThere cells r) }
    ensures asked { IfOk result (λ r. (objects : List (Option Object)) → IsSome (row_at objects m.0) → IsAskedThere objects r) }
{
    let n = lay_wish(alloc, efun, wish, stack)?;
    Ok(Step::Asks(Question::Apply(m, applied(wish)), n))
}

// Answers

/// The object that a value is.
fn object_given(v: &Value) -> Option<ObjId>
    ensures { result ≡ object_of_value v.now }
{
    match v {
        Value::Obj(o) => Some(*o),
        _ => None,
    }
}

/// The live object that a value is.
fn live_given(objects: &ObjectTable, v: &Value) -> Option<ObjId>
    ensures value { IsLiveObject (live_in objects.now) v.now result }
    ensures live { IfSome result (λ m. live_in objects.now m ≡ true) }
{
    match object_given(v) {
        Some(o) => where_live(objects, o),
        None => None,
    }
}

/// The stage behind an answer of 0: nothing is done.
fn refused(wish: Wish) -> Stage
    ensures granted { (live : _) → GrantedAs live wish zero_value result }
    ensures on { (low n : ℕ) → low ≤ n → IsStageOn result low n }
    ensures less { stage_left result < 1 }
    ensures ready { (objects : List (Option Object)) → IsStageReady objects result }
{
    match wish {
        Wish::File(deed, _, _) => Stage::File(deed, None),
        Wish::Shadow(_, _) => Stage::Zero,
    }
}

/// The master was loaded: it is asked. Where it does not live then, its answer is 0.
pub(crate) fn take_master(objects: &ObjectTable, v: &Value, wish: Wish) -> Stage
    requires { IsWish wish }
    ensures takes { (low : ℕ) (stack : List V) → StageTakes (Stage.MasterLoad wish) v.now (live_in objects.now) low stack result stack }
    ensures on { (low n : ℕ) → low ≤ n → IsStageOn result low n }
    ensures less { stage_left result < 2 }
    ensures ready { IsStageReady objects.now result }
{
    match live_given(objects, v) {
        Some(m) => Stage::Master(m, wish),
        None => refused(wish),
    }
}

/// What the master answered of a path: the path to use, or none.
fn take_path(
    alloc: Global,
    objects: &ObjectTable,
    v: &Value,
    deed: FileDeed,
    path: &Text,
) -> Result<Stage, AllocError>
    requires { path_test path.now ≡ true }
    ensures granted { IfOk result (λ t. (o : Option Oid) → GrantedAs (live_in objects.now) (Wish.File deed path.now o) v.now t) }
    ensures on { IfOk result (λ t. (low n : ℕ) → low ≤ n → IsStageOn t low n) }
    ensures less { IfOk result (λ t. stage_left t < 1) }
    ensures ready { IfOk result (λ t. (objects : List (Option Object)) → IsStageReady objects t) }
{
    let used = path_used(alloc, path.as_slice(), v, objects)?;
    Ok(Stage::File(deed, used))
}

/// What the master answered of a shadow.
fn take_shadow(objects: &ObjectTable, v: &Value, this: ObjId, o: ObjId) -> Stage
    ensures granted { GrantedAs (live_in objects.now) (Wish.Shadow this o) v.now result }
    ensures on { (low n : ℕ) → low ≤ n → IsStageOn result low n }
    ensures less { stage_left result < 1 }
    ensures ready { (objects : List (Option Object)) → IsStageReady objects result }
{
    if is_zero(v, objects) {
        return Stage::Zero;
    }
    Stage::Shadow(this, o)
}

/// The master answered.
pub(crate) fn take_leave(
    alloc: Global,
    objects: &ObjectTable,
    v: &Value,
    wish: Wish,
) -> Result<Stage, AllocError>
    requires { IsWish wish }
    ensures takes { IfOk result (λ t. (m : Oid) (low : ℕ) (stack : List V) → StageTakes (Stage.Master m wish) v.now (live_in objects.now) low stack t stack) }
    ensures on { IfOk result (λ t. (low n : ℕ) → low ≤ n → IsStageOn t low n) }
    ensures less { IfOk result (λ t. stage_left t < 1) }
    ensures ready { IfOk result (λ t. (objects : List (Option Object)) → IsStageReady objects t) }
{
    match wish {
        Wish::File(deed, path, _) => take_path(alloc, objects, v, deed, &path),
        Wish::Shadow(this, o) => Ok(take_shadow(objects, v, this, o)),
    }
}

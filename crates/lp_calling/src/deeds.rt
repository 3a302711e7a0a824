//! What efuns do once the master gave leave: deeds on files, and shadows that begin.
ghost use Rattle.std.specs.Prelude.{◌≡◌, ◌≤◌, IfOk, List, OnOk, Option, false, length, pos, string_bytes, if◌then◌else◌};
ghost use Rattle.std.specs.Option.{option_copied, option_map};
ghost use Rattle.lp_values.specs.declared.value.Value.{Value as V};
ghost use Rattle.lp_cells.specs.Cells.{IsThere, KeepsThere, Store};
ghost use Rattle.lp_filing.specs.Filing.{Comes};
ghost use Rattle.lp_filing.specs.declared.outcome.Outcome.{Outcome as D};
ghost use Rattle.lp_world.specs.Closed.{IsClosed};
ghost use Rattle.lp_world.specs.declared.live.Live.{Live as L};
ghost use Rattle.lp_world.specs.declared.objects.Object.{Object};
ghost use Rattle.lp_efuns.specs.declared.caller.Turn.{Turn};
ghost use Rattle.lp_step.specs.Steps.{IsFit, KeepsVariables};
ghost use Rattle.lp_calling.specs.Entering.{Enters, IsPoised};
ghost use Rattle.lp_calling.specs.Jobs.{IsStageOn, IsStageReady, stage_left};
ghost use Rattle.lp_calling.specs.Leave.{file_deed, is_keeping, shadow_deed};

use crate::job::Stage;
use crate::laying::put_at;
use crate::wish::FileDeed;
use lp_filing::reading::{read_text, size};
use lp_filing::writing::{append, remove};
use lp_shadows::shadows::begin_shadowing;
use lp_values::id::ObjId;
use lp_values::value::Value;
use lp_world::live::Live;
use std::alloc::AllocError;

/// A text that there may be.
fn text_of(text: &Option<String>) -> Option<&str>
    ensures { option_copied result ≡ option_map string_bytes text.now }
{
    match text {
        Some(t) => Some(t.as_str()),
        None => None,
    }
}

/// A deed on the file at the path that the master gave, if it gave one.
fn do_deed(live: &mut Live, deed: &FileDeed, path: Option<&str>) -> Result<Value, AllocError>
    requires plain { is_keeping deed.now ≡ false }
    requires closed { IsClosed live.old }
    ensures comes { IfOk result (λ v. Comes (file_deed deed.now (option_copied path.entry)) live.old (D.Value v) live.new) }
    ensures others { live.new ≡ record live.old { store = live.new.store } }
    ensures closed { IsClosed live.new }
    ensures there { IfOk result (λ v. (cells : Store) → IsThere cells v) }
{
    match deed {
        FileDeed::Read => read_text(live, path),
        FileDeed::Size => Ok(size(live, path)),
        FileDeed::Write(text) => append(live, path, text.as_slice()),
        FileDeed::Remove => remove(live, path),
        FileDeed::Save(_) => unreachable!(),
        FileDeed::Restore(_) => unreachable!(),
    }
}

/// A deed on a file is done: the job has come to its value, which takes the place of the arguments.
fn do_file(
    deed: &FileDeed,
    path: &Option<String>,
    live: &mut Live,
    stack: &mut Vec<Value>,
    low: usize,
) -> Result<Stage, AllocError>
    requires plain { is_keeping deed.now ≡ false }
    requires low { low ≤ length stack.old.items }
    requires fit { IsFit live.old stack.old.items }
    ensures enters { IfOk result (λ t. (e : _) (turn : Turn) → Enters e (Stage.File deed.now path.now) low live.old turn stack.old.items t live.new turn stack.new.items) }
    ensures poised { IfOk result (λ t. (l : L) (turn : Turn) → IsPoised t l turn) }
    ensures on { IfOk result (λ t. IsStageOn t low (length stack.new.items)) }
    ensures ready { IfOk result (λ t. (objects : List (Option Object)) → IsStageReady objects t) }
    ensures left { IfOk result (λ t. stage_left t ≤ 0) }
    ensures closed { IsClosed live.new }
    ensures fit { OnOk result (IsFit live.new stack.new.items) }
    ensures cells { live.new.cells ≡ live.old.cells }
    ensures objects { live.new.objects ≡ live.old.objects }
    ensures names { live.new.names ≡ live.old.names }
{
    let v = do_deed(live, deed, text_of(path))?;
    put_at(stack, low, v)?;
    Ok(Stage::Value)
}

/// A deed on a file is done: the job has come to its value, which takes the place of the arguments.
///
/// # Errors
/// Where memory runs out, after which the state is closed.
pub(crate) fn enter_file(
    deed: FileDeed,
    path: Option<String>,
    live: &mut Live,
    stack: &mut Vec<Value>,
    low: usize,
) -> Result<Stage, AllocError>
    requires plain { is_keeping deed ≡ false }
    requires low { low ≤ length stack.old.items }
    requires fit { IsFit live.old stack.old.items }
    ensures enters { IfOk result (λ t. (e : _) (turn : Turn) → Enters e (Stage.File deed path) low live.old turn stack.old.items t live.new turn stack.new.items) }
    ensures poised { IfOk result (λ t. (l : L) (turn : Turn) → IsPoised t l turn) }
    ensures on { IfOk result (λ t. IsStageOn t low (length stack.new.items)) }
    ensures ready { IfOk result (λ t. (objects : List (Option Object)) → IsStageReady objects t) }
    ensures left { IfOk result (λ t. stage_left t ≤ 0) }
    ensures closed { IsClosed live.new }
    ensures fit { OnOk result (IsFit live.new stack.new.items) }
    ensures cells { live.new.cells ≡ live.old.cells }
    ensures objects { live.new.objects ≡ live.old.objects }
    ensures names { live.new.names ≡ live.old.names }
{
    let done = do_file(&deed, &path, live, stack, low);
    drop(path);
    drop(deed);
    done
}

/// Whether something was done, as a value.
fn done_value(is_done: bool) -> Value
    ensures { result ≡ V.Int (pos (if is_done then 1 else 0)) }
{
    if is_done {
        Value::Int(1)
    } else {
        Value::Int(0)
    }
}

/// An object begins to shadow another one where it may: the job has come to 1, or to 0 where it may not, which takes the place of the
/// arguments.
///
/// # Errors
/// Where memory runs out, after which the state is closed.
pub(crate) fn enter_shadow(
    this: ObjId,
    o: ObjId,
    live: &mut Live,
    stack: &mut Vec<Value>,
    low: usize,
) -> Result<Stage, AllocError>
    requires low { low ≤ length stack.old.items }
    requires fit { IsFit live.old stack.old.items }
    ensures enters { IfOk result (λ t. (e : _) (turn : Turn) → Enters e (Stage.Shadow this o) low live.old turn stack.old.items t live.new turn stack.new.items) }
    ensures poised { IfOk result (λ t. (l : L) (turn : Turn) → IsPoised t l turn) }
    ensures on { IfOk result (λ t. IsStageOn t low (length stack.new.items)) }
    ensures ready { IfOk result (λ t. (objects : List (Option Object)) → IsStageReady objects t) }
    ensures left { IfOk result (λ t. stage_left t ≤ 0) }
    ensures closed { IsClosed live.new }
    ensures fit { OnOk result (IsFit live.new stack.new.items) }
    ensures cells { live.new.cells ≡ live.old.cells }
    ensures objects { live.new.objects ≡ live.old.objects }
    ensures names { live.new.names ≡ live.old.names }
{
    let is_begun = begin_shadowing(live, this, o)?;
    put_at(stack, low, done_value(is_begun))?;
    Ok(Stage::Value)
}

//! Jobs come to what they ask next.
ghost use Rattle.std.specs.Prelude.{◌≡◌, ◌≤◌, IfOk, OnOk, false, length};
ghost use Rattle.lp_cells.specs.Cells.{KeepsThere};
ghost use Rattle.lp_world.specs.Closed.{IsClosed};
ghost use Rattle.lp_step.specs.Steps.{IsFit, KeepsVariables};
ghost use Rattle.lp_calling.specs.Entering.{Enters, IsPoised, is_direct};
ghost use Rattle.lp_calling.specs.Jobs.{IsStageOn, IsStageReady, stage_left, stage_needs};

use crate::audience::{enter_audience, enter_say};
use crate::deeds::{enter_file, enter_shadow};
use crate::job::Stage;
use crate::moving::enter_moving;
use crate::search::enter_search;
use lp_efuns::caller::Turn;
use lp_instr::efun::Efun;
use lp_values::value::Value;
use lp_world::live::Live;
use std::alloc::AllocError;

/// Whether a stage asks or ends as it stands.
fn is_direct(stage: &Stage) -> bool
    ensures { result ≡ is_direct stage.now }
{
    match stage {
        Stage::Move(_) | Stage::Say(_, _) | Stage::TellEach(_) | Stage::Seek(_) => false,
        Stage::File(_, _) | Stage::Shadow(_, _) => false,
        _ => true,
    }
}

/// A stage that comes to something before it asks or ends goes on up to there.
///
/// # Errors
/// Where memory runs out, after which the state is closed.
fn come(
    efun: Efun,
    stage: Stage,
    live: &mut Live,
    turn: &mut Turn,
    stack: &mut Vec<Value>,
    low: usize,
) -> Result<Stage, AllocError>
    requires plain { stage_needs stage ≡ false }
    requires on { IsStageOn stage low (length stack.old.items) }
    requires ready { IsStageReady live.old.objects stage }
    requires fit { IsFit live.old stack.old.items }
    requires indirect { is_direct stage ≡ false }
    ensures enters { IfOk result (λ t. Enters efun stage low live.old turn.old stack.old.items t live.new turn.new stack.new.items) }
    ensures poised { IfOk result (λ t. IsPoised t live.new turn.new) }
    ensures on { IfOk result (λ t. IsStageOn t low (length stack.new.items)) }
    ensures ready { IfOk result (IsStageReady live.new.objects) }
    ensures left { IfOk result (λ t. stage_left t ≤ stage_left stage) }
    ensures closed { IsClosed live.new }
    ensures fit { OnOk result (IsFit live.new stack.new.items) }
    ensures stay { KeepsThere live.old.cells live.new.cells }
    ensures variables { KeepsVariables live.old.objects live.new.objects }
    ensures names { live.new.names ≡ live.old.names }
{
    match stage {
        Stage::Move(moving) => enter_moving(moving, live, turn),
        Stage::Say(this, text) => enter_say(live, turn, this, text),
        Stage::TellEach(audience) => enter_audience(audience, live),
        Stage::Seek(search) => enter_search(search, live),
        Stage::File(deed, path) => enter_file(deed, path, live, stack, low),
        Stage::Shadow(this, o) => enter_shadow(this, o, live, stack, low),
        Stage::Call(_, _) => unreachable!(),
        Stage::Target(_, _) => unreachable!(),
        Stage::Load(_) => unreachable!(),
        Stage::Items(_) => unreachable!(),
        Stage::Tell(_, _) => unreachable!(),
        Stage::Write(_) => unreachable!(),
        Stage::MasterLoad(_) => unreachable!(),
        Stage::Master(_, _) => unreachable!(),
        Stage::Value => unreachable!(),
        Stage::Zero => unreachable!(),
        Stage::Error(_) => unreachable!(),
    }
}

/// A stage goes on up to where it asks or ends: those who are told by their connections are told, and those who are not to be asked are
/// passed.
///
/// # Errors
/// Where memory runs out, after which the state is closed.
pub(crate) fn enter(
    efun: Efun,
    stage: Stage,
    live: &mut Live,
    turn: &mut Turn,
    stack: &mut Vec<Value>,
    low: usize,
) -> Result<Stage, AllocError>
    requires plain { stage_needs stage ≡ false }
    requires on { IsStageOn stage low (length stack.old.items) }
    requires ready { IsStageReady live.old.objects stage }
    requires fit { IsFit live.old stack.old.items }
    ensures enters { IfOk result (λ t. Enters efun stage low live.old turn.old stack.old.items t live.new turn.new stack.new.items) }
    ensures poised { IfOk result (λ t. IsPoised t live.new turn.new) }
    ensures on { IfOk result (λ t. IsStageOn t low (length stack.new.items)) }
    ensures ready { IfOk result (IsStageReady live.new.objects) }
    ensures left { IfOk result (λ t. stage_left t ≤ stage_left stage) }
    ensures closed { IsClosed live.new }
    ensures fit { OnOk result (IsFit live.new stack.new.items) }
    ensures stay { KeepsThere live.old.cells live.new.cells }
    ensures variables { KeepsVariables live.old.objects live.new.objects }
    ensures names { live.new.names ≡ live.old.names }
{
    if is_direct(&stage) {
        return Ok(stage);
    }
    come(efun, stage, live, turn, stack, low)
}

//! An object that becomes living.
ghost use Rattle.std.specs.Prelude.{◌≡◌, List, Some, slice_set, true};
ghost use Rattle.lp_values.specs.declared.value.Value.{Value as V};
ghost use Rattle.lp_cells.specs.Cells.{Store};
ghost use Rattle.lp_step.specs.Steps.{KeepsVariables};
ghost use Rattle.lp_world.specs.Closed.{IsClosed};
ghost use Rattle.lp_world.specs.Rows.{live_in, object_animated, row_at};
ghost use Rattle.lp_efuns.specs.Deeds.{Does};
ghost use Rattle.lp_efuns.specs.Plain.{IsDidThere};

use crate::answer::Did;
use crate::caller::{Caller, Turn};
use lp_instr::efun::Efun;
use lp_values::id::ObjId;
use lp_values::value::{Living, Value};
use lp_world::live::Live;

/// Makes an object living, and `this_player()`.
fn enable(live: &mut Live, turn: &mut Turn, this: ObjId)
    requires closed { IsClosed live.old }
    requires lives { live_in live.old.objects this ≡ true }
    ensures rows { live.new ≡ record live.old { objects = slice_set live.old.objects this.0 (object_animated true (row_at live.old.objects this.0)) } }
    ensures player { turn.new.player ≡ Some this }
    ensures commands { turn.new.commands.items ≡ turn.old.commands.items }
    ensures closed { IsClosed live.new }
    ensures variables { KeepsVariables live.old.objects live.new.objects }
{
    live.objects.set_living(this, true);
    turn.player = Some(this);
}

/// `enable_commands`: this object becomes living, and `this_player()`.
pub(crate) fn enable_commands(live: &mut Live, turn: &mut Turn, caller: &Caller<'_>) -> Did
    requires closed { IsClosed live.old }
    ensures does { (vs : List V) → Does Efun.EnableCommands caller.now vs live.old turn.old result live.new turn.new }
    ensures closed { IsClosed live.new }
    ensures there { (cells : Store) → IsDidThere cells result }
    ensures variables { KeepsVariables live.old.objects live.new.objects }
    ensures cells { live.new.cells ≡ live.old.cells }
    ensures names { live.new.names ≡ live.old.names }
{
    if !live.objects.is_live(caller.this) {
        return Did::Value(Value::Int(0));
    }
    enable(live, turn, caller.this);
    Did::Value(Value::Int(0))
}

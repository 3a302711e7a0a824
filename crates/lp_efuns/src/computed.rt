//! Efuns that compute, on the live state.
ghost use Rattle.std.specs.Prelude.{◌≡◌, All, IfOk, true};
ghost use Rattle.lp_values.specs.declared.id.ObjId.{ObjId};
ghost use Rattle.lp_cells.specs.Cells.{IsClosed as AreClosed};
ghost use Rattle.lp_cells.specs.Cells.{IsThere, KeepsThere};
ghost use Rattle.lp_language.specs.Course.{State};
ghost use Rattle.lp_language.specs.Operations.{cells_of, living};
ghost use Rattle.lp_meaning.specs.EfunArguments.{opened_args};
ghost use Rattle.lp_meaning.specs.ComputingEfuns.{computes, name_in};
ghost use Rattle.lp_meaning.specs.Questions.{group, Computes};
ghost use Rattle.lp_world.specs.Closed.{IsClosed};
ghost use Rattle.lp_world.specs.Rows.{live_in};
ghost use Rattle.lp_efuns.specs.Deeds.{CarriesOut, Does};
ghost use Rattle.lp_efuns.specs.Names.{AreNamed, name_at};
ghost use Rattle.lp_efuns.specs.Plain.{IsDidThere};
ghost use Rattle.lp_efuns.specs.declared.caller.Caller.{Caller};
ghost use Rattle.lp_efuns.specs.declared.caller.Turn.{Turn};

use crate::answer::{Did, EfunFault};
use crate::carrying::did_of;
use crate::known::KnownObjects;
use lp_cells::cells::Cells;
use lp_instr::efun::Efun;
use lp_objects::objects::Objects;
use lp_value_efuns::compute::compute;
use lp_values::value::Value;
use lp_world::live::Live;
use lp_world::objects::ObjectTable;
use std::alloc::Global;

/// What an efun that computes comes to, by the objects, their names and the cells.
fn compute_on(
    alloc: Global,
    efun: Efun,
    args: &[Value],
    cells: &mut Cells,
    objects: &ObjectTable,
    names: &Objects,
) -> Result<Did, EfunFault>
    requires closed { AreClosed cells.old }
    requires there { All (IsThere cells.old) args.now }
    requires named { AreNamed names.now }
    ensures carries { IfOk result (λ d. (s : State) → living s ≡ live_in objects.now → ((o : ObjId) → live_in objects.now o ≡ true → name_in s.world o ≡ name_at names.now o) → cells_of s ≡ cells.old → CarriesOut (computes efun s args.now (opened_args s args.now)) cells.old d cells.new) }
    ensures stay { KeepsThere cells.old cells.new }
    ensures closed { AreClosed cells.new }
    ensures there { IfOk result (IsDidThere cells.new) }
{
    let answer = compute(alloc, efun, args, cells, &KnownObjects { objects, names });
    did_of(answer)
}

/// What an efun that computes comes to. A result in a new cell is made; else nothing changes.
pub(crate) fn computed(live: &mut Live, efun: Efun, args: &[Value]) -> Result<Did, EfunFault>
    requires closed { IsClosed live.old }
    requires there { All (IsThere live.old.cells) args.now }
    requires named { AreNamed live.old.names }
    requires computes { group efun ≡ Computes }
    ensures does { IfOk result (λ d. (caller : Caller) (turn : Turn) → Does efun caller args.now live.old turn d live.new turn) }
    ensures closed { IsClosed live.new }
    ensures stay { KeepsThere live.old.cells live.new.cells }
    ensures there { IfOk result (IsDidThere live.new.cells) }
    ensures objects { live.new.objects ≡ live.old.objects }
    ensures names { live.new.names ≡ live.old.names }
{
    compute_on(
        live.alloc,
        efun,
        args,
        &mut live.cells,
        &live.objects,
        &live.names,
    )
}

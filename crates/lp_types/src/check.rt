//! The check of a unit's types.
ghost use Rattle.std.specs.Prelude.{IfErr, OnOk};
ghost use Rattle.lp_tree.specs.UnitView.{unit_of};
ghost use Rattle.lp_types.specs.Clear.{WellTypedIsMeant};
ghost use Rattle.lp_types.specs.Outcomes.{IsToldOf};
ghost use Rattle.lp_types.specs.TypeFaults.{IsWellTyped, type_faults};

use crate::fault::TypeFaults;
use crate::unit::items_faults;
use lp_code::names::Names2;
use lp_code::tables::Tables;
use lp_tree::pragma::Pragmas;
use lp_tree::unit::Unit;
use lp_types_expr::around::Surroundings;
use std::alloc::Global;

/// Checks the types of a unit, with its pragmas, the tables of its parents, one for each `inherit`, and the names of the
/// simul efuns. An `Ok` says that it is well typed; else all its faults are told, in the order of the tokens. Each look-up
/// of a name takes the same time, however many there are.
pub fn check(
    alloc: Global,
    unit: &Unit,
    pragmas: &Pragmas,
    parents: &[Tables],
    simuls: &Names2,
) -> Result<(), TypeFaults>
    ensures well_typed { OnOk result (IsWellTyped (unit_of unit.now) pragmas.now parents.now simuls.now) }
    ensures faults { IfErr result (IsToldOf (type_faults (unit_of unit.now) pragmas.now parents.now simuls.now)) }
{
    let around = Surroundings::new(alloc, pragmas.types, unit, parents, simuls)?;
    let faults = items_faults(alloc, &around, unit)?;
    if faults.is_empty() {
        return Ok(());
    }
    Err(TypeFaults::Faults(faults))
}

/// A unit that is spelled and well typed has a meaning everywhere: no name is unknown, and each place is a place.
pub fn law_meaning()
    ensures { WellTypedIsMeant }
{}

//! The layout of a unit.
ghost use Rattle.std.specs.Prelude.{◌≡◌, IfOk, IfErr, None, length};
ghost use Rattle.lp_tree.specs.UnitView.{unit_of};
ghost use Rattle.lp_layout.specs.Layout.{AreInside, IsSpelled, inherits, laid_tables};
ghost use Rattle.lp_layout.specs.LayoutFaults.{layout_fault};
ghost use Rattle.lp_layout.specs.Caused.{IsCaused};

use crate::fault::InheritFault;
use crate::faults::items_fault;
use crate::tables::tables;
use lp_code::tables::Tables;
use lp_tree::fault::FaultKind;
use lp_tree::unit::Unit;
use std::alloc::Global;

/// The tables of a unit over those of its parents, or the first fault of the layout. There is a table for each
/// `inherit`, in order, and its rows stand in parts of its own. What the unit does not tell is left out: the path, the
/// versions of the parents, the pragmas, and the version of the last part, which is the unit's own. Takes time in
/// proportion to the unit and the rows of the parents.
pub fn layout(alloc: Global, unit: &Unit, parents: &[Tables]) -> Result<Tables, InheritFault>
    requires inside { AreInside parents.now }
    requires each { length parents.now ≡ inherits (unit_of unit.now) }
    ensures laid { IfOk result (λ t. IsSpelled (unit_of unit.now) → (layout_fault (unit_of unit.now) parents.now ≡ None) × (t ≡ laid_tables (unit_of unit.now) parents.now)) }
    ensures fault { IfErr result (λ e. IsSpelled (unit_of unit.now) → IsCaused (layout_fault (unit_of unit.now) parents.now) e) }
{
    let items = unit.items.as_slice();
    let tables = tables(alloc, items, parents)?;
    let fault = items_fault(alloc, tables.is_none(), items, parents)?;
    match fault {
        Some(fault) => Err(InheritFault::At {
            line: fault.line,
            kind: fault.kind,
        }),
        None => match tables {
            Some(tables) => Ok(tables),
            // Where nothing has a fault, nothing is too large.
            None => Err(InheritFault::At {
                line: 0,
                kind: FaultKind::TooManyNames,
            }),
        },
    }
}

//! Assignments of values that do not fit.
ghost use Rattle.std.specs.Prelude.{◌≡◌, ◌++◌, ◌&&◌, not, OnOk};
ghost use Rattle.lp_tree.specs.TreeView.{tree_of};
ghost use Rattle.lp_types_expr.specs.ExprFaults.{assignment_guilt, assignments, when};
ghost use Rattle.lp_types_expr.specs.Kinds.{fit};
ghost use Rattle.lp_types_expr.specs.Known.{is_strong, type_of};
ghost use Rattle.lp_types_expr.specs.Scopes.{visible};
ghost use Rattle.lp_types_expr.specs.Surroundings.{around_of};
ghost use Rattle.lp_types_expr.specs.Visits.{listed, visited};
ghost use Rattle.lp_types_expr.specs.Walk.{all_at};

use crate::around::Surroundings;
use crate::call::add_when;
use crate::fault::FaultAt;
use crate::kind::fit;
use crate::scopes::Scopes;
use crate::types::type_of;
use crate::visit::Visit;
use crate::visits::visits;
use lp_tree::expr::Expr;
use lp_tree::fault::FaultKind;
use lp_tree::operator::AssignOp;
use std::alloc::AllocError;

// Adds a fault where the types of a place and of the value that it gets by `=` do not fit.
fn misfit(
    around: &Surroundings<'_>,
    scopes: &Scopes,
    place: &Expr,
    value: &Expr,
    line: u32,
    faults: &mut Vec<FaultAt>,
) -> Result<(), AllocError>
    ensures { OnOk result (faults.new.items ≡ faults.old.items ++ all_at line (when (is_strong (around_of around.now).mode && not (fit (type_of (around_of around.now) (visible scopes.now) (tree_of place.now)) (type_of (around_of around.now) (visible scopes.now) (tree_of value.now)))) FaultKind.WrongType)) }
{
    let wanted = type_of(around, scopes, place);
    let given = type_of(around, scopes, value);
    let is_fault = around.is_strong() && !fit(wanted, given);
    add_when(is_fault, line, FaultKind::WrongType, faults)
}

// Adds a fault where an expression is an assignment by `=` whose value does not fit.
fn own_misfit(
    around: &Surroundings<'_>,
    scopes: &Scopes,
    e: &Expr,
    line: u32,
    faults: &mut Vec<FaultAt>,
) -> Result<(), AllocError>
    ensures { OnOk result (faults.new.items ≡ faults.old.items ++ all_at line (assignment_guilt (around_of around.now) (visible scopes.now) (tree_of e.now))) }
{
    match e {
        Expr::Assign {
            op,
            place,
            value,
            ..
        } => match op {
            AssignOp::Set => misfit(around, scopes, place, value, line, faults),
            _ => Ok(()),
        },
        _ => Ok(()),
    }
}

// Adds the misfits of some parts of an expression, all at one line.
fn part_misfits(
    around: &Surroundings<'_>,
    scopes: &Scopes,
    parts: &[Visit<'_>],
    line: u32,
    faults: &mut Vec<FaultAt>,
) -> Result<(), AllocError>
    ensures { OnOk result (faults.new.items ≡ faults.old.items ++ all_at line (listed (assignment_guilt (around_of around.now) (visible scopes.now)) (visited parts.now))) }
{
    for i in 0..parts.len() {
        own_misfit(around, scopes, parts[i].node, line, faults)?;
    }
    Ok(())
}

/// Adds a fault at a line for each assignment by `=` in an expression whose value does not fit.
pub fn assignments(
    around: &Surroundings<'_>,
    scopes: &Scopes,
    e: &Expr,
    line: u32,
    faults: &mut Vec<FaultAt>,
) -> Result<(), AllocError>
    ensures { OnOk result (faults.new.items ≡ faults.old.items ++ all_at line (assignments (around_of around.now) (visible scopes.now) (tree_of e.now))) }
{
    let mut parts = Vec::new(*faults.allocator());
    visits(e, &mut parts)?;
    part_misfits(around, scopes, parts.as_slice(), line, faults)
}

//! Faults that are found.
ghost use Rattle.std.specs.Prelude.{◌≡◌, ◌++◌, OnOk, option_map};
ghost use Rattle.lp_tree.specs.TreeView.{tree_of};
ghost use Rattle.lp_types_expr.specs.ExprFaults.{assignments_if, expr_faults_if, when};
ghost use Rattle.lp_types_expr.specs.Scopes.{visible};
ghost use Rattle.lp_types_expr.specs.Surroundings.{around_of};
ghost use Rattle.lp_types_expr.specs.Walk.{all_at};

use lp_tree::expr::Expr;
use lp_tree::fault::FaultKind;
use lp_types_expr::around::Surroundings;
use lp_types_expr::assign::assignments;
use lp_types_expr::fault::FaultAt;
use lp_types_expr::scopes::Scopes;
use lp_types_expr::walk::expr_faults;
use std::alloc::AllocError;

/// Adds a fault, if it is one.
pub(crate) fn tell(
    faults: &mut Vec<FaultAt>,
    line: u32,
    kind: FaultKind,
    is_so: bool,
) -> Result<(), AllocError>
    ensures { OnOk result (faults.new.items ≡ faults.old.items ++ all_at line (when is_so kind)) }
{
    if is_so {
        faults.push(FaultAt { line, kind })?;
    }
    Ok(())
}

/// Adds the faults of an expression, if there is one.
pub(crate) fn faults_if(
    around: &Surroundings<'_>,
    scopes: &Scopes,
    e: &Option<Expr>,
    faults: &mut Vec<FaultAt>,
) -> Result<(), AllocError>
    ensures { OnOk result (faults.new.items ≡ faults.old.items ++ expr_faults_if (around_of around.now) (visible scopes.now) (option_map tree_of e.now)) }
{
    match e {
        None => Ok(()),
        Some(e) => expr_faults(around, scopes, e, faults),
    }
}

/// Adds the misfits of the assignments in an expression, if there is one.
pub(crate) fn misfits_if(
    around: &Surroundings<'_>,
    scopes: &Scopes,
    e: &Option<Expr>,
    line: u32,
    faults: &mut Vec<FaultAt>,
) -> Result<(), AllocError>
    ensures { OnOk result (faults.new.items ≡ faults.old.items ++ all_at line (assignments_if (around_of around.now) (visible scopes.now) (option_map tree_of e.now))) }
{
    match e {
        None => Ok(()),
        Some(e) => assignments(around, scopes, e, line, faults),
    }
}

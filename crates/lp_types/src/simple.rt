//! Faults of statements that hold no others.
ghost use Rattle.std.specs.Prelude.{◌≡◌, ◌++◌, ◌&&◌, OnOk, option_map};
ghost use Rattle.lp_tree.specs.TreeView.{tree_of};
ghost use Rattle.lp_tree.specs.declared.fault.FaultKind.TheVariants.{BadReturn};
ghost use Rattle.lp_types_expr.specs.ExprFaults.{assignments, assignments_if, expr_faults_if, guilt, when};
ghost use Rattle.lp_types_expr.specs.Known.{is_strong};
ghost use Rattle.lp_types_expr.specs.Scopes.{visible};
ghost use Rattle.lp_types_expr.specs.Surroundings.{around_of};
ghost use Rattle.lp_types_expr.specs.Walk.{all_at, at_first, behind_first};
ghost use Rattle.lp_types.specs.Pieces.{test_faults};
ghost use Rattle.lp_types.specs.TypeFaults.{is_bad_return, type_if};

use crate::found::{faults_if, misfits_if, tell};
use lp_tree::expr::Expr;
use lp_tree::fault::FaultKind;
use lp_tree::types::TypeName;
use lp_types_expr::around::Surroundings;
use lp_types_expr::assign::assignments;
use lp_types_expr::fault::FaultAt;
use lp_types_expr::kind::{ExprType, fits, is_void, kind_of};
use lp_types_expr::scopes::Scopes;
use lp_types_expr::types::type_of;
use lp_types_expr::walk::{behind_faults, expr_faults, first_faults};
use std::alloc::AllocError;

/// Adds the faults of an expression that is a statement.
pub(crate) fn run_faults(
    around: &Surroundings<'_>,
    scopes: &Scopes,
    line: u32,
    e: &Expr,
    faults: &mut Vec<FaultAt>,
) -> Result<(), AllocError>
    ensures { OnOk result (faults.new.items ≡ faults.old.items
        ++ (all_at line (at_first (guilt (around_of around.now) (visible scopes.now)) (tree_of e.now) ++ assignments (around_of around.now) (visible scopes.now) (tree_of e.now))
        ++ behind_first (guilt (around_of around.now) (visible scopes.now)) (tree_of e.now))) }
{
    first_faults(around, scopes, e, line, faults)?;
    assignments(around, scopes, e, line, faults)?;
    behind_faults(around, scopes, e, faults)?;
    Ok(())
}

/// Adds the faults of the expression that a statement looks at first.
pub(crate) fn test_faults(
    around: &Surroundings<'_>,
    scopes: &Scopes,
    line: u32,
    e: &Expr,
    faults: &mut Vec<FaultAt>,
) -> Result<(), AllocError>
    ensures { OnOk result (faults.new.items ≡ faults.old.items ++ test_faults (around_of around.now) scopes.now line (tree_of e.now)) }
{
    assignments(around, scopes, e, line, faults)?;
    expr_faults(around, scopes, e, faults)?;
    Ok(())
}

// The type of a value, if there is one.
fn type_if(around: &Surroundings<'_>, scopes: &Scopes, e: &Option<Expr>) -> Option<ExprType>
    ensures { result ≡ type_if (around_of around.now) (visible scopes.now) (option_map tree_of e.now) }
{
    match e {
        None => None,
        Some(e) => Some(type_of(around, scopes, e)),
    }
}

// Whether a value, or none, is not what a function should return.
fn is_bad_return(answer: Option<TypeName>, value: Option<ExprType>) -> bool
    ensures { result ≡ is_bad_return answer value }
{
    match value {
        Some(t) => is_void(kind_of(answer)) || !fits(kind_of(answer), t),
        None => match answer {
            Some(ty) => !is_void(ty),
            None => false,
        },
    }
}

// Whether a `return` of a value, or of none, is a fault.
fn is_fault(around: &Surroundings<'_>, scopes: &Scopes, value: &Option<Expr>) -> bool
    ensures { result ≡ (is_strong (around_of around.now).mode && is_bad_return scopes.now.answer (type_if (around_of around.now) (visible scopes.now) (option_map tree_of value.now))) }
{
    if !around.is_strong() {
        return false;
    }
    is_bad_return(scopes.answer(), type_if(around, scopes, value))
}

/// Adds the faults of a `return`.
pub(crate) fn return_faults(
    around: &Surroundings<'_>,
    scopes: &Scopes,
    line: u32,
    value: &Option<Expr>,
    faults: &mut Vec<FaultAt>,
) -> Result<(), AllocError>
    ensures { OnOk result (faults.new.items ≡ faults.old.items
        ++ (all_at line (assignments_if (around_of around.now) (visible scopes.now) (option_map tree_of value.now)
        ++ when (is_strong (around_of around.now).mode && is_bad_return scopes.now.answer (type_if (around_of around.now) (visible scopes.now) (option_map tree_of value.now))) BadReturn)
        ++ expr_faults_if (around_of around.now) (visible scopes.now) (option_map tree_of value.now))) }
{
    misfits_if(around, scopes, value, line, faults)?;
    let bad = is_fault(around, scopes, value);
    tell(faults, line, FaultKind::BadReturn, bad)?;
    faults_if(around, scopes, value, faults)?;
    Ok(())
}

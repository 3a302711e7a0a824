//! The faults of expressions.
ghost use Rattle.std.specs.Prelude.{◌≡◌, ◌++◌, OnOk};
ghost use Rattle.lp_tree.specs.TreeView.{tree_of};
ghost use Rattle.lp_types_expr.specs.ExprFaults.{expr_faults, guilt};
ghost use Rattle.lp_types_expr.specs.Meant.{FaultlessHasMeaning};
ghost use Rattle.lp_types_expr.specs.Scopes.{visible};
ghost use Rattle.lp_types_expr.specs.Surroundings.{around_of};
ghost use Rattle.lp_types_expr.specs.Visits.{judged, visited};
ghost use Rattle.lp_types_expr.specs.Walk.{all_at, at_first, behind_first};

use crate::around::Surroundings;
use crate::call::{add_when, call_faults};
use crate::fault::FaultAt;
use crate::scopes::Scopes;
use crate::surroundings::efun_callee;
use crate::visit::Visit;
use crate::visits::{behinds, firsts, visits};
use lp_tree::expr::Expr;
use lp_tree::fault::FaultKind;
use std::alloc::AllocError;

// Adds what an expression alone is guilty of, at a line.
fn own_faults(
    around: &Surroundings<'_>,
    scopes: &Scopes,
    e: &Expr,
    line: u32,
    faults: &mut Vec<FaultAt>,
) -> Result<(), AllocError>
    ensures { OnOk result (faults.new.items ≡ faults.old.items ++ all_at line (guilt (around_of around.now) (visible scopes.now) (tree_of e.now))) }
{
    match e {
        Expr::Name { name, .. } => {
            let is_fault = around.variable_kind(scopes, name).is_none();
            add_when(is_fault, line, FaultKind::UnknownName, faults)
        }
        Expr::Call { name, args, .. } => {
            let called = around.plain_callee(name);
            call_faults(around, scopes, called, args, line, faults)
        }
        Expr::EfunCall { name, args, .. } => {
            let called = efun_callee(name);
            call_faults(around, scopes, called, args, line, faults)
        }
        Expr::ParentCall { name, args, .. } => {
            let called = around.parent_callee(name);
            call_faults(around, scopes, called, args, line, faults)
        }
        Expr::NamedParentCall {
            parent,
            name,
            args,
            ..
        } => {
            let called = around.named_callee(parent, name);
            call_faults(around, scopes, called, args, line, faults)
        }
        _ => Ok(()),
    }
}

// Adds what some parts of an expression are guilty of, each at its line.
fn part_faults(
    around: &Surroundings<'_>,
    scopes: &Scopes,
    parts: &[Visit<'_>],
    faults: &mut Vec<FaultAt>,
) -> Result<(), AllocError>
    ensures { OnOk result (faults.new.items ≡ faults.old.items ++ judged (guilt (around_of around.now) (visible scopes.now)) (visited parts.now)) }
{
    for i in 0..parts.len() {
        let part = &parts[i];
        own_faults(around, scopes, part.node, part.line, faults)?;
    }
    Ok(())
}

/// Adds the faults at an expression's first token, at a line.
#[tactic(auto, using(crate::proofs::Judged::heads))]
pub fn first_faults(
    around: &Surroundings<'_>,
    scopes: &Scopes,
    e: &Expr,
    line: u32,
    faults: &mut Vec<FaultAt>,
) -> Result<(), AllocError>
    ensures { OnOk result (faults.new.items ≡ faults.old.items ++ all_at line (at_first (guilt (around_of around.now) (visible scopes.now)) (tree_of e.now))) }
{
    let mut parts = Vec::new(*faults.allocator());
    firsts(e, line, &mut parts)?;
    part_faults(around, scopes, parts.as_slice(), faults)
}

/// Adds the faults of an expression behind its first token, in the order of the tokens.
#[tactic(auto, using(crate::proofs::Judged::tails))]
pub fn behind_faults(
    around: &Surroundings<'_>,
    scopes: &Scopes,
    e: &Expr,
    faults: &mut Vec<FaultAt>,
) -> Result<(), AllocError>
    ensures { OnOk result (faults.new.items ≡ faults.old.items ++ behind_first (guilt (around_of around.now) (visible scopes.now)) (tree_of e.now)) }
{
    let mut parts = Vec::new(*faults.allocator());
    behinds(e, &mut parts)?;
    part_faults(around, scopes, parts.as_slice(), faults)
}

/// Adds the faults of an expression, in the order of their tokens.
#[tactic(auto, using(crate::proofs::Judged::whole))]
pub fn expr_faults(
    around: &Surroundings<'_>,
    scopes: &Scopes,
    e: &Expr,
    faults: &mut Vec<FaultAt>,
) -> Result<(), AllocError>
    ensures { OnOk result (faults.new.items ≡ faults.old.items ++ expr_faults (around_of around.now) (visible scopes.now) (tree_of e.now)) }
{
    let mut parts = Vec::new(*faults.allocator());
    visits(e, &mut parts)?;
    part_faults(around, scopes, parts.as_slice(), faults)
}

/// An expression without faults has a meaning everywhere: each name means a variable, each call calls somebody, and each
/// place is a place.
pub fn law_meaning()
    ensures { FaultlessHasMeaning }
{}

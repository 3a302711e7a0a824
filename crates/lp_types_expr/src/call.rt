//! What is wrong with calls.
ghost use Rattle.std.specs.Prelude.{◌≡◌, ◌++◌, OnOk, length, map, Bool};
ghost use Rattle.lp_tree.specs.Trees.{trees};
ghost use Rattle.lp_tree.specs.TreeView.{tree_of};
ghost use Rattle.lp_types_expr.specs.Calls.{callee_of};
ghost use Rattle.lp_types_expr.specs.ExprFaults.{call_kinds, is_wrong_count, misfits, types_of, when};
ghost use Rattle.lp_types_expr.specs.Known.{allows, is_strong};
ghost use Rattle.lp_types_expr.specs.Scopes.{visible};
ghost use Rattle.lp_types_expr.specs.Surroundings.{around_of};
ghost use Rattle.lp_types_expr.specs.Walk.{all_at};

use crate::around::Surroundings;
use crate::called::Called;
use crate::fault::FaultAt;
use crate::kind::fits;
use crate::scopes::Scopes;
use crate::signature::Signature;
use crate::types::type_of;
use lp_instr::efun::Efun;
use lp_tree::expr::Expr;
use lp_tree::fault::FaultKind;
use lp_tree::types::TypeName;
use std::alloc::AllocError;

// Adds a fault where it is one.
pub(crate) fn add_when(
    is_fault: bool,
    line: u32,
    kind: FaultKind,
    faults: &mut Vec<FaultAt>,
) -> Result<(), AllocError>
    ensures { OnOk result (faults.new.items ≡ faults.old.items ++ all_at line (when is_fault kind)) }
{
    if is_fault {
        faults.push(FaultAt { line, kind })?;
    }
    Ok(())
}

// Whether an efun may be called with so many arguments.
fn allows(efun: Efun, count: usize) -> bool
    ensures { result ≡ allows efun count }
{
    let arity = efun.arity();
    if count < arity.least as usize {
        return false;
    }
    match arity.most {
        None => true,
        Some(most) => count <= most as usize,
    }
}

// Too many arguments, or too few without `varargs`.
fn is_wrong_count(signature: &Signature, count: usize) -> bool
    ensures { result ≡ is_wrong_count signature.now count }
{
    let params = signature.params.as_slice().len();
    params < count || (count < params && !signature.varargs)
}

// Adds a fault for each argument that does not fit its parameter.
fn misfits(
    around: &Surroundings<'_>,
    scopes: &Scopes,
    params: &[TypeName],
    args: &[Expr],
    line: u32,
    faults: &mut Vec<FaultAt>,
) -> Result<(), AllocError>
    ensures { OnOk result (faults.new.items ≡ faults.old.items ++ all_at line (misfits params.now (types_of (around_of around.now) (visible scopes.now) (trees (map tree_of args.now))))) }
{
    for i in 0..params.len() {
        if i >= args.len() {
            return Ok(());
        }
        let param = &params[i];
        let is_fault = !fits(*param, type_of(around, scopes, &args[i]));
        add_when(is_fault, line, FaultKind::WrongType, faults)?;
    }
    Ok(())
}

// Adds what is wrong with a call of a function.
#[tactic(auto, using(crate::proofs::Joins::more, crate::proofs::Joins::more_if))]
fn function_faults(
    around: &Surroundings<'_>,
    scopes: &Scopes,
    signature: &Signature,
    args: &[Expr],
    line: u32,
    faults: &mut Vec<FaultAt>,
) -> Result<(), AllocError>
    ensures { OnOk result (faults.new.items ≡ faults.old.items ++ all_at line (when (is_wrong_count signature.now (length args.now)) FaultKind.WrongCount ++ misfits signature.now.params (types_of (around_of around.now) (visible scopes.now) (trees (map tree_of args.now))))) }
{
    let is_fault = is_wrong_count(signature, args.len());
    add_when(is_fault, line, FaultKind::WrongCount, faults)?;
    misfits(
        around,
        scopes,
        signature.params.as_slice(),
        args,
        line,
        faults,
    )
}

/// Adds what is wrong with a call, at a line.
#[tactic(auto, using(crate::proofs::Misfits::count_types))]
pub fn call_faults(
    around: &Surroundings<'_>,
    scopes: &Scopes,
    called: Called<'_>,
    args: &[Expr],
    line: u32,
    faults: &mut Vec<FaultAt>,
) -> Result<(), AllocError>
    ensures { OnOk result (faults.new.items ≡ faults.old.items ++ all_at line (call_kinds (is_strong (around_of around.now).mode) (callee_of called.entry) (types_of (around_of around.now) (visible scopes.now) (trees (map tree_of args.now))))) }
{
    match called {
        Called::Nobody => add_when(true, line, FaultKind::UnknownFunction, faults),
        Called::ASimul | Called::TwoParents => Ok(()),
        Called::AnEfun(efun) => {
            let is_fault = !allows(efun, args.len());
            add_when(is_fault, line, FaultKind::WrongCount, faults)
        }
        Called::AFunction(signature) => {
            if !around.is_strong() {
                return Ok(());
            }
            function_faults(around, scopes, signature, args, line, faults)
        }
    }
}

//! The heads of loops that declare variables.
ghost use Rattle.std.specs.Prelude.{◌≡◌, ◌++◌, OnOk, option_map};
ghost use Rattle.lp_tree.specs.StatementView.{init_of};
ghost use Rattle.lp_tree.specs.TreeView.{tree_of};
ghost use Rattle.lp_types_expr.specs.Scopes.{declaring, inside};
ghost use Rattle.lp_types_expr.specs.Surroundings.{around_of};
ghost use Rattle.lp_types_expr.specs.Walk.{all_at};
ghost use Rattle.lp_types.specs.Pieces.{head_faults, head_misfits, over_faults};
ghost use Rattle.lp_types.specs.TypeFaults.{declares_each, declares_first, declares_second, each_faults, init_assignments, init_faults, second_faults};

use crate::declaring::{misfits, names_faults};
use crate::found::{faults_if, misfits_if, tell};
use lp_tree::expr::Expr;
use lp_tree::fault::FaultKind;
use lp_tree::stmt::{Each, Init};
use lp_types_expr::around::Surroundings;
use lp_types_expr::assign::assignments;
use lp_types_expr::fault::FaultAt;
use lp_types_expr::scopes::Scopes;
use lp_types_expr::walk::expr_faults;
use std::alloc::AllocError;

// Adds the misfits of the assignments in the first part of a `for`, and declares what it declares.
fn init_misfits(
    around: &Surroundings<'_>,
    scopes: &mut Scopes,
    init: &Init,
    line: u32,
    faults: &mut Vec<FaultAt>,
) -> Result<(), AllocError>
    ensures faults { OnOk result (faults.new.items ≡ faults.old.items ++ all_at line (init_assignments (around_of around.now) scopes.old (init_of init.now))) }
    ensures scope { OnOk result (scopes.new ≡ declaring scopes.old (declares_first (init_of init.now))) }
{
    match init {
        Init::Nothing => Ok(()),
        Init::Declares(local) => misfits(around, scopes, local, line, faults),
        Init::Runs(e) => assignments(around, scopes, e, line, faults),
    }
}

// Adds the faults of the first part of a `for`, and declares what it declares.
fn init_faults(
    around: &Surroundings<'_>,
    scopes: &mut Scopes,
    init: &Init,
    faults: &mut Vec<FaultAt>,
) -> Result<(), AllocError>
    ensures faults { OnOk result (faults.new.items ≡ faults.old.items ++ init_faults (around_of around.now) scopes.old (init_of init.now)) }
    ensures scope { OnOk result (scopes.new ≡ declaring scopes.old (declares_first (init_of init.now))) }
{
    match init {
        Init::Nothing => Ok(()),
        Init::Declares(local) => names_faults(around, scopes, local, faults),
        Init::Runs(e) => expr_faults(around, scopes, e, faults),
    }
}

// Adds the misfits of the assignments in the head of a `for`, for which its variables are declared in a block of their own.
fn head_misfits(
    around: &Surroundings<'_>,
    scopes: &mut Scopes,
    line: u32,
    init: &Init,
    test: &Option<Expr>,
    step: &Option<Expr>,
    faults: &mut Vec<FaultAt>,
) -> Result<(), AllocError>
    ensures faults { OnOk result (faults.new.items ≡ faults.old.items ++ all_at line (head_misfits (around_of around.now) scopes.old (init_of init.now) (option_map tree_of test.now) (option_map tree_of step.now))) }
    ensures scope { OnOk result (scopes.new ≡ scopes.old) }
{
    let mark = scopes.enter();
    init_misfits(around, scopes, init, line, faults)?;
    misfits_if(around, scopes, test, line, faults)?;
    misfits_if(around, scopes, step, line, faults)?;
    scopes.leave(mark);
    Ok(())
}

/// Adds the faults of the head of a `for`, and declares its variables.
pub(crate) fn head_faults(
    around: &Surroundings<'_>,
    scopes: &mut Scopes,
    line: u32,
    init: &Init,
    test: &Option<Expr>,
    step: &Option<Expr>,
    faults: &mut Vec<FaultAt>,
) -> Result<(), AllocError>
    ensures faults { OnOk result (faults.new.items ≡ faults.old.items ++ head_faults (around_of around.now) scopes.old line (init_of init.now) (option_map tree_of test.now) (option_map tree_of step.now)) }
    ensures scope { OnOk result (scopes.new ≡ declaring scopes.old (declares_first (init_of init.now))) }
{
    head_misfits(around, scopes, line, init, test, step, faults)?;
    init_faults(around, scopes, init, faults)?;
    faults_if(around, scopes, test, faults)?;
    faults_if(around, scopes, step, faults)?;
    Ok(())
}

// Declares a variable of a `foreach` that has a type.
fn declare_each(scopes: &mut Scopes, each: &Each) -> Result<(), AllocError>
    ensures { OnOk result (scopes.new ≡ declaring scopes.old (declares_each each.now)) }
{
    match each.type_name {
        None => Ok(()),
        Some(kind) => scopes.declare(&each.name, kind),
    }
}

// Declares the second variable of a `foreach`, if there is one and it has a type.
fn declare_second(scopes: &mut Scopes, second: &Option<Each>) -> Result<(), AllocError>
    ensures { OnOk result (scopes.new ≡ declaring scopes.old (declares_second second.now)) }
{
    match second {
        None => Ok(()),
        Some(each) => declare_each(scopes, each),
    }
}

// Adds the fault of a variable of a `foreach`.
fn each_faults(
    around: &Surroundings<'_>,
    scopes: &Scopes,
    each: &Each,
    faults: &mut Vec<FaultAt>,
) -> Result<(), AllocError>
    ensures { OnOk result (faults.new.items ≡ faults.old.items ++ each_faults (around_of around.now) scopes.now each.now) }
{
    match each.type_name {
        Some(_) => tell(
            faults,
            each.line,
            FaultKind::DoubleName,
            scopes.is_double(&each.name),
        ),
        None => {
            let known = around.variable_kind(scopes, &each.name).is_some();
            tell(faults, each.line, FaultKind::UnknownName, !known)
        }
    }
}

// Adds the fault of the second variable of a `foreach`, if there is one.
fn second_faults(
    around: &Surroundings<'_>,
    scopes: &Scopes,
    second: &Option<Each>,
    faults: &mut Vec<FaultAt>,
) -> Result<(), AllocError>
    ensures { OnOk result (faults.new.items ≡ faults.old.items ++ second_faults (around_of around.now) scopes.now second.now) }
{
    match second {
        None => Ok(()),
        Some(each) => each_faults(around, scopes, each, faults),
    }
}

// Adds the faults of the variables of a `foreach`, which are declared for it in a block of their own.
fn variables_faults(
    around: &Surroundings<'_>,
    scopes: &mut Scopes,
    first: &Each,
    second: &Option<Each>,
    faults: &mut Vec<FaultAt>,
) -> Result<(), AllocError>
    ensures faults { OnOk result (faults.new.items ≡ faults.old.items
        ++ (each_faults (around_of around.now) (inside scopes.old) first.now ++ second_faults (around_of around.now) (declaring (inside scopes.old) (declares_each first.now)) second.now)) }
    ensures scope { OnOk result (scopes.new ≡ scopes.old) }
{
    let mark = scopes.enter();
    each_faults(around, scopes, first, faults)?;
    declare_each(scopes, first)?;
    second_faults(around, scopes, second, faults)?;
    scopes.leave(mark);
    Ok(())
}

/// Adds the faults of the head of a `foreach`. What it goes over does not see the variables.
pub(crate) fn over_faults(
    around: &Surroundings<'_>,
    scopes: &mut Scopes,
    line: u32,
    first: &Each,
    second: &Option<Each>,
    over: &Expr,
    faults: &mut Vec<FaultAt>,
) -> Result<(), AllocError>
    ensures faults { OnOk result (faults.new.items ≡ faults.old.items ++ over_faults (around_of around.now) scopes.old line first.now second.now (tree_of over.now)) }
    ensures scope { OnOk result (scopes.new ≡ scopes.old) }
{
    assignments(around, scopes, over, line, faults)?;
    variables_faults(around, scopes, first, second, faults)?;
    expr_faults(around, scopes, over, faults)?;
    Ok(())
}

/// Declares the variables of a `foreach`.
pub(crate) fn declare_variables(
    scopes: &mut Scopes,
    first: &Each,
    second: &Option<Each>,
) -> Result<(), AllocError>
    ensures { OnOk result (scopes.new ≡ declaring scopes.old (declares_each first.now ++ declares_second second.now)) }
{
    declare_each(scopes, first)?;
    declare_second(scopes, second)?;
    Ok(())
}

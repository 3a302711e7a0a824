//! Declarations of locals.
ghost use Rattle.std.specs.Prelude.{◌≡◌, [], ◌∷◌, ◌++◌, OnOk, map, option_map};
ghost use Rattle.lp_tree.specs.StatementView.{declarator_of};
ghost use Rattle.lp_tree.specs.TreeView.{tree_of};
ghost use Rattle.lp_tree.specs.declared.fault.FaultKind.TheVariants.{WrongType};
ghost use Rattle.lp_types_expr.specs.ExprFaults.{assignments_if, when};
ghost use Rattle.lp_types_expr.specs.Scopes.{declaring, visible};
ghost use Rattle.lp_types_expr.specs.Surroundings.{around_of};
ghost use Rattle.lp_types_expr.specs.Walk.{all_at};
ghost use Rattle.lp_types.specs.Pieces.{declarator_faults};
ghost use Rattle.lp_types.specs.TypeFaults.{declarators_assignments, declarators_faults, initialiser_kinds, kind_with, local_of as local_as, locals_of};

use crate::found::{faults_if, misfits_if, tell};
use lp_tree::expr::Expr;
use lp_tree::fault::FaultKind;
use lp_tree::keyword::Base;
use lp_tree::stmt::{Declarator, Local};
use lp_tree::types::TypeName;
use lp_types_expr::around::Surroundings;
use lp_types_expr::fault::FaultAt;
use lp_types_expr::kind::fits;
use lp_types_expr::scopes::Scopes;
use lp_types_expr::types::type_of;
use std::alloc::AllocError;

// The type of a name of a declaration.
pub(crate) fn kind_with(base: Base, d: &Declarator) -> TypeName
    ensures { result ≡ kind_with base (declarator_of d.now) }
{
    TypeName {
        base,
        stars: d.stars,
    }
}

/// Whether an initialiser, if there is one, does not fit a type.
pub(crate) fn is_misfit(
    around: &Surroundings<'_>,
    scopes: &Scopes,
    kind: TypeName,
    value: &Option<Expr>,
) -> bool
    ensures { when result WrongType ≡ initialiser_kinds (around_of around.now) (visible scopes.now) kind (option_map tree_of value.now) }
{
    match value {
        None => false,
        Some(e) => {
            if !around.is_strong() {
                return false;
            }
            !fits(kind, type_of(around, scopes, e))
        }
    }
}

// Adds the misfits of the assignments in the initialiser of a name, and declares it.
fn one_misfits(
    around: &Surroundings<'_>,
    scopes: &mut Scopes,
    base: Base,
    d: &Declarator,
    line: u32,
    faults: &mut Vec<FaultAt>,
) -> Result<(), AllocError>
    ensures faults { OnOk result (faults.new.items ≡ faults.old.items ++ all_at line (assignments_if (around_of around.now) (visible scopes.old) (declarator_of d.now).value)) }
    ensures scope { OnOk result (scopes.new ≡ declaring scopes.old (local_as base (declarator_of d.now) ∷ [])) }
{
    misfits_if(around, scopes, &d.value, line, faults)?;
    scopes.declare(&d.name, kind_with(base, d))?;
    Ok(())
}

// Adds the faults of a name that is declared, and declares it.
fn one_faults(
    around: &Surroundings<'_>,
    scopes: &mut Scopes,
    base: Base,
    d: &Declarator,
    faults: &mut Vec<FaultAt>,
) -> Result<(), AllocError>
    ensures faults { OnOk result (faults.new.items ≡ faults.old.items ++ declarator_faults (around_of around.now) scopes.old base (declarator_of d.now)) }
    ensures scope { OnOk result (scopes.new ≡ declaring scopes.old (local_as base (declarator_of d.now) ∷ [])) }
{
    let kind = kind_with(base, d);
    let misfit = is_misfit(around, scopes, kind, &d.value);
    tell(faults, d.line, FaultKind::WrongType, misfit)?;
    let double = scopes.is_double(&d.name);
    tell(faults, d.line, FaultKind::DoubleName, double)?;
    faults_if(around, scopes, &d.value, faults)?;
    scopes.declare(&d.name, kind)?;
    Ok(())
}

/// Adds the misfits of the assignments in the initialisers of a declaration, and declares its names.
pub(crate) fn misfits(
    around: &Surroundings<'_>,
    scopes: &mut Scopes,
    local: &Local,
    line: u32,
    faults: &mut Vec<FaultAt>,
) -> Result<(), AllocError>
    ensures faults { OnOk result (faults.new.items ≡ faults.old.items ++ all_at line (declarators_assignments (around_of around.now) scopes.old local.now.base (map declarator_of local.now.ones.items))) }
    ensures scope { OnOk result (scopes.new ≡ declaring scopes.old (locals_of local.now.base (map declarator_of local.now.ones.items))) }
{
    'ones: for d in &local.ones {
        one_misfits(around, scopes, local.base, d, line, faults)?;
    }
    Ok(())
}

/// Adds the faults of the names of a declaration, and declares them.
pub(crate) fn names_faults(
    around: &Surroundings<'_>,
    scopes: &mut Scopes,
    local: &Local,
    faults: &mut Vec<FaultAt>,
) -> Result<(), AllocError>
    ensures faults { OnOk result (faults.new.items ≡ faults.old.items ++ declarators_faults (around_of around.now) scopes.old local.now.base (map declarator_of local.now.ones.items)) }
    ensures scope { OnOk result (scopes.new ≡ declaring scopes.old (locals_of local.now.base (map declarator_of local.now.ones.items))) }
{
    'ones: for d in &local.ones {
        one_faults(around, scopes, local.base, d, faults)?;
    }
    Ok(())
}

/// Adds the faults of a declaration that is a statement, and declares its names. At its first token stand the misfits of the
/// assignments, for which the names are declared in a block of their own.
pub(crate) fn local_faults(
    around: &Surroundings<'_>,
    scopes: &mut Scopes,
    line: u32,
    local: &Local,
    faults: &mut Vec<FaultAt>,
) -> Result<(), AllocError>
    ensures faults { OnOk result (faults.new.items ≡ faults.old.items
        ++ (all_at line (declarators_assignments (around_of around.now) scopes.old local.now.base (map declarator_of local.now.ones.items))
        ++ declarators_faults (around_of around.now) scopes.old local.now.base (map declarator_of local.now.ones.items))) }
    ensures scope { OnOk result (scopes.new ≡ declaring scopes.old (locals_of local.now.base (map declarator_of local.now.ones.items))) }
{
    let mark = scopes.enter();
    misfits(around, scopes, local, line, faults)?;
    scopes.leave(mark);
    names_faults(around, scopes, local, faults)?;
    Ok(())
}

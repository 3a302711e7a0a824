//! Functions of parents.
ghost use Rattle.std.specs.Prelude.{◌≡◌, IfOk, List, option_copied};
ghost use Rattle.lp_code.specs.declared.tables.Tables.{Tables};
ghost use Rattle.lp_types_expr.specs.NameMaps.{named};
ghost use Rattle.lp_types_expr.specs.Shown.{Shows};
ghost use Rattle.lp_types_expr.specs.Signatures.{of_parents, or_else};

use crate::shown::Shown;
use crate::signature::Signature;
use crate::tables::last_shown;
use lp_code::tables::Tables;
use lp_tree::chars::Chars;
use std::alloc::{AllocError, Global};

/// What some parents show.
pub(crate) fn shown(alloc: Global, parents: &[Tables]) -> Result<Shown, AllocError>
    ensures { IfOk result (λ s. Shows parents.now s) }
{
    Ok(Shown {
        bodies: last_shown(alloc, true, parents)?,
        rows: last_shown(alloc, false, parents)?,
    })
}

/// The function of parents that a name means, or else what the last of them declares.
pub(crate) fn find<'a>(shown: &'a Shown, name: &Chars) -> Option<&'a Signature>
    ensures is { option_copied result ≡ or_else (named shown.now.bodies name.now) (named shown.now.rows name.now) }
    ensures shows { (ts : List Tables) → Shows ts shown.now → option_copied result ≡ of_parents ts name.now }
{
    match shown.bodies.get(name.as_slice()) {
        Some(signature) => Some(signature),
        None => shown.rows.get(name.as_slice()),
    }
}

//! Rows of functions.
ghost use Rattle.std.specs.Prelude.{◌≡◌, ◌≢◌, ◌++◌, MatchResult, OnOk};
ghost use Rattle.lp_codegen_expr.specs.declared.code.GenFault.TheVariants as faults;
ghost use Rattle.lp_codegen_unit.specs.Rows.{IsInitRow};
ghost use Rattle.lp_codegen_unit.specs.Stands.{option_list};

use lp_code::name::Name;
use lp_code::program::FunRow;
use lp_codegen_expr::code::GenFault;
use std::alloc::{AllocError, Global};

/// A number of parameters, where a row has room for it.
pub(crate) fn params_count(count: usize) -> Result<u8, GenFault>
    ensures { MatchResult result (λ k. k ≡ count) (λ f. f ≢ faults.Unclear) }
{
    if count < 256 {
        Ok(count as u8)
    } else {
        Err(GenFault::TooLarge)
    }
}

/// A number of locals, where a row has room for it.
pub(crate) fn locals_count(count: u32) -> Result<u16, GenFault>
    ensures { MatchResult result (λ k. k ≡ count) (λ f. f ≢ faults.Unclear) }
{
    if count < 65536 {
        Ok(count as u16)
    } else {
        Err(GenFault::TooLarge)
    }
}

/// The row of the initialisers whose code begins at a place.
pub(crate) fn init_row(alloc: Global, from: u32) -> Result<FunRow, GenFault>
    ensures { MatchResult result (IsInitRow from) (λ f. f ≢ faults.Unclear) }
{
    Ok(FunRow {
        name: Name::from_str(alloc, "__INIT")?,
        from,
        params: 0,
        locals: 0,
    })
}

/// One more row, if there is one.
pub(crate) fn add_row(rows: &mut Vec<FunRow>, row: Option<FunRow>) -> Result<(), AllocError>
    ensures { OnOk result (rows.new.items ≡ rows.old.items ++ option_list row) }
{
    match row {
        Some(row) => Ok(rows.push(row)?),
        None => Ok(()),
    }
}

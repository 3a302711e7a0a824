//! The verifier.
ghost use Rattle.std.specs.Prelude.{◌≡◌, ◌↔◌, ◌&&◌, IfOk, IsTrue, MatchResult, None, length};
ghost use Rattle.lp_code.specs.Owners.{AreRows};
ghost use Rattle.lp_code.specs.Programs.{AreFunctions, IsProgram};
ghost use Rattle.lp_verify.specs.Fails.{IsLeast};
ghost use Rattle.lp_verify.specs.Verified.{AreOthers, IsRefused};

use crate::body::Body;
use crate::fault::VerifyFault;
use crate::rows::{are_rows, are_switches};
use crate::solve::first_fault;
use crate::tables::are_tables;
use lp_code::program::{Program, RawProgram};
use std::alloc::{AllocError, Global};

fn least_fault(alloc: Global, raw: &RawProgram) -> Result<Option<usize>, AllocError>
    ensures least { IfOk result (λ r. IsLeast raw.now r) }
    ensures functions { IfOk result (λ r. r ≡ None → AreRows (length raw.now.instrs) raw.now.funs → AreFunctions raw.now) }
{
    let body = Body::new(alloc, raw)?;
    let least = first_fault(alloc, &body)?;
    Ok(least)
}

fn are_all(rows: bool, switches: bool, tables: bool) -> bool
    ensures { result ≡ (rows && switches && tables) }
{
    rows && switches && tables
}

fn others_stand(alloc: Global, raw: &RawProgram) -> Result<bool, AllocError>
    ensures { IfOk result (λ r. IsTrue r ↔ AreOthers raw.now) }
{
    let tables = are_tables(alloc, &raw.tables)?;
    let rows = are_rows(raw.instrs.as_slice().len(), raw.funs.as_slice());
    let switches = are_switches(raw);
    Ok(are_all(rows, switches, tables))
}

fn judge(alloc: Global, raw: &RawProgram) -> Result<(), VerifyFault>
    ensures { MatchResult result (λ _. IsProgram raw.now) (λ e. IsRefused raw.now e) }
{
    if let Some(at) = least_fault(alloc, raw)? {
        return Err(VerifyFault::Unsound { at });
    }
    let stand = others_stand(alloc, raw)?;
    if !stand {
        let at = raw.instrs.as_slice().len();
        return Err(VerifyFault::Unsound { at });
    }
    Ok(())
}

/// The program of these parts, exactly where they are sound. Its time is linear in the instructions and the labels of the
/// switches that they name.
///
/// # Errors
///
/// `Unsound` exactly where they are not: at the least instruction that fails, or at the number of instructions where only a
/// function, a switch or a table does.
pub fn verify(alloc: Global, raw: RawProgram) -> Result<Program, VerifyFault>
    ensures { MatchResult result (λ p. (p ≡ raw) × IsProgram raw) (λ e. IsRefused raw e) }
{
    judge(alloc, &raw)?;
    Ok(Program::from_sound(raw))
}

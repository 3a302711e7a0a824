//! The saved variables of an object become a file.
ghost use Rattle.std.specs.Prelude.{◌≡◌, IfOk, IsErrOf, IsSome, List, None, OnErr, OnOk, Some, map, pos};
ghost use Rattle.std.specs.Option.{option_copied};
ghost use Rattle.lp_values.specs.Errors.{plain};
ghost use Rattle.lp_values.specs.declared.value.Value.{Value as V};
ghost use Rattle.lp_cells.specs.Cells.{IsThere, Store};
ghost use Rattle.lp_code.specs.declared.program.RawProgram.{RawProgram as Raw};
ghost use Rattle.lp_files.specs.Paths.{with_path};
ghost use Rattle.lp_files.specs.Store.{IsSame, IsWith, changed_in};
ghost use Rattle.lp_language.specs.Course.{Scene};
ghost use Rattle.lp_meaning.specs.FileEfuns.{named_value, saving};
ghost use Rattle.lp_save.specs.SaveText.{saved_text};
ghost use Rattle.lp_world.specs.Closed.{IsClosed};
ghost use Rattle.lp_world.specs.Rows.{live_in, variables_at};
ghost use Rattle.lp_filing.specs.declared.outcome.Outcome.{Outcome as D};
ghost use Rattle.lp_filing.specs.Filing.{ComesWith, IsOutcomeThere, StandsStill, listed_after};
ghost use Rattle.lp_filing.specs.Rows.{saved_rows};

use crate::outcome::Outcome;
use crate::rows::named_values;
use lp_code::program::RawProgram;
use lp_code::tables::VarRow;
use lp_io::Octets;
use lp_save::{SaveFault, save_text};
use lp_values::error::{ErrorKind, RunError};
use lp_values::id::ObjId;
use lp_values::value::Value;
use lp_world::live::Live;
use std::alloc::{AllocError, Global};

/// The text of the saved variables of an object, by the rows of its variables.
fn text_of(live: &Live, this: ObjId, rows: &[VarRow]) -> Result<Octets, SaveFault>
    requires closed { IsClosed live.now }
    requires variables { IsSome (variables_at live.now.objects this) }
    ensures text { IfOk result (λ bytes. (vs : List V) → variables_at live.now.objects this ≡ Some vs → saved_text (live_in live.now.objects) live.now.cells (map (named_value vs) (saved_rows 0 rows.now)) ≡ Some bytes) }
    ensures nested { IsErrOf result SaveFault.TooNested → (vs : List V) → variables_at live.now.objects this ≡ Some vs → saved_text (live_in live.now.objects) live.now.cells (map (named_value vs) (saved_rows 0 rows.now)) ≡ None }
{
    let named = named_values(live.alloc, rows, live.objects.variables(this))?;
    save_text(live.alloc, named.as_slice(), &live.cells, &live.objects)
}

/// Bytes become a file.
fn written(live: &mut Live, path: &str, bytes: Octets) -> Result<Outcome, AllocError>
    ensures value { IfOk result (λ d. d ≡ D.Value (V.Int (pos 0))) }
    ensures others { live.new ≡ record live.old { store = live.new.store } }
    ensures files { OnOk result (IsWith live.old.store live.new.store path.now (Some bytes)) }
    ensures changed { OnOk result (changed_in live.new.store ≡ with_path path.now (changed_in live.old.store)) }
    ensures err { OnErr result (IsSame live.old.store live.new.store) }
{
    match live.store.write(path, bytes.as_slice()) {
        Ok(()) => Ok(Outcome::Value(Value::Int(0))),
        Err(e) => Err(e),
    }
}

/// The error of values that lie too deep in one another.
fn too_nested(alloc: Global) -> Result<Outcome, AllocError>
    ensures { IfOk result (λ d. d ≡ D.Error (plain ErrorKind.TooNested)) }
{
    Ok(Outcome::Error(RunError::plain(alloc, ErrorKind::TooNested)?))
}

/// The saved variables of an object become a file.
fn save_to(
    live: &mut Live,
    this: ObjId,
    code: &RawProgram,
    path: &str,
) -> Result<Outcome, AllocError>
    requires closed { IsClosed live.old }
    requires variables { IsSome (variables_at live.old.objects this) }
    ensures comes { IfOk result (λ d. (c : Scene) → c.this ≡ this → ComesWith code.now this (saving c (Some path.now)) live.old d live.new) }
    ensures changed { IfOk result (λ d. changed_in live.new.store ≡ listed_after d (Some path.now) (changed_in live.old.store)) }
    ensures others { live.new ≡ record live.old { store = live.new.store } }
    ensures same { OnErr result (IsSame live.old.store live.new.store) }
    ensures there { IfOk result (λ d. (cells : Store) → IsOutcomeThere cells d) }
{
    match text_of(live, this, code.tables.vars.as_slice()) {
        Ok(bytes) => written(live, path, bytes),
        Err(SaveFault::TooNested) => too_nested(live.alloc),
        Err(SaveFault::NoMemory) => Err(AllocError),
    }
}

/// The saved variables of an object, which is in memory with its program, become a file: 0, or 1 where leave was refused, and then
/// nothing changes. Values that are nested too deep are an error, and then nothing is written. The path of a file that was written is
/// on the changed list then.
///
/// # Errors
/// `AllocError`, after which the files and the changed list are as they were.
pub fn save_object(
    live: &mut Live,
    this: ObjId,
    code: &RawProgram,
    path: Option<&str>,
) -> Result<Outcome, AllocError>
    requires closed { IsClosed live.old }
    requires variables { IsSome (variables_at live.old.objects this) }
    ensures comes { IfOk result (λ d. (c : Scene) → c.this ≡ this → ComesWith code.now this (saving c (option_copied path.entry)) live.old d live.new) }
    ensures changed { IfOk result (λ d. changed_in live.new.store ≡ listed_after d (option_copied path.entry) (changed_in live.old.store)) }
    ensures others { live.new ≡ record live.old { store = live.new.store } }
    ensures same { OnErr result (IsSame live.old.store live.new.store) }
    ensures stands { OnErr result (StandsStill live.old live.new) }
    ensures closed { IsClosed live.new }
    ensures there { IfOk result (λ d. (cells : Store) → IsOutcomeThere cells d) }
{
    match path {
        Some(path) => save_to(live, this, code, path),
        None => Ok(Outcome::Value(Value::Int(1))),
    }
}

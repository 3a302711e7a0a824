//! The saved variables of an object come from a file.
ghost use Rattle.std.specs.Prelude.{◌≡◌, All, IfOk, IfSome, IsAscii, IsSome, OnErr, Some};
ghost use Rattle.std.specs.Option.{option_copied};
ghost use Rattle.lp_values.specs.Errors.{bad_save};
ghost use Rattle.lp_cells.specs.Cells.{IsClosed as AreClosed};
ghost use Rattle.lp_cells.specs.Cells.{IsThere, KeepsThere, Store as Cs};
ghost use Rattle.lp_files.specs.Store.{file_at};
ghost use Rattle.lp_language.specs.Course.{Scene};
ghost use Rattle.lp_meaning.specs.FileEfuns.{restoring};
ghost use Rattle.lp_world.specs.Closed.{IsClosed};
ghost use Rattle.lp_world.specs.Rows.{variables_at};
ghost use Rattle.lp_filing.specs.declared.outcome.Outcome.{Outcome as D};
ghost use Rattle.lp_filing.specs.Filing.{ComesWith, IsOutcomeThere};
ghost use Rattle.lp_filing.specs.Rows.{Become, KeepsVariables, Puts, ReadsFrom, with_given, with_places};

use crate::outcome::Outcome;
use crate::rows::{saved_names, saved_places};
use lp_cells::cells::Cells;
use lp_code::program::RawProgram;
use lp_code::tables::VarRow;
use lp_files::store::Store;
use lp_save::{RestoreFault, restore_text};
use lp_values::error::RunError;
use lp_values::id::ObjId;
use lp_values::text::Text;
use lp_values::value::Value;
use lp_world::live::Live;
use lp_world::objects::ObjectTable;
use std::alloc::{AllocError, Global};

/// What a file gives for names: nothing where it is not there.
fn read_given(
    alloc: Global,
    store: &Store,
    cells: &mut Cells,
    path: &str,
    names: &[Text],
) -> Result<Option<Vec<Option<Value>>>, RestoreFault>
    ensures reads { ReadsFrom (file_at store.now path.now) names.now result cells.old cells.new }
    ensures stay { KeepsThere cells.old cells.new }
    ensures closed { AreClosed cells.old → AreClosed cells.new }
    ensures there { IfOk result (λ o. IfSome o (λ vs. All (λ x. IfSome x (IsThere cells.new)) vs.items)) }
{
    match store.read(path) {
        Some(bytes) => match restore_text(alloc, bytes, names, cells) {
            Ok(values) => Ok(Some(values)),
            Err(e) => Err(e),
        },
        None => Ok(None),
    }
}

/// Writes a variable of an object that is in memory. One that is not there is passed over.
fn put(objects: &mut ObjectTable, this: ObjId, place: usize, v: Value)
    requires { IsSome (variables_at objects.old this) }
    ensures { Become objects.old objects.new this (λ vs. with_given vs place (Some v)) }
{
    if place < objects.variables(this).len() {
        objects.set_variable(this, place, v);
    } else {
        drop(v);
    }
}

/// The same, where a value is given.
fn put_given(objects: &mut ObjectTable, this: ObjId, place: usize, value: Option<Value>)
    requires { IsSome (variables_at objects.old this) }
    ensures { Become objects.old objects.new this (λ vs. with_given vs place value) }
{
    match value {
        Some(v) => put(objects, this, place, v),
        None => {}
    }
}

/// What is given next is for the next place, where there is one.
fn put_next(
    objects: &mut ObjectTable,
    this: ObjId,
    places: &[usize],
    at: &mut usize,
    value: Option<Value>,
)
    requires { IsSome (variables_at objects.old this) }
    ensures memory { IsSome (variables_at objects.new this) }
    ensures put { Puts objects.old objects.new this places.now at.old at.new value }
{
    if *at < places.len() {
        let place = places[*at];
        *at += 1;
        put_given(objects, this, place, value);
    } else {
        drop(value);
    }
}

/// What is given comes to the places, one after another.
fn put_all(objects: &mut ObjectTable, this: ObjId, places: &[usize], given: Vec<Option<Value>>)
    requires { IsSome (variables_at objects.old this) }
    ensures { Become objects.old objects.new this (λ vs. with_places vs places.now given.items) }
{
    let mut at = 0;
    for value in given {
        put_next(objects, this, places, &mut at, value);
    }
}

/// The error of a line that is faulty.
fn faulty(alloc: Global, path: &str, line: u64) -> Result<Outcome, AllocError>
    requires { IsAscii path.now }
    ensures { IfOk result (λ d. d ≡ D.Error (bad_save path.now line)) }
{
    Ok(Outcome::Error(RunError::bad_save(alloc, path, line)?))
}

/// The saved variables of an object come from a file, by the rows of its variables.
fn restore_from(
    live: &mut Live,
    this: ObjId,
    code: &RawProgram,
    path: &str,
) -> Result<Outcome, AllocError>
    requires closed { IsClosed live.old }
    requires variables { IsSome (variables_at live.old.objects this) }
    requires path { IsAscii path.now }
    ensures comes { IfOk result (λ d. (c : Scene) → c.this ≡ this → ComesWith code.now this (restoring c (Some path.now)) live.old d live.new) }
    ensures others { live.new ≡ record live.old { cells = live.new.cells; objects = live.new.objects } }
    ensures same { OnErr result (live.new ≡ live.old) }
    ensures stay { KeepsThere live.old.cells live.new.cells }
    ensures variables { KeepsVariables live.old.objects live.new.objects }
    ensures closed { IsClosed live.new }
    ensures there { IfOk result (λ d. (cells : Cs) → IsOutcomeThere cells d) }
{
    let places = saved_places(live.alloc, code.tables.vars.as_slice())?;
    let names = saved_names(live.alloc, code.tables.vars.as_slice())?;
    match read_given(
        live.alloc,
        &live.store,
        &mut live.cells,
        path,
        names.as_slice(),
    ) {
        Ok(Some(given)) => {
            put_all(&mut live.objects, this, places.as_slice(), given);
            Ok(Outcome::Value(Value::Int(1)))
        }
        Ok(None) => Ok(Outcome::Value(Value::Int(0))),
        Err(RestoreFault::Line { line, .. }) => faulty(live.alloc, path, line),
        Err(RestoreFault::NoMemory) => Err(AllocError),
    }
}

/// The saved variables of an object, which is in memory with its program, come from a file, all at once: 1, or 0 where no file is
/// there or leave was refused, and then nothing changes. A faulty line is an error, and nothing changes then either. A variable
/// without a line keeps its value.
///
/// # Errors
/// `AllocError`, and then nothing has changed.
pub fn restore_object(
    live: &mut Live,
    this: ObjId,
    code: &RawProgram,
    path: Option<&str>,
) -> Result<Outcome, AllocError>
    requires closed { IsClosed live.old }
    requires variables { IsSome (variables_at live.old.objects this) }
    requires path { IfSome (option_copied path) IsAscii }
    ensures comes { IfOk result (λ d. (c : Scene) → c.this ≡ this → ComesWith code.now this (restoring c (option_copied path.entry)) live.old d live.new) }
    ensures others { live.new ≡ record live.old { cells = live.new.cells; objects = live.new.objects } }
    ensures same { OnErr result (live.new ≡ live.old) }
    ensures stay { KeepsThere live.old.cells live.new.cells }
    ensures variables { KeepsVariables live.old.objects live.new.objects }
    ensures closed { IsClosed live.new }
    ensures there { IfOk result (λ d. (cells : Cs) → IsOutcomeThere cells d) }
{
    match path {
        Some(path) => restore_from(live, this, code, path),
        None => Ok(Outcome::Value(Value::Int(0))),
    }
}

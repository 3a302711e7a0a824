//! Files that are written and removed.
ghost use Rattle.std.specs.Prelude.{◌≡◌, ◌++◌, IfOk, OnErr, OnOk, Some, encode_utf8_all, pos, string_bytes, if◌then◌else◌};
ghost use Rattle.std.specs.Option.{option_copied};
ghost use Rattle.lp_values.specs.declared.value.Value.{Value as V};
ghost use Rattle.lp_cells.specs.Cells.{IsThere, Store};
ghost use Rattle.lp_files.specs.Paths.{with_path};
ghost use Rattle.lp_files.specs.Store.{IsSame, IsWith, changed_in, file_at};
ghost use Rattle.lp_meaning.specs.FileEfuns.{or_empty, removed, written_to};
ghost use Rattle.lp_world.specs.Closed.{IsClosed};
ghost use Rattle.lp_filing.specs.declared.outcome.Outcome.{Outcome as D};
ghost use Rattle.lp_filing.specs.Filing.{Comes, StandsStill, with_removed, with_written};

use lp_values::value::Value;
use lp_world::live::Live;
use std::alloc::{AllocError, Global};

/// The bytes of a text.
fn utf8_of(alloc: Global, text: &[char]) -> Result<String, AllocError>
    ensures { IfOk result (λ t. string_bytes t ≡ encode_utf8_all text.now) }
{
    let spelled: String = text.iter().copied().collect(alloc)?;
    Ok(spelled)
}

/// A text is appended to a file, which is made where it is not there. Takes time for the text.
fn append_to(live: &mut Live, path: &str, text: &[char]) -> Result<(), AllocError>
    ensures others { live.new ≡ record live.old { store = live.new.store } }
    ensures files { OnOk result (IsWith live.old.store live.new.store path.now (Some (or_empty (file_at live.old.store path.now) ++ encode_utf8_all text.now))) }
    ensures changed { OnOk result (changed_in live.new.store ≡ with_path path.now (changed_in live.old.store)) }
    ensures err { OnErr result (IsSame live.old.store live.new.store) }
{
    let more = utf8_of(live.alloc, text)?;
    live.store.append(path, more.as_bytes())
}

/// Appends a text to a file, which is made where it is not there: 1, or 0 where leave was refused, and then nothing changes.
/// The path is on the changed list then.
///
/// # Errors
/// `AllocError`, after which the files and the changed list are as they were.
pub fn append(live: &mut Live, path: Option<&str>, text: &[char]) -> Result<Value, AllocError>
    requires closed { IsClosed live.old }
    ensures comes { IfOk result (λ v. Comes (written_to (option_copied path.entry) text.now) live.old (D.Value v) live.new) }
    ensures changed { OnOk result (changed_in live.new.store ≡ with_written (option_copied path.entry) (changed_in live.old.store)) }
    ensures others { live.new ≡ record live.old { store = live.new.store } }
    ensures same { OnErr result (IsSame live.old.store live.new.store) }
    ensures stands { OnErr result (StandsStill live.old live.new) }
    ensures closed { IsClosed live.new }
    ensures there { IfOk result (λ v. (cells : Store) → IsThere cells v) }
{
    match path {
        Some(path) => match append_to(live, path, text) {
            Ok(()) => Ok(Value::Int(1)),
            Err(e) => Err(e),
        },
        None => Ok(Value::Int(0)),
    }
}

/// Whether something was done, as a value.
fn done_value(is_done: bool) -> Value
    ensures value { result ≡ V.Int (pos (if is_done then 1 else 0)) }
    ensures there { (cells : Store) → IsThere cells result }
{
    if is_done {
        Value::Int(1)
    } else {
        Value::Int(0)
    }
}

/// Removes a file: 1, or 0 where none is there or leave was refused, and then nothing changes. The path of a file that was removed is
/// on the changed list then.
///
/// # Errors
/// `AllocError`, after which the files and the changed list are as they were.
pub fn remove(live: &mut Live, path: Option<&str>) -> Result<Value, AllocError>
    requires closed { IsClosed live.old }
    ensures comes { IfOk result (λ v. Comes (removed (option_copied path.entry)) live.old (D.Value v) live.new) }
    ensures changed { OnOk result (changed_in live.new.store ≡ with_removed live.old.store (option_copied path.entry)) }
    ensures others { live.new ≡ record live.old { store = live.new.store } }
    ensures same { OnErr result (IsSame live.old.store live.new.store) }
    ensures stands { OnErr result (StandsStill live.old live.new) }
    ensures closed { IsClosed live.new }
    ensures there { IfOk result (λ v. (cells : Store) → IsThere cells v) }
{
    match path {
        Some(path) => match live.store.remove(path) {
            Ok(was_there) => Ok(done_value(was_there)),
            Err(e) => Err(e),
        },
        None => Ok(Value::Int(0)),
    }
}

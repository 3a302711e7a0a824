//! Files that are read.
ghost use Rattle.std.specs.Prelude.{◌≡◌, IfOk, chars, length, nat_le, nat_lt, if◌then◌else◌};
ghost use Rattle.std.specs.Option.{option_copied};
ghost use Rattle.lp_values.specs.Limits.{max_code_points};
ghost use Rattle.lp_values.specs.declared.value.Value.{Value as V};
ghost use Rattle.lp_cells.specs.Cells.{IsThere, Store};
ghost use Rattle.lp_language.specs.Course.{zero_value};
ghost use Rattle.lp_meaning.specs.FileEfuns.{bytes_of, read_value, size_value, text_or_zero};
ghost use Rattle.lp_filing.specs.Filing.{Shows};

use lp_values::limits::MAX_CODE_POINTS;
use lp_values::text::{Text, code_points};
use lp_values::value::Value;
use lp_world::live::Live;
use std::alloc::{AllocError, Global};

/// Whether there are more code points than a text may have.
fn is_long(points: &[char]) -> bool
    ensures { result ≡ nat_lt max_code_points (length points.now) }
{
    points.len() > MAX_CODE_POINTS
}

/// Code points as a text, or 0 where they are more than a text may have.
fn bounded(alloc: Global, points: Vec<char>) -> Result<Value, AllocError>
    ensures value { IfOk result (λ v. v ≡ (if nat_le (length points.items) max_code_points then V.Str points.items else zero_value)) }
    ensures there { IfOk result (λ v. (cells : Store) → IsThere cells v) }
{
    if is_long(points.as_slice()) {
        drop(points);
        return Ok(Value::Int(0));
    }
    Ok(Value::Str(Text::from_vec(alloc, points)?))
}

/// A text as a value, or 0 where it is longer than a text may be.
fn short_text(alloc: Global, text: &str) -> Result<Value, AllocError>
    ensures value { IfOk result (λ v. v ≡ (if nat_le (length (chars text.now)) max_code_points then V.Str (chars text.now) else zero_value)) }
    ensures there { IfOk result (λ v. (cells : Store) → IsThere cells v) }
{
    let points = code_points(alloc, text)?;
    bounded(alloc, points)
}

/// The text of bytes that are UTF-8 and no longer than a text may be, or 0. Bytes that are too many for that, four for each code point, are
/// not looked at.
fn text_or_zero(alloc: Global, bytes: &[u8]) -> Result<Value, AllocError>
    ensures value { IfOk result (λ v. v ≡ text_or_zero bytes.now) }
    ensures there { IfOk result (λ v. (cells : Store) → IsThere cells v) }
{
    if bytes.len() / 4 > MAX_CODE_POINTS {
        return Ok(Value::Int(0));
    }
    match std::str::from_utf8(bytes) {
        Ok(text) => short_text(alloc, text),
        Err(_) => Ok(Value::Int(0)),
    }
}

/// The text of a file, or 0 where leave was refused, where no file is there, and where its bytes are no UTF-8 or more than 100000 code
/// points. Takes time for at most 400000 bytes.
pub fn read_text(live: &Live, path: Option<&str>) -> Result<Value, AllocError>
    ensures shows { IfOk result (λ v. Shows (λ w. read_value (bytes_of w (option_copied path.entry))) live.now v) }
    ensures there { IfOk result (λ v. (cells : Store) → IsThere cells v) }
{
    match path {
        Some(path) => match live.store.read(path) {
            Some(bytes) => text_or_zero(live.alloc, bytes),
            None => Ok(Value::Int(0)),
        },
        None => Ok(Value::Int(0)),
    }
}

/// How many bytes a file has, or -1 where leave was refused or no file is there. Takes no memory, and no longer for a larger file.
pub fn size(live: &Live, path: Option<&str>) -> Value
    ensures shows { Shows (λ w. size_value (bytes_of w (option_copied path.entry))) live.now result }
    ensures there { (cells : Store) → IsThere cells result }
{
    match path {
        Some(path) => match live.store.read(path) {
            Some(bytes) => Value::Int(bytes.len() as i64),
            None => Value::Int(-1),
        },
        None => Value::Int(-1),
    }
}

//! Variables of objects, from their records.
ghost use Rattle.std.specs.Prelude.{◌≡◌, [], All, IfOk, length, map};
ghost use Rattle.std.specs.Bool.{OnTrue};
ghost use Rattle.lp_cells.specs.Cells.{IsThere};
ghost use Rattle.lp_image.specs.Image.{IsRecord, image};
ghost use Rattle.lp_image.specs.declared.record.Record.{Record as R};
ghost use Rattle.lp_world.specs.Records.{packed};
ghost use Rattle.lp_residence.specs.Entering.{AreValuesOf};

use lp_cells::cells::Cells;
use lp_cells::content::Items;
use lp_image::{Packed, Record, unpack};
use lp_values::value::Value;
use std::alloc::{AllocError, Global};

/// The value that a record without cells of its own has so. One with a cell of its own is refused.
fn value_of(p: &Packed) -> Result<Value, AllocError>
    ensures { IfOk result (λ v. packed [] v ≡ p.now) }
{
    match p {
        Packed::Int(n) => Ok(Value::Int(*n)),
        Packed::Str(s) => Ok(Value::Str(s.copy()?)),
        Packed::Arr(c) => Ok(Value::Arr(*c)),
        Packed::Map(c) => Ok(Value::Map(*c)),
        Packed::Obj(o) => Ok(Value::Obj(*o)),
        Packed::OwnArr(_) => Err(AllocError),
        Packed::OwnMap(_) => Err(AllocError),
    }
}

/// The values that it has so.
fn values_of(alloc: Global, packs: &[Packed]) -> Result<Items, AllocError>
    ensures { IfOk result (λ vs. map (packed []) vs ≡ packs.now) }
{
    let mut values = Vec::new(alloc);
    for p in packs {
        values.push(value_of(p)?)?;
    }
    Ok(Items::from_vec(values))
}

/// The record that bytes spell.
fn record_in(alloc: Global, bytes: &[u8]) -> Result<Record, AllocError>
    ensures { IfOk result (λ r. (s : R) → IsRecord s → bytes.now ≡ image s → s ≡ r) }
{
    match unpack(alloc, bytes) {
        Ok(record) => Ok(record),
        Err(_) => Err(AllocError),
    }
}

/// The values of an object's variables, from the image of its record. The answer is want of memory too where the
/// bytes are the image of no record, or of one with cells of its own.
pub fn values_in(alloc: Global, bytes: &[u8]) -> Result<Items, AllocError>
    ensures { IfOk result (λ vs. AreValuesOf bytes.now vs) }
{
    let record = record_in(alloc, bytes)?;
    values_of(alloc, record.vars.as_slice())
}

/// Whether each value that names an array or a mapping names one that is there.
fn are_there(cells: &Cells, values: &[Value]) -> bool
    ensures { OnTrue result (All (IsThere cells.now) values.now) }
{
    for v in values {
        if !cells.is_there(v) {
            return false;
        }
    }
    true
}

/// Whether values can be those of an object of a version: so many, and each is there.
pub(crate) fn are_fit(cells: &Cells, values: &[Value], count: u32) -> bool
    ensures count { OnTrue result (length values.now ≡ count) }
    ensures there { OnTrue result (All (IsThere cells.now) values.now) }
{
    if values.len() != count as usize {
        return false;
    }
    are_there(cells, values)
}

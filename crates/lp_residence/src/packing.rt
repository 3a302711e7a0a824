//! Records of objects, from their variables.
ghost use Rattle.std.specs.Prelude.{◌≡◌, ◌++◌, [], IfOk, OnOk, map};
ghost use Rattle.lp_image.specs.Image.{IsRecord, image};
ghost use Rattle.lp_world.specs.Records.{packed, shared_in};
ghost use Rattle.lp_residence.specs.Owners.{cells_named, record_of};

use lp_image::list::{Cells, Values};
use lp_image::{Packed, Record, pack};
use lp_io::Octets;
use lp_values::id::{CellId, ObjId};
use lp_values::value::Value;
use lp_world::serials::Serials;
use std::alloc::{AllocError, Global};

/// A value in a record without cells of its own.
fn packed_value(v: &Value) -> Result<Packed, AllocError>
    ensures { IfOk result (λ p. p ≡ packed [] v.now) }
{
    match v {
        Value::Int(n) => Ok(Packed::Int(*n)),
        Value::Str(s) => Ok(Packed::Str(s.copy()?)),
        Value::Arr(c) => Ok(Packed::Arr(*c)),
        Value::Map(c) => Ok(Packed::Map(*c)),
        Value::Obj(o) => Ok(Packed::Obj(*o)),
    }
}

/// The same of each value.
fn packed_values(alloc: Global, values: &[Value]) -> Result<Values, AllocError>
    ensures { IfOk result (λ ps. ps ≡ map (packed []) values.now) }
{
    let mut all = Vec::new(alloc);
    for v in values {
        all.push(packed_value(v)?)?;
    }
    Ok(Values::from_vec(all))
}

/// The record of an object.
fn record_of(alloc: Global, ob: ObjId, values: &[Value]) -> Result<Record, AllocError>
    ensures { IfOk result (λ r. r ≡ record_of ob values.now) }
{
    Ok(Record {
        owner: ob,
        vars: packed_values(alloc, values)?,
        cells: Cells::from_vec(Vec::new(alloc)),
    })
}

/// The image of the record of an object with these variables. Where a length does not fit its four bytes, memory
/// has run out.
pub fn image_of(alloc: Global, ob: ObjId, values: &[Value]) -> Result<Octets, AllocError>
    ensures fits { OnOk result (IsRecord (record_of ob values.now)) }
    ensures bytes { IfOk result (λ b. b ≡ image (record_of ob values.now)) }
{
    let record = record_of(alloc, ob, values)?;
    pack(alloc, &record)
}

/// Puts the cell that a value names to others.
fn put_cell(cells: &mut Vec<CellId>, v: &Value) -> Result<(), AllocError>
    ensures { OnOk result (cells.new.items ≡ cells.old.items ++ shared_in [] v.now) }
{
    match v {
        Value::Arr(c) => Ok(cells.push(*c)?),
        Value::Map(c) => Ok(cells.push(*c)?),
        _ => Ok(()),
    }
}

/// The cells that values name, each as often as they name it.
pub fn cells_named(alloc: Global, values: &[Value]) -> Result<Serials, AllocError>
    ensures { IfOk result (λ cs. cs ≡ cells_named values.now) }
{
    let mut cells = Vec::new(alloc);
    for v in values {
        put_cell(&mut cells, v)?;
    }
    Ok(Serials::from_vec(cells))
}

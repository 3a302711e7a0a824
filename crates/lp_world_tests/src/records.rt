use lp_residence::packing::{cells_named, image_of};
use lp_residence::unpacking::values_in;
use lp_values::id::{CellId, ObjId};
use lp_values::text::Text;
use lp_values::value::Value;
use std::alloc::{AllocError, Global};
use std::test::Fail;

/// A value of a test: arrays, mappings and objects by their serials.
#[derive(Clone, Copy)]
enum Plain {
    Int(i64),
    Arr(u64),
    Map(u64),
    Obj(u64),
    Str(&'static str),
}

fn value_of(alloc: Global, plain: Plain) -> Result<Value, AllocError> {
    match plain {
        Plain::Int(n) => Ok(Value::Int(n)),
        Plain::Arr(c) => Ok(Value::Arr(CellId(c))),
        Plain::Map(c) => Ok(Value::Map(CellId(c))),
        Plain::Obj(o) => Ok(Value::Obj(ObjId(o))),
        Plain::Str(text) => Ok(Value::Str(Text::from_str(alloc, text)?)),
    }
}

fn values_of(alloc: Global, plain: &[Plain]) -> Result<Vec<Value>, AllocError> {
    let mut values = Vec::new(alloc);
    for it in plain {
        values.push(value_of(alloc, *it)?)?;
    }
    Ok(values)
}

// One variable that names an array: the mark, the owner, the number of variables, the value and the number
// of cells are 4, 8, 4, 9 and 4 bytes.
static ONE_ARRAY: [u8; 29] = [
    76, 80, 79, 49, 6, 0, 0, 0, 0, 0, 0, 0, 1, 0, 0, 0, 2, 3, 1, 0, 0, 0, 0, 0, 0, 0, 0, 0, 0,
];

// A record with an array of its own: no record of this form is written.
static OWN_ARRAY: [u8; 30] = [
    76, 80, 79, 49, 6, 0, 0, 0, 0, 0, 0, 0, 1, 0, 0, 0, 5, 0, 0, 0, 0, 1, 0, 0, 0, 0, 0, 0, 0, 0,
];

/// Whether the record of an object with these variables has this image.
fn has_image(
    alloc: Global,
    ob: u64,
    variables: &[Plain],
    bytes: &[u8],
) -> Result<bool, AllocError> {
    let values = values_of(alloc, variables)?;
    let image = image_of(alloc, ObjId(ob), values.as_slice())?;
    Ok(image.as_slice() == bytes)
}

/// Variables, and the cells that their record names: each as often as they do.
static RECORDS: [(&[Plain], &[CellId]); 5] = [
    (&[], &[]),
    (&[Plain::Int(-5), Plain::Obj(9)], &[]),
    (&[Plain::Str("zwölf")], &[]),
    // Two variables with one array have one array again; one with an array of which it is an item has it again.
    (
        &[Plain::Arr(0), Plain::Map(4), Plain::Arr(0)],
        &[CellId(0), CellId(4), CellId(0)],
    ),
    (
        &[Plain::Arr(4), Plain::Map(9), Plain::Arr(4)],
        &[CellId(4), CellId(9), CellId(4)],
    ),
];

/// Whether these variables come back from their record, each array and mapping under its serial.
fn come_back(alloc: Global, values: &[Value]) -> Result<bool, Fail> {
    let image = image_of(alloc, ObjId(1), values)?;
    let back = values_in(alloc, image.as_slice())?;
    Ok(back.as_slice() == values)
}

/// Whether the record of these variables names these cells.
fn names(alloc: Global, values: &[Value], serials: &[CellId]) -> Result<bool, Fail> {
    let cells = cells_named(alloc, values)?;
    Ok(cells.as_slice() == serials)
}

fn is_recorded(alloc: Global, variables: &[Plain], serials: &[CellId]) -> Result<bool, Fail> {
    let values = values_of(alloc, variables)?;
    Ok(come_back(alloc, values.as_slice())? && names(alloc, values.as_slice(), serials)?)
}

/// Whether bytes are a record.
fn gives_values(alloc: Global, bytes: &[u8]) -> bool {
    values_in(alloc, bytes).is_ok()
}

#[test]
fn records_hold(rt: HostRuntime) -> Result<(), Fail> {
    let alloc = rt.alloc();
    assert!(rt; has_image(alloc, 6, &[Plain::Arr(259)], &ONE_ARRAY)?);
    for i in 0..RECORDS.len() {
        assert!(rt; is_recorded(alloc, RECORDS[i].0, RECORDS[i].1)?, "{i}");
    }
    assert!(rt; !gives_values(alloc, &OWN_ARRAY));
    assert!(rt; !gives_values(alloc, b"LPO1"));
    assert!(rt; gives_values(alloc, &ONE_ARRAY));
    Ok(())
}

//! Records of objects as bytes.
use lp_image::list::{Cells, Pairs, Values};
use lp_image::{ImageFault, Packed, PackedCell, Record, is_ordered, pack, unpack};
use lp_values::id::{CellId, ObjId};
use lp_values::text::Text;
use std::alloc::Global;
use std::test::Fail;

/// An object 3 whose one variable is the array 258, which others name too.
static SHARED: [u8; 29] = [
    76, 80, 79, 49, 3, 0, 0, 0, 0, 0, 0, 0, 1, 0, 0, 0, 2, 2, 1, 0, 0, 0, 0, 0, 0, 0, 0, 0, 0,
];

/// An object 3 whose one variable is `é`.
static TEXT: [u8; 27] = [
    76, 80, 79, 49, 3, 0, 0, 0, 0, 0, 0, 0, 1, 0, 0, 0, 1, 2, 0, 0, 0, 195, 169, 0, 0, 0, 0,
];

/// An object 1 whose one variable is a mapping of its own, `(["": 0])`.
static MAP: [u8; 44] = [
    76, 80, 79, 49, 1, 0, 0, 0, 0, 0, 0, 0, 1, 0, 0, 0, 6, 0, 0, 0, 0, 1, 0, 0, 0, 1, 1, 0, 0, 0,
    1, 0, 0, 0, 0, 0, 0, 0, 0, 0, 0, 0, 0, 0,
];

/// An object 7 whose one variable is an array of its own, `({({1, 2}), 0})`.
static OWN: [u8; 67] = [
    76, 80, 79, 49, 7, 0, 0, 0, 0, 0, 0, 0, 1, 0, 0, 0, 5, 0, 0, 0, 0, 2, 0, 0, 0, 0, 2, 0, 0, 0,
    5, 1, 0, 0, 0, 0, 0, 0, 0, 0, 0, 0, 0, 0, 0, 2, 0, 0, 0, 0, 1, 0, 0, 0, 0, 0, 0, 0, 0, 2, 0, 0,
    0, 0, 0, 0, 0,
];

/// An object 1 of five variables, a mapping of its own, -2, `é`, the mapping 5 and the object 6; the mapping is `(["": 0])`.
static EACH: [u8; 78] = [
    76, 80, 79, 49, 1, 0, 0, 0, 0, 0, 0, 0, 5, 0, 0, 0, 6, 0, 0, 0, 0, 0, 254, 255, 255, 255, 255,
    255, 255, 255, 1, 2, 0, 0, 0, 195, 169, 3, 5, 0, 0, 0, 0, 0, 0, 0, 4, 6, 0, 0, 0, 0, 0, 0, 0,
    1, 0, 0, 0, 1, 1, 0, 0, 0, 1, 0, 0, 0, 0, 0, 0, 0, 0, 0, 0, 0, 0, 0,
];

// A record of one variable.
fn one_variable(
    alloc: Global,
    owner: u64,
    value: Packed,
    cells: Vec<PackedCell>,
) -> Result<Record, Fail> {
    let mut vars = Vec::new(alloc);
    vars.push(value)?;
    Ok(Record {
        owner: ObjId(owner),
        vars: Values::from_vec(vars),
        cells: Cells::from_vec(cells),
    })
}

// Whether the record is packed as the bytes.
fn packs_as(alloc: Global, record: &Record, bytes: &[u8]) -> Result<bool, Fail> {
    Ok(is_ordered(record) && pack(alloc, record)?.as_slice() == bytes)
}

// Whether the bytes are unpacked, and what that gives is packed as the bytes again.
fn is_image(alloc: Global, bytes: &[u8]) -> Result<bool, Fail> {
    let record = unpack(alloc, bytes)?;
    packs_as(alloc, &record, bytes)
}

// Whether the record of one variable without cells is packed as the bytes.
fn is_variable(alloc: Global, owner: u64, value: Packed, bytes: &[u8]) -> Result<bool, Fail> {
    let record = one_variable(alloc, owner, value, Vec::new(alloc))?;
    packs_as(alloc, &record, bytes)
}

fn is_shared(alloc: Global) -> Result<bool, Fail> {
    is_variable(alloc, 3, Packed::Arr(CellId(258)), &SHARED)
}

fn is_text(alloc: Global) -> Result<bool, Fail> {
    let text = Text::from_str(alloc, "é")?;
    is_variable(alloc, 3, Packed::Str(text), &TEXT)
}

// An array of two values.
fn array_of(alloc: Global, first: Packed, second: Packed) -> Result<PackedCell, Fail> {
    let values = Vec::from_array(alloc, [first, second])?;
    Ok(PackedCell::Array(Values::from_vec(values)))
}

// The array of an array of its own and 0, and that of 1 and 2.
fn arrays(alloc: Global) -> Result<Vec<PackedCell>, Fail> {
    let mut cells = Vec::new(alloc);
    cells.push(array_of(alloc, Packed::OwnArr(1), Packed::Int(0))?)?;
    cells.push(array_of(alloc, Packed::Int(1), Packed::Int(2))?)?;
    Ok(cells)
}

// Whether the record of an object with arrays of its own is in order.
fn are_own_arrays(alloc: Global) -> Result<bool, Fail> {
    let cells = arrays(alloc)?;
    let record = one_variable(alloc, 7, Packed::OwnArr(0), cells)?;
    packs_as(alloc, &record, &OWN)
}

// The mapping `(["": 0])`.
fn mapping(alloc: Global) -> Result<Vec<PackedCell>, Fail> {
    let empty = Text::from_str(alloc, "")?;
    let pairs = Vec::from_array(alloc, [(Packed::Str(empty), Packed::Int(0))])?;
    let mut cells = Vec::new(alloc);
    cells.push(PackedCell::Mapping(Pairs::from_vec(pairs)))?;
    Ok(cells)
}

// Whether the record of an object with a mapping of its own is.
fn is_own_mapping(alloc: Global) -> Result<bool, Fail> {
    let cells = mapping(alloc)?;
    let record = one_variable(alloc, 1, Packed::OwnMap(0), cells)?;
    packs_as(alloc, &record, &MAP)
}

#[test]
fn records_have_their_images(rt: HostRuntime) -> Result<(), Fail> {
    let alloc = rt.alloc();
    assert!(rt; is_shared(alloc)?);
    assert!(rt; is_image(alloc, &SHARED)?);
    assert!(rt; is_image(alloc, &OWN)?);
    assert!(rt; is_image(alloc, &EACH)?);
    assert!(rt; is_text(alloc)?);
    assert!(rt; are_own_arrays(alloc)?);
    assert!(rt; is_own_mapping(alloc)?);
    Ok(())
}

// Whether bytes are no record.
fn is_none(alloc: Global, bytes: &[u8]) -> bool {
    matches!(unpack(alloc, bytes), Err(ImageFault::NoRecord))
}

// Whether bytes with one behind them are none.
fn is_none_with_more(alloc: Global, bytes: &[u8]) -> Result<bool, Fail> {
    let mut more = Vec::from_slice(alloc, bytes)?;
    more.push(0)?;
    Ok(is_none(alloc, more.as_slice()))
}

// Whether bytes are none with another one at a place.
fn is_none_with(alloc: Global, bytes: &[u8], at: usize, byte: u8) -> Result<bool, Fail> {
    let mut changed = Vec::from_slice(alloc, bytes)?;
    if at < changed.len() {
        changed[at] = byte;
    }
    Ok(is_none(alloc, changed.as_slice()))
}

// A place, and the byte that is put there: the mark, a tag, the places and kinds of the cells, a count.
static CHANGED: [(usize, u8); 11] = [
    (3, 50),
    (16, 7),
    (16, 6),
    (17, 1),
    (25, 1),
    (25, 2),
    (31, 0),
    (31, 2),
    (12, 2),
    (21, 3),
    (24, 255),
];

// Each front of an image is the image of nothing, and so is each with a byte more.
#[test]
fn other_bytes_are_no_record(rt: HostRuntime) -> Result<(), Fail> {
    let alloc = rt.alloc();
    for len in 0..67 {
        assert!(rt; is_none(alloc, &OWN[..len]), "a front of {len}");
    }
    assert!(rt; is_none_with_more(alloc, &OWN)?);
    for i in 0..CHANGED.len() {
        let (at, byte) = CHANGED[i];
        assert!(rt; is_none_with(alloc, &OWN, at, byte)?, "{byte} at {at}");
    }
    assert!(rt; is_none_with(alloc, &EACH, 35, 255)?, "no UTF-8");
    Ok(())
}

//! Bytes from records.
ghost use Rattle.std.specs.Prelude.{◌≡◌, ◌<◌, ◌^◌, ◌++◌, IfOk, OnOk, encode_utf8_all, length, string_bytes, true};
ghost use Rattle.std.specs.Str.{all_scalars};
ghost use Rattle.lp_image.specs.Image.{IsCell, IsListOf, IsOrdered, IsPair, IsRecord, IsValue, cell_image, eight, four, image, list_image, pair_image, text_image, value_image};

use crate::record::{Packed, PackedCell, Record};
use lp_io::Octets;
use lp_values::text::Text;
use std::alloc::{AllocError, Global};

fn put_four(out: &mut Vec<u8>, n: u32) -> Result<(), AllocError>
    ensures { OnOk result (out.new.items ≡ out.old.items ++ four n) }
{
    out.extend_from_slice(&n.to_le_bytes())
}

fn put_eight(out: &mut Vec<u8>, n: u64) -> Result<(), AllocError>
    ensures { OnOk result (out.new.items ≡ out.old.items ++ eight n) }
{
    out.extend_from_slice(&n.to_le_bytes())
}

// Puts the length of a list, which is to fit four bytes.
fn put_len(out: &mut Vec<u8>, len: usize) -> Result<(), AllocError>
    ensures fits { OnOk result (len < 2 ^ 32) }
    ensures ok { OnOk result (out.new.items ≡ out.old.items ++ four len) }
{
    if len > 4294967295 {
        return Err(AllocError);
    }
    put_four(out, len as u32)
}

// The bytes of a text.
fn utf8_of(alloc: Global, text: &Text) -> Result<String, AllocError>
    ensures bytes { IfOk result (λ s. string_bytes s ≡ encode_utf8_all text.now) }
    ensures valid { OnOk result (all_scalars text.now ≡ true) }
{
    let spelled: String = text.as_slice().iter().copied().collect(alloc)?;
    Ok(spelled)
}

// Puts a text, its length first.
fn put_text(alloc: Global, out: &mut Vec<u8>, text: &Text) -> Result<(), AllocError>
    ensures fits { OnOk result (IsValue (Packed.Str text.now)) }
    ensures ok { OnOk result (out.new.items ≡ out.old.items ++ text_image (encode_utf8_all text.now)) }
{
    let spelled = utf8_of(alloc, text)?;
    put_len(out, spelled.len())?;
    out.extend_from_slice(spelled.as_bytes())
}

fn put_value(alloc: Global, out: &mut Vec<u8>, value: &Packed) -> Result<(), AllocError>
    ensures fits { OnOk result (IsValue value.now) }
    ensures ok { OnOk result (out.new.items ≡ out.old.items ++ value_image value.now) }
{
    match value {
        Packed::Int(n) => {
            out.push(0)?;
            put_eight(out, n.cast_unsigned())
        }
        Packed::Str(text) => {
            out.push(1)?;
            put_text(alloc, out, text)
        }
        Packed::Arr(id) => {
            out.push(2)?;
            put_eight(out, id.0)
        }
        Packed::Map(id) => {
            out.push(3)?;
            put_eight(out, id.0)
        }
        Packed::Obj(id) => {
            out.push(4)?;
            put_eight(out, id.0)
        }
        Packed::OwnArr(place) => {
            out.push(5)?;
            put_four(out, *place)
        }
        Packed::OwnMap(place) => {
            out.push(6)?;
            put_four(out, *place)
        }
    }
}

fn put_pair(alloc: Global, out: &mut Vec<u8>, pair: &(Packed, Packed)) -> Result<(), AllocError>
    ensures fits { OnOk result (IsPair pair.now) }
    ensures ok { OnOk result (out.new.items ≡ out.old.items ++ pair_image pair.now) }
{
    put_value(alloc, out, &pair.0)?;
    put_value(alloc, out, &pair.1)
}

fn put_values(alloc: Global, out: &mut Vec<u8>, values: &[Packed]) -> Result<(), AllocError>
    ensures fits { OnOk result (IsListOf IsValue values.now) }
    ensures ok { OnOk result (out.new.items ≡ out.old.items ++ list_image value_image values.now) }
{
    put_len(out, values.len())?;
    for value in values {
        put_value(alloc, out, value)?;
    }
    Ok(())
}

fn put_pairs(alloc: Global, out: &mut Vec<u8>, pairs: &[(Packed, Packed)]) -> Result<(), AllocError>
    ensures fits { OnOk result (IsListOf IsPair pairs.now) }
    ensures ok { OnOk result (out.new.items ≡ out.old.items ++ list_image pair_image pairs.now) }
{
    put_len(out, pairs.len())?;
    for pair in pairs {
        put_pair(alloc, out, pair)?;
    }
    Ok(())
}

fn put_cell(alloc: Global, out: &mut Vec<u8>, cell: &PackedCell) -> Result<(), AllocError>
    ensures fits { OnOk result (IsCell cell.now) }
    ensures ok { OnOk result (out.new.items ≡ out.old.items ++ cell_image cell.now) }
{
    match cell {
        PackedCell::Array(values) => {
            out.push(0)?;
            put_values(alloc, out, values.as_slice())
        }
        PackedCell::Mapping(pairs) => {
            out.push(1)?;
            put_pairs(alloc, out, pairs.as_slice())
        }
    }
}

fn put_cells(alloc: Global, out: &mut Vec<u8>, cells: &[PackedCell]) -> Result<(), AllocError>
    ensures fits { OnOk result (IsListOf IsCell cells.now) }
    ensures ok { OnOk result (out.new.items ≡ out.old.items ++ list_image cell_image cells.now) }
{
    put_len(out, cells.len())?;
    for cell in cells {
        put_cell(alloc, out, cell)?;
    }
    Ok(())
}

/// The image of a record. Where a length does not fit its four bytes, memory has run out.
pub fn pack(alloc: Global, record: &Record) -> Result<Octets, AllocError>
    requires { IsOrdered record.now }
    ensures record { OnOk result (IsRecord record.now) }
    ensures bytes { IfOk result (λ bytes. bytes ≡ image record.now) }
{
    let mut out = Vec::new(alloc);
    out.extend_from_slice(b"LPO1")?;
    put_eight(&mut out, record.owner.0)?;
    put_values(alloc, &mut out, record.vars.as_slice())?;
    put_cells(alloc, &mut out, record.cells.as_slice())?;
    Ok(Octets::from_vec(out))
}

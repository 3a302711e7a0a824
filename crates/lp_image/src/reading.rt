//! Records from bytes.
ghost use Rattle.std.specs.Prelude.{◌≡◌, IfOk, IsErrOf, None, Some};
ghost use Rattle.std.specs.Int.{w32, w64};
ghost use Rattle.lp_image.specs.Image.{IsOrdered, IsRecord, image};
ghost use Rattle.lp_image.specs.Reading.{Gives, all_of, cell_at, cell_behind, list_at, many_at, mark_at, number_at, pair_at, record_at, spelled, text_at, value_at, value_behind};
ghost use Rattle.lp_image.specs.declared.record.Record.{Record};

use crate::fault::ImageFault;
use crate::list::{Cells, Pairs, Values};
use crate::order::is_ordered;
use crate::record::{Packed, PackedCell, Record};
use lp_values::id::{CellId, ObjId};
use lp_values::text::Text;
use std::alloc::Global;

fn four_at(bytes: &[u8]) -> Result<(u32, &[u8]), ImageFault>
    ensures { Gives (λ x. (x.0, x.1.now)) result (number_at w32 bytes.now) }
{
    if bytes.len() < 4 {
        return Err(ImageFault::NoRecord);
    }
    let (front, rest) = bytes.split_at(4);
    let number = u32::from_le_bytes([front[0], front[1], front[2], front[3]]);
    Ok((number, rest))
}

fn eight_at(bytes: &[u8]) -> Result<(u64, &[u8]), ImageFault>
    ensures { Gives (λ x. (x.0, x.1.now)) result (number_at w64 bytes.now) }
{
    if bytes.len() < 8 {
        return Err(ImageFault::NoRecord);
    }
    let (front, rest) = bytes.split_at(8);
    let number = u64::from_le_bytes([
        front[0], front[1], front[2], front[3], front[4], front[5], front[6], front[7],
    ]);
    Ok((number, rest))
}

fn text_of(alloc: Global, bytes: &[u8]) -> Result<Text, ImageFault>
    ensures { Gives (λ t. t) result (spelled bytes.now) }
{
    match std::str::from_utf8(bytes) {
        Ok(text) => Ok(Text::from_str(alloc, text)?),
        Err(_) => Err(ImageFault::NoRecord),
    }
}

#[tactic(auto, unfolding(crate::specs::Reading::text_at))]
fn text_at(alloc: Global, bytes: &[u8]) -> Result<(Text, &[u8]), ImageFault>
    ensures { Gives (λ x. (x.0, x.1.now)) result (text_at bytes.now) }
{
    let (len, rest) = four_at(bytes)?;
    let len = len as usize;
    if rest.len() < len {
        return Err(ImageFault::NoRecord);
    }
    let (text, rest) = rest.split_at(len);
    Ok((text_of(alloc, text)?, rest))
}

#[tactic(auto, unfolding(crate::specs::Reading::value_behind))]
fn value_behind(alloc: Global, tag: u8, bytes: &[u8]) -> Result<(Packed, &[u8]), ImageFault>
    ensures { Gives (λ x. (x.0, x.1.now)) result (value_behind tag bytes.now) }
{
    match tag {
        0 => {
            let (n, rest) = eight_at(bytes)?;
            Ok((Packed::Int(n.cast_signed()), rest))
        }
        1 => {
            let (text, rest) = text_at(alloc, bytes)?;
            Ok((Packed::Str(text), rest))
        }
        2 => {
            let (n, rest) = eight_at(bytes)?;
            Ok((Packed::Arr(CellId(n)), rest))
        }
        3 => {
            let (n, rest) = eight_at(bytes)?;
            Ok((Packed::Map(CellId(n)), rest))
        }
        4 => {
            let (n, rest) = eight_at(bytes)?;
            Ok((Packed::Obj(ObjId(n)), rest))
        }
        5 => {
            let (n, rest) = four_at(bytes)?;
            Ok((Packed::OwnArr(n), rest))
        }
        6 => {
            let (n, rest) = four_at(bytes)?;
            Ok((Packed::OwnMap(n), rest))
        }
        _ => Err(ImageFault::NoRecord),
    }
}

#[tactic(auto, unfolding(crate::specs::Reading::value_at))]
fn value_at(alloc: Global, bytes: &[u8]) -> Result<(Packed, &[u8]), ImageFault>
    ensures { Gives (λ x. (x.0, x.1.now)) result (value_at bytes.now) }
{
    match bytes {
        [] => Err(ImageFault::NoRecord),
        [tag, rest @ ..] => value_behind(alloc, *tag, rest),
    }
}

#[tactic(auto, unfolding(crate::specs::Reading::pair_at))]
fn pair_at(alloc: Global, bytes: &[u8]) -> Result<((Packed, Packed), &[u8]), ImageFault>
    ensures { Gives (λ x. (x.0, x.1.now)) result (pair_at bytes.now) }
{
    let (key, rest) = value_at(alloc, bytes)?;
    let (value, rest) = value_at(alloc, rest)?;
    Ok(((key, value), rest))
}

// So many values.
fn many_values(alloc: Global, count: u32, bytes: &[u8]) -> Result<(Vec<Packed>, &[u8]), ImageFault>
    ensures { Gives (λ x. (x.0.items, x.1.now)) result (many_at value_at count bytes.now) }
{
    let mut values = Vec::new(alloc);
    let mut rest = bytes;
    for _ in 0..count {
        let (item, after) = value_at(alloc, rest)?;
        values.push(item)?;
        rest = after;
    }
    Ok((values, rest))
}

// So many pairs.
fn many_pairs(
    alloc: Global,
    count: u32,
    bytes: &[u8],
) -> Result<(Vec<(Packed, Packed)>, &[u8]), ImageFault>
    ensures { Gives (λ x. (x.0.items, x.1.now)) result (many_at pair_at count bytes.now) }
{
    let mut pairs = Vec::new(alloc);
    let mut rest = bytes;
    for _ in 0..count {
        let (item, after) = pair_at(alloc, rest)?;
        pairs.push(item)?;
        rest = after;
    }
    Ok((pairs, rest))
}

// So many cells.
fn many_cells(
    alloc: Global,
    count: u32,
    bytes: &[u8],
) -> Result<(Vec<PackedCell>, &[u8]), ImageFault>
    ensures { Gives (λ x. (x.0.items, x.1.now)) result (many_at cell_at count bytes.now) }
{
    let mut cells = Vec::new(alloc);
    let mut rest = bytes;
    for _ in 0..count {
        let (item, after) = cell_at(alloc, rest)?;
        cells.push(item)?;
        rest = after;
    }
    Ok((cells, rest))
}

#[tactic(auto, unfolding(crate::specs::Reading::list_at))]
fn values_at(alloc: Global, bytes: &[u8]) -> Result<(Values, &[u8]), ImageFault>
    ensures { Gives (λ x. (x.0, x.1.now)) result (list_at value_at bytes.now) }
{
    let (count, rest) = four_at(bytes)?;
    let (values, rest) = many_values(alloc, count, rest)?;
    Ok((Values::from_vec(values), rest))
}

#[tactic(auto, unfolding(crate::specs::Reading::list_at))]
fn pairs_at(alloc: Global, bytes: &[u8]) -> Result<(Pairs, &[u8]), ImageFault>
    ensures { Gives (λ x. (x.0, x.1.now)) result (list_at pair_at bytes.now) }
{
    let (count, rest) = four_at(bytes)?;
    let (pairs, rest) = many_pairs(alloc, count, rest)?;
    Ok((Pairs::from_vec(pairs), rest))
}

#[tactic(auto, unfolding(crate::specs::Reading::list_at))]
fn cells_at(alloc: Global, bytes: &[u8]) -> Result<(Cells, &[u8]), ImageFault>
    ensures { Gives (λ x. (x.0, x.1.now)) result (list_at cell_at bytes.now) }
{
    let (count, rest) = four_at(bytes)?;
    let (cells, rest) = many_cells(alloc, count, rest)?;
    Ok((Cells::from_vec(cells), rest))
}

#[tactic(auto, unfolding(crate::specs::Reading::cell_behind))]
fn cell_behind(alloc: Global, tag: u8, bytes: &[u8]) -> Result<(PackedCell, &[u8]), ImageFault>
    ensures { Gives (λ x. (x.0, x.1.now)) result (cell_behind tag bytes.now) }
{
    match tag {
        0 => {
            let (values, rest) = values_at(alloc, bytes)?;
            Ok((PackedCell::Array(values), rest))
        }
        1 => {
            let (pairs, rest) = pairs_at(alloc, bytes)?;
            Ok((PackedCell::Mapping(pairs), rest))
        }
        _ => Err(ImageFault::NoRecord),
    }
}

#[tactic(auto, unfolding(crate::specs::Reading::cell_at))]
fn cell_at(alloc: Global, bytes: &[u8]) -> Result<(PackedCell, &[u8]), ImageFault>
    ensures { Gives (λ x. (x.0, x.1.now)) result (cell_at bytes.now) }
{
    match bytes {
        [] => Err(ImageFault::NoRecord),
        [tag, rest @ ..] => cell_behind(alloc, *tag, rest),
    }
}

#[tactic(auto, unfolding(crate::specs::Reading::mark_at))]
fn mark_at(bytes: &[u8]) -> Result<&[u8], ImageFault>
    ensures { Gives (λ x. (tt, x.now)) result (mark_at bytes.now) }
{
    match bytes {
        [b'L', b'P', b'O', b'1', rest @ ..] => Ok(rest),
        _ => Err(ImageFault::NoRecord),
    }
}

#[tactic(auto, unfolding(crate::specs::Reading::record_at))]
fn record_at(alloc: Global, bytes: &[u8]) -> Result<(Record, &[u8]), ImageFault>
    ensures { Gives (λ x. (x.0, x.1.now)) result (record_at bytes.now) }
{
    let rest = mark_at(bytes)?;
    let (owner, rest) = eight_at(rest)?;
    let (vars, rest) = values_at(alloc, rest)?;
    let (cells, rest) = cells_at(alloc, rest)?;
    Ok((
        Record {
            owner: ObjId(owner),
            vars,
            cells,
        },
        rest,
    ))
}

#[tactic(auto, unfolding(crate::specs::Reading::all_of))]
fn all_of(alloc: Global, bytes: &[u8]) -> Result<Record, ImageFault>
    ensures { Gives (λ r. r) result (all_of bytes.now) }
{
    let (record, rest) = record_at(alloc, bytes)?;
    if rest.is_empty() {
        Ok(record)
    } else {
        Err(ImageFault::NoRecord)
    }
}

/// The record whose image the bytes are. `NoRecord` comes exactly where they are the image of none.
/// It takes time and memory by the number of the bytes, whatever they are.
pub fn unpack(alloc: Global, bytes: &[u8]) -> Result<Record, ImageFault>
    ensures found { IfOk result (λ r. IsRecord r × (image r ≡ bytes.now)) }
    ensures only { IfOk result (λ r. (s : Record) → IsRecord s → image s ≡ bytes.now → s ≡ r) }
    ensures none { IsErrOf result ImageFault.NoRecord → (s : Record) → IsRecord s → image s ≡ bytes.now → ⊥ }
{
    let record = all_of(alloc, bytes)?;
    if is_ordered(&record) {
        Ok(record)
    } else {
        Err(ImageFault::NoRecord)
    }
}

//! The order in which a record mentions its own cells.
ghost use Rattle.std.specs.Prelude.{◌≡◌, ◌↔◌, ◌∷◌, [], IsTrue};
ghost use Rattle.lp_image.specs.Image.{IsOrdered, cell_mentions, is_mapping, mention_of, mentions, pair_mentions};
ghost use Rattle.lp_image.specs.Order.{Follows, same_mention};
ghost use Rattle.std.specs.List.{flat_map};

use crate::record::{Packed, PackedCell, Record};

// Whether a mention is that of a cell at its place.
fn is_mention_of(cell: &PackedCell, mapping: bool, place: u32, next: usize) -> bool
    ensures { result ≡ same_mention (mapping, place) (is_mapping cell.now, next) }
{
    match cell {
        PackedCell::Array(_) => !mapping && place as usize == next,
        PackedCell::Mapping(_) => mapping && place as usize == next,
    }
}

// How many of the cells are mentioned behind a mention, where so many are mentioned before it; or
// nothing where another cell than the next is mentioned.
fn behind_mention(cells: &[PackedCell], mapping: bool, place: u32, next: usize) -> Option<usize>
    ensures { Follows cells.now ((mapping, place) ∷ []) next result }
{
    if next >= cells.len() {
        return None;
    }
    if is_mention_of(&cells[next], mapping, place, next) {
        Some(next + 1)
    } else {
        None
    }
}

fn behind_value(cells: &[PackedCell], value: &Packed, next: usize) -> Option<usize>
    ensures { Follows cells.now (mention_of value.now) next result }
{
    match value {
        Packed::OwnArr(place) => behind_mention(cells, false, *place, next),
        Packed::OwnMap(place) => behind_mention(cells, true, *place, next),
        _ => Some(next),
    }
}

fn behind_values(cells: &[PackedCell], values: &[Packed], next: usize) -> Option<usize>
    ensures { Follows cells.now (flat_map mention_of values.now) next result }
{
    let mut at = next;
    for value in values {
        at = behind_value(cells, value, at)?;
    }
    Some(at)
}

fn behind_pair(cells: &[PackedCell], pair: &(Packed, Packed), next: usize) -> Option<usize>
    ensures { Follows cells.now (pair_mentions pair.now) next result }
{
    let at = behind_value(cells, &pair.0, next)?;
    behind_value(cells, &pair.1, at)
}

fn behind_pairs(cells: &[PackedCell], pairs: &[(Packed, Packed)], next: usize) -> Option<usize>
    ensures { Follows cells.now (flat_map pair_mentions pairs.now) next result }
{
    let mut at = next;
    for pair in pairs {
        at = behind_pair(cells, pair, at)?;
    }
    Some(at)
}

fn behind_cell(cells: &[PackedCell], cell: &PackedCell, next: usize) -> Option<usize>
    ensures { Follows cells.now (cell_mentions cell.now) next result }
{
    match cell {
        PackedCell::Array(values) => behind_values(cells, values.as_slice(), next),
        PackedCell::Mapping(pairs) => behind_pairs(cells, pairs.as_slice(), next),
    }
}

fn behind_cells(cells: &[PackedCell], of: &[PackedCell], next: usize) -> Option<usize>
    ensures { Follows cells.now (flat_map cell_mentions of.now) next result }
{
    let mut at = next;
    for cell in of {
        at = behind_cell(cells, cell, at)?;
    }
    Some(at)
}

// How many of its own cells a record mentions, if it does so in order.
fn behind_record(record: &Record) -> Option<usize>
    ensures { Follows record.now.cells (mentions record.now) 0 result }
{
    let cells = record.cells.as_slice();
    let at = behind_values(cells, record.vars.as_slice(), 0)?;
    behind_cells(cells, cells, at)
}

/// Whether a record mentions each of its own cells once, by its kind, in their order, and no others.
/// Takes no memory.
pub fn is_ordered(record: &Record) -> bool
    ensures { IsTrue result ↔ IsOrdered record.now }
{
    match behind_record(record) {
        Some(at) => record.cells.as_slice().len() <= at,
        None => false,
    }
}

//! How values are spelled.
ghost use Rattle.std.specs.Prelude.{◌≡◌, All, OnOk, map};
ghost use Rattle.lp_cells.specs.Cells.{IsClosed, IsSlotThere, IsThere};
ghost use Rattle.lp_cells.specs.Mapping.{pairs_there};
ghost use Rattle.lp_cells.specs.Slots.{filled};
ghost use Rattle.std.specs.Fmt.{signed_decimal};
ghost use Rattle.lp_format.specs.Answers.{AppendsText};
ghost use Rattle.lp_format.specs.Spelled.{array_spelled, deepest as deepest_of, hidden, is_among as among, mapping_spelled, object_spelled, pair_spelled, quoted as quoted_text, quoted_point, separator, spelled, spelled_within};

use crate::fault::FormatFault;
use crate::names::Names;
use crate::out::Out;
use lp_cells::cells::Cells;
use lp_cells::slots::there_in;
use lp_values::decimal::signed_spelling;
use lp_values::id::{CellId, ObjId};
use lp_values::value::{Living, Value};

/// Appends a value as it is spelled.
pub(crate) fn write_spelled<L: Living + Names>(
    out: &mut Out,
    v: &Value,
    cells: &Cells,
    names: &L,
) -> Result<(), FormatFault>
    requires closed { IsClosed cells.now }
    requires there { IsThere cells.now v.now }
    ensures { AppendsText result out.old out.new (spelled (L.live names.now) (L.name names.now) cells.now v.now) }
{
    let mut path = Vec::new(out.alloc());
    write_within(out, v, deepest(), &mut path, cells, names)
}

/// How deep cells are spelled.
#[tactic(auto, unfolding(crate::specs::Spelled::deepest))]
fn deepest() -> u64
    ensures { result ≡ deepest_of }
{
    20
}

/// Appends a value within cells that are open, where cells may lie so many levels deep.
#[cycle(spell)]
fn write_within<L: Living + Names>(
    out: &mut Out,
    v: &Value,
    levels: u64,
    path: &mut Vec<CellId>,
    cells: &Cells,
    names: &L,
) -> Result<(), FormatFault>
    requires closed { IsClosed cells.now }
    requires there { IsThere cells.now v.now }
    ensures text { AppendsText result out.old out.new (spelled_within (L.live names.now) (L.name names.now) cells.now levels path.old.items v.now) }
    ensures kept { OnOk result (path.new.items ≡ path.old.items) }
{
    match v {
        Value::Int(n) => write_int(out, *n),
        Value::Str(s) => write_quoted(out, s.as_slice()),
        Value::Obj(o) => write_object(out, *o, names),
        Value::Arr(c) => {
            if levels == 0 || is_among(*c, path.as_slice()) {
                return write_hidden(out);
            }
            path.push(*c)?;
            write_array(out, cells.items(*c), levels - 1, path, cells, names)?;
            path.pop();
            Ok(())
        }
        Value::Map(c) => {
            if levels == 0 || is_among(*c, path.as_slice()) {
                return write_hidden(out);
            }
            path.push(*c)?;
            write_mapping(out, cells.slots(*c), levels - 1, path, cells, names)?;
            path.pop();
            Ok(())
        }
    }
}

/// Appends an array of these items, within cells that are open.
#[cycle(spell)]
fn write_array<L: Living + Names>(
    out: &mut Out,
    items: &[Value],
    levels: u64,
    path: &mut Vec<CellId>,
    cells: &Cells,
    names: &L,
) -> Result<(), FormatFault>
    requires closed { IsClosed cells.now }
    requires there { All (IsThere cells.now) items.now }
    ensures text { AppendsText result out.old out.new (array_spelled (map (spelled_within (L.live names.now) (L.name names.now) cells.now levels path.old.items) items.now)) }
    ensures kept { OnOk result (path.new.items ≡ path.old.items) }
{
    out.push_all(&['(', '{'])?;
    let mut others = false;
    for v in items {
        out.push_all(separator_of(others))?;
        write_within(out, v, levels, path, cells, names)?;
        others = true;
    }
    out.push_all(&[' ', '}', ')'])
}

/// Appends a mapping of the pairs in these slots, as far as they are there, within cells that are open.
#[cycle(spell)]
fn write_mapping<L: Living + Names>(
    out: &mut Out,
    slots: &[Option<(Value, Value)>],
    levels: u64,
    path: &mut Vec<CellId>,
    cells: &Cells,
    names: &L,
) -> Result<(), FormatFault>
    requires closed { IsClosed cells.now }
    requires there { All (IsSlotThere cells.now) slots.now }
    ensures text { AppendsText result out.old out.new (mapping_spelled (map (pair_spelled (spelled_within (L.live names.now) (L.name names.now) cells.now levels path.old.items)) (pairs_there (L.live names.now) (filled slots.now)))) }
    ensures kept { OnOk result (path.new.items ≡ path.old.items) }
{
    out.push_all(&['(', '['])?;
    let mut others = false;
    for slot in slots {
        if let Some((key, v)) = there_in(slot, names) {
            out.push_all(separator_of(others))?;
            write_pair(out, key, v, levels, path, cells, names)?;
            others = true;
        }
    }
    out.push_all(&[' ', ']', ')'])
}

/// Appends a pair, within cells that are open.
#[cycle(spell)]
fn write_pair<L: Living + Names>(
    out: &mut Out,
    key: &Value,
    v: &Value,
    levels: u64,
    path: &mut Vec<CellId>,
    cells: &Cells,
    names: &L,
) -> Result<(), FormatFault>
    requires closed { IsClosed cells.now }
    requires key_there { IsThere cells.now key.now }
    requires there { IsThere cells.now v.now }
    ensures text { AppendsText result out.old out.new (pair_spelled (spelled_within (L.live names.now) (L.name names.now) cells.now levels path.old.items) (key.now, v.now)) }
    ensures kept { OnOk result (path.new.items ≡ path.old.items) }
{
    write_within(out, key, levels, path, cells, names)?;
    out.push_all(&[':', ' '])?;
    write_within(out, v, levels, path, cells, names)
}

/// Whether a cell is one of these.
fn is_among(c: CellId, path: &[CellId]) -> bool
    ensures { result ≡ among c path.now }
{
    path.contains(&c)
}

/// What stands before a text, behind others or not.
fn separator_of(others: bool) -> &'static [char]
    ensures { result.now ≡ separator others }
{
    if others { &[',', ' '] } else { &[' '] }
}

/// Appends what stands for a cell that is not spelled.
fn write_hidden(out: &mut Out) -> Result<(), FormatFault>
    ensures { AppendsText result out.old out.new hidden }
{
    out.push_all(&['<', '.', '.', '.', '>'])
}

/// Appends an integer in decimal.
pub(crate) fn write_int(out: &mut Out, n: i64) -> Result<(), FormatFault>
    ensures { AppendsText result out.old out.new (signed_decimal n) }
{
    let digits = signed_spelling(out.alloc(), n)?;
    out.push_all(digits.as_slice())
}

/// Appends a text between quotes.
fn write_quoted(out: &mut Out, s: &[char]) -> Result<(), FormatFault>
    ensures { AppendsText result out.old out.new (quoted_text s.now) }
{
    out.push('"')?;
    for c in s {
        write_point(out, *c)?;
    }
    out.push('"')
}

/// Appends a code point between quotes.
fn write_point(out: &mut Out, c: char) -> Result<(), FormatFault>
    ensures { AppendsText result out.old out.new (quoted_point c) }
{
    match c {
        '"' => out.push_all(&['\\', '"']),
        '\\' => out.push_all(&['\\', '\\']),
        '\n' => out.push_all(&['\\', 'n']),
        other => out.push(other),
    }
}

/// Appends an object's name, or 0 for one that is destructed or has none.
fn write_object<L: Living + Names>(out: &mut Out, o: ObjId, names: &L) -> Result<(), FormatFault>
    ensures { AppendsText result out.old out.new (object_spelled (L.live names.now) (L.name names.now) o) }
{
    if !names.is_live(o) {
        return out.push('0');
    }
    match names.name_of(o) {
        Some(name) => out.push_str(name),
        None => out.push('0'),
    }
}

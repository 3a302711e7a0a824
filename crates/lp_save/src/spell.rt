//! Spelling values.
ghost use Rattle.std.specs.Prelude.{◌≡◌, ◌<◌, ◌^◌, All, OnOk, [], ◌∷◌, ◌++◌, codes, flat_map, fold};
ghost use Rattle.std.specs.Fmt.{signed_decimal};
ghost use Rattle.lp_cells.specs.Cells.{IsClosed, IsSlotThere, IsThere};
ghost use Rattle.lp_cells.specs.Mapping.{pairs_there};
ghost use Rattle.lp_cells.specs.Slots.{filled};
ghost use Rattle.lp_save.specs.SaveText.{add as added, again_text, begun, numbered, saved_point, share_number, spelt};
ghost use Rattle.lp_save.specs.States.{Spells, Writes, pair_spelt};

use crate::cell_set::CellSet;
use lp_cells::cells::Cells;
use lp_cells::slots::there_in;
use lp_values::decimal::{signed_spelling, spelling};
use lp_values::id::CellId;
use lp_values::value::{Living, Value};
use std::alloc::{AllocError, Global};

/// What is spelled so far, and the shared cells that it has.
#[derive(Drop)]
pub(crate) struct Speller {
    alloc: Global,
    /// The shared cells that were spelled.
    pub(crate) done: CellSet,
    /// The text.
    pub(crate) text: Vec<char>,
}

/// Nothing is spelled. Takes no memory.
pub(crate) fn begin_text(alloc: Global) -> Speller
    ensures { Writes result (record { done = []; text = [] }) }
{
    Speller {
        alloc,
        done: CellSet::new(alloc),
        text: Vec::new(alloc),
    }
}

/// Adds code points.
pub(crate) fn add(speller: &mut Speller, text: &[char]) -> Result<(), AllocError>
    ensures text { OnOk result (speller.new.text.items ≡ speller.old.text.items ++ text.now) }
    ensures done { OnOk result (speller.new.done ≡ speller.old.done) }
{
    speller.text.extend_from_slice(text)
}

/// Adds the number of a shared cell.
fn add_number(speller: &mut Speller, place: usize) -> Result<(), AllocError>
    requires { place < 2 ^ 63 }
    ensures text { OnOk result (speller.new.text.items ≡ speller.old.text.items ++ (numbered place)) }
    ensures done { OnOk result (speller.new.done ≡ speller.old.done) }
{
    let digits = spelling(speller.alloc, place as u64 + 1)?;
    speller.text.push('<')?;
    speller.text.extend_from_slice(digits.as_slice())?;
    speller.text.push('>')?;
    Ok(())
}

/// Begins a cell: with its number, where it is shared.
fn begin_cell(speller: &mut Speller, shared: &CellSet, c: CellId) -> Result<(), AllocError>
    ensures { OnOk result (Spells speller.old speller.new (begun (share_number shared.now c) c)) }
{
    match shared.place(c) {
        None => Ok(()),
        Some(place) => {
            speller.done.add(c)?;
            add_number(speller, place)?;
            add(speller, &['='])
        }
    }
}

/// Adds the number alone of a cell that was spelled before.
fn add_again(speller: &mut Speller, shared: &CellSet, c: CellId) -> Result<(), AllocError>
    ensures text { OnOk result (speller.new.text.items ≡ speller.old.text.items ++ (again_text (share_number shared.now c))) }
    ensures done { OnOk result (speller.new.done ≡ speller.old.done) }
{
    match shared.place(c) {
        None => Ok(()),
        Some(place) => add_number(speller, place),
    }
}

/// Adds a code point of a text.
fn add_point(speller: &mut Speller, c: char) -> Result<(), AllocError>
    ensures text { OnOk result (speller.new.text.items ≡ speller.old.text.items ++ (saved_point c)) }
    ensures done { OnOk result (speller.new.done ≡ speller.old.done) }
{
    match c {
        '\\' => add(speller, &['\\', '\\']),
        '\n' => add(speller, &['\\', 'n']),
        '\r' => add(speller, &['\\', 'r']),
        '\t' => add(speller, &['\\', 't']),
        '"' => add(speller, &['\\', '"']),
        other => add(speller, &[other]),
    }
}

/// Adds a text between quotes.
fn add_quoted(speller: &mut Speller, text: &[char]) -> Result<(), AllocError>
    ensures text { OnOk result (speller.new.text.items ≡ speller.old.text.items ++ (34 ∷ flat_map saved_point text.now ++ 34 ∷ [])) }
    ensures done { OnOk result (speller.new.done ≡ speller.old.done) }
{
    add(speller, &['"'])?;
    for c in text {
        add_point(speller, *c)?;
    }
    add(speller, &['"'])
}

/// Adds an integer.
fn add_int(speller: &mut Speller, n: i64) -> Result<(), AllocError>
    ensures text { OnOk result (speller.new.text.items ≡ speller.old.text.items ++ (signed_decimal n)) }
    ensures done { OnOk result (speller.new.done ≡ speller.old.done) }
{
    let digits = signed_spelling(speller.alloc, n)?;
    add(speller, digits.as_slice())
}

/// Spells a value behind what is spelled so far, where cells lie at most so many levels deep.
#[cycle(spell)]
pub(crate) fn spell<L: Living>(
    speller: &mut Speller,
    v: &Value,
    levels: u64,
    shared: &CellSet,
    cells: &Cells,
    live: &L,
) -> Result<(), AllocError>
    requires closed { IsClosed cells.now }
    requires there { IsThere cells.now v.now }
    ensures { OnOk result (Spells speller.old speller.new (λ s. spelt (L.live live.now) cells.now shared.now levels s v.now)) }
{
    match v {
        Value::Int(n) => add_int(speller, *n),
        Value::Str(s) => add_quoted(speller, s.as_slice()),
        Value::Obj(_) => add(speller, &['0']),
        Value::Arr(c) => {
            if levels == 0 || speller.done.contains(*c) {
                return add_again(speller, shared, *c);
            }
            begin_cell(speller, shared, *c)?;
            spell_items(speller, cells.items(*c), levels - 1, shared, cells, live)
        }
        Value::Map(c) => {
            if levels == 0 || speller.done.contains(*c) {
                return add_again(speller, shared, *c);
            }
            begin_cell(speller, shared, *c)?;
            spell_pairs(speller, cells.slots(*c), levels - 1, shared, cells, live)
        }
    }
}

/// Spells the items of an array.
#[cycle(spell)]
fn spell_items<L: Living>(
    speller: &mut Speller,
    items: &[Value],
    levels: u64,
    shared: &CellSet,
    cells: &Cells,
    live: &L,
) -> Result<(), AllocError>
    requires closed { IsClosed cells.now }
    requires there { All (IsThere cells.now) items.now }
    ensures { OnOk result (Spells speller.old speller.new (λ s. added (codes "})") (fold (λ x v. added (codes ",") (spelt (L.live live.now) cells.now shared.now levels x v)) (added (codes "({") s) items.now))) }
{
    add(speller, &['(', '{'])?;
    for v in items {
        spell(speller, v, levels, shared, cells, live)?;
        add(speller, &[','])?;
    }
    add(speller, &['}', ')'])
}

/// Spells the pairs in the slots of a mapping, as far as they are there.
#[cycle(spell)]
fn spell_pairs<L: Living>(
    speller: &mut Speller,
    slots: &[Option<(Value, Value)>],
    levels: u64,
    shared: &CellSet,
    cells: &Cells,
    live: &L,
) -> Result<(), AllocError>
    requires closed { IsClosed cells.now }
    requires there { All (IsSlotThere cells.now) slots.now }
    ensures { OnOk result (Spells speller.old speller.new (λ s. added (codes "])") (fold (pair_spelt (spelt (L.live live.now) cells.now shared.now levels)) (added (codes "([") s) (pairs_there (L.live live.now) (filled slots.now))))) }
{
    add(speller, &['(', '['])?;
    for slot in slots {
        if let Some((key, v)) = there_in(slot, live) {
            spell(speller, key, levels, shared, cells, live)?;
            add(speller, &[':'])?;
            spell(speller, v, levels, shared, cells, live)?;
            add(speller, &[','])?;
        }
    }
    add(speller, &[']', ')'])
}

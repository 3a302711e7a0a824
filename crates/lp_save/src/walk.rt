//! Going over values in the order in which they are spelled.
ghost use Rattle.std.specs.Prelude.{◌≡◌, ◌≤◌, All, IfOk, OnOk, [], false, true, fold, flat_map};
ghost use Rattle.lp_cells.specs.Cells.{IsClosed, IsSlotThere, IsThere};
ghost use Rattle.lp_cells.specs.Mapping.{pairs_there};
ghost use Rattle.lp_cells.specs.Slots.{filled};
ghost use Rattle.lp_save.specs.SaveText.{Walk, walked};
ghost use Rattle.lp_save.specs.States.{Enters, GoesOver, Stands, both};

use crate::cell_set::CellSet;
use lp_cells::cells::Cells;
use lp_cells::slots::there_in;
use lp_values::id::CellId;
use lp_values::value::{Living, Value};
use std::alloc::{AllocError, Global};

/// What was met so far.
#[derive(Drop)]
pub(crate) struct Walker {
    /// The cells met, by first place.
    pub(crate) met: CellSet,
    /// Those of them that were met again.
    pub(crate) again: CellSet,
    /// Whether cells lie too deep.
    pub(crate) is_deep: bool,
}

/// Nothing was met. Takes no memory.
pub(crate) fn begin_walk(alloc: Global) -> Walker
    ensures { Stands result (record { met = []; again = []; is_deep = false }) }
{
    Walker {
        met: CellSet::new(alloc),
        again: CellSet::new(alloc),
        is_deep: false,
    }
}

/// Goes over a value, where cells may lie so many levels deep.
#[cycle(walk)]
pub(crate) fn walk<L: Living>(
    walker: &mut Walker,
    v: &Value,
    levels: u64,
    cells: &Cells,
    live: &L,
) -> Result<(), AllocError>
    requires closed { IsClosed cells.now }
    requires there { IsThere cells.now v.now }
    ensures { OnOk result (GoesOver walker.old walker.new (λ w. walked (L.live live.now) cells.now levels w v.now)) }
{
    match v {
        Value::Arr(c) => {
            if enter(walker, *c, levels)? {
                walk_items(walker, cells.items(*c), levels - 1, cells, live)?;
            }
            Ok(())
        }
        Value::Map(c) => {
            if enter(walker, *c, levels)? {
                walk_pairs(walker, cells.slots(*c), levels - 1, cells, live)?;
            }
            Ok(())
        }
        _ => Ok(()),
    }
}

/// Meets a cell, and tells whether what it holds is to be gone over.
fn enter(walker: &mut Walker, c: CellId, levels: u64) -> Result<bool, AllocError>
    ensures met { Enters result walker.old walker.new c levels }
    ensures level { IfOk result (λ b. b ≡ true → 1 ≤ levels) }
{
    if walker.met.contains(c) {
        walker.again.add(c)?;
        return Ok(false);
    }
    if levels == 0 {
        walker.is_deep = true;
        return Ok(false);
    }
    walker.met.add(c)?;
    Ok(true)
}

/// Goes over the items of an array.
#[cycle(walk)]
fn walk_items<L: Living>(
    walker: &mut Walker,
    items: &[Value],
    levels: u64,
    cells: &Cells,
    live: &L,
) -> Result<(), AllocError>
    requires closed { IsClosed cells.now }
    requires there { All (IsThere cells.now) items.now }
    ensures { OnOk result (GoesOver walker.old walker.new (λ w. fold (walked (L.live live.now) cells.now levels) w items.now)) }
{
    for v in items {
        walk(walker, v, levels, cells, live)?;
    }
    Ok(())
}

/// Goes over the pairs in the slots of a mapping, as far as they are there.
#[cycle(walk)]
fn walk_pairs<L: Living>(
    walker: &mut Walker,
    slots: &[Option<(Value, Value)>],
    levels: u64,
    cells: &Cells,
    live: &L,
) -> Result<(), AllocError>
    requires closed { IsClosed cells.now }
    requires there { All (IsSlotThere cells.now) slots.now }
    ensures { OnOk result (GoesOver walker.old walker.new (λ w. fold (walked (L.live live.now) cells.now levels) w (flat_map both (pairs_there (L.live live.now) (filled slots.now))))) }
{
    for slot in slots {
        if let Some((key, v)) = there_in(slot, live) {
            walk(walker, key, levels, cells, live)?;
            walk(walker, v, levels, cells, live)?;
        }
    }
    Ok(())
}

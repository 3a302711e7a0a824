//! Locals, which are found by their names.
ghost use Rattle.std.specs.Prelude.{◌≡◌, ◌-◌, ◌∷◌, ◌++◌, [], List, OnErr, OnOk, if◌then◌else◌, is_some, length, min, take, true, ℕ};
ghost use Rattle.lp_instr.specs.EfunList.{is_name};
ghost use Rattle.lp_types_expr.specs.NameMaps.{named};
ghost use Rattle.lp_types_expr.specs.Placed.{ArePlaced, kind_at, last_place, locals_of};

use crate::local::Local;
use crate::mark::Mark;
use crate::names::put;
use crate::row::Row;
use lp_tree::chars::Chars;
use lp_tree::types::TypeName;
use std::alloc::{AllocError, Global};
use std::collections::HashMap;

// The place of the last local of a name.
pub(crate) fn place(rows: &[Row], places: &HashMap<Vec<char>, usize>, name: &Chars) -> Option<usize>
    ensures { ArePlaced rows.now places.now → result ≡ last_place rows.now name.now }
{
    places.get(name.as_slice()).copied()
}

// What was known of a name before its last local.
fn show_again(places: &mut HashMap<Vec<char>, usize>, name: &Chars, hidden: Option<usize>)
    ensures { (w : List ℕ) → is_some (named places.old name.now) ≡ true → named places.new w ≡ (if is_name w name.now then hidden else named places.old w) }
{
    match hidden {
        None => {
            places.remove(name.as_slice());
        }
        Some(place) => {
            if let Some(last) = places.get_mut(name.as_slice()) {
                *last = place;
            }
        }
    }
}

/// Takes the last local away.
pub(crate) fn forget(rows: &mut Vec<Row>, places: &mut HashMap<Vec<char>, usize>)
    ensures rows { rows.new.items ≡ take (length rows.old.items - 1) rows.old.items }
    ensures placed { ArePlaced rows.old.items places.old → ArePlaced rows.new.items places.new }
{
    if let Some(Row { local, hidden }) = rows.pop() {
        show_again(places, &local.name, hidden);
    }
}

/// Adds a local. An `Err` leaves all as it was.
pub(crate) fn add(
    alloc: Global,
    rows: &mut Vec<Row>,
    places: &mut HashMap<Vec<char>, usize>,
    name: &Chars,
    kind: TypeName,
) -> Result<(), AllocError>
    ensures ok { OnOk result (locals_of rows.new.items ≡ locals_of rows.old.items ++ record { name = name.now; kind = kind } ∷ []) }
    ensures err { OnErr result (rows.new.items ≡ rows.old.items) }
    ensures placed { ArePlaced rows.old.items places.old → ArePlaced rows.new.items places.new }
{
    let place = rows.len();
    let hidden = places.get(name.as_slice()).copied();
    let local = Local {
        name: name.copy()?,
        kind,
    };
    rows.push(Row { local, hidden })?;
    match put(alloc, places, name.as_slice(), place) {
        Ok(_) => Ok(()),
        Err(error) => {
            rows.pop();
            Err(error)
        }
    }
}

/// The type of the local at a place, if there is one.
pub(crate) fn kind_at(rows: &[Row], place: Option<usize>) -> Option<TypeName>
    ensures { result ≡ kind_at rows.now place }
{
    match place {
        None => None,
        Some(place) => match rows.get(place) {
            None => None,
            Some(row) => Some(row.local.kind),
        },
    }
}

/// Keeps the locals of a mark, and tells how many of them belong to the blocks round the one that goes on.
pub(crate) fn keep(rows: &mut Vec<Row>, places: &mut HashMap<Vec<char>, usize>, mark: Mark) -> usize
    ensures rows { rows.new.items ≡ take mark.locals rows.old.items }
    ensures placed { ArePlaced rows.old.items places.old → ArePlaced rows.new.items places.new }
    ensures outer { result ≡ min mark.outer (length rows.new.items) }
{
    while rows.len() > mark.locals {
        forget(rows, places);
    }
    mark.outer.min(rows.len())
}

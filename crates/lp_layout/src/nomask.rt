//! Functions that may not be overridden.
ghost use Rattle.std.specs.Prelude.{◌≡◌, ◌∷◌, ◌++◌, [], IfOk, List, OnOk, Some, map, ℕ};
ghost use Rattle.std.specs.List.{list_any};
ghost use Rattle.lp_code.specs.declared.tables.Tables.{Tables as SomeTables};
ghost use Rattle.lp_types_expr.specs.NameMaps.{named};
ghost use Rattle.lp_layout.specs.LayoutFaults.{is_nomask_number, is_same_version, overrides, source, source_of, stands_beside};
ghost use Rattle.lp_layout.specs.Standing.{Knows, KnowsSome, clashes, differ, shown_with, with_source, with_version};

use crate::source::Source;
use crate::standing::{Standing, Versions};
use lp_code::name::Name;
use lp_code::tables::{Slot, Tables};
use lp_tree::chars::Chars;
use lp_types_expr::names::{letters, put};
use lp_types_expr::tables::is_seen;
use lp_values::id::ProgId;
use std::alloc::{AllocError, Global};
use std::collections::HashMap;

// Whether modifiers have `nomask`, which is bit 5.
fn is_nomask(mods: u16) -> bool
    ensures { result ≡ is_nomask_number mods }
{
    (mods / 32) % 2 == 1
}

fn is_same_version(a: Option<ProgId>, b: Option<ProgId>) -> bool
    ensures { result ≡ is_same_version a b }
{
    match a {
        None => false,
        Some(m) => match b {
            None => false,
            Some(n) => m.0 == n.0,
        },
    }
}

// Whether one of some versions is another one.
fn differ(versions: Option<Versions>, version: Option<ProgId>) -> bool
    ensures { result ≡ differ versions version }
{
    match versions {
        None => false,
        Some(known) => known.several || !is_same_version(known.first, version),
    }
}

// One version more.
fn with_version(versions: Option<Versions>, version: Option<ProgId>) -> Versions
    ensures { result ≡ with_version versions version }
{
    match versions {
        None => Versions {
            first: version,
            several: false,
        },
        Some(known) => Versions {
            first: known.first,
            several: known.several || !is_same_version(known.first, version),
        },
    }
}

// What a row shows.
fn source_of(parent: &Tables, slot: &Slot) -> Option<Source>
    ensures { result ≡ source_of parent.now (Some slot.now) }
{
    if !is_seen(true, slot) {
        return None;
    }
    Some(Source {
        version: parent.parts.as_slice().get(slot.part as usize).copied(),
        mods: slot.mods,
    })
}

// What a parent shows of a name. Takes no longer with more rows.
fn source(parent: &Tables, name: &Name) -> Option<Source>
    ensures { result ≡ source parent.now name.now }
{
    match parent.slots.place(name.as_str()) {
        None => None,
        Some(place) => {
            let rows = parent.slots.as_slice();
            source_of(parent, &rows[place])
        }
    }
}

// Whether a function clashes with those that are known.
fn clashes(known: Option<Standing>, source: Option<Source>) -> bool
    ensures { result ≡ clashes known source }
{
    match source {
        None => false,
        Some(one) => match known {
            None => false,
            Some(standing) => {
                if is_nomask(one.mods) {
                    differ(Some(standing.all), one.version)
                } else {
                    differ(standing.nomask, one.version)
                }
            }
        },
    }
}

// One function more.
fn with_source(known: Option<Standing>, source: Source) -> Standing
    ensures { result ≡ with_source known source }
{
    let (all, nomask) = match known {
        None => (None, None),
        Some(standing) => (Some(standing.all), standing.nomask),
    };
    Standing {
        all: with_version(all, source.version),
        nomask: if is_nomask(source.mods) {
            Some(with_version(nomask, source.version))
        } else {
            nomask
        },
    }
}

// Whether what a parent shows of a name clashes with what is known.
fn name_clashes(
    alloc: Global,
    known: &HashMap<Vec<char>, Standing>,
    parent: &Tables,
    name: &Name,
) -> Result<bool, AllocError>
    ensures { IfOk result (λ b. b ≡ clashes (named known.now name.now) (source parent.now name.now)) }
{
    let key = letters(alloc, name.as_str())?;
    Ok(clashes(known.get(key.as_slice()).copied(), source(parent, name)))
}

// Whether what a parent shows of the name of one of some rows clashes with what is known.
fn any_clashes(
    alloc: Global,
    known: &HashMap<Vec<char>, Standing>,
    parent: &Tables,
    rows: &[Slot],
) -> Result<bool, AllocError>
    ensures { IfOk result (λ b. b ≡ list_any (λ s. clashes (named known.now s.name) (source parent.now s.name)) rows.now) }
{
    for row in rows {
        if name_clashes(alloc, known, parent, &row.name)? {
            return Ok(true);
        }
    }
    Ok(false)
}

/// Whether a parent shows a function that may not stand beside one of the parents before it.
pub(crate) fn stands_beside(
    alloc: Global,
    known: &HashMap<Vec<char>, Standing>,
    parent: &Tables,
) -> Result<bool, AllocError>
    ensures { IfOk result (λ b. (ts : List SomeTables) → Knows ts known.now → b ≡ stands_beside ts parent.now) }
{
    let is_beside = any_clashes(alloc, known, parent, parent.slots.as_slice())?;
    Ok(is_beside)
}

// Adds what a parent shows of a name.
fn add_name(
    alloc: Global,
    known: &mut HashMap<Vec<char>, Standing>,
    parent: &Tables,
    name: &Name,
) -> Result<(), AllocError>
    ensures { OnOk result ((w : List ℕ) → named known.new w ≡ shown_with (source parent.now name.now) name.now (named known.old w) w) }
{
    match source(parent, name) {
        None => Ok(()),
        Some(one) => {
            let key = letters(alloc, name.as_str())?;
            let standing = with_source(known.get(key.as_slice()).copied(), one);
            put(alloc, known, key.as_slice(), standing)
        }
    }
}

// Adds what a parent shows of the names of some rows.
fn add_names(
    alloc: Global,
    known: &mut HashMap<Vec<char>, Standing>,
    parent: &Tables,
    rows: &[Slot],
) -> Result<(), AllocError>
    ensures { OnOk result ((ts : List SomeTables) → Knows ts known.old → KnowsSome ts parent.now (map (λ s. s.name) rows.now) known.new) }
{
    for row in rows {
        add_name(alloc, known, parent, &row.name)?;
    }
    Ok(())
}

/// Adds what one parent more shows.
pub(crate) fn add_parent(
    alloc: Global,
    known: &mut HashMap<Vec<char>, Standing>,
    parent: &Tables,
) -> Result<(), AllocError>
    ensures { OnOk result ((ts : List SomeTables) → Knows ts known.old → Knows (ts ++ parent.now ∷ []) known.new) }
{
    add_names(alloc, known, parent, parent.slots.as_slice())?;
    Ok(())
}

/// Whether a child may not override a name.
pub(crate) fn overrides(known: &HashMap<Vec<char>, Standing>, name: &Chars) -> bool
    ensures { (ts : List SomeTables) → Knows ts known.now → result ≡ overrides ts name.now }
{
    match known.get(name.as_slice()) {
        None => false,
        Some(standing) => standing.nomask.is_some(),
    }
}

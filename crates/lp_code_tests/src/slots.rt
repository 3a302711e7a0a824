//! Slots that are found by name.
ghost use Rattle.std.specs.Prelude.{◌≡◌, ◌<◌, ◌≤◌, length};

use crate::build::tables;
use lp_code::name::Name;
use lp_code::steps::Steps;
use lp_code::tables::Tables;
use std::alloc::{AllocError, Global};
use std::marker::Brand;
use std::sync::ledger::{Blank, Ledger};
use std::test::Fail;

/// The slots of two names, with the names counted that are compared.
fn found<L: Ledger>(
    blank: Blank,
    tables: &Tables,
    first: &Name,
    second: &Name,
) -> (Option<u16>, Option<u16>)
    requires few { length tables.now.slots ≤ 65535 }
    requires name { blank.name ≡ L.name }
    requires parts { blank.parts ≡ L.parts }
    requires some { 0 < L.parts }
{
    let mut steps: Steps<L> = Steps::open(blank);
    let one = tables.find(first.as_str(), &mut steps);
    let other = tables.find(second.as_str(), &mut steps);
    (one, other)
}

/// The slots of two names.
fn both(tables: &Tables, first: &Name, second: &Name) -> (Option<u16>, Option<u16>)
    requires { length tables.now.slots ≤ 65535 }
{
    found::<Brand>(Blank::new(1), tables, first, second)
}

/// Whether of the names `f` and `g` the first one's slot is found.
fn finds(tables: &Tables, first: &Name, second: &Name) -> bool {
    tables.slots.as_slice().len() <= 65535 && both(tables, first, second) == (Some(0), None)
}

fn finds_by_name(alloc: Global) -> Result<bool, AllocError> {
    let there = Name::from_str(alloc, "f")?;
    let absent = Name::from_str(alloc, "g")?;
    let made = tables(alloc, &["f"])?;
    let found = finds(&made, &there, &absent);
    drop(made);
    Ok(found)
}

#[test]
fn by_name(rt: HostRuntime) -> Result<(), Fail> {
    assert!(rt; finds_by_name(rt.alloc())?);
    Ok(())
}

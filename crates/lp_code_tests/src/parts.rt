//! Functions, switches and tables.
use crate::build::{Form, fault, plain, tables};
use lp_code::tables::Tables;
use lp_instr::instr::{Case, Instr};
use std::alloc::{AllocError, Global};
use std::test::Fail;

static CODE: [Instr; 4] = [
    Instr::PushLocal(0),
    Instr::Return,
    Instr::PushLocal(0),
    Instr::Return,
];

/// Functions, where the program is unsound, and what is tried.
type TriedFunctions = (&'static [(u32, u8, u16)], Option<usize>, &'static str);

static FUNCTIONS: [TriedFunctions; 7] = [
    (&[(0, 0, 1), (2, 1, 1)], None, "two functions"),
    (
        &[(0, 0, 1), (2, 0, 0)],
        Some(2),
        "locals of its own function",
    ),
    (
        &[(0, 0, 1), (1, 0, 1)],
        Some(0),
        "a path leaves the function",
    ),
    (&[(2, 0, 1)], Some(0), "no local before the first function"),
    (&[(0, 0, 1), (0, 0, 1)], Some(4), "two at one place"),
    (&[(0, 0, 1), (4, 0, 1)], Some(4), "one past the code"),
    (&[(0, 2, 1)], Some(4), "more parameters than locals"),
];

/// The first of these that is not judged so.
fn wrong_functions(alloc: Global) -> Result<Option<&'static str>, AllocError> {
    for (funs, want, why) in &FUNCTIONS {
        let tried = Form {
            funs,
            ..plain(&CODE, 1)
        };
        if fault(alloc, &tried)? != *want {
            return Ok(Some(*why));
        }
    }
    Ok(None)
}

static SWITCH: [Instr; 4] = [
    Instr::PushInt(1),
    Instr::Switch(0),
    Instr::ReturnZero,
    Instr::ReturnZero,
];

/// Labels, the place where none fits, where the program is unsound, and what is tried.
type TriedSwitch = (&'static [Case], u32, Option<usize>, &'static str);

static SWITCHES: [TriedSwitch; 4] = [
    (&[Case::Ints(0, 0, 2)], 2, None, "one label"),
    (&[Case::Text(2, 2)], 2, Some(1), "no such text"),
    (&[Case::Ints(0, 0, 1)], 2, Some(1), "back to no turn"),
    (&[Case::Ints(0, 0, 2)], 4, Some(1), "past the code"),
];

/// The first of these that is not judged so.
fn wrong_switch(alloc: Global) -> Result<Option<&'static str>, AllocError> {
    for (cases, other, want, why) in &SWITCHES {
        let tried = Form {
            cases,
            other: *other,
            ..plain(&SWITCH, 1)
        };
        if fault(alloc, &tried)? != *want {
            return Ok(Some(*why));
        }
    }
    Ok(None)
}

/// Where a program with slots of these names is unsound.
fn fault_of_slots(alloc: Global, slots: &[&str]) -> Result<Option<usize>, AllocError> {
    let tried = Form {
        slots,
        ..plain(&CODE, 1)
    };
    fault(alloc, &tried)
}

/// Whether each of the slots `f`, `g` and `f` is found at its first place, and no other.
fn finds(tables: &Tables) -> bool {
    tables.slots.as_slice().len() <= 65535
        && tables.slot("f") == Some(0)
        && tables.slot("g") == Some(1)
        && tables.slot("h").is_none()
}

fn finds_slots(alloc: Global) -> Result<bool, AllocError> {
    let made = tables(alloc, &["f", "g", "f"])?;
    let found = finds(&made);
    drop(made);
    Ok(found)
}

#[test]
fn parts(rt: HostRuntime) -> Result<(), Fail> {
    let alloc = rt.alloc();
    assert_eq!(rt; wrong_functions(alloc)?, None);
    assert_eq!(rt; wrong_switch(alloc)?, None);
    assert_eq!(rt;
        fault_of_slots(alloc, &["f", "g", "f"])?,
        Some(4),
        "two slots of one name"
    );
    assert_eq!(rt; fault_of_slots(alloc, &["f", "g"])?, None);
    assert!(rt; finds_slots(alloc)?);
    Ok(())
}

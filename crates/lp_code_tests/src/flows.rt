//! What paths teach.
use crate::build::{fault, plain};
use lp_instr::instr::Instr;
use std::alloc::{AllocError, Global};
use std::test::Fail;

/// Instructions, how many operands the stack may hold, where the program is unsound, and what is tried.
type Row = (&'static [Instr], u32, Option<usize>, &'static str);

static HEIGHTS: [Row; 7] = [
    (&[Instr::Pop, Instr::ReturnZero], 5, Some(0), "no operand"),
    (
        &[Instr::PushInt(1), Instr::Jump(9)],
        1,
        Some(1),
        "a jump past the code",
    ),
    (&[Instr::PushInt(1)], 1, Some(0), "the path leaves the code"),
    (
        &[Instr::PushInt(1), Instr::Return],
        0,
        Some(0),
        "more than the stack may hold",
    ),
    (
        &[Instr::PushInt(1), Instr::Return],
        1,
        None,
        "as much as the stack may hold",
    ),
    (
        &[Instr::ReturnZero, Instr::Pop],
        1,
        None,
        "no path reaches the end",
    ),
    (
        &[Instr::LoopTurn, Instr::PushInt(1), Instr::Jump(0)],
        100,
        Some(0),
        "two heights at the turn",
    ),
];

static LOOPS: [Row; 4] = [
    (
        &[
            Instr::Jump(2),
            Instr::LoopTurn,
            Instr::PushInt(1),
            Instr::JumpIfNotZero(1),
            Instr::ReturnZero,
        ],
        1,
        None,
        "a loop",
    ),
    (
        &[Instr::PushInt(1), Instr::Pop, Instr::Jump(0)],
        1,
        Some(2),
        "a jump back to a plain instruction",
    ),
    (
        &[Instr::ReturnZero, Instr::Jump(1)],
        1,
        Some(1),
        "a jump to itself, which no path reaches",
    ),
    (
        &[
            Instr::Jump(3),
            Instr::LoopTurn,
            Instr::Pop,
            Instr::PushInt(1),
            Instr::JumpIfNotZero(1),
            Instr::ReturnZero,
        ],
        1,
        Some(2),
        "the body, not the test that leads to it",
    ),
];

static CATCHES: [Row; 6] = [
    (
        &[
            Instr::CatchBegin(5),
            Instr::PushInt(1),
            Instr::Pop,
            Instr::CatchEnd,
            Instr::PushInt(0),
            Instr::Return,
        ],
        1,
        None,
        "a catch",
    ),
    (
        &[
            Instr::PushInt(1),
            Instr::CatchBegin(4),
            Instr::Pop,
            Instr::CatchEnd,
            Instr::Pop,
            Instr::ReturnZero,
        ],
        2,
        Some(2),
        "an operand below an open catch",
    ),
    (
        &[
            Instr::CatchBegin(2),
            Instr::ReturnZero,
            Instr::Pop,
            Instr::ReturnZero,
        ],
        1,
        Some(1),
        "a return inside a catch",
    ),
    (
        &[Instr::CatchEnd, Instr::ReturnZero, Instr::ReturnZero],
        1,
        Some(0),
        "no catch is open",
    ),
    (
        &[
            Instr::PushInt(1),
            Instr::JumpIfZero(3),
            Instr::CatchBegin(5),
            Instr::PushInt(0),
            Instr::Return,
            Instr::Pop,
            Instr::ReturnZero,
        ],
        1,
        Some(3),
        "two lists of open catches",
    ),
    (
        &[
            Instr::LoopTurn,
            Instr::PushInt(1),
            Instr::JumpIfZero(5),
            Instr::CatchBegin(8),
            Instr::Jump(6),
            Instr::CatchBegin(10),
            Instr::CatchEnd,
            Instr::Jump(0),
            Instr::Pop,
            Instr::ReturnZero,
            Instr::Pop,
            Instr::ReturnZero,
        ],
        1,
        Some(0),
        "behind two lists of catches paths mix",
    ),
];

/// The first of these that is not judged so.
fn first_wrong(alloc: Global, rows: &[Row]) -> Result<Option<&'static str>, AllocError> {
    for (instrs, max_height, want, why) in rows {
        if fault(alloc, &plain(instrs, *max_height))? != *want {
            return Ok(Some(*why));
        }
    }
    Ok(None)
}

/// A million instructions, and one more.
fn a_million(alloc: Global) -> Result<Vec<Instr>, AllocError> {
    let mut instrs = Vec::new(alloc);
    for _ in 0..500000 {
        instrs.push(Instr::PushInt(1))?;
        instrs.push(Instr::Pop)?;
    }
    instrs.push(Instr::ReturnZero)?;
    Ok(instrs)
}

/// A million instructions with a catch in each four, and one more. Two heights meet at the 500000th.
fn many_catches(alloc: Global) -> Result<Vec<Instr>, AllocError> {
    let mut instrs = Vec::new(alloc);
    for i in 0u32..250000 {
        instrs.push(Instr::PushInt(1))?;
        instrs.push(Instr::Pop)?;
        instrs.push(Instr::CatchBegin(500000 + i))?;
        instrs.push(Instr::LoopTurn)?;
    }
    instrs.push(Instr::ReturnZero)?;
    Ok(instrs)
}

/// Where long code is unsound.
fn fault_of_long(alloc: Global, instrs: Vec<Instr>) -> Result<Option<usize>, AllocError> {
    fault(alloc, &plain(instrs.as_slice(), 1))
}

#[test]
fn paths(rt: HostRuntime) -> Result<(), Fail> {
    let alloc = rt.alloc();
    assert_eq!(rt; first_wrong(alloc, &HEIGHTS)?, None);
    assert_eq!(rt; first_wrong(alloc, &LOOPS)?, None);
    assert_eq!(rt; first_wrong(alloc, &CATCHES)?, None);
    Ok(())
}

#[test]
fn long_code(rt: HostRuntime) -> Result<(), Fail> {
    let alloc = rt.alloc();
    assert_eq!(rt; fault_of_long(alloc, a_million(alloc)?)?, None);
    assert_eq!(rt; fault_of_long(alloc, many_catches(alloc)?)?, Some(500000));
    Ok(())
}

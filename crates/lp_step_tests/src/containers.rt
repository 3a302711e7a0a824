//! Arrays, mappings and ranges: what is made, read, written and cut.
use crate::running::{Course, run_alone};
use lp_instr::instr::{EndKind, Instr};
use lp_tree::expr::Edge;
use lp_tree::operator::BinOp;
use lp_values::error::ErrorKind;
use std::alloc::{AllocError, Global};
use std::process::Abort;
use std::test::Fail;

// What the tests of a row begin with.
#[derive(Clone, Copy, Debug, PartialEq, Eq)]
enum First {
    // The array of 1, 2 and 3, which is also in the local 0 and the local 1.
    Array,
    // The mapping with 10 at 1 and 20 at 2, in the same places.
    Mapping,
    // The text `abc`, there as well.
    Text,
    // The integer 5, there as well.
    Int,
}

// What a row begins with, and then does.
fn beginning(alloc: Global, first: First, then: &[Instr]) -> Result<Vec<Instr>, AllocError> {
    let mut instrs = Vec::new(alloc);
    match first {
        First::Array => instrs.extend_from_slice(&[
            Instr::PushInt(1),
            Instr::PushInt(2),
            Instr::PushInt(3),
            Instr::MakeArray(3),
        ])?,
        First::Mapping => instrs.extend_from_slice(&[
            Instr::PushInt(1),
            Instr::PushInt(10),
            Instr::PushInt(2),
            Instr::PushInt(20),
            Instr::MakeMap(2),
        ])?,
        First::Text => instrs.push(Instr::PushText(0))?,
        First::Int => instrs.push(Instr::PushInt(5))?,
    }
    instrs.push(Instr::SetLocal(0))?;
    instrs.push(Instr::SetLocal(1))?;
    instrs.extend_from_slice(then)?;
    instrs.push(Instr::Return)?;
    Ok(instrs)
}

// Each of these comes to this, and takes so much of a budget of 1000.
fn come_to(
    rt: &impl Abort,
    alloc: Global,
    rows: &[(First, &[Instr], Course, u64)],
) -> Result<(), Fail> {
    for (first, then, want, price) in rows {
        let instrs = beginning(alloc, *first, then)?;
        let (found, left) = run_alone(alloc, instrs.as_slice(), 1000)?;
        assert!(rt;
            found == *want && left.saturating_add(*price) == 1000,
            "{instrs:?} comes to {found:?} with {left} left"
        );
    }
    Ok(())
}

const FRONT: Instr = Instr::Index(Edge::Front);

const BACK: Instr = Instr::Index(Edge::Back);

const SET: Instr = Instr::SetIndex(Edge::Front);

const SET_BACK: Instr = Instr::SetIndex(Edge::Back);

#[test]
fn reads(rt: HostRuntime) -> Result<(), Fail> {
    use Instr::*;
    come_to(
        &rt,
        rt.alloc(),
        &[
            (First::Array, &[PushInt(0), FRONT], Course::Int(1), 2),
            (First::Array, &[PushInt(2), FRONT], Course::Int(3), 2),
            (
                First::Array,
                &[PushInt(3), FRONT],
                Course::Error(ErrorKind::BadIndex),
                2,
            ),
            (
                First::Array,
                &[PushInt(-1), FRONT],
                Course::Error(ErrorKind::BadIndex),
                2,
            ),
            (First::Array, &[PushInt(1), BACK], Course::Int(3), 2),
            (
                First::Array,
                &[PushInt(0), BACK],
                Course::Error(ErrorKind::BadIndex),
                2,
            ),
            (
                First::Array,
                &[PushText(0), FRONT],
                Course::Error(ErrorKind::BadOperands),
                2,
            ),
            (First::Mapping, &[PushInt(2), FRONT], Course::Int(20), 2),
            (First::Mapping, &[PushInt(3), FRONT], Course::Int(0), 2),
            (
                First::Mapping,
                &[PushInt(1), BACK],
                Course::Error(ErrorKind::BadOperands),
                2,
            ),
            (First::Text, &[PushInt(1), FRONT], Course::Int(98), 1),
            (
                First::Text,
                &[PushInt(3), FRONT],
                Course::Error(ErrorKind::BadIndex),
                1,
            ),
            (
                First::Int,
                &[PushInt(0), FRONT],
                Course::Error(ErrorKind::BadOperands),
                1,
            ),
        ],
    )
}

#[test]
fn writes(rt: HostRuntime) -> Result<(), Fail> {
    use Instr::*;
    come_to(
        &rt,
        rt.alloc(),
        &[
            (
                First::Array,
                &[PushInt(1), PushInt(9), SET],
                Course::Int(9),
                2,
            ),
            (
                First::Array,
                &[
                    PushInt(1),
                    PushInt(9),
                    SET,
                    Pop,
                    PushLocal(1),
                    PushInt(1),
                    FRONT,
                ],
                Course::Int(9),
                3,
            ),
            (
                First::Array,
                &[
                    PushInt(1),
                    PushInt(9),
                    SET,
                    Pop,
                    PushLocal(0),
                    PushInt(0),
                    FRONT,
                ],
                Course::Int(1),
                3,
            ),
            (
                First::Array,
                &[
                    PushInt(1),
                    PushInt(9),
                    SET_BACK,
                    Pop,
                    PushLocal(0),
                    PushInt(2),
                    FRONT,
                ],
                Course::Int(9),
                3,
            ),
            (
                First::Array,
                &[PushInt(3), PushInt(9), SET],
                Course::Error(ErrorKind::BadIndex),
                2,
            ),
            (
                First::Array,
                &[PushInt(0), PushInt(9), SET_BACK],
                Course::Error(ErrorKind::BadIndex),
                2,
            ),
            (
                First::Array,
                &[PushText(0), PushInt(9), SET],
                Course::Error(ErrorKind::BadOperands),
                2,
            ),
            (
                First::Mapping,
                &[
                    PushInt(2),
                    PushInt(9),
                    SET,
                    Pop,
                    PushLocal(1),
                    PushInt(2),
                    FRONT,
                ],
                Course::Int(9),
                3,
            ),
            (
                First::Mapping,
                &[
                    PushText(0),
                    PushInt(9),
                    SET,
                    Pop,
                    PushLocal(1),
                    PushText(0),
                    FRONT,
                ],
                Course::Int(9),
                3,
            ),
            (
                First::Mapping,
                &[
                    PushText(0),
                    PushInt(9),
                    SET,
                    Pop,
                    PushLocal(1),
                    PushInt(1),
                    FRONT,
                ],
                Course::Int(10),
                3,
            ),
            (
                First::Mapping,
                &[PushInt(1), PushInt(9), SET_BACK],
                Course::Error(ErrorKind::BadOperands),
                2,
            ),
            (
                First::Text,
                &[PushInt(1), PushInt(9), SET],
                Course::Error(ErrorKind::BadOperands),
                1,
            ),
            (
                First::Int,
                &[PushInt(1), PushInt(9), SET],
                Course::Error(ErrorKind::BadOperands),
                1,
            ),
        ],
    )
}

#[test]
fn literals(rt: HostRuntime) -> Result<(), Fail> {
    use Instr::*;
    come_to(
        &rt,
        rt.alloc(),
        &[
            (
                First::Int,
                &[MakeArray(0), PushInt(0), FRONT],
                Course::Error(ErrorKind::BadIndex),
                2,
            ),
            (
                First::Int,
                &[PushInt(6), MakeArray(2), PushInt(0), FRONT],
                Course::Int(5),
                2,
            ),
            (
                First::Int,
                &[PushInt(6), MakeArray(1), PushInt(0), FRONT],
                Course::Int(6),
                2,
            ),
            (
                First::Int,
                &[PushInt(6), MakeArray(1), Pop],
                Course::Int(5),
                1,
            ),
            (
                First::Int,
                &[MakeMap(0), PushInt(5), FRONT],
                Course::Int(0),
                2,
            ),
            (
                First::Int,
                &[
                    PushInt(6),
                    PushInt(5),
                    PushInt(7),
                    MakeMap(2),
                    PushInt(5),
                    FRONT,
                ],
                Course::Int(7),
                2,
            ),
            (
                First::Int,
                &[
                    PushInt(6),
                    PushInt(8),
                    PushInt(7),
                    MakeMap(2),
                    PushInt(5),
                    FRONT,
                ],
                Course::Int(6),
                2,
            ),
            (
                First::Int,
                &[
                    PushInt(6),
                    PushInt(8),
                    PushInt(7),
                    MakeMap(1),
                    PushInt(8),
                    FRONT,
                ],
                Course::Int(7),
                2,
            ),
            (
                First::Int,
                &[PushInt(6), PushInt(8), PushInt(7), MakeMap(1), Pop],
                Course::Int(6),
                1,
            ),
        ],
    )
}

#[test]
fn ranges(rt: HostRuntime) -> Result<(), Fail> {
    use EndKind::{Back, Open, Start};
    use Instr::*;
    come_to(
        &rt,
        rt.alloc(),
        &[
            (
                First::Array,
                &[
                    PushInt(1),
                    PushInt(2),
                    Range(Start, Start),
                    PushInt(0),
                    FRONT,
                ],
                Course::Int(2),
                3,
            ),
            (
                First::Array,
                &[
                    PushInt(1),
                    PushInt(1),
                    Range(Start, Start),
                    PushInt(1),
                    FRONT,
                ],
                Course::Error(ErrorKind::BadIndex),
                3,
            ),
            (
                First::Array,
                &[PushInt(1), Range(Start, Open), PushInt(1), BACK],
                Course::Int(3),
                3,
            ),
            (
                First::Array,
                &[PushInt(1), Range(Open, Start), PushInt(1), BACK],
                Course::Int(2),
                3,
            ),
            (
                First::Array,
                &[PushInt(1), Range(Open, Back), PushInt(1), BACK],
                Course::Int(3),
                3,
            ),
            (
                First::Array,
                &[PushInt(2), PushInt(2), Range(Back, Back), PushInt(0), FRONT],
                Course::Int(2),
                3,
            ),
            (
                First::Array,
                &[
                    PushInt(2),
                    PushInt(1),
                    Range(Start, Start),
                    PushInt(0),
                    FRONT,
                ],
                Course::Error(ErrorKind::BadIndex),
                3,
            ),
            (
                First::Array,
                &[
                    Range(Open, Open),
                    PushInt(0),
                    PushInt(9),
                    SET,
                    Pop,
                    PushLocal(0),
                    PushInt(0),
                    FRONT,
                ],
                Course::Int(1),
                4,
            ),
            (
                First::Array,
                &[PushText(0), Range(Start, Open)],
                Course::Error(ErrorKind::BadOperands),
                2,
            ),
            (
                First::Text,
                &[PushInt(1), Range(Start, Open), PushInt(0), FRONT],
                Course::Int(98),
                2,
            ),
            (
                First::Mapping,
                &[Range(Open, Open)],
                Course::Error(ErrorKind::BadOperands),
                2,
            ),
            (
                First::Int,
                &[Range(Open, Open)],
                Course::Error(ErrorKind::BadOperands),
                1,
            ),
        ],
    )
}

#[test]
fn loops(rt: HostRuntime) -> Result<(), Fail> {
    use Instr::*;
    come_to(
        &rt,
        rt.alloc(),
        &[
            (
                First::Array,
                &[
                    EachBegin(1),
                    Jump(13),
                    LoopTurn,
                    PushLocal(2),
                    Binary(BinOp::Add),
                    SetLocal(2),
                    Pop,
                    EachNext(8, 1),
                    PushLocal(2),
                ],
                Course::Int(6),
                7,
            ),
            (
                First::Array,
                &[EachBegin(1), EachNext(10, 1), PushInt(9), Return],
                Course::Int(1),
                1,
            ),
            (
                First::Array,
                &[
                    Pop,
                    MakeArray(0),
                    EachBegin(1),
                    EachNext(12, 1),
                    PushInt(9),
                    Return,
                ],
                Course::Int(9),
                2,
            ),
            (
                First::Mapping,
                &[
                    EachBegin(2),
                    Jump(15),
                    LoopTurn,
                    Pop,
                    PushLocal(2),
                    Binary(BinOp::Add),
                    SetLocal(2),
                    Pop,
                    EachNext(9, 2),
                    PushLocal(2),
                ],
                Course::Int(30),
                5,
            ),
            (
                First::Int,
                &[EachBegin(1), Pop, Pop, PushInt(1)],
                Course::Error(ErrorKind::BadOperands),
                0,
            ),
        ],
    )
}

#[test]
fn scans(rt: HostRuntime) -> Result<(), Fail> {
    use Instr::*;
    come_to(
        &rt,
        rt.alloc(),
        &[
            (
                First::Int,
                &[PushText(3), PushText(2), Scan(1)],
                Course::Int(1),
                1,
            ),
            (
                First::Int,
                &[PushText(3), PushText(2), Scan(1), Pop],
                Course::Int(12),
                1,
            ),
            (
                First::Int,
                &[PushText(3), PushText(2), Scan(1), Pop, Pop],
                Course::Int(1),
                1,
            ),
            (
                First::Int,
                &[PushText(0), PushText(2), Scan(1)],
                Course::Int(0),
                1,
            ),
            (
                First::Int,
                &[PushText(0), PushText(2), Scan(1), Pop, Pop],
                Course::Int(0),
                1,
            ),
            (
                First::Int,
                &[PushText(3), PushText(2), Scan(0)],
                Course::Error(ErrorKind::TooFewArgs),
                1,
            ),
        ],
    )
}

// What a literal of so many pushed integers comes to, from 0 up or all 0, and what is left of a budget.
fn long(
    alloc: Global,
    pushed: i64,
    counts: bool,
    literal: Instr,
    budget: u64,
) -> Result<(Course, u64), Fail> {
    let mut instrs = Vec::new(alloc);
    for i in 0..pushed {
        instrs.push(Instr::PushInt(if counts { i } else { 0 }))?;
    }
    instrs.push(literal)?;
    instrs.push(Instr::Return)?;
    Ok(run_alone(alloc, instrs.as_slice(), budget)?)
}

#[test]
fn lengths(rt: HostRuntime) -> Result<(), Fail> {
    let alloc = rt.alloc();
    let rows = [
        (15, true, Instr::MakeArray(15), 1, Course::Other, 0),
        (16, true, Instr::MakeArray(16), 2, Course::Other, 0),
        (16, true, Instr::MakeArray(16), 1, Course::Spent, 0),
        (1, true, Instr::MakeArray(1), 0, Course::Spent, 0),
        (32, true, Instr::MakeMap(16), 3, Course::Other, 1),
        (32, false, Instr::MakeMap(16), 3, Course::Other, 2),
        (
            10000,
            true,
            Instr::MakeArray(10000),
            1000,
            Course::Other,
            374,
        ),
        (
            10001,
            true,
            Instr::MakeArray(10001),
            1000,
            Course::Error(ErrorKind::TooLong),
            999,
        ),
        (
            20002,
            true,
            Instr::MakeMap(10001),
            1000,
            Course::Error(ErrorKind::TooLong),
            999,
        ),
        (
            20002,
            false,
            Instr::MakeMap(10001),
            1000,
            Course::Other,
            999,
        ),
    ];
    for (pushed, counts, literal, budget, want, left) in rows {
        let (found, is_left) = long(alloc, pushed, counts, literal, budget)?;
        assert!(rt;
            found == want && is_left == left,
            "{literal:?} comes to {found:?} with {is_left} left"
        );
    }
    Ok(())
}

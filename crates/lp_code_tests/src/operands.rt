//! Each operand of each instruction.
use crate::build::{fault, plain};
use lp_instr::efun::Efun;
use lp_instr::instr::{EndKind, Instr};
use lp_tree::expr::Edge;
use lp_tree::operator::BinOp;
use std::alloc::{AllocError, Global};
use std::test::Fail;

/// Code that pushes so many integers, and then has an instruction and so many ends.
fn behind(
    alloc: Global,
    pushes: usize,
    instr: Instr,
    ends: usize,
) -> Result<Vec<Instr>, AllocError> {
    let mut instrs = Vec::new(alloc);
    instrs.resize(pushes, Instr::PushInt(1))?;
    instrs.push(instr)?;
    for _ in 0..ends {
        instrs.push(Instr::ReturnZero)?;
    }
    Ok(instrs)
}

/// Where such code is unsound.
fn fault_behind(
    alloc: Global,
    pushes: usize,
    instr: Instr,
    ends: usize,
) -> Result<Option<usize>, AllocError> {
    let instrs = behind(alloc, pushes, instr, ends)?;
    fault(alloc, &plain(instrs.as_slice(), 9))
}

/// How many integers are pushed before an instruction.
type Row = (usize, Instr);

static SOUND: [Row; 11] = [
    (0, Instr::PushText(1)),
    (0, Instr::PushLocal(0)),
    (1, Instr::SetLocal(0)),
    (0, Instr::PushGlobal(1)),
    (1, Instr::SetGlobal(1)),
    (1, Instr::Rotate(1)),
    (0, Instr::CallSlot(0, 0)),
    (0, Instr::CallFixed(0, 9, 0)),
    (0, Instr::CallEfun(Efun::ThisObject, 0)),
    (0, Instr::CallSimul(1, 0)),
    (1, Instr::EachBegin(2)),
];

static UNSOUND: [Row; 34] = [
    // What it names is absent.
    (0, Instr::PushText(2)),
    (0, Instr::PushLocal(1)),
    (1, Instr::SetLocal(1)),
    (0, Instr::PushGlobal(2)),
    (1, Instr::SetGlobal(2)),
    (0, Instr::Rotate(0)),
    (0, Instr::CallSlot(1, 0)),
    (0, Instr::CallFixed(1, 0, 0)),
    (1, Instr::CallEfun(Efun::ThisObject, 1)),
    (0, Instr::CallSimul(2, 0)),
    (1, Instr::Switch(1)),
    (1, Instr::EachBegin(0)),
    (1, Instr::EachBegin(3)),
    (2, Instr::EachNext(3, 0)),
    (2, Instr::EachNext(3, 3)),
    // Too few operands are there.
    (0, Instr::Pop),
    (0, Instr::Dup),
    (1, Instr::Dup2),
    (1, Instr::Binary(BinOp::Add)),
    (2, Instr::Rotate(3)),
    (1, Instr::Index(Edge::Back)),
    (2, Instr::SetIndex(Edge::Front)),
    (0, Instr::Range(EndKind::Open, EndKind::Open)),
    (1, Instr::Range(EndKind::Start, EndKind::Open)),
    (2, Instr::Range(EndKind::Back, EndKind::Start)),
    (1, Instr::MakeArray(2)),
    (3, Instr::MakeMap(2)),
    (0, Instr::JumpIfZero(5)),
    (0, Instr::KeepIfNotZero(5)),
    (1, Instr::CallSlot(0, 2)),
    (2, Instr::CallOther(1)),
    (1, Instr::CallEfun(Efun::MoveObject, 2)),
    (1, Instr::Scan(1)),
    (0, Instr::EachBegin(1)),
];

/// With one end behind them.
static NEAR_THE_END: [Row; 21] = [
    // A jump leads outside.
    (0, Instr::Jump(2)),
    (1, Instr::JumpIfZero(3)),
    (1, Instr::JumpIfNotZero(3)),
    (1, Instr::KeepIfZero(3)),
    (1, Instr::KeepIfNotZero(3)),
    (0, Instr::CatchBegin(2)),
    (2, Instr::EachNext(4, 1)),
    // It leads back to no turn.
    (1, Instr::Jump(0)),
    (1, Instr::JumpIfZero(0)),
    (1, Instr::JumpIfNotZero(1)),
    (1, Instr::KeepIfZero(0)),
    (1, Instr::KeepIfNotZero(1)),
    (1, Instr::CatchBegin(0)),
    (2, Instr::EachNext(2, 1)),
    (1, Instr::Switch(0)),
    // Operands are not there.
    (0, Instr::SetLocal(0)),
    (0, Instr::SetGlobal(0)),
    (0, Instr::CallFixed(0, 9, 1)),
    (0, Instr::CallSimul(1, 1)),
    (2, Instr::Scan(5)),
    (1, Instr::EachNext(3, 1)),
];

/// The place of the first of these that is not judged so: as sound, or as unsound at the instruction.
fn first_wrong(
    alloc: Global,
    rows: &[Row],
    ends: usize,
    sound: bool,
) -> Result<Option<usize>, AllocError> {
    for i in 0..rows.len() {
        let (pushes, instr) = rows[i];
        let want = if sound { None } else { Some(pushes) };
        if fault_behind(alloc, pushes, instr, ends)? != want {
            return Ok(Some(i));
        }
    }
    Ok(None)
}

#[test]
fn operands(rt: HostRuntime) -> Result<(), Fail> {
    assert_eq!(rt; first_wrong(rt.alloc(), &SOUND, 3, true)?, None);
    assert_eq!(rt; first_wrong(rt.alloc(), &UNSOUND, 3, false)?, None);
    assert_eq!(rt; first_wrong(rt.alloc(), &NEAR_THE_END, 1, false)?, None);
    assert!(rt; size_of::<Instr>() <= 16);
    Ok(())
}

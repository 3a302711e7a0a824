//! Values on the stack, jumps, turns, catches and operators.
use crate::running::{Course, run_alone};
use lp_instr::efun::Efun;
use lp_instr::instr::Instr;
use lp_step::next::{CallOf, EfunCall, Target};
use lp_tree::operator::{BinOp, Step as Count, UnOp};
use lp_values::error::ErrorKind;
use std::alloc::Global;
use std::process::Abort;
use std::test::Fail;

// Each of these comes to this, and takes so much of a budget of 1000.
fn come_to(rt: &impl Abort, alloc: Global, rows: &[(&[Instr], Course, u64)]) -> Result<(), Fail> {
    for (instrs, want, price) in rows {
        let (found, left) = run_alone(alloc, instrs, 1000)?;
        assert!(rt;
            found == *want && left.saturating_add(*price) == 1000,
            "{instrs:?} comes to {found:?} with {left} left"
        );
    }
    Ok(())
}

#[test]
fn values(rt: HostRuntime) -> Result<(), Fail> {
    use Instr::*;
    come_to(
        &rt,
        rt.alloc(),
        &[
            (&[PushInt(7), Return], Course::Int(7), 0),
            (&[PushInt(i64::MIN), Return], Course::Int(i64::MIN), 0),
            (&[PushText(1), Return], Course::Other, 0),
            (&[PushLocal(2), Return], Course::Int(0), 0),
            (&[PushInt(5), SetLocal(1), Return], Course::Int(5), 0),
            (
                &[PushInt(5), SetLocal(1), Pop, PushLocal(1), Return],
                Course::Int(5),
                0,
            ),
            (&[PushInt(1), PushInt(2), Pop, Return], Course::Int(1), 0),
            (
                &[PushInt(3), Dup, Binary(BinOp::Mul), Return],
                Course::Int(9),
                1,
            ),
            (
                &[PushInt(9), PushInt(4), Dup2, Binary(BinOp::Sub), Return],
                Course::Int(5),
                1,
            ),
            (
                &[PushInt(9), PushInt(4), Dup2, Pop, Return],
                Course::Int(9),
                0,
            ),
            (&[PushInt(1), ReturnZero], Course::Int(0), 0),
        ],
    )
}

#[test]
fn rotations(rt: HostRuntime) -> Result<(), Fail> {
    use Instr::*;
    come_to(
        &rt,
        rt.alloc(),
        &[
            (
                &[PushInt(1), PushInt(2), PushInt(3), Rotate(1), Return],
                Course::Int(3),
                0,
            ),
            (
                &[PushInt(1), PushInt(2), PushInt(3), Rotate(2), Return],
                Course::Int(2),
                0,
            ),
            (
                &[PushInt(1), PushInt(2), PushInt(3), Rotate(2), Pop, Return],
                Course::Int(3),
                0,
            ),
            (
                &[PushInt(1), PushInt(2), PushInt(3), Rotate(3), Return],
                Course::Int(1),
                0,
            ),
            (
                &[PushInt(1), PushInt(2), PushInt(3), Rotate(3), Pop, Return],
                Course::Int(3),
                0,
            ),
            (
                &[
                    PushInt(1),
                    PushInt(2),
                    PushInt(3),
                    Rotate(3),
                    Pop,
                    Pop,
                    Return,
                ],
                Course::Int(2),
                0,
            ),
        ],
    )
}

#[test]
fn jumps(rt: HostRuntime) -> Result<(), Fail> {
    use Instr::*;
    come_to(
        &rt,
        rt.alloc(),
        &[
            (
                &[Jump(2), ReturnZero, PushInt(4), Return],
                Course::Int(4),
                0,
            ),
            (
                &[PushInt(0), JumpIfZero(3), ReturnZero, PushInt(1), Return],
                Course::Int(1),
                0,
            ),
            (
                &[PushInt(2), JumpIfZero(3), ReturnZero, PushInt(1), Return],
                Course::Int(0),
                0,
            ),
            (
                &[PushInt(0), JumpIfNotZero(3), ReturnZero, PushInt(1), Return],
                Course::Int(0),
                0,
            ),
            (
                &[
                    PushText(0),
                    JumpIfNotZero(3),
                    ReturnZero,
                    PushInt(1),
                    Return,
                ],
                Course::Int(1),
                0,
            ),
            (
                &[PushInt(0), KeepIfZero(3), PushInt(5), Return],
                Course::Int(0),
                0,
            ),
            (
                &[PushInt(2), KeepIfZero(3), PushInt(5), Return],
                Course::Int(5),
                0,
            ),
            (
                &[PushInt(0), KeepIfNotZero(3), PushInt(5), Return],
                Course::Int(5),
                0,
            ),
            (
                &[PushInt(2), KeepIfNotZero(3), PushInt(5), Return],
                Course::Int(2),
                0,
            ),
            (
                &[CatchBegin(4), CatchEnd, PushInt(3), Return, Return],
                Course::Int(3),
                0,
            ),
            (
                &[
                    LoopTurn,
                    PushLocal(0),
                    Step(Count::Up),
                    SetLocal(0),
                    PushInt(10),
                    Binary(BinOp::Lt),
                    JumpIfNotZero(0),
                    PushLocal(0),
                    Return,
                ],
                Course::Int(10),
                30,
            ),
            (&[LoopTurn, Jump(0)], Course::Spent, 1000),
        ],
    )
}

// A call with so many arguments.
fn call(target: Target, args: u32) -> Course {
    Course::Calls(CallOf { target, args })
}

// A call of an efun with so many arguments.
fn efun(efun: Efun, args: u32) -> Course {
    Course::Efun(EfunCall { efun, args })
}

#[test]
fn calls(rt: HostRuntime) -> Result<(), Fail> {
    use Instr::*;
    come_to(
        &rt,
        rt.alloc(),
        &[
            (&[CallSlot(0, 0), Return], call(Target::Slot(0), 0), 0),
            (
                &[PushInt(1), PushInt(2), CallSlot(0, 2), Return],
                call(Target::Slot(0), 2),
                0,
            ),
            (&[CallSlot(1, 0), Return], Course::Stuck, 0),
            (&[CallSlot(0, 1), Return], Course::Stuck, 0),
            (
                &[PushInt(1), CallFixed(0, 5, 1), Return],
                call(Target::Fixed(0, 5), 1),
                0,
            ),
            (&[CallFixed(1, 0, 0), Return], Course::Stuck, 0),
            (
                &[PushInt(0), PushInt(0), CallOther(0), Return],
                call(Target::Other, 0),
                0,
            ),
            (
                &[PushInt(0), PushInt(0), PushInt(3), CallOther(1), Return],
                call(Target::Other, 1),
                0,
            ),
            (&[PushInt(0), CallOther(0), Return], Course::Stuck, 0),
            (
                &[PushInt(1), CallSimul(3, 1), Return],
                call(Target::Simul(3), 1),
                0,
            ),
            (&[CallSimul(4, 0), Return], Course::Stuck, 0),
            (&[CallEfun(Efun::Time, 0), Return], efun(Efun::Time, 0), 0),
            (
                &[PushInt(3), CallEfun(Efun::Random, 1), Return],
                efun(Efun::Random, 1),
                0,
            ),
            (
                &[PushInt(3), CallEfun(Efun::Time, 1), Return],
                Course::Stuck,
                0,
            ),
        ],
    )
}

#[test]
fn operators(rt: HostRuntime) -> Result<(), Fail> {
    use Instr::*;
    come_to(
        &rt,
        rt.alloc(),
        &[
            (
                &[PushInt(9), PushInt(4), Binary(BinOp::Rem), Return],
                Course::Int(1),
                1,
            ),
            (
                &[PushInt(9), PushInt(0), Binary(BinOp::Rem), Return],
                Course::Error(ErrorKind::ZeroDivisor),
                1,
            ),
            (
                &[PushInt(i64::MAX), PushInt(1), Binary(BinOp::Add), Return],
                Course::Error(ErrorKind::Overflow),
                1,
            ),
            (
                &[PushText(0), PushInt(1), Binary(BinOp::Mul), Return],
                Course::Error(ErrorKind::BadOperands),
                1,
            ),
            (
                &[PushText(0), PushText(0), Binary(BinOp::Eq), Return],
                Course::Int(1),
                1,
            ),
            (
                &[PushText(0), PushText(1), Binary(BinOp::Lt), Return],
                Course::Int(1),
                1,
            ),
            (&[PushInt(3), Unary(UnOp::Not), Return], Course::Int(0), 1),
            (&[PushInt(3), Unary(UnOp::Flip), Return], Course::Int(-4), 1),
            (
                &[PushInt(i64::MIN), Unary(UnOp::Neg), Return],
                Course::Error(ErrorKind::Overflow),
                1,
            ),
            (
                &[PushText(0), Unary(UnOp::Neg), Return],
                Course::Error(ErrorKind::BadOperands),
                1,
            ),
            (&[PushInt(3), Step(Count::Down), Return], Course::Int(2), 1),
            (
                &[PushInt(i64::MIN), Step(Count::Down), Return],
                Course::Error(ErrorKind::Overflow),
                1,
            ),
            (
                &[PushText(0), Step(Count::Up), Return],
                Course::Error(ErrorKind::BadOperands),
                1,
            ),
        ],
    )
}

// What an operator gives on two integers.
fn binary(alloc: Global, a: i64, op: BinOp, b: i64) -> Result<Course, Fail> {
    let instrs = [
        Instr::PushInt(a),
        Instr::PushInt(b),
        Instr::Binary(op),
        Instr::Return,
    ];
    let (found, _) = run_alone(alloc, &instrs, 1)?;
    Ok(found)
}

#[test]
fn integers(rt: HostRuntime) -> Result<(), Fail> {
    let rows = [
        (7, BinOp::Add, -9, Course::Int(-2)),
        (i64::MIN, BinOp::Sub, 1, Course::Error(ErrorKind::Overflow)),
        (3, BinOp::Mul, -4, Course::Int(-12)),
        (
            3037000500,
            BinOp::Mul,
            3037000500,
            Course::Error(ErrorKind::Overflow),
        ),
        (-7, BinOp::Div, 2, Course::Int(-3)),
        (7, BinOp::Div, 0, Course::Error(ErrorKind::ZeroDivisor)),
        (i64::MIN, BinOp::Div, -1, Course::Error(ErrorKind::Overflow)),
        (-7, BinOp::Rem, 2, Course::Int(-1)),
        (i64::MIN, BinOp::Rem, -1, Course::Int(0)),
        (12, BinOp::And, 10, Course::Int(8)),
        (12, BinOp::Or, 10, Course::Int(14)),
        (-1, BinOp::Xor, 10, Course::Int(-11)),
        (1, BinOp::Shl, 63, Course::Int(i64::MIN)),
        (1, BinOp::Shl, 64, Course::Int(0)),
        (1, BinOp::Shl, -1, Course::Error(ErrorKind::BadOperands)),
        (-8, BinOp::Shr, 1, Course::Int(-4)),
        (-8, BinOp::Shr, 64, Course::Int(-1)),
        (8, BinOp::Shr, -1, Course::Error(ErrorKind::BadOperands)),
        (2, BinOp::Lt, 2, Course::Int(0)),
        (2, BinOp::Le, 2, Course::Int(1)),
        (2, BinOp::Gt, 1, Course::Int(1)),
        (2, BinOp::Ge, 3, Course::Int(0)),
        (2, BinOp::Eq, 3, Course::Int(0)),
        (2, BinOp::Ne, 3, Course::Int(1)),
    ];
    for (a, op, b, want) in rows {
        let found = binary(rt.alloc(), a, op, b)?;
        assert!(rt; found == want, "{a} {op:?} {b} comes to {found:?}");
    }
    Ok(())
}

#[test]
fn switches(rt: HostRuntime) -> Result<(), Fail> {
    use Instr::*;
    let rows = [
        (PushInt(0), 70),
        (PushInt(1), 30),
        (PushInt(3), 30),
        (PushInt(4), 70),
        (PushText(1), 50),
        (PushText(0), 70),
    ];
    for (value, want) in rows {
        let instrs = [
            value,
            Switch(0),
            ReturnZero,
            PushInt(30),
            Return,
            PushInt(50),
            Return,
            PushInt(70),
            Return,
        ];
        let (found, left) = run_alone(rt.alloc(), &instrs, 1)?;
        assert!(rt;
            found == Course::Int(want) && left == 1,
            "{value:?} comes to {found:?}"
        );
    }
    Ok(())
}

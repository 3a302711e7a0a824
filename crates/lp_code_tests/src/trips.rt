//! Programs that are encoded and read again.
use crate::build::{plain, program};
use lp_code::program::{Program, RawProgram, SwitchRow};
use lp_code::tables::{Slot, VarRow};
use lp_encoding::{DecodeFault, decode, encode, law_prefix_free};
use lp_instr::efun::Efun;
use lp_instr::instr::{Case, EndKind, Instr};
use lp_tree::expr::Edge;
use lp_tree::operator::{BinOp, Step, UnOp};
use lp_values::text::Text;
use lp_verify::verify::verify;
use std::alloc::{AllocError, Global};
use std::test::Fail;

/// A sound program with each instruction.
static ALL: [Instr; 57] = [
    Instr::LoopTurn,
    Instr::PushInt(-5),
    Instr::Pop,
    Instr::PushText(1),
    Instr::SetLocal(0),
    Instr::SetGlobal(1),
    Instr::Dup,
    Instr::Dup2,
    Instr::Unary(UnOp::Flip),
    Instr::Binary(BinOp::Ne),
    Instr::Step(Step::Down),
    Instr::Step(Step::Up),
    Instr::Rotate(3),
    Instr::Index(Edge::Back),
    Instr::PushLocal(0),
    Instr::PushGlobal(1),
    Instr::SetIndex(Edge::Front),
    Instr::Range(EndKind::Open, EndKind::Open),
    Instr::PushInt(1),
    Instr::Range(EndKind::Back, EndKind::Open),
    Instr::MakeArray(2),
    Instr::PushInt(2),
    Instr::MakeMap(1),
    Instr::KeepIfZero(25),
    Instr::PushInt(1),
    Instr::KeepIfNotZero(27),
    Instr::PushInt(1),
    Instr::JumpIfZero(28),
    Instr::PushInt(1),
    Instr::JumpIfNotZero(30),
    Instr::Jump(31),
    Instr::PushInt(1),
    Instr::CallSlot(0, 1),
    Instr::CallFixed(0, 7, 1),
    Instr::PushInt(1),
    Instr::PushInt(i64::MIN),
    Instr::CallOther(1),
    Instr::CallEfun(Efun::ThisObject, 0),
    Instr::CallSimul(1, 2),
    Instr::PushInt(1),
    Instr::Scan(1),
    Instr::Pop,
    Instr::Pop,
    Instr::Pop,
    Instr::CatchBegin(47),
    Instr::PushInt(1),
    Instr::CatchEnd,
    Instr::EachBegin(1),
    Instr::Jump(51),
    Instr::LoopTurn,
    Instr::Pop,
    Instr::EachNext(49, 1),
    Instr::PushInt(2),
    Instr::Switch(0),
    Instr::ReturnZero,
    Instr::PushInt(1),
    Instr::Return,
];

/// Whether there is one switch, and it has these labels.
fn has_labels(switches: &[SwitchRow], cases: &[Case]) -> bool {
    match switches {
        [row] => row.cases.as_slice() == cases,
        _ => false,
    }
}

/// Whether there are two texts, of these code points.
fn has_texts(texts: &[Text], first: &[char], second: &[char]) -> bool {
    match texts {
        [one, other] => one.as_slice() == first && other.as_slice() == second,
        _ => false,
    }
}

/// Whether there is one slot, and it has these modifiers.
fn have_mods(slots: &[Slot], mods: u16) -> bool {
    match slots {
        [slot] => slot.mods == mods,
        _ => false,
    }
}

/// Whether there are two variables of these names.
fn are_named(vars: &[VarRow], first: &str, second: &str) -> bool {
    match vars {
        [one, other] => one.name.as_str() == first && other.name.as_str() == second,
        _ => false,
    }
}

/// Whether a program has these instructions, and all that `build` puts beside them.
fn is_whole(raw: &RawProgram, instrs: &[Instr], cases: &[Case]) -> bool {
    let code = raw.instrs.as_slice() == instrs && has_labels(raw.switches.as_slice(), cases);
    let texts = has_texts(raw.consts.as_slice(), &['x'], &['\u{e9}']);
    let slots = have_mods(raw.tables.slots.as_slice(), 4);
    let vars = are_named(raw.tables.vars.as_slice(), "a", "b");
    code && texts && slots && vars
}

/// Whether a program's encoding is read as that program, which has the same encoding.
fn goes_round(
    alloc: Global,
    first: &Program,
    instrs: &[Instr],
    cases: &[Case],
) -> Result<bool, AllocError> {
    let bytes = encode(alloc, first)?;
    match decode(alloc, &bytes) {
        Ok(second) => {
            let whole = is_whole(second.raw(), instrs, cases);
            let again = encode(alloc, &second);
            drop(second);
            Ok(whole && again?.as_slice() == bytes.as_slice())
        }
        Err(DecodeFault::NoRecord) => Ok(false),
        Err(DecodeFault::NoMemory) => Err(AllocError),
    }
}

/// Whether the encoding of the program with each instruction is read as that program.
fn all_goes_round(alloc: Global) -> Result<bool, Fail> {
    let first = verify(alloc, program(alloc, &plain(&ALL, 4))?)?;
    let cases = [Case::Ints(1, 3, 0), Case::Text(1, 0)];
    let found = goes_round(alloc, &first, &ALL, &cases);
    drop(first);
    Ok(found?)
}

#[test]
fn every_instruction(rt: HostRuntime) -> Result<(), Fail> {
    law_prefix_free();
    assert!(rt; all_goes_round(rt.alloc())?);
    Ok(())
}

//! Instructions and labels.
ghost use Rattle.std.specs.Prelude.{◌≡◌, ◌++◌, ◌<◌, OnOk};
ghost use Rattle.lp_encoding.specs.Forms.{Gives, pair};
ghost use Rattle.lp_encoding.specs.Instructions.{instr as instr_form, instr_number, instr_readers, label, operands, OperandsFit, place};
ghost use Rattle.lp_encoding.specs.Variants.{variant_at};

use crate::coded::Coded;
use crate::fault::DecodeFault;
use crate::reader::Reader;
use lp_instr::efun::Efun;
use lp_instr::instr::{Case, EndKind, Instr};
use lp_tree::expr::Edge;
use lp_tree::operator::{BinOp, Step, UnOp};
use std::alloc::{AllocError, Global};

/// The number of an instruction.
fn number(instr: &Instr) -> u32
    ensures { result ≡ instr_number instr.now }
{
    match instr {
        Instr::PushInt(..) => 1,
        Instr::PushText(..) => 2,
        Instr::PushLocal(..) => 3,
        Instr::SetLocal(..) => 4,
        Instr::PushGlobal(..) => 5,
        Instr::SetGlobal(..) => 6,
        Instr::Pop => 7,
        Instr::Dup => 8,
        Instr::Dup2 => 9,
        Instr::Unary(..) => 10,
        Instr::Binary(..) => 11,
        Instr::Step(..) => 12,
        Instr::Rotate(..) => 13,
        Instr::Index(..) => 14,
        Instr::SetIndex(..) => 15,
        Instr::Range(..) => 16,
        Instr::MakeArray(..) => 17,
        Instr::MakeMap(..) => 18,
        Instr::Jump(..) => 19,
        Instr::JumpIfZero(..) => 20,
        Instr::JumpIfNotZero(..) => 21,
        Instr::KeepIfZero(..) => 22,
        Instr::KeepIfNotZero(..) => 23,
        Instr::LoopTurn => 24,
        Instr::CallSlot(..) => 25,
        Instr::CallFixed(..) => 26,
        Instr::CallOther(..) => 27,
        Instr::CallEfun(..) => 28,
        Instr::CallSimul(..) => 29,
        Instr::Scan(..) => 30,
        Instr::CatchBegin(..) => 31,
        Instr::CatchEnd => 32,
        Instr::Switch(..) => 33,
        Instr::EachBegin(..) => 34,
        Instr::EachNext(..) => 35,
        Instr::Return => 36,
        Instr::ReturnZero => 37,
    }
}

/// Adds the spellings of two numbers.
fn put_two(alloc: Global, a: u32, b: u32, out: &mut Vec<u8>) -> Result<(), AllocError>
    ensures fits { OnOk result ((pair place place).Fits (a, b)) }
    ensures spelled { OnOk result (out.new.items ≡ out.old.items ++ (pair place place).spelled (a, b)) }
{
    a.put(alloc, out)?;
    b.put(alloc, out)
}

/// Adds the spellings of the operands of an instruction.
fn put_operands(alloc: Global, instr: &Instr, out: &mut Vec<u8>) -> Result<(), AllocError>
    ensures fits { OnOk result (OperandsFit instr.now) }
    ensures spelled { OnOk result (out.new.items ≡ out.old.items ++ operands instr.now) }
{
    match *instr {
        Instr::PushInt(n) => n.put(alloc, out),
        Instr::Unary(op) => op.put(alloc, out),
        Instr::Binary(op) => op.put(alloc, out),
        Instr::Step(step) => step.put(alloc, out),
        Instr::Index(edge) | Instr::SetIndex(edge) => edge.put(alloc, out),
        Instr::Range(from, to) => (from, to).put(alloc, out),
        Instr::CallEfun(efun, n) => {
            efun.put(alloc, out)?;
            n.put(alloc, out)
        }
        Instr::CallSlot(a, b) | Instr::CallSimul(a, b) | Instr::EachNext(a, b) => {
            put_two(alloc, a, b, out)
        }
        Instr::CallFixed(parent, slot, n) => {
            parent.put(alloc, out)?;
            put_two(alloc, slot, n, out)
        }
        Instr::PushText(n)
        | Instr::PushLocal(n)
        | Instr::SetLocal(n)
        | Instr::PushGlobal(n)
        | Instr::SetGlobal(n)
        | Instr::Rotate(n)
        | Instr::MakeArray(n)
        | Instr::MakeMap(n)
        | Instr::Jump(n)
        | Instr::JumpIfZero(n)
        | Instr::JumpIfNotZero(n)
        | Instr::KeepIfZero(n)
        | Instr::KeepIfNotZero(n)
        | Instr::CallOther(n)
        | Instr::Scan(n)
        | Instr::CatchBegin(n)
        | Instr::Switch(n)
        | Instr::EachBegin(n) => n.put(alloc, out),
        Instr::Pop
        | Instr::Dup
        | Instr::Dup2
        | Instr::LoopTurn
        | Instr::CatchEnd
        | Instr::Return
        | Instr::ReturnZero => Ok(()),
    }
}

/// Takes an instruction of a catch, a switch or a loop, or one that ends the function.
fn take_ends(alloc: Global, number: u32, reader: &mut Reader) -> Result<Instr, DecodeFault>
    requires { 30 < number }
    ensures { Gives result reader.new (variant_at instr_readers number reader.old) }
{
    match number {
        31 => Ok(Instr::CatchBegin(u32::take(alloc, reader)?)),
        32 => Ok(Instr::CatchEnd),
        33 => Ok(Instr::Switch(u32::take(alloc, reader)?)),
        34 => Ok(Instr::EachBegin(u32::take(alloc, reader)?)),
        35 => {
            let to = u32::take(alloc, reader)?;
            let n = u32::take(alloc, reader)?;
            Ok(Instr::EachNext(to, n))
        }
        36 => Ok(Instr::Return),
        37 => Ok(Instr::ReturnZero),
        _ => Err(DecodeFault::NoRecord),
    }
}

/// Takes an instruction that calls.
fn take_calls(alloc: Global, number: u32, reader: &mut Reader) -> Result<Instr, DecodeFault>
    requires { 24 < number }
    ensures { Gives result reader.new (variant_at instr_readers number reader.old) }
{
    match number {
        25 => {
            let slot = u32::take(alloc, reader)?;
            let n = u32::take(alloc, reader)?;
            Ok(Instr::CallSlot(slot, n))
        }
        26 => {
            let parent = u32::take(alloc, reader)?;
            let slot = u32::take(alloc, reader)?;
            let n = u32::take(alloc, reader)?;
            Ok(Instr::CallFixed(parent, slot, n))
        }
        27 => Ok(Instr::CallOther(u32::take(alloc, reader)?)),
        28 => {
            let efun = Efun::take(alloc, reader)?;
            let n = u32::take(alloc, reader)?;
            Ok(Instr::CallEfun(efun, n))
        }
        29 => {
            let name = u32::take(alloc, reader)?;
            let n = u32::take(alloc, reader)?;
            Ok(Instr::CallSimul(name, n))
        }
        30 => Ok(Instr::Scan(u32::take(alloc, reader)?)),
        _ => take_ends(alloc, number, reader),
    }
}

/// Takes an instruction that jumps, or a turn of a loop.
fn take_jumps(alloc: Global, number: u32, reader: &mut Reader) -> Result<Instr, DecodeFault>
    requires { 18 < number }
    ensures { Gives result reader.new (variant_at instr_readers number reader.old) }
{
    match number {
        19 => Ok(Instr::Jump(u32::take(alloc, reader)?)),
        20 => Ok(Instr::JumpIfZero(u32::take(alloc, reader)?)),
        21 => Ok(Instr::JumpIfNotZero(u32::take(alloc, reader)?)),
        22 => Ok(Instr::KeepIfZero(u32::take(alloc, reader)?)),
        23 => Ok(Instr::KeepIfNotZero(u32::take(alloc, reader)?)),
        24 => Ok(Instr::LoopTurn),
        _ => take_calls(alloc, number, reader),
    }
}

/// Takes an instruction that computes or builds a value.
fn take_operators(alloc: Global, number: u32, reader: &mut Reader) -> Result<Instr, DecodeFault>
    requires { 9 < number }
    ensures { Gives result reader.new (variant_at instr_readers number reader.old) }
{
    match number {
        10 => Ok(Instr::Unary(UnOp::take(alloc, reader)?)),
        11 => Ok(Instr::Binary(BinOp::take(alloc, reader)?)),
        12 => Ok(Instr::Step(Step::take(alloc, reader)?)),
        13 => Ok(Instr::Rotate(u32::take(alloc, reader)?)),
        14 => Ok(Instr::Index(Edge::take(alloc, reader)?)),
        15 => Ok(Instr::SetIndex(Edge::take(alloc, reader)?)),
        16 => {
            let (from, to) = <(EndKind, EndKind)>::take(alloc, reader)?;
            Ok(Instr::Range(from, to))
        }
        17 => Ok(Instr::MakeArray(u32::take(alloc, reader)?)),
        18 => Ok(Instr::MakeMap(u32::take(alloc, reader)?)),
        _ => take_jumps(alloc, number, reader),
    }
}

/// Takes an instruction that pushes, writes or drops a value.
fn take_values(alloc: Global, number: u32, reader: &mut Reader) -> Result<Instr, DecodeFault>
    ensures { Gives result reader.new (variant_at instr_readers number reader.old) }
{
    match number {
        0 => Err(DecodeFault::NoRecord),
        1 => Ok(Instr::PushInt(i64::take(alloc, reader)?)),
        2 => Ok(Instr::PushText(u32::take(alloc, reader)?)),
        3 => Ok(Instr::PushLocal(u32::take(alloc, reader)?)),
        4 => Ok(Instr::SetLocal(u32::take(alloc, reader)?)),
        5 => Ok(Instr::PushGlobal(u32::take(alloc, reader)?)),
        6 => Ok(Instr::SetGlobal(u32::take(alloc, reader)?)),
        7 => Ok(Instr::Pop),
        8 => Ok(Instr::Dup),
        9 => Ok(Instr::Dup2),
        _ => take_operators(alloc, number, reader),
    }
}

impl Coded for Instr {
    ghost form = { instr_form };

    fn put(&self, alloc: Global, out: &mut Vec<u8>) -> Result<(), AllocError> {
        number(self).put(alloc, out)?;
        put_operands(alloc, self, out)
    }

    fn take(alloc: Global, reader: &mut Reader) -> Result<Instr, DecodeFault> {
        let number = u32::take(alloc, reader)?;
        take_values(alloc, number, reader)
    }
}

impl Coded for Case {
    ghost form = { label };

    fn put(&self, alloc: Global, out: &mut Vec<u8>) -> Result<(), AllocError> {
        match self {
            Case::Ints(from, last, to) => {
                0_u8.put(alloc, out)?;
                from.put(alloc, out)?;
                last.put(alloc, out)?;
                to.put(alloc, out)
            }
            Case::Text(text, to) => {
                1_u8.put(alloc, out)?;
                put_two(alloc, *text, *to, out)
            }
        }
    }

    fn take(alloc: Global, reader: &mut Reader) -> Result<Case, DecodeFault> {
        match u8::take(alloc, reader)? {
            0 => {
                let from = i64::take(alloc, reader)?;
                let last = i64::take(alloc, reader)?;
                let to = u32::take(alloc, reader)?;
                Ok(Case::Ints(from, last, to))
            }
            1 => {
                let text = u32::take(alloc, reader)?;
                let to = u32::take(alloc, reader)?;
                Ok(Case::Text(text, to))
            }
            _ => Err(DecodeFault::NoRecord),
        }
    }
}

//! Operators, efuns and other values of small enums, each by its number.
ghost use Rattle.std.specs.Prelude.{◌≡◌, MatchResult, Some, None, slice_get};
ghost use Rattle.lp_encoding.specs.Instructions.{binary, binary_number, edge, edge_number, efun, end_number, range, step, step_number, unary, unary_number};
ghost use Rattle.lp_encoding.specs.Programs.{base, base_number, mode, mode_number};

use crate::coded::Coded;
use crate::fault::DecodeFault;
use crate::reader::Reader;
use lp_instr::efun::Efun;
use lp_instr::efuns::law_numbers;
use lp_instr::instr::EndKind;
use lp_tree::expr::Edge;
use lp_tree::keyword::Base;
use lp_tree::operator::{BinOp, Step, UnOp};
use lp_tree::pragma::TypeMode;
use std::alloc::{AllocError, Global};

const UNARY: [UnOp; 3] = [UnOp::Not, UnOp::Flip, UnOp::Neg];

const BINARY: [BinOp; 16] = [
    BinOp::Add,
    BinOp::Sub,
    BinOp::Mul,
    BinOp::Div,
    BinOp::Rem,
    BinOp::And,
    BinOp::Or,
    BinOp::Xor,
    BinOp::Shl,
    BinOp::Shr,
    BinOp::Lt,
    BinOp::Le,
    BinOp::Gt,
    BinOp::Ge,
    BinOp::Eq,
    BinOp::Ne,
];

const STEPS: [Step; 2] = [Step::Down, Step::Up];

const EDGES: [Edge; 2] = [Edge::Front, Edge::Back];

const RANGES: [(EndKind, EndKind); 9] = [
    (EndKind::Start, EndKind::Start),
    (EndKind::Start, EndKind::Back),
    (EndKind::Start, EndKind::Open),
    (EndKind::Back, EndKind::Start),
    (EndKind::Back, EndKind::Back),
    (EndKind::Back, EndKind::Open),
    (EndKind::Open, EndKind::Start),
    (EndKind::Open, EndKind::Back),
    (EndKind::Open, EndKind::Open),
];

const MODES: [TypeMode; 3] = [TypeMode::Weak, TypeMode::Strong, TypeMode::Strict];

const BASES: [Base; 7] = [
    Base::Int,
    Base::Status,
    Base::String,
    Base::Object,
    Base::Mapping,
    Base::Mixed,
    Base::Void,
];

/// The value at a place of a list.
fn at_place<T: Copy>(all: &[T], place: u32) -> Option<T>
    ensures { result ≡ slice_get all.now place }
{
    all.get(place as usize).copied()
}

/// The value at a place of a list, or `NoRecord` where none is.
fn one_of<T: Copy>(all: &[T], place: u32) -> Result<T, DecodeFault>
    ensures { MatchResult result (λ x. slice_get all.now place ≡ Some x) (λ e. (e ≡ DecodeFault.NoRecord) × (slice_get all.now place ≡ None)) }
{
    match at_place(all, place) {
        Some(one) => Ok(one),
        None => Err(DecodeFault::NoRecord),
    }
}

impl Coded for UnOp {
    ghost form = { unary };

    fn put(&self, alloc: Global, out: &mut Vec<u8>) -> Result<(), AllocError> {
        let number = *self as u32;
        number.put(alloc, out)
    }

    fn take(alloc: Global, reader: &mut Reader) -> Result<UnOp, DecodeFault> {
        let number = u32::take(alloc, reader)?;
        one_of(&UNARY, number)
    }
}

impl Coded for BinOp {
    ghost form = { binary };

    fn put(&self, alloc: Global, out: &mut Vec<u8>) -> Result<(), AllocError> {
        let number = *self as u32;
        number.put(alloc, out)
    }

    fn take(alloc: Global, reader: &mut Reader) -> Result<BinOp, DecodeFault> {
        let number = u32::take(alloc, reader)?;
        one_of(&BINARY, number)
    }
}

impl Coded for Step {
    ghost form = { step };

    fn put(&self, alloc: Global, out: &mut Vec<u8>) -> Result<(), AllocError> {
        let number: u32 = match self {
            Step::Down => 0,
            Step::Up => 1,
        };
        number.put(alloc, out)
    }

    fn take(alloc: Global, reader: &mut Reader) -> Result<Step, DecodeFault> {
        let number = u32::take(alloc, reader)?;
        one_of(&STEPS, number)
    }
}

impl Coded for Edge {
    ghost form = { edge };

    fn put(&self, alloc: Global, out: &mut Vec<u8>) -> Result<(), AllocError> {
        let number = *self as u32;
        number.put(alloc, out)
    }

    fn take(alloc: Global, reader: &mut Reader) -> Result<Edge, DecodeFault> {
        let number = u32::take(alloc, reader)?;
        one_of(&EDGES, number)
    }
}

impl Coded for TypeMode {
    ghost form = { mode };

    fn put(&self, alloc: Global, out: &mut Vec<u8>) -> Result<(), AllocError> {
        let number = *self as u8;
        number.put(alloc, out)
    }

    fn take(alloc: Global, reader: &mut Reader) -> Result<TypeMode, DecodeFault> {
        let number = u8::take(alloc, reader)?;
        one_of(&MODES, u32::from(number))
    }
}

impl Coded for Base {
    ghost form = { base };

    fn put(&self, alloc: Global, out: &mut Vec<u8>) -> Result<(), AllocError> {
        let number = *self as u8;
        number.put(alloc, out)
    }

    fn take(alloc: Global, reader: &mut Reader) -> Result<Base, DecodeFault> {
        let number = u8::take(alloc, reader)?;
        one_of(&BASES, u32::from(number))
    }
}

impl Coded for (EndKind, EndKind) {
    ghost form = { range };

    fn put(&self, alloc: Global, out: &mut Vec<u8>) -> Result<(), AllocError> {
        let number = 3 * (self.0 as u32) + self.1 as u32;
        number.put(alloc, out)
    }

    fn take(alloc: Global, reader: &mut Reader) -> Result<(EndKind, EndKind), DecodeFault> {
        let number = u32::take(alloc, reader)?;
        one_of(&RANGES, number)
    }
}

impl Coded for Efun {
    ghost form = { efun };

    fn put(&self, alloc: Global, out: &mut Vec<u8>) -> Result<(), AllocError> {
        law_numbers();
        self.number().put(alloc, out)
    }

    fn take(alloc: Global, reader: &mut Reader) -> Result<Efun, DecodeFault> {
        let number = u32::take(alloc, reader)?;
        match Efun::from_number(number) {
            Some(efun) => Ok(efun),
            None => Err(DecodeFault::NoRecord),
        }
    }
}

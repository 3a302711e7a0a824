//! Productions that were begun.
ghost use Rattle.std.specs.Prelude.{◌≡◌};
ghost use Rattle.lp_parser_expr.specs.Machine.{needs as frame_needs, wants as frame_wants, infix_level};
ghost use Rattle.lp_parser_expr.specs.View.{frame_of};
ghost use Rattle.lp_tree.specs.Trees.{level};

use crate::infix::Infix;
use crate::tall::{Tall, TallEnd, TallPairs, Talls};
use lp_tree::chars::Chars;
use lp_tree::expr::Edge;
use lp_tree::operator::{AssignOp, BinOp, Step, UnOp};
use lp_tree::types::TypeName;

/// Whose function a call names, with the line of the call's first token.
#[derive(Drop)]
pub enum Callee {
    /// One of this program, or any that such a name may mean.
    Function(u32),
    /// An efun.
    Efun(u32),
    /// One of a parent.
    Parent(u32),
    /// One of the parent of this path.
    NamedParent(u32, Chars),
    /// One of another object.
    Other(Tall),
}

/// A production that was begun: its line, where it does not begin with an expression, and its parts up to the open one.
#[derive(Drop)]
pub enum Frame {
    /// No production: an assign that ends by what stands round it.
    Alone,
    /// `( ..`
    InParen(u32),
    /// `({ a, ..`
    InArray(u32, Talls),
    /// `([ k: v, ..`
    AtKey(u32, TallPairs),
    /// `([ k: v, k: ..`
    AtValue(u32, TallPairs, Tall),
    /// `name(a, ..`
    InArgs(Callee, Chars, Talls),
    /// `catch(..`
    InCatch(u32),
    /// `sscanf(..`
    ScanText(u32),
    /// `sscanf(a, ..`
    ScanForm(u32, Tall),
    /// `sscanf(a, b, place, ..`
    ScanPlaces(u32, Tall, Tall, Talls),
    /// `a[..` or `a[<..`
    InIndex(Tall, Edge),
    /// `a[b .. ` or `a[b .. <`
    InRange(Tall, TallEnd, Edge),
    /// `++ ..`
    Stepping(u32, Step),
    /// `! ..`
    UnaryOf(u32, UnOp),
    /// `(int) ..`
    Casting(u32, TypeName),
    /// `a + ..`
    LeftOf(Infix, Tall),
    /// `a ? ..`
    Testing(Tall),
    /// `a ? b : ..`
    Choosing(Tall, Tall),
    /// `a = ..`
    Assigning(AssignOp, Tall),
    /// `a, b, ..`
    InSequence(u32, Talls),
}

/// The level of an operator that takes both operands.
pub fn op_level(op: BinOp) -> u8
    ensures { result ≡ level op }
{
    match op {
        BinOp::Or => 6,
        BinOp::Xor => 7,
        BinOp::And => 8,
        BinOp::Eq | BinOp::Ne => 9,
        BinOp::Lt | BinOp::Le | BinOp::Gt | BinOp::Ge => 10,
        BinOp::Shl | BinOp::Shr => 11,
        BinOp::Add | BinOp::Sub => 12,
        BinOp::Mul | BinOp::Div | BinOp::Rem => 13,
    }
}

/// The level of an operator between two operands.
pub fn level_of(op: Infix) -> u8
    ensures { result ≡ infix_level op }
{
    match op {
        Infix::Plain(op) => op_level(op),
        Infix::And => 5,
        Infix::Or => 4,
    }
}

impl Frame {
    /// A token below this level ends the production; 0 where only a token of its own does.
    pub fn needs(&self) -> u8
        ensures { result ≡ frame_needs (frame_of self.now) }
    {
        match self {
            Frame::Stepping(_, _) => 15,
            Frame::UnaryOf(_, _) | Frame::Casting(_, _) => 14,
            Frame::LeftOf(op, _) => level_of(*op) + 1,
            Frame::Choosing(_, _) => 3,
            Frame::Assigning(_, _) => 2,
            Frame::InSequence(_, _) => 1,
            _ => 0,
        }
    }

    /// The least level of the open part.
    pub fn wants(&self) -> u8
        ensures { result ≡ frame_wants (frame_of self.now) }
    {
        match self {
            Frame::InParen(_)
            | Frame::InCatch(_)
            | Frame::InIndex(_, _)
            | Frame::InRange(_, _, _)
            | Frame::Testing(_) => 0,
            Frame::ScanPlaces(_, _, _, _) | Frame::Stepping(_, _) => 15,
            Frame::UnaryOf(_, _) | Frame::Casting(_, _) => 14,
            Frame::LeftOf(op, _) => level_of(*op) + 1,
            Frame::Choosing(_, _) => 3,
            _ => 2,
        }
    }
}

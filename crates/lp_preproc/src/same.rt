//! Whether two definitions of a macro are one.
ghost use Rattle.std.specs.Prelude.{◌≡◌};
ghost use Rattle.std.specs.Cmp.Lexicographic.{pointwise};
ghost use Rattle.lp_preproc.specs.Macros.{assign_number, mark_number, op_number, same_body, same_kind, same_macro, same_params};
ghost use Rattle.lp_preproc.specs.Names.{same_name};

use crate::macros::{Body, Macro};
use crate::params::Params;
use crate::result::same_name;
use lp_tree::chars::Chars;
use lp_tree::operator::{AssignOp, BinOp, Step};
use lp_tree::token::{Mark, TokenKind};

fn op_number(op: BinOp) -> u32
    ensures { result ≡ op_number op }
{
    match op {
        BinOp::Add => 0,
        BinOp::Sub => 1,
        BinOp::Mul => 2,
        BinOp::Div => 3,
        BinOp::Rem => 4,
        BinOp::And => 5,
        BinOp::Or => 6,
        BinOp::Xor => 7,
        BinOp::Shl => 8,
        BinOp::Shr => 9,
        BinOp::Lt => 10,
        BinOp::Le => 11,
        BinOp::Gt => 12,
        BinOp::Ge => 13,
        BinOp::Eq => 14,
        BinOp::Ne => 15,
    }
}

fn assign_number(op: AssignOp) -> u32
    ensures { result ≡ assign_number op }
{
    match op {
        AssignOp::Set => 0,
        AssignOp::Add => 1,
        AssignOp::Sub => 2,
        AssignOp::Mul => 3,
        AssignOp::Div => 4,
        AssignOp::Rem => 5,
        AssignOp::And => 6,
        AssignOp::Or => 7,
        AssignOp::Xor => 8,
        AssignOp::Shl => 9,
        AssignOp::Shr => 10,
        AssignOp::AndThen => 11,
        AssignOp::OrElse => 12,
    }
}

fn step_number(step: Step) -> u32
    ensures { result ≡ mark_number (Mark.Step step) }
{
    match step {
        Step::Up => 19,
        Step::Down => 20,
    }
}

fn mark_number(mark: Mark) -> u32
    ensures { result ≡ mark_number mark }
{
    match mark {
        Mark::OpenParen => 0,
        Mark::CloseParen => 1,
        Mark::OpenBrace => 2,
        Mark::CloseBrace => 3,
        Mark::OpenBracket => 4,
        Mark::CloseBracket => 5,
        Mark::Comma => 6,
        Mark::Semicolon => 7,
        Mark::Colon => 8,
        Mark::ColonColon => 9,
        Mark::Dot => 10,
        Mark::DotDot => 11,
        Mark::Arrow => 12,
        Mark::Question => 13,
        Mark::Hash => 14,
        Mark::Not => 15,
        Mark::Flip => 16,
        Mark::AndThen => 17,
        Mark::OrElse => 18,
        Mark::Step(step) => step_number(step),
        Mark::Binary(op) => binary_number(op),
        Mark::Assign(op) => assigning_number(op),
    }
}

fn binary_number(op: BinOp) -> u32
    ensures { result ≡ mark_number (Mark.Binary op) }
{
    op_number(op).wrapping_add(30)
}

fn assigning_number(op: AssignOp) -> u32
    ensures { result ≡ mark_number (Mark.Assign op) }
{
    assign_number(op).wrapping_add(50)
}

// Whether two tokens are one, wherever they stand.
fn same_kind(a: &TokenKind, b: &TokenKind) -> bool
    ensures { result ≡ same_kind a.now b.now }
{
    match (a, b) {
        (TokenKind::Name(a), TokenKind::Name(b)) => same_name(a.as_slice(), b.as_slice()),
        (TokenKind::Text(a), TokenKind::Text(b)) => same_name(a.as_slice(), b.as_slice()),
        (TokenKind::Int(a), TokenKind::Int(b)) => *a == *b,
        (TokenKind::Mark(a), TokenKind::Mark(b)) => mark_number(*a) == mark_number(*b),
        _ => false,
    }
}

// Whether two bodies have the same tokens.
fn same_kinds(a: &[TokenKind], b: &[TokenKind]) -> bool
    ensures { result ≡ pointwise same_kind a.now b.now }
{
    if a.len() != b.len() {
        return false;
    }
    'kinds: for i in 0..a.len() {
        if !same_kind(&a[i], &b[i]) {
            return false;
        }
    }
    true
}

// Whether two lists of names are one.
fn same_names(a: &[Chars], b: &[Chars]) -> bool
    ensures { result ≡ pointwise same_name a.now b.now }
{
    if a.len() != b.len() {
        return false;
    }
    'names: for i in 0..a.len() {
        if !same_name(a[i].as_slice(), b[i].as_slice()) {
            return false;
        }
    }
    true
}

// Whether two macros have the same parameters, or both none.
fn same_params(a: &Option<Params>, b: &Option<Params>) -> bool
    ensures { result ≡ same_params a.now b.now }
{
    match (a, b) {
        (None, None) => true,
        (Some(a), Some(b)) => same_names(a.as_slice(), b.as_slice()),
        _ => false,
    }
}

// Whether two bodies are one.
fn same_body(a: &Body, b: &Body) -> bool
    ensures { result ≡ same_body a.now b.now }
{
    match (a, b) {
        (Body::Tokens(a), Body::Tokens(b)) => same_kinds(a.as_slice(), b.as_slice()),
        _ => false,
    }
}

/// Whether two definitions are one: their parameters and their tokens are the same.
pub fn same_macro(a: &Macro, b: &Macro) -> bool
    ensures { result ≡ same_macro a.now b.now }
{
    same_params(&a.params, &b.params) && same_body(&a.body, &b.body)
}

//! Tokens where an operand is waited for.
ghost use Rattle.std.specs.Prelude.{◌≡◌};
ghost use Rattle.lp_parser_expr.specs.Machine.{begin as begun, begin_base as base_begun, begin_mark as mark_begun, begin_op as op_begun, begin_word as word_begun, begun_cast as cast_begun, begun_range as range_begun, counted_back as back_counted, empty_brace as brace_emptied, empty_bracket as bracket_emptied, empty_paren as paren_emptied, opened_brace as brace_opened, opened_bracket as bracket_opened, prefixed as prefix_begun, stepping as step_begun};
ghost use Rattle.lp_parser_expr.specs.Moves.{Begins};
ghost use Rattle.lp_parser_expr.specs.StackView.{stack_of};
ghost use Rattle.lp_tree.specs.declared.token.Mark.TheVariants.{OpenParen};

use crate::build::{array, call, leaf, mapping, range, sscanf};
use crate::focus::Focus;
use crate::frame::{Callee, Frame};
use crate::stack::Stack;
use crate::tall::{TallEnd, TallPairs, Talls};
use lp_tree::expr::{Edge, Expr};
use lp_tree::keyword::{Base, Keyword};
use lp_tree::operator::{BinOp, Step, UnOp};
use lp_tree::seen::Sort;
use lp_tree::token::Mark;
use lp_tree::types::TypeName;
use std::alloc::{AllocError, Global};

// `)` where an operand may be missing.
fn empty_paren(alloc: Global, stack: &mut Stack) -> Result<Option<Focus>, AllocError>
    ensures { Begins (paren_emptied (stack_of stack.old)) (stack_of stack.new) result }
{
    match stack.pop() {
        Some(Frame::InArgs(callee, name, done)) => Ok(Some(Focus::Have(call(
            alloc, callee, name, done,
        )?))),
        Some(Frame::ScanPlaces(line, text, form, done)) => Ok(Some(Focus::Have(sscanf(
            alloc, line, text, form, done,
        )?))),
        other => {
            drop(other);
            Ok(None)
        }
    }
}

// `}` where an operand may be missing.
fn empty_brace(alloc: Global, stack: &mut Stack) -> Result<Option<Focus>, AllocError>
    ensures { Begins (brace_emptied (stack_of stack.old)) (stack_of stack.new) result }
{
    let Some(frame) = stack.pop() else {
        return Ok(None);
    };
    match frame {
        Frame::InArray(line, done) => Ok(Some(Focus::EndLiteral(array(alloc, line, done)?))),
        other => {
            drop(other);
            Ok(None)
        }
    }
}

// `]` where an operand may be missing.
fn empty_bracket(alloc: Global, stack: &mut Stack) -> Result<Option<Focus>, AllocError>
    ensures { Begins (bracket_emptied (stack_of stack.old)) (stack_of stack.new) result }
{
    match stack.pop() {
        Some(Frame::AtKey(line, done)) => Ok(Some(Focus::EndLiteral(mapping(alloc, line, done)?))),
        Some(Frame::InRange(of, from, Edge::Front)) => Ok(Some(Focus::Have(range(
            alloc,
            of,
            from,
            TallEnd::open(),
        )?))),
        other => {
            drop(other);
            Ok(None)
        }
    }
}

// `{` behind `(`.
fn open_brace(alloc: Global, stack: &mut Stack) -> Result<Option<Focus>, AllocError>
    ensures { Begins (brace_opened (stack_of stack.old)) (stack_of stack.new) result }
{
    match stack.pop() {
        Some(Frame::InParen(line)) => {
            stack.push(Frame::InArray(line, Talls::new(alloc)))?;
            Ok(Some(Focus::Need))
        }
        other => {
            drop(other);
            Ok(None)
        }
    }
}

// `[` behind `(`.
fn open_bracket(alloc: Global, stack: &mut Stack) -> Result<Option<Focus>, AllocError>
    ensures { Begins (bracket_opened (stack_of stack.old)) (stack_of stack.new) result }
{
    match stack.pop() {
        Some(Frame::InParen(line)) => {
            stack.push(Frame::AtKey(line, TallPairs::new(alloc)))?;
            Ok(Some(Focus::Need))
        }
        other => {
            drop(other);
            Ok(None)
        }
    }
}

// `..` without a start.
fn begin_range(stack: &mut Stack) -> Result<Option<Focus>, AllocError>
    ensures { Begins (range_begun (stack_of stack.old)) (stack_of stack.new) result }
{
    match stack.pop() {
        Some(Frame::InIndex(of, Edge::Front)) => {
            stack.push(Frame::InRange(of, TallEnd::open(), Edge::Front))?;
            Ok(Some(Focus::Need))
        }
        other => {
            drop(other);
            Ok(None)
        }
    }
}

// `<` before an index.
fn count_back(stack: &mut Stack) -> Result<Option<Focus>, AllocError>
    ensures { Begins (back_counted (stack_of stack.old)) (stack_of stack.new) result }
{
    match stack.pop() {
        Some(Frame::InIndex(of, Edge::Front)) => {
            stack.push(Frame::InIndex(of, Edge::Back))?;
            Ok(Some(Focus::Need))
        }
        Some(Frame::InRange(of, from, Edge::Front)) => {
            stack.push(Frame::InRange(of, from, Edge::Back))?;
            Ok(Some(Focus::Need))
        }
        other => {
            drop(other);
            Ok(None)
        }
    }
}

// A prefix operator, which may not stand where a postfix expression is wanted.
fn prefix(stack: &mut Stack, op: UnOp, line: u32) -> Result<Option<Focus>, AllocError>
    ensures { Begins (prefix_begun op line (stack_of stack.old)) (stack_of stack.new) result }
{
    if stack.wants() > 14 {
        return Ok(None);
    }
    stack.push(Frame::UnaryOf(line, op))?;
    Ok(Some(Focus::Need))
}

// `++` or `--` before a place.
fn step_before(stack: &mut Stack, step: Step, line: u32) -> Result<Option<Focus>, AllocError>
    ensures { Begins (step_begun step line (stack_of stack.old)) (stack_of stack.new) result }
{
    if stack.wants() > 14 {
        return Ok(None);
    }
    stack.push(Frame::Stepping(line, step))?;
    Ok(Some(Focus::Need))
}

// A cast whose parenthesis stands on this line.
fn begin_cast(stack: &mut Stack, base: Base, line: u32) -> Result<Option<Focus>, AllocError>
    ensures { Begins (cast_begun base line (stack_of stack.old)) (stack_of stack.new) result }
{
    if stack.wants() > 14 {
        return Ok(None);
    }
    Ok(Some(Focus::EndCast(line, TypeName { base, stars: 0 })))
}

// The word of a type.
fn begin_base(stack: &mut Stack, base: Base) -> Result<Option<Focus>, AllocError>
    ensures { Begins (base_begun base (stack_of stack.old)) (stack_of stack.new) result }
{
    match stack.pop() {
        Some(Frame::InParen(line)) => begin_cast(stack, base, line),
        _ => Ok(None),
    }
}

// A mark that is an operator elsewhere.
fn begin_op(stack: &mut Stack, op: BinOp, line: u32) -> Result<Option<Focus>, AllocError>
    ensures { Begins (op_begun op line (stack_of stack.old)) (stack_of stack.new) result }
{
    match op {
        BinOp::Sub => prefix(stack, UnOp::Neg, line),
        BinOp::Lt => count_back(stack),
        _ => Ok(None),
    }
}

// A parenthesis.
fn begin_paren(stack: &mut Stack, line: u32) -> Result<Option<Focus>, AllocError>
    ensures { Begins (mark_begun OpenParen line (stack_of stack.old)) (stack_of stack.new) result }
{
    stack.push(Frame::InParen(line))?;
    Ok(Some(Focus::Need))
}

// A mark.
fn begin_mark(
    alloc: Global,
    stack: &mut Stack,
    mark: Mark,
    line: u32,
) -> Result<Option<Focus>, AllocError>
    ensures { Begins (mark_begun mark line (stack_of stack.old)) (stack_of stack.new) result }
{
    match mark {
        Mark::OpenParen => begin_paren(stack, line),
        Mark::CloseParen => empty_paren(alloc, stack),
        Mark::OpenBrace => open_brace(alloc, stack),
        Mark::CloseBrace => empty_brace(alloc, stack),
        Mark::OpenBracket => open_bracket(alloc, stack),
        Mark::CloseBracket => empty_bracket(alloc, stack),
        Mark::ColonColon => Ok(Some(Focus::NeedName(Callee::Parent(line)))),
        Mark::DotDot => begin_range(stack),
        Mark::Not => prefix(stack, UnOp::Not, line),
        Mark::Flip => prefix(stack, UnOp::Flip, line),
        Mark::Binary(op) => begin_op(stack, op, line),
        Mark::Step(step) => step_before(stack, step, line),
        _ => Ok(None),
    }
}

// A reserved word.
fn begin_word(stack: &mut Stack, word: Keyword, line: u32) -> Result<Option<Focus>, AllocError>
    ensures { Begins (word_begun word line (stack_of stack.old)) (stack_of stack.new) result }
{
    match word {
        Keyword::Base(base) => begin_base(stack, base),
        Keyword::Catch => Ok(Some(Focus::NeedParen(Frame::InCatch(line)))),
        Keyword::Sscanf => Ok(Some(Focus::NeedParen(Frame::ScanText(line)))),
        _ => Ok(None),
    }
}

/// A token where an operand is waited for. None where none begins so.
pub fn begin(
    alloc: Global,
    stack: &mut Stack,
    sort: Sort,
    line: u32,
) -> Result<Option<Focus>, AllocError>
    ensures { Begins (begun sort line (stack_of stack.old)) (stack_of stack.new) result }
{
    match sort {
        Sort::Name(name) => Ok(Some(Focus::Have(leaf(alloc, Expr::Name { line, name })?))),
        Sort::Text(text) => Ok(Some(Focus::Have(leaf(alloc, Expr::Text { line, text })?))),
        Sort::Int(value) => Ok(Some(Focus::Have(leaf(alloc, Expr::Int { line, value })?))),
        Sort::Mark(mark) => begin_mark(alloc, stack, mark, line),
        Sort::Reserved(word) => begin_word(stack, word, line),
        Sort::Wrong => Ok(None),
    }
}

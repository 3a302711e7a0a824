//! The machine, moved by one token at a time.
ghost use Rattle.std.specs.Prelude.{◌≡◌, None, Ok};
ghost use Rattle.lp_tree.specs.TreeView.{tree_of};
ghost use Rattle.lp_parser_expr.specs.Machine.{Have, act as acted, binds as token_binds, binds_mark as mark_binds, end_cast as cast_ended, end_literal as literal_ended, finished, need_name as name_needed, need_paren as paren_needed, Stack as Frames};
ghost use Rattle.lp_parser_expr.specs.Moves.{Moves, MovesOn, state_of};
ghost use Rattle.lp_parser_expr.specs.StackView.{stack_of};
ghost use Rattle.lp_parser_expr.specs.View.{callee_of, frame_of};

use crate::behind::act;
use crate::ending::{finish_tree, settle};
use crate::focus::{Acted, Focus, Moved};
use crate::frame::{Callee, Frame, op_level};
use crate::operand::begin;
use crate::stack::Stack;
use crate::tall::{Tall, Talls};
use lp_tree::operator::BinOp;
use lp_tree::seen::{Seen, Sort};
use lp_tree::token::Mark;
use lp_tree::types::TypeName;
use std::alloc::{AllocError, Global};

// The level of a mark: the least level of the operand before it.
fn binds_mark(mark: Mark) -> u8
    ensures { result ≡ mark_binds mark }
{
    match mark {
        Mark::Binary(op) => op_level(op),
        Mark::AndThen => 5,
        Mark::OrElse | Mark::Question => 4,
        Mark::Assign(_) => 2,
        Mark::Comma => 1,
        Mark::OpenParen | Mark::OpenBracket | Mark::ColonColon | Mark::Arrow | Mark::Step(_) => 15,
        _ => 0,
    }
}

// The level of a token.
fn binds(sort: &Sort) -> u8
    ensures { result ≡ token_binds sort.now }
{
    match sort {
        Sort::Mark(mark) => binds_mark(*mark),
        _ => 0,
    }
}

// A token behind an operand whose inner productions are ended.
fn act_or_end(alloc: Global, stack: &mut Stack, sort: Sort, tree: Tall) -> Result<Moved, AllocError>
    ensures { MovesOn (acted sort (tree_of tree.expr.value) (stack_of stack.old)) (finished (Have (tree_of tree.expr.value) (stack_of stack.old))) (stack_of stack.new) result }
{
    match act(alloc, stack, sort, tree)? {
        Acted::Goes(next) => Ok(Moved::Goes(next)),
        Acted::Refuses(tree) => Ok(Moved::Ends(finish_tree(alloc, stack, tree)?)),
    }
}

// A token behind an operand.
fn behind(alloc: Global, stack: &mut Stack, tree: Tall, seen: Seen) -> Result<Moved, AllocError>
    ensures { Moves (Have (tree_of tree.expr.value) (stack_of stack.old)) seen (stack_of stack.new) result }
{
    match settle(alloc, stack, tree, binds(&seen.sort))? {
        None => Ok(Moved::Ends(None)),
        Some(whole) => act_or_end(alloc, stack, seen.sort, whole),
    }
}

// A star of a cast, or its end.
fn end_cast(stack: &mut Stack, line: u32, to: TypeName, sort: Sort) -> Result<Moved, AllocError>
    ensures { MovesOn (cast_ended sort line to (stack_of stack.old)) None (stack_of stack.new) result }
{
    match sort {
        Sort::Mark(Mark::Binary(BinOp::Mul)) => {
            if to.stars == u32::MAX {
                // so many stars are longer than any memory holds
                return Err(AllocError);
            }
            Ok(Moved::Goes(Focus::EndCast(
                line,
                TypeName {
                    base: to.base,
                    stars: to.stars + 1,
                },
            )))
        }
        Sort::Mark(Mark::CloseParen) => {
            stack.push(Frame::Casting(line, to))?;
            Ok(Moved::Goes(Focus::Need))
        }
        _ => Ok(Moved::Ends(None)),
    }
}

// The parenthesis behind a literal.
fn end_literal(literal: Tall, sort: Sort) -> Moved
    ensures { (s : Frames) → MovesOn (literal_ended sort (tree_of literal.expr.value) s) None s (Ok result) }
{
    match sort {
        Sort::Mark(Mark::CloseParen) => Moved::Goes(Focus::Have(literal)),
        other => {
            drop(other);
            drop(literal);
            Moved::Ends(None)
        }
    }
}

// The name of a function.
fn need_name(alloc: Global, callee: Callee, sort: Sort) -> Moved
    ensures { (s : Frames) → MovesOn (name_needed sort (callee_of callee) s) None s (Ok result) }
{
    match sort {
        Sort::Name(name) => Moved::Goes(Focus::NeedParen(Frame::InArgs(
            callee,
            name,
            Talls::new(alloc),
        ))),
        other => {
            drop(other);
            Moved::Ends(None)
        }
    }
}

// The parenthesis that begins a production.
fn need_paren(stack: &mut Stack, frame: Frame, sort: Sort) -> Result<Moved, AllocError>
    ensures { MovesOn (paren_needed sort (frame_of frame) (stack_of stack.old)) None (stack_of stack.new) result }
{
    match sort {
        Sort::Mark(Mark::OpenParen) => {
            stack.push(frame)?;
            Ok(Moved::Goes(Focus::Need))
        }
        other => {
            drop(other);
            drop(frame);
            Ok(Moved::Ends(None))
        }
    }
}

/// One token. Where no expression goes on with it, what was read before it is finished.
pub fn step(alloc: Global, stack: &mut Stack, focus: Focus, seen: Seen) -> Result<Moved, AllocError>
    ensures { Moves (state_of focus (stack_of stack.old)) seen (stack_of stack.new) result }
{
    match focus {
        Focus::Need => match begin(alloc, stack, seen.sort, seen.line)? {
            Some(next) => Ok(Moved::Goes(next)),
            None => Ok(Moved::Ends(None)),
        },
        Focus::Have(tree) => behind(alloc, stack, tree, seen),
        Focus::EndCast(line, to) => end_cast(stack, line, to, seen.sort),
        Focus::EndLiteral(literal) => Ok(end_literal(literal, seen.sort)),
        Focus::NeedName(callee) => Ok(need_name(alloc, callee, seen.sort)),
        Focus::NeedParen(frame) => need_paren(stack, frame, seen.sort),
    }
}

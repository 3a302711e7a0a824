//! One expression from a list of tokens.
ghost use Rattle.std.specs.Prelude.{◌≡◌, ◌≤◌, ◌+◌, ◌∷◌, ℕ, IfOk, IfErr, drop};
ghost use Rattle.lp_tree.specs.Trees.{Tree};
ghost use Rattle.lp_tree.specs.TreeView.{tree_of};
ghost use Rattle.lp_parser_expr.specs.Capped.{capped};
ghost use Rattle.lp_parser_expr.specs.Depth.{least as levels_least, least_need};
ghost use Rattle.lp_parser_expr.specs.Moves.{state_of};
ghost use Rattle.lp_parser_expr.specs.StackView.{stack_of};
ghost use Rattle.lp_parser_expr.specs.Theorem.{IsFault, IsRead, IsUnlessMemory, Stops, levels_at, line_of_place};
ghost use Rattle.lp_parser_expr.specs.View.{frame_of};

use crate::ending::finish;
use crate::fault::{ParseFault, Stop};
use crate::focus::{Focus, Moved};
use crate::frame::Frame;
use crate::lift::{callee_levels, levels_ended, lifted, makes_place, own_lift};
use crate::machine::step;
use crate::stack::Stack;
use crate::tall::{Tall, deeper};
use lp_tree::expr::Expr;
use lp_tree::seen::see;
use lp_tree::token::Token;
use std::alloc::{AllocError, Global};

/// The deepest that anything of a program may lie.
const DEEPEST: u32 = 200;

// The levels of the shallowest whole, where this production has still to begin.
fn pending(stack: &Stack, frame: &Frame) -> u32
    ensures { result ≡ capped (least_need (frame_of frame.now ∷ stack_of stack.now)) }
{
    if let Some(levels) = levels_ended(frame) {
        return stack.levels(false, levels);
    }
    stack.levels(makes_place(frame), lifted(own_lift(frame, true), 1))
}

/// The levels of the shallowest expression that begins as the machine has read.
pub fn least(stack: &Stack, focus: &Focus) -> u32
    ensures { result ≡ capped (levels_least (state_of focus.now (stack_of stack.now))) }
{
    match focus {
        Focus::Need => stack.least(),
        Focus::Have(tree) => stack.levels(tree.expr.is_place(), tree.height),
        Focus::EndCast(_, _) => stack.levels(false, 2),
        Focus::EndLiteral(tree) => stack.levels(tree.expr.is_place(), tree.height),
        Focus::NeedName(callee) => stack.levels(false, deeper(callee_levels(callee))),
        Focus::NeedParen(frame) => pending(stack, frame),
    }
}

// The expression that the first tokens spell, and how many they are.
fn read(alloc: Global, tokens: &[Token], limit: u32) -> Result<(Tall, usize), Stop>
    requires { limit ≤ 201 }
    ensures { Stops limit tokens.now result }
{
    let mut stack = Stack::new(alloc);
    let mut focus = Focus::Need;
    for i in 0..tokens.len() {
        let seen = see(&tokens[i])?;
        focus = match step(alloc, &mut stack, focus, seen)? {
            Moved::Goes(next) => next,
            Moved::Ends(Some(whole)) => return Ok((whole, i)),
            Moved::Ends(None) => return Err(Stop::Unexpected(i)),
        };
        if least(&stack, &focus) > limit {
            return Err(Stop::TooNested(i));
        }
    }
    match finish(alloc, &mut stack, focus)? {
        Some(whole) => Ok((whole, tokens.len())),
        None => Err(Stop::Unexpected(tokens.len())),
    }
}

// The line of the token at a place, or of the last token of all.
fn line_at(all: &[Token], tokens: &[Token], at: usize) -> u32
    ensures { result ≡ line_of_place all.now tokens.now at }
{
    match tokens.get(at) {
        Some(token) => token.line,
        None => match all.last() {
            Some(token) => token.line,
            None => 0,
        },
    }
}

// The first place of what is to be read.
fn rest(tokens: &[Token], from: usize) -> &[Token]
    ensures { result.now ≡ drop from tokens.now }
{
    let first = from.min(tokens.len());
    &tokens[first..]
}

/// The longest expression that the tokens from a place on begin with, and the place behind it.
///
/// `depth` is the depth of the expression itself: 1 for the initialiser of a global, and one more than the statement or
/// expression of which it is a part. No part of it may lie deeper than 200.
///
/// `Unexpected` has the line of the first token with which no expression goes on, where what stands before it is none,
/// or of the last token where the tokens end too early, or 0 where there is none. `TooNested` has the line of the first
/// token up to which each expression that begins so has a part deeper than 200.
pub fn expr(
    alloc: Global,
    tokens: &[Token],
    from: usize,
    depth: u32,
) -> Result<(Expr, usize), ParseFault>
    // What is read is spelled so, and nothing longer is begun.
    ensures found { IfOk result (λ r. (n : ℕ) × (r.1 ≡ from + n) × IsRead (levels_at depth) (drop from tokens.now) n (tree_of r.0)) }
    // What is spelled so is read, unless memory runs out.
    ensures only { (t : Tree) (n : ℕ) → IsRead (levels_at depth) (drop from tokens.now) n t → IsUnlessMemory t (from + n) result }
    // Which token is the fault, and which fault it is.
    ensures faults { IfErr result (IsFault tokens.now from depth) }
{
    let limit = (DEEPEST + 1).saturating_sub(depth);
    let rest = rest(tokens, from);
    match read(alloc, rest, limit) {
        Ok((whole, count)) => Ok((Box::into_inner(whole.expr), from + count)),
        Err(Stop::NoMemory) => Err(ParseFault::NoMemory),
        Err(Stop::Unexpected(at)) => Err(ParseFault::Unexpected {
            line: line_at(tokens, rest, at),
        }),
        Err(Stop::TooNested(at)) => Err(ParseFault::TooNested {
            line: line_at(tokens, rest, at),
        }),
    }
}

//! A unit from a list of tokens.
ghost use Rattle.std.specs.Prelude.{◌≡◌, ◌≤◌, List, IfOk, IfErr};
ghost use Rattle.lp_tree.specs.Signs.{AreUnsigned};
ghost use Rattle.lp_tree.specs.UnitView.{unit_of};
ghost use Rattle.lp_tree.specs.Units.{ItemTree, SpellsUnit, line_at as line_of_fault, unit_height};
ghost use Rattle.lp_parser.specs.Stops.{Stops};
ghost use Rattle.lp_parser.specs.Theorem.{IsFault, IsUnlessMemory, deepest, sight};

use crate::before::Before;
use crate::focus::Focus;
use crate::machine::{here, step};
use lp_parser_expr::fault::{ParseFault, Stop};
use lp_tree::seen::see;
use lp_tree::token::Token;
use lp_tree::unit::{Item, Unit};
use std::alloc::Global;

/// The deepest that anything of a unit may lie.
const DEEPEST: u32 = 200;

// The items that the tokens spell.
fn read(alloc: Global, tokens: &[Token], limit: u32) -> Result<Vec<Item>, Stop>
    requires limit { limit ≤ 200 }
    requires signs { AreUnsigned tokens.now }
    ensures { Stops limit tokens.now result }
{
    let mut before = Before::new(alloc);
    let mut focus = Focus::Top;
    for i in 0..tokens.len() {
        let seen = see(&tokens[i])?;
        focus = match step(alloc, &mut before, focus, seen)? {
            Some(next) => next,
            None => return Err(Stop::Unexpected(i)),
        };
        if here(&focus) > limit {
            return Err(Stop::TooNested(i));
        }
    }
    match focus {
        Focus::Top => Ok(before.items),
        _ => Err(Stop::Unexpected(tokens.len())),
    }
}

// The line of the token at a place, or of the last token.
fn line_at(tokens: &[Token], at: usize) -> u32
    ensures { result ≡ line_of_fault (sight tokens.now) at }
{
    if tokens.is_empty() {
        return 0;
    }
    tokens[at.min(tokens.len() - 1)].line
}

/// The unit that the tokens spell.
///
/// Nothing of it may lie deeper than 200: a function's block and what a global is set to have depth 1, and each
/// statement, expression and pair of parentheses in them is one deeper than the one of which it is a part.
///
/// `Unexpected` has the line of the first token with which no unit goes on, or of the last token where the tokens end
/// too early, or 0 where there is none. `TooNested` has the line of the first token up to which each unit that begins so
/// has something deeper than 200.
pub fn parse(alloc: Global, tokens: &[Token]) -> Result<Unit, ParseFault>
    requires { AreUnsigned tokens.now }
    // What is answered is spelled so.
    ensures found { IfOk result (λ u. SpellsUnit (unit_of u) (sight tokens.now) × (unit_height (unit_of u) ≤ deepest)) }
    // What is spelled so is answered, unless memory runs out.
    ensures only { (is : List ItemTree) → SpellsUnit is (sight tokens.now) → unit_height is ≤ deepest → IsUnlessMemory is result }
    // Which token is the fault, and which fault it is.
    ensures faults { IfErr result (IsFault tokens.now) }
{
    match read(alloc, tokens, DEEPEST) {
        Ok(items) => Ok(Unit { items }),
        Err(Stop::NoMemory) => Err(ParseFault::NoMemory),
        Err(Stop::Unexpected(at)) => Err(ParseFault::Unexpected {
            line: line_at(tokens, at),
        }),
        Err(Stop::TooNested(at)) => Err(ParseFault::TooNested {
            line: line_at(tokens, at),
        }),
    }
}

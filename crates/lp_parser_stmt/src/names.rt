//! The names of a declaration, read one token at a time.
ghost use Rattle.std.specs.Prelude.{◌≡◌, [], IfOk, Ok, Some, None, option_map};
ghost use Rattle.lp_tree.specs.TreeView.{tree_of};
ghost use Rattle.lp_parser_expr.specs.Capped.{capped};
ghost use Rattle.lp_parser_expr.specs.Moves.{state_of as expr_state};
ghost use Rattle.lp_parser_expr.specs.StackView.{stack_of as expr_stack};
ghost use Rattle.lp_parser_stmt.specs.Depth.{names_here};
ghost use Rattle.lp_parser_stmt.specs.Machine.{AtOne, Valued, at_one as one_begun, at_stars as stars_read, mark_valued as value_ended, named as name_read, with_name as more_names};
ghost use Rattle.lp_parser_stmt.specs.Moves.{FirstIs, NamesMove, NamesMoveOn};
ghost use Rattle.lp_parser_stmt.specs.View.{declarators_of, names_of};

use crate::class::mark_of;
use lp_parser_expr::focus::{Focus as ExprFocus, Moved as ExprMoved};
use lp_parser_expr::machine::step as expr_step;
use lp_parser_expr::reading::least;
use lp_parser_expr::stack::Stack as ExprStack;
use lp_tree::chars::Chars;
use lp_tree::expr::Expr;
use lp_tree::operator::{AssignOp, BinOp};
use lp_tree::seen::{Seen, Sort};
use lp_tree::stmt::Declarator;
use lp_tree::token::Mark;
use std::alloc::{AllocError, Global};

/// The names of a declaration: what was read of them.
#[derive(Drop)]
pub enum Names {
    /// These are whole, and a star or a name comes.
    AtOne(Vec<Declarator>),
    /// These are whole, and so many stars were read, the first on this line.
    AtStars(Vec<Declarator>, u32, u32),
    /// And the name behind them.
    Named(Vec<Declarator>, u32, u32, Chars),
    /// And what it is set to is read.
    Valued(Vec<Declarator>, u32, u32, Chars, ExprStack, ExprFocus),
}

/// What a token makes of the names.
#[derive(Drop)]
pub enum NamesMoved {
    /// They go on.
    Goes(Names),
    /// No names go on so. These are the ones that were read before the token, where they are whole.
    Ends(Option<Vec<Declarator>>),
}

/// Names that may be the one of a function.
#[derive(Drop)]
pub enum FirstName {
    /// One name without a value and nothing before, with the number of its stars.
    Alone(u32, Chars),
    /// Other names, as they were.
    Other(Names),
}

// A star or a name.
fn at_one(done: Vec<Declarator>, sort: Sort, line: u32) -> NamesMoved
    ensures { NamesMoveOn (one_begun sort line (declarators_of done)) None (Ok result) }
{
    match sort {
        Sort::Mark(Mark::Binary(BinOp::Mul)) => NamesMoved::Goes(Names::AtStars(done, line, 1)),
        Sort::Name(name) => NamesMoved::Goes(Names::Named(done, line, 0, name)),
        _ => NamesMoved::Ends(None),
    }
}

// A star more, or the name behind them.
fn at_stars(
    done: Vec<Declarator>,
    line: u32,
    stars: u32,
    sort: Sort,
) -> Result<NamesMoved, AllocError>
    ensures { NamesMoveOn (stars_read sort (declarators_of done) line stars) None result }
{
    match sort {
        Sort::Mark(Mark::Binary(BinOp::Mul)) => {
            if stars == u32::MAX {
                // so many stars are longer than any memory holds
                return Err(AllocError);
            }
            Ok(NamesMoved::Goes(Names::AtStars(done, line, stars + 1)))
        }
        Sort::Name(name) => Ok(NamesMoved::Goes(Names::Named(done, line, stars, name))),
        _ => Ok(NamesMoved::Ends(None)),
    }
}

// These names and one more.
fn with_name(
    done: Vec<Declarator>,
    line: u32,
    stars: u32,
    name: Chars,
    value: Option<Expr>,
) -> Result<Vec<Declarator>, AllocError>
    ensures { IfOk result (λ ds. declarators_of ds ≡ more_names (declarators_of done) line stars name (option_map tree_of value)) }
{
    let mut done = done;
    done.push(Declarator {
        line,
        stars,
        name,
        value,
    })?;
    Ok(done)
}

// What stands behind a name.
fn named(
    alloc: Global,
    done: Vec<Declarator>,
    line: u32,
    stars: u32,
    name: Chars,
    sort: Sort,
) -> Result<NamesMoved, AllocError>
    ensures { NamesMoveOn (name_read sort (declarators_of done) line stars name) (Some (more_names (declarators_of done) line stars name None)) result }
{
    match sort {
        Sort::Mark(Mark::Assign(AssignOp::Set)) => Ok(NamesMoved::Goes(Names::Valued(
            done,
            line,
            stars,
            name,
            ExprStack::alone(alloc)?,
            ExprFocus::Need,
        ))),
        Sort::Mark(Mark::Comma) => Ok(NamesMoved::Goes(Names::AtOne(with_name(
            done, line, stars, name, None,
        )?))),
        _ => Ok(NamesMoved::Ends(Some(with_name(done, line, stars, name, None)?))),
    }
}

// What stands behind a whole value.
fn end_value(
    done: Vec<Declarator>,
    line: u32,
    stars: u32,
    name: Chars,
    value: Box<Expr>,
    mark: Option<Mark>,
) -> Result<NamesMoved, AllocError>
    ensures { NamesMoveOn (value_ended mark (Some (tree_of value.value)) (declarators_of done) line stars name) (Some (more_names (declarators_of done) line stars name (Some (tree_of value.value)))) result }
{
    let done = with_name(done, line, stars, name, Some(Box::into_inner(value)))?;
    match mark {
        Some(Mark::Comma) => Ok(NamesMoved::Goes(Names::AtOne(done))),
        _ => Ok(NamesMoved::Ends(Some(done))),
    }
}

// A token of a value, or behind it.
fn valued(
    alloc: Global,
    done: Vec<Declarator>,
    line: u32,
    stars: u32,
    name: Chars,
    inner: ExprStack,
    at: ExprFocus,
    seen: Seen,
) -> Result<NamesMoved, AllocError>
    ensures { NamesMove (Valued (declarators_of done) line stars name (expr_state at (expr_stack inner))) seen result }
{
    let mark = mark_of(&seen.sort);
    let mut inner = inner;
    match expr_step(alloc, &mut inner, at, seen) {
        Ok(ExprMoved::Goes(next)) => Ok(NamesMoved::Goes(Names::Valued(
            done, line, stars, name, inner, next,
        ))),
        Ok(ExprMoved::Ends(Some(tree))) => {
            drop(inner);
            end_value(done, line, stars, name, tree.expr, mark)
        }
        Ok(ExprMoved::Ends(None)) => {
            drop(done);
            drop(name);
            drop(inner);
            Ok(NamesMoved::Ends(None))
        }
        Err(error) => {
            drop(done);
            drop(name);
            drop(inner);
            Err(error)
        }
    }
}

/// One token of the names. Where none go on with it, what was read before it is given, where it is whole.
pub fn names_step(alloc: Global, names: Names, seen: Seen) -> Result<NamesMoved, AllocError>
    ensures { NamesMove (names_of names) seen result }
{
    match names {
        Names::AtOne(done) => Ok(at_one(done, seen.sort, seen.line)),
        Names::AtStars(done, line, stars) => at_stars(done, line, stars, seen.sort),
        Names::Named(done, line, stars, name) => named(alloc, done, line, stars, name, seen.sort),
        Names::Valued(done, line, stars, name, inner, at) => valued(
            alloc, done, line, stars, name, inner, at, seen,
        ),
    }
}

impl Names {
    /// No names yet: a star or a name comes.
    pub fn new(alloc: Global) -> Names
        ensures { names_of result ≡ AtOne [] }
    {
        Names::AtOne(Vec::new(alloc))
    }

    /// The levels of the shallowest value that begins as the open one has, and 0 where none is open.
    /// 4294967295 stands for all numbers from there on.
    pub fn here(&self) -> u32
        ensures { result ≡ capped (names_here (names_of self.now)) }
    {
        match self {
            Names::Valued(_, _, _, _, inner, at) => least(inner, at),
            _ => 0,
        }
    }

    /// The one name that was read, where it has no value and nothing stands before it; else the names as they were.
    pub fn first(self) -> FirstName
        ensures { FirstIs (names_of self) result }
    {
        match self {
            Names::Named(done, line, stars, name) => {
                if done.is_empty() {
                    return FirstName::Alone(stars, name);
                }
                FirstName::Other(Names::Named(done, line, stars, name))
            }
            other => FirstName::Other(other),
        }
    }
}

//! Declarations in statements, and the variables of a `foreach`.
ghost use Rattle.std.specs.Prelude.{◌≡◌, [], IfOk, Ok, Some, bytes_eq, codes};
ghost use Rattle.lp_tree.specs.StatementView.{local_of};
ghost use Rattle.lp_tree.specs.declared.seen.Sort.TheVariants as sorts;
ghost use Rattle.lp_parser_expr.specs.Machine.{Need as expr_need};
ghost use Rattle.lp_parser_stmt.specs.Machine.{Declaring, OfFor, OfStmt, Reading, Stack as Opens, declared as declared_for, each_named, each_stars as each_starred, mark_after_names, need_each, one_more_each, over as over_variables, step};
ghost use Rattle.lp_parser_stmt.specs.Moves.{Steps, each_state, state_of};
ghost use Rattle.lp_parser_stmt.specs.View.{declarators_of, names_of, role_of, whose_of};

use crate::class::mark_of;
use crate::ending::boxed;
use crate::focus::{EachAt, Focus, Moved};
use crate::names::{Names, NamesMoved, names_step};
use crate::role::{Optional, Role, Whose};
use lp_parser_expr::focus::Focus as ExprFocus;
use lp_parser_expr::stack::Stack as ExprStack;
use lp_tree::chars::Chars;
use lp_tree::keyword::{Base, Keyword};
use lp_tree::operator::BinOp;
use lp_tree::seen::{Seen, Sort};
use lp_tree::stmt::{Declarator, Each, Init, Local, Stmt};
use lp_tree::token::Mark;
use lp_tree::types::TypeName;
use std::alloc::{AllocError, Global};

// A declaration that is a statement.
fn declared_alone(alloc: Global, local: Local) -> Result<Focus, AllocError>
    ensures { IfOk result (λ f. (s : Opens) → state_of f s ≡ declared_for OfStmt (local_of local) s) }
{
    let whole = Stmt::Declares {
        line: local.line,
        local,
    };
    Ok(Focus::Have(boxed(alloc, whole)?))
}

// A declaration that is the first part of a `for`.
fn declared_first(alloc: Global, line: u32, local: Local) -> Result<Focus, AllocError>
    ensures { IfOk result (λ f. (s : Opens) → state_of f s ≡ declared_for (OfFor line) (local_of local) s) }
{
    let init = Box::new(alloc, Init::Declares(local))?;
    Ok(Focus::Maybe(Optional::Test(line, init)))
}

// A declaration and its semicolon were read.
fn declared(alloc: Global, local: Local, whose: Whose) -> Result<Focus, AllocError>
    ensures { IfOk result (λ f. (s : Opens) → state_of f s ≡ declared_for (whose_of whose) (local_of local) s) }
{
    match whose {
        Whose::OfStmt => declared_alone(alloc, local),
        Whose::OfFor(line) => declared_first(alloc, line, local),
    }
}

// Behind whole names.
fn after_names(
    alloc: Global,
    mark: Option<Mark>,
    line: u32,
    base: Base,
    ones: Vec<Declarator>,
    whose: Whose,
) -> Result<Moved, AllocError>
    ensures { (s : Opens) → Steps (mark_after_names mark line base (Some (declarators_of ones)) (whose_of whose) s) s result }
{
    match mark {
        Some(Mark::Semicolon) => {
            let next = declared(alloc, Local { line, base, ones }, whose)?;
            Ok(Moved::Goes(next))
        }
        _ => {
            drop(ones);
            Ok(Moved::Refuses)
        }
    }
}

/// A token of the names of a declaration, or behind them.
pub fn declaring(
    alloc: Global,
    line: u32,
    base: Base,
    names: Names,
    whose: Whose,
    seen: Seen,
) -> Result<Moved, AllocError>
    ensures { (s : Opens) → Steps (step (Declaring line base (names_of names) (whose_of whose) s) seen) s result }
{
    let mark = mark_of(&seen.sort);
    match names_step(alloc, names, seen)? {
        NamesMoved::Goes(next) => Ok(Moved::Goes(Focus::Declaring(line, base, next, whose))),
        NamesMoved::Ends(Some(ones)) => after_names(alloc, mark, line, base, ones, whose),
        NamesMoved::Ends(None) => Ok(Moved::Refuses),
    }
}

// The first token of a variable.
fn begin_each(line: u32, first: Option<Each>, sort: Sort, at: u32) -> Moved
    ensures { (s : Opens) → Steps (need_each sort at line first s) s (Ok result) }
{
    match sort {
        Sort::Name(name) => {
            let each = Each {
                line: at,
                type_name: None,
                name,
            };
            Moved::Goes(Focus::Variable(line, first, EachAt::Named(each)))
        }
        Sort::Reserved(Keyword::Base(base)) => Moved::Goes(Focus::Variable(
            line,
            first,
            EachAt::Stars(at, base, 0),
        )),
        _ => Moved::Refuses,
    }
}

// A star of the type of a variable, or its name.
fn each_stars(
    line: u32,
    first: Option<Each>,
    at: u32,
    base: Base,
    stars: u32,
    sort: Sort,
) -> Result<Moved, AllocError>
    ensures { (s : Opens) → Steps (each_starred sort line first at base stars s) s result }
{
    match sort {
        Sort::Mark(Mark::Binary(BinOp::Mul)) => {
            if stars == u32::MAX {
                // so many stars are longer than any memory holds
                return Err(AllocError);
            }
            Ok(Moved::Goes(Focus::Variable(line, first, EachAt::Stars(at, base, stars + 1))))
        }
        Sort::Name(name) => {
            let each = Each {
                line: at,
                type_name: Some(TypeName { base, stars }),
                name,
            };
            Ok(Moved::Goes(Focus::Variable(line, first, EachAt::Named(each))))
        }
        _ => Ok(Moved::Refuses),
    }
}

// What is read behind the variables of a `foreach`.
fn over(line: u32, first: Option<Each>, each: Each) -> Role
    ensures { role_of result ≡ over_variables line first each }
{
    match first {
        None => Role::OverEach(line, each, None),
        Some(first) => Role::OverEach(line, first, Some(each)),
    }
}

// The variables of a `foreach` were read.
fn begin_over(alloc: Global, role: Role) -> Moved
    ensures { (s : Opens) → Steps (Some (Reading (expr_need []) (role_of role) s)) s (Ok result) }
{
    Moved::Goes(Focus::Reading(ExprStack::new(alloc), ExprFocus::Need, role))
}

// A comma behind a variable.
fn one_more(line: u32, first: Option<Each>, each: Each) -> Moved
    ensures { (s : Opens) → Steps (one_more_each line first each s) s (Ok result) }
{
    if first.is_some() {
        return Moved::Refuses;
    }
    Moved::Goes(Focus::Variable(line, Some(each), EachAt::Begins))
}

// Whether a name is the one behind the variables of a `foreach`.
fn is_in(name: &Chars) -> bool
    ensures { result ≡ bytes_eq name.now (codes "in") }
{
    name.as_slice() == ['i', 'n'].as_slice()
}

// A mark behind a variable.
fn after_each_mark(alloc: Global, line: u32, first: Option<Each>, each: Each, mark: Mark) -> Moved
    ensures { (s : Opens) → Steps (each_named (sorts.Mark mark) line first each s) s (Ok result) }
{
    match mark {
        Mark::Comma => one_more(line, first, each),
        Mark::Colon => begin_over(alloc, over(line, first, each)),
        _ => Moved::Refuses,
    }
}

// What stands behind a variable.
fn after_each(alloc: Global, line: u32, first: Option<Each>, each: Each, sort: Sort) -> Moved
    ensures { (s : Opens) → Steps (each_named sort line first each s) s (Ok result) }
{
    match sort {
        Sort::Mark(mark) => after_each_mark(alloc, line, first, each, mark),
        Sort::Name(name) => {
            if is_in(&name) {
                return begin_over(alloc, over(line, first, each));
            }
            Moved::Refuses
        }
        _ => Moved::Refuses,
    }
}

/// A token of a variable of a `foreach`, or behind it.
pub fn variable(
    alloc: Global,
    line: u32,
    first: Option<Each>,
    at: EachAt,
    seen: Seen,
) -> Result<Moved, AllocError>
    ensures { (s : Opens) → Steps (step (each_state at line first s) seen) s result }
{
    match at {
        EachAt::Begins => Ok(begin_each(line, first, seen.sort, seen.line)),
        EachAt::Stars(at, base, stars) => each_stars(line, first, at, base, stars, seen.sort),
        EachAt::Named(each) => Ok(after_each(alloc, line, first, each, seen.sort)),
    }
}

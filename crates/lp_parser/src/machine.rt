//! The machine of units, moved by one token at a time.
ghost use Rattle.std.specs.Prelude.{◌≡◌, Some, true, option_map};
ghost use Rattle.lp_tree.specs.StatementView.{stmt_trees};
ghost use Rattle.lp_parser_expr.specs.Capped.{capped};
ghost use Rattle.lp_parser_stmt.specs.Moves.{IsUnsigned, state_of as stmt_state};
ghost use Rattle.lp_parser_stmt.specs.Machine.{mark_in, names_finished, names_step as names_stepped};
ghost use Rattle.lp_parser_stmt.specs.StackView.{stack_of};
ghost use Rattle.lp_parser_stmt.specs.View.{declarators_of, names_of, stmts_of};
ghost use Rattle.lp_parser.specs.Depth.{here as levels_here};
ghost use Rattle.lp_parser.specs.Machine.{Before as Items, InBody, Top, after_names as names_ended, fun_of, have_params as params_read, is_paren as opens_params, names_go as names_gone, step as next_state, typed_head as typed_begun, with_item};
ghost use Rattle.lp_parser.specs.Moves.{Moves, state_of, typed_read};
ghost use Rattle.lp_parser.specs.View.{before_of, head_of};

use crate::before::Before;
use crate::focus::{Focus, Head, Header, Typed};
use crate::params::{behind_param, need_open, need_param, next_param, param_stars};
use crate::top::{at_top, end_inherit, modified, need_path};
use lp_parser_stmt::class::mark_of;
use lp_parser_stmt::focus::{Focus as StmtFocus, Moved};
use lp_parser_stmt::machine::{here as stmts_here, step as stmt_step};
use lp_parser_stmt::names::{FirstName, Names, NamesMoved, names_step};
use lp_parser_stmt::stack::Stack;
use lp_tree::chars::Chars;
use lp_tree::seen::{Seen, Sort};
use lp_tree::stmt::{Declarator, Stmt};
use lp_tree::token::Mark;
use lp_tree::types::TypeName;
use lp_tree::unit::{Block, Item};
use std::alloc::{AllocError, Global};

// The semicolon behind the names of variables.
fn after_names(
    before: &mut Before,
    typed: Typed,
    ones: Option<Vec<Declarator>>,
    mark: Option<Mark>,
) -> Result<Option<Focus>, AllocError>
    ensures { Moves (names_ended mark (option_map declarators_of ones) (before_of before.old) typed.line typed.mods.items typed.base) (before_of before.new) result }
{
    match (mark, ones) {
        (Some(Mark::Semicolon), Some(ones)) => {
            let Typed { line, mods, base } = typed;
            before.push(Item::Var {
                line,
                mods,
                base,
                ones,
            })?;
            Ok(Some(Focus::Top))
        }
        _ => Ok(None),
    }
}

// A token of names, or behind them.
fn names_go(
    alloc: Global,
    before: &mut Before,
    typed: Typed,
    names: Names,
    seen: Seen,
) -> Result<Option<Focus>, AllocError>
    ensures { Moves (names_gone (names_stepped (names_of names) seen) (mark_in seen.sort) (names_finished (names_of names)) (before_of before.old) typed.line typed.mods.items typed.base) (before_of before.new) result }
{
    let mark = mark_of(&seen.sort);
    match names_step(alloc, names, seen)? {
        NamesMoved::Goes(next) => Ok(Some(Focus::Typed(typed, next))),
        NamesMoved::Ends(ones) => after_names(before, typed, ones, mark),
    }
}

// A function with a type, up to its parameters.
fn typed_head(typed: Typed, stars: u32, name: Chars) -> Head
    ensures { head_of result ≡ typed_begun typed.line typed.mods.items typed.base stars name }
{
    let Typed { line, mods, base } = typed;
    Head {
        line,
        mods,
        type_name: Some(TypeName { base, stars }),
        name,
    }
}

// Whether a mark begins parameters.
fn is_paren(mark: Option<Mark>) -> bool
    ensures { result ≡ opens_params mark }
{
    match mark {
        Some(Mark::OpenParen) => true,
        _ => false,
    }
}

// A parenthesis behind names: behind the first name it begins the parameters of a function.
fn opens(
    alloc: Global,
    before: &mut Before,
    typed: Typed,
    names: Names,
    seen: Seen,
) -> Result<Option<Focus>, AllocError>
    requires { opens_params (mark_in seen.sort) ≡ true }
    ensures { Moves (typed_read typed.line typed.mods.items typed.base (names_of names) seen (before_of before.old)) (before_of before.new) result }
{
    match names.first() {
        FirstName::Alone(stars, name) => {
            Ok(Some(Focus::NeedParam(typed_head(typed, stars, name))))
        }
        FirstName::Other(names) => names_go(alloc, before, typed, names, seen),
    }
}

// A token of the names behind a type word, or behind them.
fn typed(
    alloc: Global,
    before: &mut Before,
    typed: Typed,
    names: Names,
    seen: Seen,
) -> Result<Option<Focus>, AllocError>
    ensures { Moves (typed_read typed.line typed.mods.items typed.base (names_of names) seen (before_of before.old)) (before_of before.new) result }
{
    if is_paren(mark_of(&seen.sort)) {
        return opens(alloc, before, typed, names, seen);
    }
    names_go(alloc, before, typed, names, seen)
}

// The semicolon of a prototype, or the brace of a function.
fn have_params(
    alloc: Global,
    before: &mut Before,
    header: Header,
    line: u32,
    sort: Sort,
) -> Result<Option<Focus>, AllocError>
    ensures { Moves (params_read sort line (before_of before.old) (head_of header.head) header.params.items) (before_of before.new) result }
{
    match sort {
        Sort::Mark(Mark::Semicolon) => {
            let Header { head, params } = header;
            before.push(Item::Proto {
                line: head.line,
                mods: head.mods,
                type_name: head.type_name,
                name: head.name,
                params,
            })?;
            Ok(Some(Focus::Top))
        }
        Sort::Mark(Mark::OpenBrace) => Ok(Some(Focus::InBody(
            header,
            line,
            Stack::new(alloc),
            StmtFocus::Need,
        ))),
        _ => Ok(None),
    }
}

// The last brace of a function.
fn end_body(
    before: &mut Before,
    header: Header,
    line: u32,
    stmts: Vec<Stmt>,
) -> Result<Option<Focus>, AllocError>
    ensures { Moves (Some (Top (with_item (before_of before.old) (fun_of (head_of header.head) header.params.items line (stmt_trees (stmts_of stmts)))))) (before_of before.new) result }
{
    let Header { head, params } = header;
    before.push(Item::Fun {
        line: head.line,
        mods: head.mods,
        type_name: head.type_name,
        name: head.name,
        params,
        body: Block { line, stmts },
    })?;
    Ok(Some(Focus::Top))
}

// A token in the block of a function.
fn in_body(
    alloc: Global,
    before: &mut Before,
    header: Header,
    line: u32,
    stack: Stack,
    focus: StmtFocus,
    seen: Seen,
) -> Result<Option<Focus>, AllocError>
    requires { IsUnsigned seen.sort }
    ensures { Moves (next_state (InBody (before_of before.old) (head_of header.head) header.params.items line (stmt_state focus (stack_of stack))) seen) (before_of before.new) result }
{
    let mut stack = stack;
    match stmt_step(alloc, &mut stack, focus, seen)? {
        Moved::Goes(next) => Ok(Some(Focus::InBody(header, line, stack, next))),
        Moved::Over(stmts) => end_body(before, header, line, stmts),
        Moved::Refuses => Ok(None),
    }
}

/// One token. None exactly where no unit goes on with it.
pub fn step(
    alloc: Global,
    before: &mut Before,
    focus: Focus,
    seen: Seen,
) -> Result<Option<Focus>, AllocError>
    requires { IsUnsigned seen.sort }
    ensures { Moves (next_state (state_of focus (before_of before.old)) seen) (before_of before.new) result }
{
    match focus {
        Focus::Top => at_top(alloc, before, seen.line, seen.sort),
        Focus::NeedPath(line) => Ok(need_path(line, seen.sort)),
        Focus::EndInherit(line, path) => end_inherit(before, line, path, seen.sort),
        Focus::Modified(line, mods) => modified(alloc, line, mods, seen.sort),
        Focus::Typed(begun, names) => typed(alloc, before, begun, names, seen),
        Focus::NeedOpen(head) => Ok(need_open(head, seen.sort)),
        Focus::NeedParam(head) => need_param(alloc, head, seen.line, seen.sort),
        Focus::NextParam(header) => next_param(header, seen.line, seen.sort),
        Focus::ParamStars(header, line, of) => param_stars(header, line, of, seen.sort),
        Focus::BehindParam(header) => Ok(behind_param(header, seen.sort)),
        Focus::HaveParams(header) => have_params(alloc, before, header, seen.line, seen.sort),
        Focus::InBody(header, line, stack, at) => in_body(
            alloc, before, header, line, stack, at, seen,
        ),
    }
}

/// The depth of what has to come at least. 4294967295 stands for all numbers from there on.
pub fn here(focus: &Focus) -> u32
    ensures { (b : Items) → result ≡ capped (levels_here (state_of focus.now b)) }
{
    match focus {
        Focus::Typed(_, names) => names.here(),
        Focus::InBody(_, _, stack, at) => stmts_here(stack, at),
        _ => 0,
    }
}

//! The first fault of a unit's layout.
ghost use Rattle.std.specs.Prelude.{◌≡◌, ◌≤◌, ◌∷◌, ◌++◌, ◌||◌, [], IfOk, List, drop, length, map, nat_lt, take, ℕ};
ghost use Rattle.lp_code.specs.declared.tables.Tables.{Tables as SomeTables};
ghost use Rattle.lp_tree.specs.StatementView.{declarator_of, stmt_of, stmt_trees};
ghost use Rattle.lp_tree.specs.TreeView.{tree_of};
ghost use Rattle.lp_tree.specs.UnitView.{item_of};
ghost use Rattle.lp_tree.specs.Units.{Inherit};
ghost use Rattle.lp_types_expr.specs.Signatures.{or_else};
ghost use Rattle.lp_types_expr.specs.ExprFaults.{when};
ghost use Rattle.lp_types_expr.specs.Known.{has_path};
ghost use Rattle.lp_types_expr.specs.Visits.{judged, visited};
ghost use Rattle.lp_types_expr.specs.Walk.{all_at, in_tree};
ghost use Rattle.lp_layout.specs.Firsts.{at_if, earlier_behind, first_kind, item_layout, others_behind};
ghost use Rattle.lp_layout.specs.LayoutFaults.{call_guilt, declarators_calls, first_fault, function_kinds, is_ambiguous, items_layout, limits, stmts_calls, stmts_locals, too_many};
ghost use Rattle.lp_layout.specs.Pieces.{calls_in, locals_in, piece_of, seen};
ghost use Rattle.lp_layout.specs.Standing.{Knows};

use crate::nomask::{add_parent, overrides, stands_beside};
use crate::piece::Piece;
use crate::pieces::{add_ones, add_stmts, are_more};
use crate::standing::Standing;
use lp_code::tables::Tables;
use lp_tree::chars::Chars;
use lp_tree::expr::Expr;
use lp_tree::fault::FaultKind;
use lp_tree::stmt::{Declarator, Stmt};
use lp_tree::unit::Item;
use lp_types_expr::fault::FaultAt;
use lp_types_expr::named::path_fits;
use lp_types_expr::names::letters;
use lp_types_expr::visit::Visit;
use lp_types_expr::visits::visits;
use std::alloc::{AllocError, Global};
use std::collections::HashMap;

// The most arguments of a call, parameters of a function and locals of a function.
const MOST: usize = 255;

fn when(is_fault: bool, kind: FaultKind) -> Option<FaultKind>
    ensures { result ≡ first_kind (when is_fault kind) }
{
    if is_fault {
        return Some(kind);
    }
    None
}

// The first of the kinds at one token.
fn earlier(kind: Option<FaultKind>, other: Option<FaultKind>) -> Option<FaultKind>
    ensures { result ≡ or_else kind other }
{
    match kind {
        None => other,
        Some(kind) => Some(kind),
    }
}

// A fault of a kind, where there is one.
fn at_if(line: u32, kind: Option<FaultKind>) -> Option<FaultAt>
    ensures { result ≡ at_if line kind }
{
    match kind {
        None => None,
        Some(kind) => Some(FaultAt { line, kind }),
    }
}

fn has_path(alloc: Global, parent: &Tables, name: &Chars) -> Result<bool, AllocError>
    ensures { IfOk result (λ b. b ≡ has_path name.now parent.now) }
{
    let path = letters(alloc, parent.path.as_str())?;
    Ok(path_fits(path.as_slice(), name.as_slice()))
}

// Whether two parents or more have a path.
fn is_ambiguous(alloc: Global, parents: &[Tables], name: &Chars) -> Result<bool, AllocError>
    ensures { IfOk result (λ b. b ≡ is_ambiguous parents.now name.now) }
{
    let mut is_found = false;
    for parent in parents {
        if has_path(alloc, parent, name)? {
            if is_found {
                return Ok(true);
            }
            is_found = true;
        }
    }
    Ok(false)
}

fn count_kind(args: &[Expr]) -> Option<FaultKind>
    ensures { result ≡ first_kind (too_many limits.arguments (length args.now)) }
{
    when(args.len() > MOST, FaultKind::TooManyNames)
}

// The first of what a call alone is guilty of.
fn call_kind(alloc: Global, parents: &[Tables], e: &Expr) -> Result<Option<FaultKind>, AllocError>
    ensures { IfOk result (λ k. k ≡ first_kind (call_guilt limits parents.now (tree_of e.now))) }
{
    match e {
        Expr::Call { args, .. } => Ok(count_kind(args)),
        Expr::EfunCall { args, .. } => Ok(count_kind(args)),
        Expr::ParentCall { args, .. } => Ok(count_kind(args)),
        Expr::NamedParentCall { parent, args, .. } => {
            let is_torn = is_ambiguous(alloc, parents, parent)?;
            let first = when(is_torn, FaultKind::AmbiguousSuper);
            Ok(earlier(first, count_kind(args)))
        }
        Expr::CallOther { args, .. } => Ok(count_kind(args)),
        _ => Ok(None),
    }
}

// The first fault of some parts of an expression.
fn part_fault(
    alloc: Global,
    parents: &[Tables],
    parts: &[Visit<'_>],
) -> Result<Option<FaultAt>, AllocError>
    ensures { IfOk result (λ o. o ≡ first_fault (judged (call_guilt limits parents.now) (visited parts.now))) }
{
    for i in 0..parts.len() {
        let part = &parts[i];
        let kind = call_kind(alloc, parents, part.node)?;
        if let Some(kind) = kind {
            return Ok(Some(FaultAt {
                line: part.line,
                kind,
            }));
        }
    }
    Ok(None)
}

// The first fault of an expression.
fn tree_fault(alloc: Global, parents: &[Tables], e: &Expr) -> Result<Option<FaultAt>, AllocError>
    ensures { IfOk result (λ o. o ≡ first_fault (in_tree (call_guilt limits parents.now) (tree_of e.now))) }
{
    let mut parts = Vec::new(alloc);
    visits(e, &mut parts)?;
    let fault = part_fault(alloc, parents, parts.as_slice())?;
    Ok(fault)
}

// The first fault of a piece.
fn piece_fault(
    alloc: Global,
    parents: &[Tables],
    piece: &Piece<'_>,
) -> Result<Option<FaultAt>, AllocError>
    ensures { IfOk result (λ o. o ≡ first_fault (calls_in (call_guilt limits parents.now) (piece_of piece.now ∷ []))) }
{
    match piece {
        Piece::Locals(_) => Ok(None),
        Piece::Runs(e) => {
            let fault = tree_fault(alloc, parents, e)?;
            Ok(fault)
        }
    }
}

// The first fault of the expressions of some pieces.
fn pieces_fault(
    alloc: Global,
    parents: &[Tables],
    pieces: &[Piece<'_>],
) -> Result<Option<FaultAt>, AllocError>
    ensures { IfOk result (λ o. o ≡ first_fault (calls_in (call_guilt limits parents.now) (seen pieces.now))) }
{
    for i in 0..pieces.len() {
        let fault = piece_fault(alloc, parents, &pieces[i])?;
        match fault {
            Some(fault) => return Ok(Some(fault)),
            None => {}
        }
    }
    Ok(None)
}

// The first fault at an `inherit`, for which the first of some parents is left.
fn inherit_fault(
    alloc: Global,
    known: &HashMap<Vec<char>, Standing>,
    others: &[Tables],
    line: u32,
    is_large: bool,
) -> Result<Option<FaultAt>, AllocError>
    ensures { IfOk result (λ o. (ts : List SomeTables) → Knows ts known.now → (p : List ℕ) → o ≡ first_fault (item_layout limits (when is_large FaultKind.TooManyNames) ts others.now (Inherit line p))) }
{
    let whole = when(is_large, FaultKind::TooManyNames);
    if others.is_empty() {
        return Ok(at_if(line, whole));
    }
    let parent = &others[0];
    let is_beside = stands_beside(alloc, known, parent)?;
    let kind = earlier(
        when(is_beside, FaultKind::NomaskOverridden),
        when(parent.pragmas.no_inherit, FaultKind::NoInheritPragma),
    );
    Ok(at_if(line, earlier(kind, whole)))
}

// Whether a function has too many parameters or locals.
fn is_full(params: usize, pieces: &[Piece<'_>]) -> bool
    ensures { result ≡ nat_lt limits.arguments params || nat_lt limits.locals (locals_in (seen pieces.now)) }
{
    params > MOST || are_more(pieces, MOST)
}

// The first fault of a function: at its first token, else in its statements.
fn function_fault(
    alloc: Global,
    known: &HashMap<Vec<char>, Standing>,
    parents: &[Tables],
    line: u32,
    is_large: bool,
    name: &Chars,
    params: usize,
    stmts: &[Stmt],
) -> Result<Option<FaultAt>, AllocError>
    ensures { IfOk result (λ o. Knows parents.now known.now → o ≡ first_fault (all_at line (function_kinds limits parents.now name.now params (stmts_locals (stmt_trees (map stmt_of stmts.now))) ++ when is_large FaultKind.TooManyNames) ++ stmts_calls (call_guilt limits parents.now) (stmt_trees (map stmt_of stmts.now)))) }
{
    let mut pieces = Vec::new(alloc);
    add_stmts(stmts, &mut pieces)?;
    let is_full = is_full(params, pieces.as_slice());
    let kind = earlier(
        when(overrides(known, name), FaultKind::NomaskOverridden),
        when(is_full, FaultKind::TooManyNames),
    );
    let whole = when(is_large, FaultKind::TooManyNames);
    let head = at_if(line, earlier(kind, whole));
    match head {
        Some(fault) => return Ok(Some(fault)),
        None => {}
    }
    let fault = pieces_fault(alloc, parents, pieces.as_slice())?;
    Ok(fault)
}

// The first fault of a declaration of variables.
fn variables_fault(
    alloc: Global,
    parents: &[Tables],
    line: u32,
    is_large: bool,
    ones: &[Declarator],
) -> Result<Option<FaultAt>, AllocError>
    ensures { IfOk result (λ o. o ≡ first_fault (all_at line (when is_large FaultKind.TooManyNames) ++ declarators_calls (call_guilt limits parents.now) (map declarator_of ones.now))) }
{
    if is_large {
        return Ok(Some(FaultAt {
            line,
            kind: FaultKind::TooManyNames,
        }));
    }
    let mut pieces = Vec::new(alloc);
    add_ones(ones, &mut pieces)?;
    let fault = pieces_fault(alloc, parents, pieces.as_slice())?;
    Ok(fault)
}

// The first fault of an item, behind some inherits.
fn item_fault(
    alloc: Global,
    known: &HashMap<Vec<char>, Standing>,
    parents: &[Tables],
    passed: usize,
    is_large: bool,
    item: &Item,
) -> Result<Option<FaultAt>, AllocError>
    requires { passed ≤ length parents.now }
    ensures { IfOk result (λ o. Knows (take passed parents.now) known.now → o ≡ first_fault (item_layout limits (when is_large FaultKind.TooManyNames) (take passed parents.now) (drop passed parents.now) (item_of item.now))) }
{
    let before = &parents[..passed];
    let others = &parents[passed..];
    match item {
        Item::Inherit { line, .. } => {
            let fault = inherit_fault(alloc, known, others, *line, is_large)?;
            Ok(fault)
        }
        Item::Proto { line, params, .. } => {
            let kind = when(params.len() > MOST, FaultKind::TooManyNames);
            let whole = when(is_large, FaultKind::TooManyNames);
            Ok(at_if(*line, earlier(kind, whole)))
        }
        Item::Fun {
            line,
            name,
            params,
            body,
            ..
        } => {
            let count = params.len();
            let stmts = body.stmts.as_slice();
            let fault = function_fault(alloc, known, before, *line, is_large, name, count, stmts)?;
            Ok(fault)
        }
        Item::Var { line, ones, .. } => {
            let fault = variables_fault(alloc, before, *line, is_large, ones)?;
            Ok(fault)
        }
    }
}

// Goes past an item: how many inherits are passed behind it.
fn pass(
    alloc: Global,
    known: &mut HashMap<Vec<char>, Standing>,
    parents: &[Tables],
    passed: usize,
    item: &Item,
) -> Result<usize, AllocError>
    requires { passed ≤ length parents.now }
    ensures inside { IfOk result (λ n. n ≤ length parents.now) }
    ensures earlier { IfOk result (λ n. take n parents.now ≡ earlier_behind (take passed parents.now) (drop passed parents.now) (item_of item.now)) }
    ensures others { IfOk result (λ n. drop n parents.now ≡ others_behind (drop passed parents.now) (item_of item.now)) }
    ensures knows { IfOk result (λ n. Knows (take passed parents.now) known.old → Knows (take n parents.now) known.new) }
{
    if passed >= parents.len() {
        return Ok(passed);
    }
    match item {
        Item::Inherit { .. } => {
            add_parent(alloc, known, &parents[passed])?;
            Ok(passed + 1)
        }
        _ => Ok(passed),
    }
}

/// The first fault of a unit's layout, where the whole is too large or not.
pub(crate) fn items_fault(
    alloc: Global,
    is_large: bool,
    items: &[Item],
    parents: &[Tables],
) -> Result<Option<FaultAt>, AllocError>
    ensures { IfOk result (λ o. o ≡ first_fault (items_layout limits (when is_large FaultKind.TooManyNames) [] parents.now (map item_of items.now))) }
{
    let mut known = HashMap::new(alloc);
    let mut passed = 0;
    let mut is_whole = is_large;
    for i in 0..items.len() {
        let item = &items[i];
        let fault = item_fault(alloc, &known, parents, passed, is_whole, item)?;
        match fault {
            Some(fault) => return Ok(Some(fault)),
            None => {}
        }
        passed = pass(alloc, &mut known, parents, passed, item)?;
        is_whole = false;
    }
    Ok(None)
}

//! The parts of an expression.
ghost use Rattle.std.specs.Prelude.{◌≡◌, ◌++◌, ◌∷◌, [], OnOk, drop, map};
ghost use Rattle.lp_tree.specs.Trees.{pairs, trees};
ghost use Rattle.lp_tree.specs.TreeView.{tree_of};
ghost use Rattle.lp_tree.specs.Pieces.{end_tree, pair_of};
ghost use Rattle.lp_types_expr.specs.Visits.{AreFaultsOfParts, behinds, behinds_of, firsts, visited, visits, visits_all, visits_end, visits_pairs};

use crate::visit::Visit;
use lp_tree::expr::{Bound, Expr};
use std::alloc::AllocError;

// Adds a part.
fn add<'a>(e: &'a Expr, line: u32, into: &mut Vec<Visit<'a>>) -> Result<(), AllocError>
    ensures { OnOk result (visited into.new.items ≡ visited into.old.items ++ (line, tree_of e.now) ∷ []) }
{
    into.push(Visit { line, node: e })?;
    Ok(())
}

// Adds the parts that begin at an expression's first token, which is in a line.
#[cycle(firsts)]
pub(crate) fn firsts<'a>(
    e: &'a Expr,
    line: u32,
    into: &mut Vec<Visit<'a>>,
) -> Result<(), AllocError>
    ensures { OnOk result (visited into.new.items ≡ visited into.old.items ++ firsts line (tree_of e.now)) }
{
    match e {
        Expr::Index { of, .. } => begun(of, e, line, into),
        Expr::Range { of, .. } => begun(of, e, line, into),
        Expr::CallOther { of, .. } => begun(of, e, line, into),
        Expr::PostStep { place, .. } => begun(place, e, line, into),
        Expr::Binary { left, .. } => begun(left, e, line, into),
        Expr::AndThen { left, .. } => begun(left, e, line, into),
        Expr::OrElse { left, .. } => begun(left, e, line, into),
        Expr::Cond { test, .. } => begun(test, e, line, into),
        Expr::Assign { place, .. } => begun(place, e, line, into),
        Expr::Sequence { parts, .. } => match parts.first() {
            None => add(e, line, into),
            Some(first) => begun(first, e, line, into),
        },
        _ => add(e, line, into),
    }
}

// Adds the parts that begin at an expression's first token, and then another that begins with this expression.
#[cycle(firsts)]
fn begun<'a>(
    first: &'a Expr,
    whole: &'a Expr,
    line: u32,
    into: &mut Vec<Visit<'a>>,
) -> Result<(), AllocError>
    ensures { OnOk result (visited into.new.items ≡ visited into.old.items ++ (firsts line (tree_of first.now) ++ (line, tree_of whole.now) ∷ [])) }
{
    firsts(first, line, into)?;
    add(whole, line, into)
}

// Adds all parts of an expression that is itself a part.
#[cycle(visits)]
fn whole<'a>(e: &'a Expr, into: &mut Vec<Visit<'a>>) -> Result<(), AllocError>
    ensures { OnOk result (visited into.new.items ≡ visited into.old.items ++ visits (tree_of e.now)) }
{
    firsts(e, e.line(), into)?;
    behinds(e, into)
}

// Adds the parts of some expressions.
#[cycle(visits)]
fn each<'a>(all: &'a [Expr], into: &mut Vec<Visit<'a>>) -> Result<(), AllocError>
    ensures { OnOk result (visited into.new.items ≡ visited into.old.items ++ visits_all (trees (map tree_of all.now))) }
{
    for e in all {
        whole(e, into)?;
    }
    Ok(())
}

// Adds the parts of the keys and values of a mapping.
#[cycle(visits)]
fn each_pair<'a>(all: &'a [(Expr, Expr)], into: &mut Vec<Visit<'a>>) -> Result<(), AllocError>
    ensures { OnOk result (visited into.new.items ≡ visited into.old.items ++ visits_pairs (pairs (map pair_of all.now))) }
{
    for one in all {
        whole(&one.0, into)?;
        whole(&one.1, into)?;
    }
    Ok(())
}

// Adds the parts of an end of a range.
#[cycle(visits)]
fn end<'a>(end: &'a Bound<Box<Expr>>, into: &mut Vec<Visit<'a>>) -> Result<(), AllocError>
    ensures { OnOk result (visited into.new.items ≡ visited into.old.items ++ visits_end (end_tree end.now)) }
{
    match end {
        Bound::Open => Ok(()),
        Bound::At(_, at) => whole(at, into),
    }
}

// Adds the parts of all expressions but the first.
#[cycle(visits)]
fn others<'a>(all: &'a [Expr], into: &mut Vec<Visit<'a>>) -> Result<(), AllocError>
    ensures { OnOk result (visited into.new.items ≡ visited into.old.items ++ visits_all (trees (map tree_of (drop 1 all.now)))) }
{
    for i in 1..all.len() {
        whole(&all[i], into)?;
    }
    Ok(())
}

// Adds the parts of expressions of which the first begins at the first token.
#[cycle(visits)]
fn sequence<'a>(parts: &'a [Expr], into: &mut Vec<Visit<'a>>) -> Result<(), AllocError>
    ensures { OnOk result (visited into.new.items ≡ visited into.old.items ++ behinds_of (trees (map tree_of parts.now))) }
{
    match parts.first() {
        None => Ok(()),
        Some(first) => {
            behinds(first, into)?;
            others(parts, into)
        }
    }
}

// Adds the parts of an expression that begin behind its first token.
#[cycle(visits)]
pub(crate) fn behinds<'a>(e: &'a Expr, into: &mut Vec<Visit<'a>>) -> Result<(), AllocError>
    ensures { OnOk result (visited into.new.items ≡ visited into.old.items ++ behinds (tree_of e.now)) }
{
    match e {
        Expr::Int { .. } | Expr::Text { .. } | Expr::Name { .. } => Ok(()),
        Expr::Paren { inner, .. } => whole(inner, into),
        Expr::Array { items, .. } => each(items, into),
        Expr::Mapping { pairs, .. } => each_pair(pairs, into),
        Expr::Call { args, .. } => each(args, into),
        Expr::EfunCall { args, .. } => each(args, into),
        Expr::ParentCall { args, .. } => each(args, into),
        Expr::NamedParentCall { args, .. } => each(args, into),
        Expr::Catch { inner, .. } => whole(inner, into),
        Expr::Sscanf {
            text,
            form,
            places,
            ..
        } => {
            whole(text, into)?;
            whole(form, into)?;
            each(places, into)
        }
        Expr::Index { of, at, .. } => {
            behinds(of, into)?;
            whole(at, into)
        }
        Expr::Range { of, from, to, .. } => {
            behinds(of, into)?;
            end(from, into)?;
            end(to, into)
        }
        Expr::CallOther { of, args, .. } => {
            behinds(of, into)?;
            each(args, into)
        }
        Expr::PostStep { place, .. } => behinds(place, into),
        Expr::PreStep { place, .. } => whole(place, into),
        Expr::Unary { of, .. } => whole(of, into),
        Expr::Cast { of, .. } => whole(of, into),
        Expr::Binary { left, right, .. } => {
            behinds(left, into)?;
            whole(right, into)
        }
        Expr::AndThen { left, right, .. } => {
            behinds(left, into)?;
            whole(right, into)
        }
        Expr::OrElse { left, right, .. } => {
            behinds(left, into)?;
            whole(right, into)
        }
        Expr::Cond { test, yes, no, .. } => {
            behinds(test, into)?;
            whole(yes, into)?;
            whole(no, into)
        }
        Expr::Assign { place, value, .. } => {
            behinds(place, into)?;
            whole(value, into)
        }
        Expr::Sequence { parts, .. } => sequence(parts, into),
    }
}

/// Adds all parts of an expression, itself among them, in the order of their first tokens; of those that begin at one
/// token the innermost comes first. Takes time in proportion to the expression.
pub fn visits<'a>(e: &'a Expr, into: &mut Vec<Visit<'a>>) -> Result<(), AllocError>
    ensures { OnOk result (visited into.new.items ≡ visited into.old.items ++ visits (tree_of e.now)) }
{
    whole(e, into)
}

/// What is said of an expression part by part is said of the list of its parts.
pub fn law_parts()
    ensures { AreFaultsOfParts }
{}

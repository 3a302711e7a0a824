//! The code of expressions.
ghost use Rattle.std.specs.Prelude.{MatchResult};
ghost use Rattle.lp_codegen_expr.specs.Names.{layout_of};
ghost use Rattle.lp_codegen_expr.specs.Clear.{AreAllClear, AreEachPairClear, ArePlacesClear, IsBoundClear, IsExprClear, IsPlaceClear, Spares};
ghost use Rattle.lp_codegen_expr.specs.Drafts.{Adds, draft_of, of_all, of_change, of_end, of_expr, of_open, of_pairs, of_part, of_parts, of_right, of_scanned, of_scanned_one, of_write};

use crate::calls::{gen_call, gen_efun_call, gen_parent_call};
use crate::code::{Code, GenFault, counted};
use crate::kinds::{AssignKind, assign_kind, end_kind, keep};
use crate::plain::{gen_close, gen_read, gen_text, gen_write_slot};
use crate::scope::{Scope, parent_called, parent_with};
use lp_instr::instr::Instr;
use lp_tree::expr::{Bound, Expr};

/// The code of an expression, after what is there: its value is pushed. A clear expression is refused for want of memory or
/// room alone.
#[cycle(expr)]
pub fn gen_expr(e: &Expr, scope: &Scope, into: &mut Code) -> Result<(), GenFault>
    ensures { MatchResult result (λ _. Adds (layout_of scope.now.layout) (of_expr scope.now.locals.items e.now) (draft_of into.old) (draft_of into.new)) (Spares (IsExprClear (layout_of scope.now.layout) scope.now.locals.items e.now)) }
{
    match e {
        Expr::Int { value, .. } => {
            into.put(Instr::PushInt(*value))?;
            Ok(())
        }
        Expr::Text { text, .. } => {
            gen_text(text, into)?;
            Ok(())
        }
        Expr::Name { name, .. } => {
            gen_read(name, scope, into)?;
            Ok(())
        }
        Expr::Paren { inner, .. } => {
            gen_expr(inner, scope, into)?;
            Ok(())
        }
        Expr::Array { items, .. } => {
            gen_all(items, scope, into)?;
            let n = counted(items.len())?;
            into.put(Instr::MakeArray(n))?;
            Ok(())
        }
        Expr::Mapping { pairs, .. } => {
            gen_pairs(pairs, scope, into)?;
            let n = counted(pairs.len())?;
            into.put(Instr::MakeMap(n))?;
            Ok(())
        }
        Expr::Call { name, args, .. } => {
            gen_all(args, scope, into)?;
            gen_call(name, args.len(), &scope.layout, into)?;
            Ok(())
        }
        Expr::EfunCall { name, args, .. } => {
            gen_all(args, scope, into)?;
            gen_efun_call(name, args.len(), into)?;
            Ok(())
        }
        Expr::ParentCall { name, args, .. } => {
            gen_all(args, scope, into)?;
            gen_parent_call(
                parent_with(&scope.layout, name),
                name,
                args.len(),
                &scope.layout,
                into,
            )?;
            Ok(())
        }
        Expr::NamedParentCall {
            parent,
            name,
            args,
            ..
        } => {
            gen_all(args, scope, into)?;
            gen_parent_call(
                parent_called(&scope.layout, parent),
                name,
                args.len(),
                &scope.layout,
                into,
            )?;
            Ok(())
        }
        Expr::CallOther { of, name, args, .. } => {
            gen_expr(of, scope, into)?;
            gen_text(name, into)?;
            gen_all(args, scope, into)?;
            let n = counted(args.len())?;
            into.put(Instr::CallOther(n))?;
            Ok(())
        }
        Expr::Catch { inner, .. } => {
            let start = into.here()?;
            into.put(Instr::CatchBegin(0))?;
            gen_expr(inner, scope, into)?;
            into.put_all(&[Instr::Pop, Instr::CatchEnd, Instr::PushInt(0)])?;
            let end = into.here()?;
            into.fill(start, Instr::CatchBegin(end));
            Ok(())
        }
        Expr::Sscanf {
            text,
            form,
            places,
            ..
        } => {
            gen_expr(text, scope, into)?;
            gen_expr(form, scope, into)?;
            let n = counted(places.len())?;
            into.put(Instr::Scan(n))?;
            gen_scanned(places, scope, into)?;
            Ok(())
        }
        Expr::Index { of, edge, at, .. } => {
            gen_expr(of, scope, into)?;
            gen_expr(at, scope, into)?;
            into.put(Instr::Index(*edge))?;
            Ok(())
        }
        Expr::Range { of, from, to, .. } => {
            gen_expr(of, scope, into)?;
            gen_end(from, scope, into)?;
            gen_end(to, scope, into)?;
            into.put(Instr::Range(end_kind(from), end_kind(to)))?;
            Ok(())
        }
        Expr::PostStep { step, place, .. } => {
            gen_change(
                place,
                &[Instr::Dup, Instr::Step(*step)],
                &[Instr::Pop],
                &[
                    Instr::Dup,
                    Instr::Step(*step),
                    Instr::Rotate(4),
                    Instr::Rotate(4),
                    Instr::Rotate(3),
                ],
                &[Instr::Pop],
                scope,
                into,
            )?;
            Ok(())
        }
        Expr::PreStep { step, place, .. } => {
            gen_change(
                place,
                &[Instr::Step(*step)],
                &[],
                &[Instr::Step(*step)],
                &[],
                scope,
                into,
            )?;
            Ok(())
        }
        Expr::Unary { op, of, .. } => {
            gen_expr(of, scope, into)?;
            into.put(Instr::Unary(*op))?;
            Ok(())
        }
        Expr::Cast { of, .. } => {
            gen_expr(of, scope, into)?;
            Ok(())
        }
        Expr::Binary {
            op,
            left,
            right,
            ..
        } => {
            gen_expr(left, scope, into)?;
            gen_expr(right, scope, into)?;
            into.put(Instr::Binary(*op))?;
            Ok(())
        }
        Expr::AndThen { left, right, .. } => {
            gen_expr(left, scope, into)?;
            gen_right(right, true, scope, into)?;
            Ok(())
        }
        Expr::OrElse { left, right, .. } => {
            gen_expr(left, scope, into)?;
            gen_right(right, false, scope, into)?;
            Ok(())
        }
        Expr::Cond { test, yes, no, .. } => {
            gen_expr(test, scope, into)?;
            let jump = into.here()?;
            into.put(Instr::JumpIfZero(0))?;
            gen_expr(yes, scope, into)?;
            let over = into.here()?;
            into.put(Instr::Jump(0))?;
            let other = into.here()?;
            into.fill(jump, Instr::JumpIfZero(other));
            gen_expr(no, scope, into)?;
            let end = into.here()?;
            into.fill(over, Instr::Jump(end));
            Ok(())
        }
        Expr::Assign {
            op,
            place,
            value,
            ..
        } => match assign_kind(*op) {
            AssignKind::Set => {
                gen_expr(value, scope, into)?;
                gen_write(place, scope, into)?;
                Ok(())
            }
            AssignKind::Logic(is_and) => {
                gen_open(place, scope, into)?;
                gen_right(value, is_and, scope, into)?;
                gen_close(place, scope, into)?;
                Ok(())
            }
            AssignKind::Compound(bin) => {
                gen_expr(value, scope, into)?;
                gen_change(
                    place,
                    &[Instr::Rotate(2), Instr::Binary(bin)],
                    &[],
                    &[Instr::Rotate(4), Instr::Binary(bin)],
                    &[],
                    scope,
                    into,
                )?;
                Ok(())
            }
        },
        Expr::Sequence { parts, .. } => {
            gen_parts(parts, scope, into)?;
            if parts.is_empty() {
                return Err(GenFault::Unclear);
            }
            Ok(())
        }
    }
}

/// The code of each of some expressions, one after another.
#[cycle(expr)]
fn gen_all(all: &Vec<Expr>, scope: &Scope, into: &mut Code) -> Result<(), GenFault>
    ensures { MatchResult result (λ _. Adds (layout_of scope.now.layout) (of_all scope.now.locals.items all.now.items) (draft_of into.old) (draft_of into.new)) (Spares (AreAllClear (layout_of scope.now.layout) scope.now.locals.items all.now.items)) }
{
    for e in all {
        gen_expr(e, scope, into)?;
    }
    Ok(())
}

/// The code of each of some pairs, one after another: the key and then the value.
#[cycle(expr)]
fn gen_pairs(pairs: &Vec<(Expr, Expr)>, scope: &Scope, into: &mut Code) -> Result<(), GenFault>
    ensures { MatchResult result (λ _. Adds (layout_of scope.now.layout) (of_pairs scope.now.locals.items pairs.now.items) (draft_of into.old) (draft_of into.new)) (Spares (AreEachPairClear (layout_of scope.now.layout) scope.now.locals.items pairs.now.items)) }
{
    for pair in pairs {
        gen_expr(&pair.0, scope, into)?;
        gen_expr(&pair.1, scope, into)?;
    }
    Ok(())
}

/// The code of the parts of a sequence: the value of each but the last is dropped.
#[cycle(expr)]
fn gen_parts(parts: &Vec<Expr>, scope: &Scope, into: &mut Code) -> Result<(), GenFault>
    ensures { MatchResult result (λ _. Adds (layout_of scope.now.layout) (of_parts scope.now.locals.items parts.now.items) (draft_of into.old) (draft_of into.new)) (Spares (AreAllClear (layout_of scope.now.layout) scope.now.locals.items parts.now.items)) }
{
    for (i, part) in parts.iter().enumerate() {
        gen_part(part, i == 0, scope, into)?;
    }
    Ok(())
}

/// The code of a part of a sequence, after that of the part before, whose value is dropped.
#[cycle(expr)]
fn gen_part(part: &Expr, is_first: bool, scope: &Scope, into: &mut Code) -> Result<(), GenFault>
    ensures { MatchResult result (λ _. Adds (layout_of scope.now.layout) (of_part scope.now.locals.items is_first part.now) (draft_of into.old) (draft_of into.new)) (Spares (IsExprClear (layout_of scope.now.layout) scope.now.locals.items part.now)) }
{
    if is_first {
        gen_expr(part, scope, into)?;
        Ok(())
    } else {
        into.put(Instr::Pop)?;
        gen_expr(part, scope, into)?;
        Ok(())
    }
}

/// Code that writes what is on top to a place, and leaves it there.
#[cycle(expr)]
fn gen_write(place: &Expr, scope: &Scope, into: &mut Code) -> Result<(), GenFault>
    ensures { MatchResult result (λ _. Adds (layout_of scope.now.layout) (of_write scope.now.locals.items place.now) (draft_of into.old) (draft_of into.new)) (Spares (IsPlaceClear (layout_of scope.now.layout) scope.now.locals.items place.now)) }
{
    match place {
        Expr::Name { name, .. } => {
            gen_write_slot(name, scope, into)?;
            Ok(())
        }
        Expr::Index { of, edge, at, .. } => {
            gen_expr(of, scope, into)?;
            gen_expr(at, scope, into)?;
            into.put_all(&[Instr::Rotate(3), Instr::SetIndex(*edge)])?;
            Ok(())
        }
        _ => Err(GenFault::Unclear),
    }
}

/// Code that reads a place; the container and the index of an item stay below.
#[cycle(expr)]
fn gen_open(place: &Expr, scope: &Scope, into: &mut Code) -> Result<(), GenFault>
    ensures { MatchResult result (λ _. Adds (layout_of scope.now.layout) (of_open scope.now.locals.items place.now) (draft_of into.old) (draft_of into.new)) (Spares (IsPlaceClear (layout_of scope.now.layout) scope.now.locals.items place.now)) }
{
    match place {
        Expr::Name { name, .. } => {
            gen_read(name, scope, into)?;
            Ok(())
        }
        Expr::Index { of, edge, at, .. } => {
            gen_expr(of, scope, into)?;
            gen_expr(at, scope, into)?;
            into.put_all(&[Instr::Dup2, Instr::Index(*edge)])?;
            Ok(())
        }
        _ => Err(GenFault::Unclear),
    }
}

/// Code that reads a place, changes it, and writes it: by some instructions for a variable, and by others for an item.
#[cycle(expr)]
fn gen_change(
    place: &Expr,
    alters: &[Instr],
    ends: &[Instr],
    alters_item: &[Instr],
    ends_item: &[Instr],
    scope: &Scope,
    into: &mut Code,
) -> Result<(), GenFault>
    ensures { MatchResult result (λ _. Adds (layout_of scope.now.layout) (of_change scope.now.locals.items place.now alters.now ends.now alters_item.now ends_item.now) (draft_of into.old) (draft_of into.new)) (Spares (IsPlaceClear (layout_of scope.now.layout) scope.now.locals.items place.now)) }
{
    match place {
        Expr::Name { name, .. } => {
            gen_read(name, scope, into)?;
            into.put_all(alters)?;
            gen_write_slot(name, scope, into)?;
            into.put_all(ends)?;
            Ok(())
        }
        Expr::Index { of, edge, at, .. } => {
            gen_expr(of, scope, into)?;
            gen_expr(at, scope, into)?;
            into.put_all(&[Instr::Dup2, Instr::Index(*edge)])?;
            into.put_all(alters_item)?;
            into.put(Instr::SetIndex(*edge))?;
            into.put_all(ends_item)?;
            Ok(())
        }
        _ => Err(GenFault::Unclear),
    }
}

/// The right side of `&&` or `||`, where it is needed.
#[cycle(expr)]
fn gen_right(right: &Expr, is_and: bool, scope: &Scope, into: &mut Code) -> Result<(), GenFault>
    ensures { MatchResult result (λ _. Adds (layout_of scope.now.layout) (of_right scope.now.locals.items right.now is_and) (draft_of into.old) (draft_of into.new)) (Spares (IsExprClear (layout_of scope.now.layout) scope.now.locals.items right.now)) }
{
    let jump = into.here()?;
    into.put(keep(is_and, 0))?;
    gen_expr(right, scope, into)?;
    let end = into.here()?;
    into.fill(jump, keep(is_and, end));
    Ok(())
}

/// The code of an end of a range, where it is given.
#[cycle(expr)]
fn gen_end(end: &Bound<Box<Expr>>, scope: &Scope, into: &mut Code) -> Result<(), GenFault>
    ensures { MatchResult result (λ _. Adds (layout_of scope.now.layout) (of_end scope.now.locals.items end.now) (draft_of into.old) (draft_of into.new)) (Spares (IsBoundClear (layout_of scope.now.layout) scope.now.locals.items end.now)) }
{
    match end {
        Bound::Open => Ok(()),
        Bound::At(_, at) => {
            gen_expr(at, scope, into)?;
            Ok(())
        }
    }
}

/// Code that writes what a scan left to a place, where it is assigned.
#[cycle(expr)]
fn gen_scanned_one(place: &Expr, scope: &Scope, into: &mut Code) -> Result<(), GenFault>
    ensures { MatchResult result (λ _. Adds (layout_of scope.now.layout) (of_scanned_one scope.now.locals.items place.now) (draft_of into.old) (draft_of into.new)) (Spares (IsPlaceClear (layout_of scope.now.layout) scope.now.locals.items place.now)) }
{
    let jump = into.here()?;
    into.put(Instr::JumpIfZero(0))?;
    gen_write(place, scope, into)?;
    let end = into.here()?;
    into.fill(jump, Instr::JumpIfZero(end));
    into.put(Instr::Pop)?;
    Ok(())
}

/// Code that writes what a scan left to places.
#[cycle(expr)]
fn gen_scanned(places: &Vec<Expr>, scope: &Scope, into: &mut Code) -> Result<(), GenFault>
    ensures { MatchResult result (λ _. Adds (layout_of scope.now.layout) (of_scanned scope.now.locals.items places.now.items) (draft_of into.old) (draft_of into.new)) (Spares (ArePlacesClear (layout_of scope.now.layout) scope.now.locals.items places.now.items)) }
{
    for place in places {
        gen_scanned_one(place, scope, into)?;
    }
    Ok(())
}

//! Productions with all their parts.
ghost use Rattle.std.specs.Prelude.{◌≡◌, ◌++◌, ◌∷◌, [], IfOk, map, option_map};
ghost use Rattle.lp_tree.specs.Trees.{height as levels, Array, Assign, Cast, Catch, Cond, Index, Mapping, Paren, PostStep, Range, Sequence, Sscanf, Unary, trees, pairs as all_pairs, line_of};
ghost use Rattle.lp_tree.specs.TreeView.{tree_of};
ghost use Rattle.lp_parser_expr.specs.Capped.{capped, pair_of, end_of};
ghost use Rattle.lp_parser_expr.specs.Machine.{called, plug as plugged, infix_tree, Stepping};
ghost use Rattle.lp_parser_expr.specs.View.{callee_of, frame_of, tree_in};

use crate::frame::{Callee, Frame};
use crate::infix::Infix;
use crate::tall::{Tall, TallEnd, TallPairs, Talls, deeper};
use lp_tree::chars::Chars;
use lp_tree::expr::{Edge, Expr};
use lp_tree::operator::{AssignOp, Step, UnOp};
use lp_tree::types::TypeName;
use std::alloc::{AllocError, Global};

/// An expression of this many levels, in a block of its own.
pub fn boxed(alloc: Global, expr: Expr, height: u32) -> Result<Tall, AllocError>
    requires { height ≡ capped (levels (tree_of expr)) }
    ensures { IfOk result (λ t. tree_of t.expr.value ≡ tree_of expr) }
{
    let expr = Box::new(alloc, expr)?;
    Ok(Tall { expr, height })
}

/// An expression of one level.
pub fn leaf(alloc: Global, expr: Expr) -> Result<Tall, AllocError>
    requires { levels (tree_of expr) ≡ 1 }
    ensures { IfOk result (λ t. tree_of t.expr.value ≡ tree_of expr) }
{
    boxed(alloc, expr, 1)
}

/// `(inner)`
pub fn paren(alloc: Global, line: u32, inner: Tall) -> Result<Tall, AllocError>
    ensures { IfOk result (λ t. tree_of t.expr.value ≡ Paren line (tree_of inner.expr.value)) }
{
    let height = deeper(inner.height);
    let inner = inner.expr;
    boxed(alloc, Expr::Paren { line, inner }, height)
}

/// `catch(inner)`
pub fn catch(alloc: Global, line: u32, inner: Tall) -> Result<Tall, AllocError>
    ensures { IfOk result (λ t. tree_of t.expr.value ≡ Catch line (tree_of inner.expr.value)) }
{
    let height = deeper(inner.height);
    let inner = inner.expr;
    boxed(alloc, Expr::Catch { line, inner }, height)
}

/// `({ items })`
#[tactic(auto, using(crate::proofs::Nodes::array_height))]
pub fn array(alloc: Global, line: u32, items: Talls) -> Result<Tall, AllocError>
    ensures { IfOk result (λ t. tree_of t.expr.value ≡ Array line (trees (map tree_of items.items.items))) }
{
    let height = deeper(items.tallest);
    boxed(
        alloc,
        Expr::Array {
            line,
            items: items.items,
        },
        height,
    )
}

/// `([ pairs ])`
#[tactic(auto, using(crate::proofs::Nodes::mapping_height))]
pub fn mapping(alloc: Global, line: u32, pairs: TallPairs) -> Result<Tall, AllocError>
    ensures { IfOk result (λ t. tree_of t.expr.value ≡ Mapping line (all_pairs (map pair_of pairs.pairs.items))) }
{
    let height = deeper(pairs.tallest);
    boxed(
        alloc,
        Expr::Mapping {
            line,
            pairs: pairs.pairs,
        },
        height,
    )
}

/// The call of a function of this name.
#[tactic(auto, using(crate::proofs::Nodes::call_height, crate::proofs::Nodes::efun_height, crate::proofs::Nodes::parent_height, crate::proofs::Nodes::named_height, crate::proofs::Nodes::other_height))]
pub fn call(alloc: Global, callee: Callee, name: Chars, args: Talls) -> Result<Tall, AllocError>
    ensures { IfOk result (λ t. tree_of t.expr.value ≡ called (callee_of callee) name (trees (map tree_of args.items.items))) }
{
    let height = deeper(args.tallest);
    let args = args.items;
    match callee {
        Callee::Function(line) => boxed(alloc, Expr::Call { line, name, args }, height),
        Callee::Efun(line) => boxed(alloc, Expr::EfunCall { line, name, args }, height),
        Callee::Parent(line) => boxed(alloc, Expr::ParentCall { line, name, args }, height),
        Callee::NamedParent(line, parent) => boxed(
            alloc,
            Expr::NamedParentCall {
                line,
                parent,
                name,
                args,
            },
            height,
        ),
        Callee::Other(of) => {
            let line = of.expr.line();
            let height = height.max(deeper(of.height));
            let of = of.expr;
            boxed(
                alloc,
                Expr::CallOther {
                    line,
                    of,
                    name,
                    args,
                },
                height,
            )
        }
    }
}

/// `sscanf(text, form, places)`
#[tactic(auto, using(crate::proofs::Nodes::scan_height))]
pub fn sscanf(
    alloc: Global,
    line: u32,
    text: Tall,
    form: Tall,
    places: Talls,
) -> Result<Tall, AllocError>
    ensures { IfOk result (λ t. tree_of t.expr.value ≡ Sscanf line (tree_of text.expr.value) (tree_of form.expr.value) (trees (map tree_of places.items.items))) }
{
    let height = deeper(text.height.max(form.height.max(places.tallest)));
    let text = text.expr;
    let form = form.expr;
    boxed(
        alloc,
        Expr::Sscanf {
            line,
            text,
            form,
            places: places.items,
        },
        height,
    )
}

/// `of[at]`
pub fn index(alloc: Global, of: Tall, edge: Edge, at: Tall) -> Result<Tall, AllocError>
    ensures { IfOk result (λ t. tree_of t.expr.value ≡ Index (line_of (tree_of of.expr.value)) (tree_of of.expr.value) edge (tree_of at.expr.value)) }
{
    let line = of.expr.line();
    let height = deeper(of.height.max(at.height));
    let of = of.expr;
    let at = at.expr;
    boxed(alloc, Expr::Index { line, of, edge, at }, height)
}

/// `of[from .. to]`
#[tactic(auto, using(crate::proofs::Nodes::range_height, crate::proofs::Nodes::range_tree))]
pub fn range(alloc: Global, of: Tall, from: TallEnd, to: TallEnd) -> Result<Tall, AllocError>
    ensures { IfOk result (λ t. tree_of t.expr.value ≡ Range (line_of (tree_of of.expr.value)) (tree_of of.expr.value) (end_of from.bound) (end_of to.bound)) }
{
    let line = of.expr.line();
    let height = deeper(of.height.max(from.height.max(to.height)));
    let of = of.expr;
    boxed(
        alloc,
        Expr::Range {
            line,
            of,
            from: from.bound,
            to: to.bound,
        },
        height,
    )
}

/// `place++`
pub fn post_step(alloc: Global, step: Step, place: Tall) -> Result<Tall, AllocError>
    ensures { IfOk result (λ t. tree_of t.expr.value ≡ PostStep (line_of (tree_of place.expr.value)) step (tree_of place.expr.value)) }
{
    let line = place.expr.line();
    let height = deeper(place.height);
    let place = place.expr;
    boxed(alloc, Expr::PostStep { line, step, place }, height)
}

// An operator with both its operands.
fn infix(alloc: Global, op: Infix, left: Tall, right: Tall) -> Result<Tall, AllocError>
    ensures { IfOk result (λ t. tree_of t.expr.value ≡ infix_tree op (tree_of left.expr.value) (tree_of right.expr.value)) }
{
    let line = left.expr.line();
    let height = deeper(left.height.max(right.height));
    let left = left.expr;
    let right = right.expr;
    match op {
        Infix::Plain(op) => boxed(
            alloc,
            Expr::Binary {
                line,
                op,
                left,
                right,
            },
            height,
        ),
        Infix::And => boxed(alloc, Expr::AndThen { line, left, right }, height),
        Infix::Or => boxed(alloc, Expr::OrElse { line, left, right }, height),
    }
}

// A prefix operator with its operand.
fn unary(alloc: Global, line: u32, op: UnOp, of: Tall) -> Result<Tall, AllocError>
    ensures { IfOk result (λ t. tree_of t.expr.value ≡ Unary line op (tree_of of.expr.value)) }
{
    let height = deeper(of.height);
    let of = of.expr;
    boxed(alloc, Expr::Unary { line, op, of }, height)
}

// A cast with its operand.
fn cast(alloc: Global, line: u32, to: TypeName, of: Tall) -> Result<Tall, AllocError>
    ensures { IfOk result (λ t. tree_of t.expr.value ≡ Cast line to (tree_of of.expr.value)) }
{
    let height = deeper(of.height);
    let of = of.expr;
    boxed(alloc, Expr::Cast { line, to, of }, height)
}

// `++place`, where it is a place.
fn pre_step(alloc: Global, line: u32, step: Step, place: Tall) -> Result<Option<Tall>, AllocError>
    ensures { IfOk result (λ t. tree_in t ≡ plugged (Stepping line step) (tree_of place.expr.value)) }
{
    if !place.expr.is_place() {
        return Ok(None);
    }
    let height = deeper(place.height);
    let place = place.expr;
    Ok(Some(boxed(alloc, Expr::PreStep { line, step, place }, height)?))
}

// `test ? yes : no`
fn cond(alloc: Global, test: Tall, yes: Tall, no: Tall) -> Result<Tall, AllocError>
    ensures { IfOk result (λ t. tree_of t.expr.value ≡ Cond (line_of (tree_of test.expr.value)) (tree_of test.expr.value) (tree_of yes.expr.value) (tree_of no.expr.value)) }
{
    let line = test.expr.line();
    let height = deeper(test.height.max(yes.height.max(no.height)));
    let test = test.expr;
    let yes = yes.expr;
    let no = no.expr;
    boxed(
        alloc,
        Expr::Cond {
            line,
            test,
            yes,
            no,
        },
        height,
    )
}

// `place = value`
fn assign(alloc: Global, op: AssignOp, place: Tall, value: Tall) -> Result<Tall, AllocError>
    ensures { IfOk result (λ t. tree_of t.expr.value ≡ Assign (line_of (tree_of place.expr.value)) op (tree_of place.expr.value) (tree_of value.expr.value)) }
{
    let line = place.expr.line();
    let height = deeper(place.height.max(value.height));
    let place = place.expr;
    let value = value.expr;
    boxed(
        alloc,
        Expr::Assign {
            line,
            op,
            place,
            value,
        },
        height,
    )
}

// `part, part, last`
#[tactic(auto, using(crate::proofs::Nodes::sequence_height))]
fn sequence(alloc: Global, line: u32, parts: Talls) -> Result<Tall, AllocError>
    ensures { IfOk result (λ t. tree_of t.expr.value ≡ Sequence line (trees (map tree_of parts.items.items))) }
{
    let height = deeper(parts.tallest);
    boxed(
        alloc,
        Expr::Sequence {
            line,
            parts: parts.items,
        },
        height,
    )
}

/// The production with its last part, where that part may stand there.
pub fn plug(alloc: Global, frame: Frame, tree: Tall) -> Result<Option<Tall>, AllocError>
    ensures { IfOk result (λ t. tree_in t ≡ plugged (frame_of frame) (tree_of tree.expr.value)) }
{
    match frame {
        Frame::Stepping(line, step) => pre_step(alloc, line, step, tree),
        Frame::UnaryOf(line, op) => Ok(Some(unary(alloc, line, op, tree)?)),
        Frame::Casting(line, to) => Ok(Some(cast(alloc, line, to, tree)?)),
        Frame::LeftOf(op, left) => Ok(Some(infix(alloc, op, left, tree)?)),
        Frame::Choosing(test, yes) => Ok(Some(cond(alloc, test, yes, tree)?)),
        Frame::Assigning(op, place) => Ok(Some(assign(alloc, op, place, tree)?)),
        Frame::InSequence(line, done) => Ok(Some(sequence(alloc, line, done.with(tree)?)?)),
        _other => Ok(None),
    }
}

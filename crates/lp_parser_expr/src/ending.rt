//! How productions end.
ghost use Rattle.std.specs.Prelude.{◌≡◌, ◌∷◌, IfOk, Some, None, if◌then◌else◌};
ghost use Rattle.lp_tree.specs.Trees.{Tree};
ghost use Rattle.lp_tree.specs.TreeView.{tree_of};
ghost use Rattle.lp_parser_expr.specs.Machine.{Alone, Have, finished, whole as whole_on};
ghost use Rattle.lp_parser_expr.specs.Moves.{Settled, state_of};
ghost use Rattle.lp_parser_expr.specs.StackView.{stack_of};
ghost use Rattle.lp_parser_expr.specs.View.{tree_in};

use crate::build::plug;
use crate::focus::Focus;
use crate::frame::Frame;
use crate::stack::Stack;
use crate::tall::Tall;
use std::alloc::{AllocError, Global};

/// Ends the productions that a token of this level ends. None where one of them cannot end with its last part.
#[tactic(auto, using(crate::proofs::Settles::settle_stops, crate::proofs::Settles::settle_goes, crate::proofs::Settles::settle_fails))]
pub fn settle(
    alloc: Global,
    stack: &mut Stack,
    tree: Tall,
    level: u8,
) -> Result<Option<Tall>, AllocError>
    ensures { IfOk result (λ o. Settled level (tree_of tree.expr.value) (stack_of stack.old) (stack_of stack.new) o) }
{
    let mut tree = tree;
    while let Some(frame) = stack.pop() {
        if frame.needs() <= level {
            stack.push(frame)?;
            return Ok(Some(tree));
        }
        match plug(alloc, frame, tree)? {
            Some(whole) => tree = whole,
            None => return Ok(None),
        }
    }
    Ok(Some(tree))
}

// Whether nothing is open round an operand.
fn is_over(stack: &mut Stack) -> bool
    ensures { (t : Tree) → whole_on t (stack_of stack.old) ≡ (if result then Some t else None) }
{
    match stack.pop() {
        None => true,
        Some(Frame::Alone) => is_bare(stack),
        other => {
            drop(other);
            false
        }
    }
}

// Whether no production is open.
fn is_bare(stack: &mut Stack) -> bool
    ensures { (t : Tree) → whole_on t (Alone ∷ stack_of stack.old) ≡ (if result then Some t else None) }
{
    match stack.pop() {
        None => true,
        Some(frame) => {
            drop(frame);
            false
        }
    }
}

/// The expression that ends behind this operand, where it is whole there.
pub fn finish_tree(alloc: Global, stack: &mut Stack, tree: Tall) -> Result<Option<Tall>, AllocError>
    ensures { IfOk result (λ o. tree_in o ≡ finished (Have (tree_of tree.expr.value) (stack_of stack.old))) }
{
    match settle(alloc, stack, tree, 0)? {
        None => Ok(None),
        Some(whole) => {
            if is_over(stack) {
                return Ok(Some(whole));
            }
            Ok(None)
        }
    }
}

/// The expression that was read, where it is whole.
pub fn finish(alloc: Global, stack: &mut Stack, focus: Focus) -> Result<Option<Tall>, AllocError>
    ensures { IfOk result (λ o. tree_in o ≡ finished (state_of focus (stack_of stack.old))) }
{
    match focus {
        Focus::Have(tree) => finish_tree(alloc, stack, tree),
        _other => Ok(None),
    }
}

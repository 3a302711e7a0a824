//! Tokens behind an operand.
ghost use Rattle.std.specs.Prelude.{◌≡◌, ◌∷◌, ◌++◌, [], IfOk, OnOk, Ok, Some, map, codes, bytes_eq};
ghost use Rattle.lp_tree.specs.TreeView.{tree_of};
ghost use Rattle.lp_parser_expr.specs.Machine.{act as acted, act_mark as mark_acted, after_colon as colon_acted, after_comma as comma_acted, after_dots as dots_acted, assigned as assign_acted, begun_sequence as sequence_begun, closed as paren_closed, ended_brace as brace_ended, ended_bracket as bracket_ended, infixed as infix_acted, next_place as place_read, opened as paren_opened, scanned as scan_ended, scoped as scope_acted, stepped as step_acted, tested as test_acted, InArgs, InRange, ScanPlaces, Stack as Frames};
ghost use Rattle.lp_parser_expr.specs.Moves.{Acts, OpensTo, comma_scanned, restored};
ghost use Rattle.lp_parser_expr.specs.Capped.{end_of};
ghost use Rattle.lp_parser_expr.specs.View.{callee_of, frame_of};
ghost use Rattle.lp_tree.specs.Trees.{Range, At, line_of};
ghost use Rattle.lp_tree.specs.declared.expr.Edge.TheVariants.{Front};
ghost use Rattle.lp_tree.specs.declared.token.Mark.TheVariants.{OpenBracket};
ghost use Rattle.lp_parser_expr.specs.StackView.{stack_of};

use crate::build::{array, boxed, call, catch, index, mapping, paren, post_step, range, sscanf};
use crate::focus::{Acted, Focus};
use crate::frame::{Callee, Frame, level_of};
use crate::infix::Infix;
use crate::stack::Stack;
use crate::tall::{Tall, TallEnd, Talls};
use lp_tree::chars::Chars;
use lp_tree::expr::{Edge, Expr};
use lp_tree::operator::{AssignOp, Step};
use lp_tree::seen::Sort;
use lp_tree::token::Mark;
use std::alloc::{AllocError, Global};

// Puts back what was taken from the stack.
fn restore(stack: &mut Stack, popped: Option<Frame>, tree: Tall) -> Result<Tall, AllocError>
    ensures stack { OnOk result (stack_of stack.new ≡ restored popped (stack_of stack.old)) }
    ensures tree { IfOk result (λ u. u ≡ tree) }
{
    match popped {
        None => Ok(tree),
        Some(frame) => {
            stack.push(frame)?;
            Ok(tree)
        }
    }
}

// An operator, where what it makes may stand.
fn infixed(stack: &mut Stack, op: Infix, tree: Tall) -> Result<Acted, AllocError>
    ensures { Acts (infix_acted op (tree_of tree.expr.value) (stack_of stack.old)) (tree_of tree.expr.value) (stack_of stack.old) (stack_of stack.new) result }
{
    if stack.wants() > level_of(op) {
        return Ok(Acted::Refuses(tree));
    }
    stack.push(Frame::LeftOf(op, tree))?;
    Ok(Acted::Goes(Focus::Need))
}

// `?`
fn tested(stack: &mut Stack, tree: Tall) -> Result<Acted, AllocError>
    ensures { Acts (test_acted (tree_of tree.expr.value) (stack_of stack.old)) (tree_of tree.expr.value) (stack_of stack.old) (stack_of stack.new) result }
{
    if stack.wants() > 3 {
        return Ok(Acted::Refuses(tree));
    }
    stack.push(Frame::Testing(tree))?;
    Ok(Acted::Goes(Focus::Need))
}

// An assignment to a place.
fn assigned(stack: &mut Stack, op: AssignOp, tree: Tall) -> Result<Acted, AllocError>
    ensures { Acts (assign_acted op (tree_of tree.expr.value) (stack_of stack.old)) (tree_of tree.expr.value) (stack_of stack.old) (stack_of stack.new) result }
{
    if !tree.expr.is_place() {
        return Ok(Acted::Refuses(tree));
    }
    if stack.wants() > 2 {
        return Ok(Acted::Refuses(tree));
    }
    stack.push(Frame::Assigning(op, tree))?;
    Ok(Acted::Goes(Focus::Need))
}

// `++` or `--` behind a place.
fn stepped(alloc: Global, step: Step, tree: Tall) -> Result<Acted, AllocError>
    ensures { (s : Frames) → Acts (step_acted step (tree_of tree.expr.value) s) (tree_of tree.expr.value) s s result }
{
    if !tree.expr.is_place() {
        return Ok(Acted::Refuses(tree));
    }
    Ok(Acted::Goes(Focus::Have(post_step(alloc, step, tree)?)))
}

// A parenthesis behind a name.
fn opened(alloc: Global, stack: &mut Stack, tree: Tall) -> Result<Acted, AllocError>
    ensures { Acts (paren_opened (tree_of tree.expr.value) (stack_of stack.old)) (tree_of tree.expr.value) (stack_of stack.old) (stack_of stack.new) result }
{
    let Tall { expr, height } = tree;
    match Box::into_inner(expr) {
        Expr::Name { line, name } => {
            stack.push(Frame::InArgs(Callee::Function(line), name, Talls::new(alloc)))?;
            Ok(Acted::Goes(Focus::Need))
        }
        other => Ok(Acted::Refuses(boxed(alloc, other, height)?)),
    }
}

// Whether a name is the one before the names of efuns.
fn is_efun(name: &Chars) -> bool
    ensures { result ≡ bytes_eq name.now (codes "efun") }
{
    name.as_slice() == ['e', 'f', 'u', 'n'].as_slice()
}

// `::` behind `efun` or behind a text.
fn scoped(alloc: Global, tree: Tall) -> Result<Acted, AllocError>
    ensures { (s : Frames) → Acts (scope_acted (tree_of tree.expr.value) s) (tree_of tree.expr.value) s s result }
{
    let Tall { expr, height } = tree;
    match Box::into_inner(expr) {
        Expr::Name { line, name } => {
            if is_efun(&name) {
                return Ok(Acted::Goes(Focus::NeedName(Callee::Efun(line))));
            }
            Ok(Acted::Refuses(boxed(alloc, Expr::Name { line, name }, height)?))
        }
        Expr::Text { line, text } => Ok(Acted::Goes(Focus::NeedName(Callee::NamedParent(
            line, text,
        )))),
        other => Ok(Acted::Refuses(boxed(alloc, other, height)?)),
    }
}

// The end of a scan behind a place.
fn end_scan(
    alloc: Global,
    stack: &mut Stack,
    line: u32,
    text: Tall,
    form: Tall,
    done: Talls,
    place: Tall,
) -> Result<Acted, AllocError>
    ensures { Acts (scan_ended line (tree_of text.expr.value) (tree_of form.expr.value) (map tree_of done.items.items) (tree_of place.expr.value) (stack_of stack.old)) (tree_of place.expr.value) (ScanPlaces line (tree_of text.expr.value) (tree_of form.expr.value) (map tree_of done.items.items) ∷ stack_of stack.old) (stack_of stack.new) result }
{
    if place.expr.is_place() {
        let places = done.with(place)?;
        return Ok(Acted::Goes(Focus::Have(sscanf(alloc, line, text, form, places)?)));
    }
    Ok(Acted::Refuses(restore(
        stack,
        Some(Frame::ScanPlaces(line, text, form, done)),
        place,
    )?))
}

// A comma behind a place of a scan.
fn next_place(
    stack: &mut Stack,
    line: u32,
    text: Tall,
    form: Tall,
    done: Talls,
    place: Tall,
) -> Result<Acted, AllocError>
    ensures { Acts (place_read line (tree_of text.expr.value) (tree_of form.expr.value) (map tree_of done.items.items) (tree_of place.expr.value) (stack_of stack.old)) (tree_of place.expr.value) (ScanPlaces line (tree_of text.expr.value) (tree_of form.expr.value) (map tree_of done.items.items) ∷ stack_of stack.old) (stack_of stack.new) result }
{
    if place.expr.is_place() {
        let places = done.with(place)?;
        stack.push(Frame::ScanPlaces(line, text, form, places))?;
        return Ok(Acted::Goes(Focus::Need));
    }
    Ok(Acted::Refuses(restore(
        stack,
        Some(Frame::ScanPlaces(line, text, form, done)),
        place,
    )?))
}

// `)` behind an operand.
fn closed(alloc: Global, stack: &mut Stack, tree: Tall) -> Result<Acted, AllocError>
    ensures { Acts (paren_closed (tree_of tree.expr.value) (stack_of stack.old)) (tree_of tree.expr.value) (stack_of stack.old) (stack_of stack.new) result }
{
    match stack.pop() {
        Some(Frame::InParen(line)) => Ok(Acted::Goes(Focus::Have(paren(alloc, line, tree)?))),
        Some(Frame::InArgs(callee, name, done)) => {
            let args = done.with(tree)?;
            Ok(Acted::Goes(Focus::Have(call(alloc, callee, name, args)?)))
        }
        Some(Frame::InCatch(line)) => Ok(Acted::Goes(Focus::Have(catch(alloc, line, tree)?))),
        Some(Frame::ScanForm(line, text)) => Ok(Acted::Goes(Focus::Have(sscanf(
            alloc,
            line,
            text,
            tree,
            Talls::new(alloc),
        )?))),
        Some(Frame::ScanPlaces(line, text, form, done)) => end_scan(
            alloc, stack, line, text, form, done, tree,
        ),
        other => Ok(Acted::Refuses(restore(stack, other, tree)?)),
    }
}

// `}` behind an operand.
fn ended_brace(alloc: Global, stack: &mut Stack, tree: Tall) -> Result<Acted, AllocError>
    ensures { Acts (brace_ended (tree_of tree.expr.value) (stack_of stack.old)) (tree_of tree.expr.value) (stack_of stack.old) (stack_of stack.new) result }
{
    match stack.pop() {
        Some(Frame::InArray(line, done)) => Ok(Acted::Goes(Focus::EndLiteral(array(
            alloc,
            line,
            done.with(tree)?,
        )?))),
        other => Ok(Acted::Refuses(restore(stack, other, tree)?)),
    }
}

// `]` behind an operand.
fn ended_bracket(alloc: Global, stack: &mut Stack, tree: Tall) -> Result<Acted, AllocError>
    ensures { Acts (bracket_ended (tree_of tree.expr.value) (stack_of stack.old)) (tree_of tree.expr.value) (stack_of stack.old) (stack_of stack.new) result }
{
    match stack.pop() {
        Some(Frame::AtValue(line, done, key)) => Ok(Acted::Goes(Focus::EndLiteral(mapping(
            alloc,
            line,
            done.with(key, tree)?,
        )?))),
        Some(Frame::InIndex(of, edge)) => Ok(Acted::Goes(Focus::Have(index(
            alloc, of, edge, tree,
        )?))),
        Some(Frame::InRange(of, from, edge)) => Ok(Acted::Goes(Focus::Have(end_range(
            alloc, of, from, edge, tree,
        )?))),
        other => Ok(Acted::Refuses(restore(stack, other, tree)?)),
    }
}

// `..` behind an operand.
fn after_dots(alloc: Global, stack: &mut Stack, tree: Tall) -> Result<Acted, AllocError>
    ensures { Acts (dots_acted (tree_of tree.expr.value) (stack_of stack.old)) (tree_of tree.expr.value) (stack_of stack.old) (stack_of stack.new) result }
{
    match stack.pop() {
        Some(Frame::InIndex(of, edge)) => begin_end(alloc, stack, of, edge, tree),
        other => Ok(Acted::Refuses(restore(stack, other, tree)?)),
    }
}

// `:` behind an operand.
fn after_colon(stack: &mut Stack, tree: Tall) -> Result<Acted, AllocError>
    ensures { Acts (colon_acted (tree_of tree.expr.value) (stack_of stack.old)) (tree_of tree.expr.value) (stack_of stack.old) (stack_of stack.new) result }
{
    match stack.pop() {
        Some(Frame::Testing(test)) => {
            stack.push(Frame::Choosing(test, tree))?;
            Ok(Acted::Goes(Focus::Need))
        }
        Some(Frame::AtKey(line, done)) => {
            stack.push(Frame::AtValue(line, done, tree))?;
            Ok(Acted::Goes(Focus::Need))
        }
        other => Ok(Acted::Refuses(restore(stack, other, tree)?)),
    }
}

// A comma where a sequence may begin.
fn begin_sequence(alloc: Global, stack: &mut Stack, tree: Tall) -> Result<Acted, AllocError>
    ensures { Acts (sequence_begun (tree_of tree.expr.value) (stack_of stack.old)) (tree_of tree.expr.value) (stack_of stack.old) (stack_of stack.new) result }
{
    if stack.wants() > 0 {
        return Ok(Acted::Refuses(tree));
    }
    let line = tree.expr.line();
    let done = Talls::new(alloc).with(tree)?;
    stack.push(Frame::InSequence(line, done))?;
    Ok(Acted::Goes(Focus::Need))
}

// A comma behind the first part of a scan, or its second, or a place.
fn comma_in_scan(alloc: Global, stack: &mut Stack, tree: Tall) -> Result<Acted, AllocError>
    ensures { Acts (comma_scanned (tree_of tree.expr.value) (stack_of stack.old)) (tree_of tree.expr.value) (stack_of stack.old) (stack_of stack.new) result }
{
    match stack.pop() {
        Some(Frame::ScanText(line)) => {
            stack.push(Frame::ScanForm(line, tree))?;
            Ok(Acted::Goes(Focus::Need))
        }
        Some(Frame::ScanForm(line, text)) => {
            stack.push(Frame::ScanPlaces(line, text, tree, Talls::new(alloc)))?;
            Ok(Acted::Goes(Focus::Need))
        }
        Some(Frame::ScanPlaces(line, text, form, done)) => next_place(
            stack, line, text, form, done, tree,
        ),
        other => {
            let tree = restore(stack, other, tree)?;
            begin_sequence(alloc, stack, tree)
        }
    }
}

// `,` behind an operand.
fn after_comma(alloc: Global, stack: &mut Stack, tree: Tall) -> Result<Acted, AllocError>
    ensures { Acts (comma_acted (tree_of tree.expr.value) (stack_of stack.old)) (tree_of tree.expr.value) (stack_of stack.old) (stack_of stack.new) result }
{
    match stack.pop() {
        Some(Frame::InArray(line, done)) => next_item(
            stack,
            Frame::InArray(line, done.with(tree)?),
        ),
        Some(Frame::AtValue(line, done, key)) => next_item(
            stack,
            Frame::AtKey(line, done.with(key, tree)?),
        ),
        Some(Frame::InArgs(callee, name, done)) => next_arg(stack, callee, name, done, tree),
        Some(Frame::InSequence(line, done)) => next_item(
            stack,
            Frame::InSequence(line, done.with(tree)?),
        ),
        other => {
            let tree = restore(stack, other, tree)?;
            comma_in_scan(alloc, stack, tree)
        }
    }
}

// A mark behind an operand.
fn act_mark(alloc: Global, stack: &mut Stack, mark: Mark, tree: Tall) -> Result<Acted, AllocError>
    ensures { Acts (mark_acted mark (tree_of tree.expr.value) (stack_of stack.old)) (tree_of tree.expr.value) (stack_of stack.old) (stack_of stack.new) result }
{
    match mark {
        Mark::Binary(op) => infixed(stack, Infix::Plain(op), tree),
        Mark::AndThen => infixed(stack, Infix::And, tree),
        Mark::OrElse => infixed(stack, Infix::Or, tree),
        Mark::Assign(op) => assigned(stack, op, tree),
        Mark::Step(step) => stepped(alloc, step, tree),
        Mark::Question => tested(stack, tree),
        Mark::OpenParen => opened(alloc, stack, tree),
        Mark::OpenBracket => open_index(stack, tree),
        Mark::Arrow => Ok(Acted::Goes(Focus::NeedName(Callee::Other(tree)))),
        Mark::ColonColon => scoped(alloc, tree),
        Mark::CloseParen => closed(alloc, stack, tree),
        Mark::CloseBrace => ended_brace(alloc, stack, tree),
        Mark::CloseBracket => ended_bracket(alloc, stack, tree),
        Mark::DotDot => after_dots(alloc, stack, tree),
        Mark::Colon => after_colon(stack, tree),
        Mark::Comma => after_comma(alloc, stack, tree),
        _ => Ok(Acted::Refuses(tree)),
    }
}

/// A token behind an operand whose inner productions are ended.
pub fn act(alloc: Global, stack: &mut Stack, sort: Sort, tree: Tall) -> Result<Acted, AllocError>
    ensures { Acts (acted sort (tree_of tree.expr.value) (stack_of stack.old)) (tree_of tree.expr.value) (stack_of stack.old) (stack_of stack.new) result }
{
    match sort {
        Sort::Mark(mark) => act_mark(alloc, stack, mark, tree),
        _ => Ok(Acted::Refuses(tree)),
    }
}

// An index begins.
fn open_index(stack: &mut Stack, tree: Tall) -> Result<Acted, AllocError>
    ensures { Acts (mark_acted OpenBracket (tree_of tree.expr.value) (stack_of stack.old)) (tree_of tree.expr.value) (stack_of stack.old) (stack_of stack.new) result }
{
    stack.push(Frame::InIndex(tree, Edge::Front))?;
    Ok(Acted::Goes(Focus::Need))
}

// A production goes on with its next part.
fn next_item(stack: &mut Stack, frame: Frame) -> Result<Acted, AllocError>
    ensures { OpensTo (frame_of frame) (stack_of stack.old) (stack_of stack.new) result }
{
    stack.push(frame)?;
    Ok(Acted::Goes(Focus::Need))
}

// A call goes on with its next argument.
fn next_arg(
    stack: &mut Stack,
    callee: Callee,
    name: Chars,
    done: Talls,
    tree: Tall,
) -> Result<Acted, AllocError>
    ensures { OpensTo (InArgs (callee_of callee) name (map tree_of done.items.items ++ tree_of tree.expr.value ∷ [])) (stack_of stack.old) (stack_of stack.new) result }
{
    let args = done.with(tree)?;
    stack.push(Frame::InArgs(callee, name, args))?;
    Ok(Acted::Goes(Focus::Need))
}

// A range whose first end is this operand.
fn begin_end(
    alloc: Global,
    stack: &mut Stack,
    of: Tall,
    edge: Edge,
    tree: Tall,
) -> Result<Acted, AllocError>
    ensures { OpensTo (InRange (tree_of of.expr.value) (At edge (tree_of tree.expr.value)) Front) (stack_of stack.old) (stack_of stack.new) result }
{
    let from = TallEnd::at(alloc, edge, tree)?;
    stack.push(Frame::InRange(of, from, Edge::Front))?;
    Ok(Acted::Goes(Focus::Need))
}

// A range whose last end is this operand.
fn end_range(
    alloc: Global,
    of: Tall,
    from: TallEnd,
    edge: Edge,
    tree: Tall,
) -> Result<Tall, AllocError>
    ensures { IfOk result (λ t. tree_of t.expr.value ≡ Range (line_of (tree_of of.expr.value)) (tree_of of.expr.value) (end_of from.bound) (At edge (tree_of tree.expr.value))) }
{
    let to = TallEnd::at(alloc, edge, tree)?;
    range(alloc, of, from, to)
}

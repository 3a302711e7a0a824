//! Labels of a `switch`.
ghost use Rattle.std.specs.Prelude.{◌≡◌, OnOk, Ok, Some};
ghost use Rattle.lp_tree.specs.declared.token.Mark.TheVariants.{Colon};
ghost use Rattle.lp_parser_stmt.specs.Machine.{Expect, InSwitch, Inside, Need, Stack as Opens, have_int, labelled, need_const, need_digits, need_to, need_to_digits, step, with_part};
ghost use Rattle.lp_parser_stmt.specs.Moves.{IsUnsigned, Steps, label_state};
ghost use Rattle.lp_parser_stmt.specs.StackView.{stack_of};
ghost use Rattle.lp_parser_stmt.specs.View.{part_view, switching_of};

use crate::focus::{Focus, LabelAt, Moved};
use crate::frame::{Frame, Switching};
use crate::stack::Stack;
use lp_tree::operator::BinOp;
use lp_tree::seen::{Seen, Sort};
use lp_tree::stmt::{Constant, Label, Part, Stmt};
use lp_tree::token::Mark;
use std::alloc::AllocError;

// A `switch` with one more whole part.
pub(crate) fn more_of_switch(
    stack: &mut Stack,
    switching: Switching,
    part: Part<Stmt>,
) -> Result<(), AllocError>
    ensures { OnOk result (stack_of stack.new ≡ Inside (InSwitch (with_part (switching_of switching) (part_view part))) (stack_of stack.old)) }
{
    let mut switching = switching;
    match switching.done.push(part) {
        Ok(()) => stack.push(Frame::InSwitch(switching)),
        Err(refused) => {
            drop(refused);
            drop(switching);
            Err(AllocError)
        }
    }
}

// A label up to its colon, or with it.
fn with_label(stack: &mut Stack, label: Label, switching: Switching) -> Result<(), AllocError>
    ensures { OnOk result (Need (stack_of stack.new) ≡ labelled label (switching_of switching) (stack_of stack.old)) }
{
    more_of_switch(stack, switching, Part::Label(label))
}

/// A label whose colon comes.
pub fn awaits_colon(
    stack: &mut Stack,
    label: Label,
    switching: Switching,
) -> Result<Moved, AllocError>
    ensures { Steps (Some (Expect Colon (labelled label (switching_of switching) (stack_of stack.old)))) (stack_of stack.new) result }
{
    with_label(stack, label, switching)?;
    Ok(Moved::Goes(Focus::Awaits(Mark::Colon)))
}

// What a label compares with.
fn begin_label(
    stack: &mut Stack,
    line: u32,
    switching: Switching,
    sort: Sort,
) -> Result<Moved, AllocError>
    ensures { Steps (need_const sort line (switching_of switching) (stack_of stack.old)) (stack_of stack.new) result }
{
    match sort {
        Sort::Int(n) => Ok(Moved::Goes(Focus::Label(line, LabelAt::Int(n), switching))),
        Sort::Text(text) => awaits_colon(
            stack,
            Label::Case {
                line,
                value: Constant::Text(text),
            },
            switching,
        ),
        Sort::Mark(Mark::Binary(BinOp::Sub)) => Ok(Moved::Goes(Focus::Label(
            line,
            LabelAt::Minus,
            switching,
        ))),
        _ => Ok(Moved::Refuses),
    }
}

// Its integer behind a minus.
fn after_minus(line: u32, switching: Switching, sort: Sort) -> Moved
    requires { IsUnsigned sort }
    ensures { (s : Opens) → Steps (need_digits sort line (switching_of switching) s) s (Ok result) }
{
    match sort {
        Sort::Int(n) => Moved::Goes(Focus::Label(line, LabelAt::Int(-n), switching)),
        _ => Moved::Refuses,
    }
}

// What stands behind its integer.
fn after_int(
    stack: &mut Stack,
    line: u32,
    n: i64,
    switching: Switching,
    sort: Sort,
) -> Result<Moved, AllocError>
    ensures { Steps (have_int sort line n (switching_of switching) (stack_of stack.old)) (stack_of stack.new) result }
{
    match sort {
        Sort::Mark(Mark::Colon) => {
            let value = Constant::Int(n);
            with_label(stack, Label::Case { line, value }, switching)?;
            Ok(Moved::Goes(Focus::Need))
        }
        Sort::Mark(Mark::DotDot) => Ok(Moved::Goes(Focus::Label(line, LabelAt::To(n), switching))),
        _ => Ok(Moved::Refuses),
    }
}

// The other end of a range.
fn after_dots(
    stack: &mut Stack,
    line: u32,
    from: i64,
    switching: Switching,
    sort: Sort,
) -> Result<Moved, AllocError>
    ensures { Steps (need_to sort line from (switching_of switching) (stack_of stack.old)) (stack_of stack.new) result }
{
    match sort {
        Sort::Int(to) => awaits_colon(stack, Label::Range { line, from, to }, switching),
        Sort::Mark(Mark::Binary(BinOp::Sub)) => Ok(Moved::Goes(Focus::Label(
            line,
            LabelAt::ToMinus(from),
            switching,
        ))),
        _ => Ok(Moved::Refuses),
    }
}

// Its integer behind a minus.
fn after_dots_minus(
    stack: &mut Stack,
    line: u32,
    from: i64,
    switching: Switching,
    sort: Sort,
) -> Result<Moved, AllocError>
    requires { IsUnsigned sort }
    ensures { Steps (need_to_digits sort line from (switching_of switching) (stack_of stack.old)) (stack_of stack.new) result }
{
    match sort {
        Sort::Int(n) => awaits_colon(stack, Label::Range { line, from, to: -n }, switching),
        _ => Ok(Moved::Refuses),
    }
}

/// A token of a label behind `case`.
pub fn label(
    stack: &mut Stack,
    line: u32,
    at: LabelAt,
    switching: Switching,
    seen: Seen,
) -> Result<Moved, AllocError>
    requires { IsUnsigned seen.sort }
    ensures { Steps (step (label_state at line (switching_of switching) (stack_of stack.old)) seen) (stack_of stack.new) result }
{
    match at {
        LabelAt::Begins => begin_label(stack, line, switching, seen.sort),
        LabelAt::Minus => Ok(after_minus(line, switching, seen.sort)),
        LabelAt::Int(n) => after_int(stack, line, n, switching, seen.sort),
        LabelAt::To(n) => after_dots(stack, line, n, switching, seen.sort),
        LabelAt::ToMinus(n) => after_dots_minus(stack, line, n, switching, seen.sort),
    }
}

//! Tokens where a statement is waited for.
ghost use Rattle.std.specs.Prelude.{◌≡◌, [], Ok, Some};
ghost use Rattle.lp_parser_stmt.specs.declared.focus.Moved.TheVariants as moved;
ghost use Rattle.lp_tree.specs.declared.keyword.Keyword.TheVariants.{Break, Continue, Do};
ghost use Rattle.lp_parser_stmt.specs.Machine.{InBlock, Inside, Need, begin as begun, case_begins, class_begins, closes, default_begins, word_begins};
ghost use Rattle.lp_parser_stmt.specs.Moves.{Steps};
ghost use Rattle.lp_parser_stmt.specs.StackView.{stack_of};

use crate::class::{Class, class_of};
use crate::ending::{boxed, switch_of};
use crate::expression::{begin_expression, have};
use crate::focus::{Focus, LabelAt, Moved, Opening};
use crate::frame::Frame;
use crate::label::awaits_colon;
use crate::names::Names;
use crate::role::{Optional, Role, Whose};
use crate::stack::Stack;
use lp_tree::keyword::Keyword;
use lp_tree::seen::Seen;
use lp_tree::stmt::{Label, Stmt};
use std::alloc::{AllocError, Global};

// `}` where a statement may begin.
fn close_brace(alloc: Global, stack: &mut Stack) -> Result<Moved, AllocError>
    ensures { Steps (closes (stack_of stack.old)) (stack_of stack.new) result }
{
    match stack.pop() {
        None => Ok(Moved::Over(stack.take(alloc))),
        Some(Frame::InBlock(line, stmts)) => have(alloc, stack, Stmt::Block { line, stmts }),
        Some(Frame::InSwitch(switching)) => have(alloc, stack, switch_of(switching)),
        other => {
            drop(other);
            Ok(Moved::Refuses)
        }
    }
}

// A label outside a `switch`.
fn no_label(frame: Option<Frame>) -> Moved
    ensures { result ≡ moved.Refuses }
{
    drop(frame);
    Moved::Refuses
}

// `case`, which stands in a `switch` alone.
fn begin_case(stack: &mut Stack, line: u32) -> Moved
    ensures { Steps (case_begins line (stack_of stack.old)) (stack_of stack.new) (Ok result) }
{
    match stack.pop() {
        Some(Frame::InSwitch(switching)) => Moved::Goes(Focus::Label(
            line,
            LabelAt::Begins,
            switching,
        )),
        other => no_label(other),
    }
}

// `default`, which stands there too.
fn begin_default(stack: &mut Stack, line: u32) -> Result<Moved, AllocError>
    ensures { Steps (default_begins line (stack_of stack.old)) (stack_of stack.new) result }
{
    match stack.pop() {
        Some(Frame::InSwitch(switching)) => awaits_colon(stack, Label::Default { line }, switching),
        other => {
            drop(other);
            Ok(Moved::Refuses)
        }
    }
}

// `break`, where there is what it leaves.
fn begin_break(alloc: Global, stack: &Stack, line: u32) -> Result<Moved, AllocError>
    ensures { Steps (word_begins Break line (stack_of stack.now)) (stack_of stack.now) result }
{
    if stack.may_break() {
        return Ok(Moved::Goes(Focus::EndStmt(boxed(alloc, Stmt::Break { line })?)));
    }
    Ok(Moved::Refuses)
}

// `continue`, where there is a loop that it goes on with.
fn begin_continue(alloc: Global, stack: &Stack, line: u32) -> Result<Moved, AllocError>
    ensures { Steps (word_begins Continue line (stack_of stack.now)) (stack_of stack.now) result }
{
    if stack.may_continue() {
        return Ok(Moved::Goes(Focus::EndStmt(boxed(alloc, Stmt::Continue { line })?)));
    }
    Ok(Moved::Refuses)
}

// `do`
fn begin_do(stack: &mut Stack, line: u32) -> Result<Moved, AllocError>
    ensures { Steps (word_begins Do line (stack_of stack.old)) (stack_of stack.new) result }
{
    stack.push(Frame::DoBody(line))?;
    Ok(Moved::Goes(Focus::Need))
}

// A reserved word that begins no expression and no declaration.
fn begin_word(
    alloc: Global,
    stack: &mut Stack,
    word: Keyword,
    line: u32,
) -> Result<Moved, AllocError>
    ensures { Steps (word_begins word line (stack_of stack.old)) (stack_of stack.new) result }
{
    match word {
        Keyword::If => Ok(Moved::Goes(Focus::Opens(Opening::Test(Role::TestIf(line))))),
        Keyword::While => Ok(Moved::Goes(Focus::Opens(Opening::Test(Role::TestWhile(line))))),
        Keyword::Switch => Ok(Moved::Goes(Focus::Opens(Opening::Test(Role::OnSwitch(line))))),
        Keyword::For => Ok(Moved::Goes(Focus::Opens(Opening::ForParts(line)))),
        Keyword::Foreach => Ok(Moved::Goes(Focus::Opens(Opening::Variables(line)))),
        Keyword::Do => begin_do(stack, line),
        Keyword::Break => begin_break(alloc, stack, line),
        Keyword::Continue => begin_continue(alloc, stack, line),
        Keyword::Return => Ok(Moved::Goes(Focus::Maybe(Optional::Value(line)))),
        Keyword::Case => Ok(begin_case(stack, line)),
        Keyword::Default => begin_default(stack, line),
        _ => Ok(Moved::Refuses),
    }
}

// `{` where a statement may begin.
fn open_brace(alloc: Global, stack: &mut Stack, line: u32) -> Result<Moved, AllocError>
    ensures { Steps (Some (Need (Inside (InBlock line []) (stack_of stack.old)))) (stack_of stack.new) result }
{
    stack.push(Frame::InBlock(line, Vec::new(alloc)))?;
    Ok(Moved::Goes(Focus::Need))
}

// A token of this class.
fn begin_class(
    alloc: Global,
    stack: &mut Stack,
    class: Class,
    seen: Seen,
) -> Result<Moved, AllocError>
    ensures { Steps (class_begins class seen (stack_of stack.old)) (stack_of stack.new) result }
{
    let line = seen.line;
    match class {
        Class::BraceOpens => open_brace(alloc, stack, line),
        Class::BraceCloses => close_brace(alloc, stack),
        Class::SemicolonEnds => have(alloc, stack, Stmt::Empty { line }),
        Class::ParenCloses => Ok(Moved::Refuses),
        Class::ExpressionBegins => begin_expression(alloc, Role::ToRun, seen),
        Class::TypeBegins(base) => Ok(Moved::Goes(Focus::Declaring(
            line,
            base,
            Names::new(alloc),
            Whose::OfStmt,
        ))),
        Class::WordBegins(word) => begin_word(alloc, stack, word, line),
    }
}

/// A token where a statement is waited for.
pub fn begin(alloc: Global, stack: &mut Stack, seen: Seen) -> Result<Moved, AllocError>
    ensures { Steps (begun seen (stack_of stack.old)) (stack_of stack.new) result }
{
    let class = class_of(&seen.sort);
    begin_class(alloc, stack, class, seen)
}

//! The stack of open statements.
ghost use Rattle.lp_tree.specs.Statements.{in_function};
ghost use Rattle.lp_parser_stmt.specs.Arounds.{AllRight, AllRight-prop};

use crate::frame::{Frame, Open};
use lp_tree::stmt::Stmt;
use std::alloc::{AllocError, Global};
use std::mem::replace;

/// The open statements of a function, the outermost first, and the statements of its block that are whole.
#[derive(Drop)]
pub struct Stack {
    done: Vec<Stmt>,
    opens: Vec<Open>,
    ghost right: { AllRight in_function opens.items } by { AllRight-prop in_function opens.items },
}

impl Stack {
    ghost use Rattle.std.specs.Prelude.{◌≡◌, ◌∷◌, ◌++◌, [], IfNone, IfSome, OnOk, OnErr};
    ghost use Rattle.lp_tree.specs.StatementView.{stmt_of};
    ghost use Rattle.lp_parser_expr.specs.Capped.{capped};
    ghost use Rattle.lp_parser_stmt.specs.Arounds.{IsRight, around_in};
    ghost use Rattle.lp_parser_stmt.specs.Depth.{depth as levels, extra as levels_extra};
    ghost use Rattle.lp_parser_stmt.specs.Machine.{InFunction, Inside, around};
    ghost use Rattle.lp_parser_stmt.specs.StackView.{done_of, stack_of};
    ghost use Rattle.lp_parser_stmt.specs.View.{frame_of, stmts_of};

    /// A function's block that has just begun.
    pub fn new(alloc: Global) -> Stack
        ensures { stack_of result ≡ InFunction [] }
    {
        Stack {
            done: Vec::new(alloc),
            opens: Vec::new(alloc),
        }
    }

    /// Whether a `break` here has what it leaves.
    pub fn may_break(&self) -> bool
        ensures { result ≡ (around (stack_of self.now)).may_break }
    {
        if self.opens.is_empty() {
            return false;
        }
        self.opens[self.opens.len() - 1].may_break
    }

    /// Whether a `continue` here has what it leaves.
    pub fn may_continue(&self) -> bool
        ensures { result ≡ (around (stack_of self.now)).may_continue }
    {
        if self.opens.is_empty() {
            return false;
        }
        self.opens[self.opens.len() - 1].may_continue
    }

    // A statement to be opened.
    fn opened(&self, frame: Frame) -> Open
        ensures frame { result.frame ≡ frame }
        ensures right { IsRight (around_in (frame_of frame) (around (stack_of self.now))) result }
    {
        let may_break = frame.takes_break() || self.may_break();
        let may_continue = frame.takes_continue() || self.may_continue();
        Open {
            frame,
            may_break,
            may_continue,
        }
    }

    /// One more open statement. On `Err` the stack is as it was.
    pub fn push(&mut self, frame: Frame) -> Result<(), AllocError>
        ensures ok { OnOk result (stack_of self.new ≡ Inside (frame_of frame) (stack_of self.old)) }
        ensures err { OnErr result (stack_of self.new ≡ stack_of self.old) }
    {
        let open = self.opened(frame);
        self.opens.push(open)?;
        Ok(())
    }

    /// The innermost open statement, or none where only the function's block is open.
    pub fn pop(&mut self) -> Option<Frame>
        ensures none { IfNone result ((stack_of self.old ≡ InFunction (done_of self.new)) × (stack_of self.new ≡ InFunction (done_of self.new))) }
        ensures some { IfSome result (λ f. stack_of self.old ≡ Inside (frame_of f) (stack_of self.new)) }
    {
        match self.opens.pop() {
            None => None,
            Some(open) => Some(open.frame),
        }
    }

    /// One more whole statement of the function's block, where only that is open.
    pub fn add(&mut self, stmt: Stmt) -> Result<(), AllocError>
        requires { stack_of self.old ≡ InFunction (done_of self.old) }
        ensures { OnOk result (stack_of self.new ≡ InFunction (done_of self.old ++ stmt_of stmt ∷ [])) }
    {
        self.done.push(stmt)?;
        Ok(())
    }

    /// Takes the statements of the function's block.
    pub fn take(&mut self, alloc: Global) -> Vec<Stmt>
        ensures { stmts_of result ≡ done_of self.old }
    {
        replace(&mut self.done, Vec::new(alloc))
    }

    /// How many statements are open, and the function's block. 4294967295 stands for all numbers from there on.
    pub fn depth(&self) -> u32
        ensures { result ≡ capped (levels (stack_of self.now)) }
    {
        let count = self.opens.len();
        if count >= u32::MAX as usize {
            return u32::MAX;
        }
        count as u32 + 1
    }

    /// 1 where a statement has to come, and 0 where none has to.
    pub fn extra(&self) -> u32
        ensures { result ≡ levels_extra (stack_of self.now) }
    {
        if self.opens.is_empty() {
            return 0;
        }
        self.opens[self.opens.len() - 1].frame.extra()
    }
}

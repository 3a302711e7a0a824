//! The stack of open productions.
ghost use Rattle.std.specs.Prelude.{[]};
ghost use Rattle.lp_parser_expr.specs.Levels.{AllRight, AllRight-prop};

use crate::frame::Frame;
use crate::lift::{inside, levels_ended, lifted, makes_place, own_lift};
use crate::open::{Lift, Open};
use std::alloc::{AllocError, Global};

/// The open productions, the outermost first.
#[derive(Drop)]
pub struct Stack {
    frames: Vec<Open>,
    ghost right: { AllRight [] frames.items } by { AllRight-prop [] frames.items },
}

impl Stack {
    ghost use Rattle.std.specs.Prelude.{◌≡◌, ◌∷◌, ◌+◌, [], IfOk, IfNone, IfSome, OnOk, OnErr, ℕ};
    ghost use Rattle.lp_parser_expr.specs.Capped.{capped};
    ghost use Rattle.lp_parser_expr.specs.Depth.{total, least_need};
    ghost use Rattle.lp_parser_expr.specs.Levels.{IsLift, IsRight};
    ghost use Rattle.lp_parser_expr.specs.Machine.{wants_of, Alone};
    ghost use Rattle.lp_parser_expr.specs.StackView.{stack_of};
    ghost use Rattle.lp_parser_expr.specs.View.{frame_of};

    /// No open productions: an expression is read.
    pub fn new(alloc: Global) -> Stack
        ensures { stack_of result ≡ [] }
    {
        Stack {
            frames: Vec::new(alloc),
        }
    }

    /// An assign is read, which ends by what stands round it.
    pub fn alone(alloc: Global) -> Result<Stack, AllocError>
        ensures { IfOk result (λ s. stack_of s ≡ Alone ∷ []) }
    {
        let mut stack = Stack::new(alloc);
        stack.push(Frame::Alone)?;
        Ok(stack)
    }

    // What the open productions add to the levels of the open part.
    fn lift(&self, is_place: bool) -> Lift
        ensures { IsLift result (total (stack_of self.now) is_place) }
    {
        if self.frames.is_empty() {
            return Lift { floor: 0, rise: 0 };
        }
        let open = &self.frames[self.frames.len() - 1];
        if is_place {
            return open.place;
        }
        open.other
    }

    // A production to be put on top.
    fn opened(&self, frame: Frame) -> Open
        ensures frame { result.frame ≡ frame }
        ensures right { IsRight (frame_of frame ∷ stack_of self.now) result }
    {
        let outer = self.lift(makes_place(&frame));
        let place = inside(outer, own_lift(&frame, true));
        let other = inside(outer, own_lift(&frame, false));
        let least = match levels_ended(&frame) {
            Some(levels) => lifted(self.lift(false), levels),
            None => lifted(place, 1),
        };
        Open {
            frame,
            place,
            other,
            least,
        }
    }

    /// One more open production. On `Err` the stack is as it was.
    pub fn push(&mut self, frame: Frame) -> Result<(), AllocError>
        ensures ok { OnOk result (stack_of self.new ≡ frame_of frame ∷ stack_of self.old) }
        ensures err { OnErr result (stack_of self.new ≡ stack_of self.old) }
    {
        let open = self.opened(frame);
        self.frames.push(open)?;
        Ok(())
    }

    /// The innermost open production.
    pub fn pop(&mut self) -> Option<Frame>
        ensures none { IfNone result ((stack_of self.old ≡ []) × (stack_of self.new ≡ [])) }
        ensures some { IfSome result (λ f. stack_of self.old ≡ frame_of f ∷ stack_of self.new) }
    {
        match self.frames.pop() {
            None => None,
            Some(open) => Some(open.frame),
        }
    }

    /// The least level of the open part.
    pub fn wants(&self) -> u8
        ensures { result ≡ wants_of (stack_of self.now) }
    {
        if self.frames.is_empty() {
            return 0;
        }
        self.frames[self.frames.len() - 1].frame.wants()
    }

    /// The levels of the whole round an operand of this many levels, which is a place or not.
    pub fn levels(&self, is_place: bool, height: u32) -> u32
        ensures { (n : ℕ) → height ≡ capped n → result ≡ capped (total (stack_of self.now) is_place n) }
    {
        lifted(self.lift(is_place), height)
    }

    /// The levels of the shallowest whole where the next operand has not begun.
    pub fn least(&self) -> u32
        ensures { result ≡ capped (least_need (stack_of self.now)) }
    {
        if self.frames.is_empty() {
            return 1;
        }
        self.frames[self.frames.len() - 1].least
    }
}

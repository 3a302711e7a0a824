//! Where an instruction leads.
use lp_instr::efun::Efun;
use lp_values::error::RunError;
use lp_values::value::Value;

/// What is called. Its operands stay on the stack.
#[derive(Clone, Copy, Debug, PartialEq, Eq)]
pub enum Target {
    /// The function with this row of the program's table.
    Slot(u32),
    /// The function with this row of a parent's table.
    Fixed(u32, u32),
    /// The function of an object: the object and the name lie below the arguments.
    Other,
    /// The function of the simul-efun object whose name is this text of the program.
    Simul(u32),
}

/// A call with so many arguments.
#[derive(Clone, Copy, Debug, PartialEq, Eq)]
pub struct CallOf {
    /// What is called.
    pub target: Target,
    /// How many arguments lie on top of the stack.
    pub args: u32,
}

/// A call of an efun with so many arguments.
#[derive(Clone, Copy, Debug, PartialEq, Eq)]
pub struct EfunCall {
    /// The efun.
    pub efun: Efun,
    /// How many arguments lie on top of the stack.
    pub args: u32,
}

/// Where an instruction leads.
#[derive(Drop)]
pub enum Next {
    /// To the next one.
    Again,
    /// To a call, whose value goes on top.
    Call(CallOf),
    /// To an efun, whose value goes on top.
    Back(EfunCall),
    /// To the function's end.
    Done(Value),
    /// To an error.
    Error(RunError),
    /// The budget is spent.
    Spent,
}

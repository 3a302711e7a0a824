//! What each instruction takes and leaves, and where it leads.
ghost use Rattle.std.specs.Prelude.{◌≡◌, Some, None, false};
ghost use Rattle.lp_instr.specs.Sound.{end_count};
ghost use Rattle.lp_verify.specs.Effects.{effect_of};

use lp_instr::instr::{EndKind, Instr};

/// What becomes of the open catches.
#[derive(Clone, Copy, Debug, PartialEq, Eq)]
pub(crate) enum Change {
    /// They stay.
    Stay,
    /// One is opened that goes on at a place.
    Opens(u32),
    /// The innermost is closed.
    Closes,
}

/// What is left where an instruction goes on with the next one.
#[derive(Clone, Copy, Debug, PartialEq, Eq)]
pub(crate) struct Next {
    /// How many values are left of those taken.
    pub(crate) leaves: u64,
    /// What becomes of the open catches.
    pub(crate) change: Change,
}

/// What is left where an instruction goes on elsewhere.
#[derive(Clone, Copy, Debug, PartialEq, Eq)]
pub(crate) struct Jump {
    /// The place.
    pub(crate) to: u32,
    /// How many values are left of those taken.
    pub(crate) leaves: u64,
}

/// A place that an instruction leads to.
#[derive(Clone, Copy, Debug, PartialEq, Eq)]
pub(crate) struct Exit {
    /// The place.
    pub(crate) to: usize,
    /// How many values are left of those taken.
    pub(crate) leaves: u64,
    /// What becomes of the open catches.
    pub(crate) change: Change,
}

/// The effect of an instruction.
#[derive(Clone, Copy, Debug, PartialEq, Eq)]
pub(crate) struct Effect {
    /// How many values it takes.
    pub(crate) takes: u64,
    /// Where it may go on with the next instruction.
    pub(crate) next: Option<Next>,
    /// Where it may go on elsewhere.
    pub(crate) jump: Option<Jump>,
    /// The row of the list of switches by which it goes on.
    pub(crate) row: Option<u32>,
    /// Whether it ends the function.
    pub(crate) ends: bool,
}

fn flows(takes: u64, leaves: u64) -> Effect
    ensures { result ≡ record { takes = takes; next = Some (record { leaves = leaves; change = Change.Stay }); jump = None; row = None; ends = false } }
{
    Effect {
        takes,
        next: Some(Next {
            leaves,
            change: Change::Stay,
        }),
        jump: None,
        row: None,
        ends: false,
    }
}

fn may_jump(takes: u64, leaves: u64, to: u32, kept: u64) -> Effect
    ensures { result ≡ record { takes = takes; next = Some (record { leaves = leaves; change = Change.Stay }); jump = Some (record { to = to; leaves = kept }); row = None; ends = false } }
{
    Effect {
        takes,
        next: Some(Next {
            leaves,
            change: Change::Stay,
        }),
        jump: Some(Jump { to, leaves: kept }),
        row: None,
        ends: false,
    }
}

fn end_count(kind: EndKind) -> u64
    ensures { result ≡ end_count kind }
{
    match kind {
        EndKind::Open => 0,
        _ => 1,
    }
}

/// The effect of an instruction.
pub(crate) fn describe(instr: Instr) -> Effect
    ensures { result ≡ effect_of instr }
{
    match instr {
        Instr::PushInt(_) | Instr::PushText(_) | Instr::PushLocal(_) | Instr::PushGlobal(_) =>
            flows(0, 1),
        Instr::SetLocal(_) | Instr::SetGlobal(_) | Instr::Unary(_) | Instr::Step(_) => flows(1, 1),
        Instr::Pop => flows(1, 0),
        Instr::Dup => flows(1, 2),
        Instr::Dup2 => flows(2, 4),
        Instr::Binary(_) | Instr::Index(_) => flows(2, 1),
        Instr::Rotate(n) => flows(n as u64, n as u64),
        Instr::SetIndex(_) => flows(3, 1),
        Instr::Range(x, y) => flows(1 + end_count(x) + end_count(y), 1),
        Instr::MakeArray(n) => flows(n as u64, 1),
        Instr::MakeMap(n) => flows(2 * (n as u64), 1),
        Instr::Jump(to) => Effect {
            takes: 0,
            next: None,
            jump: Some(Jump { to, leaves: 0 }),
            row: None,
            ends: false,
        },
        Instr::JumpIfZero(to) | Instr::JumpIfNotZero(to) => may_jump(1, 0, to, 0),
        Instr::KeepIfZero(to) | Instr::KeepIfNotZero(to) => may_jump(1, 0, to, 1),
        Instr::LoopTurn => flows(0, 0),
        Instr::CallSlot(_, n)
        | Instr::CallFixed(_, _, n)
        | Instr::CallEfun(_, n)
        | Instr::CallSimul(_, n) => flows(n as u64, 1),
        Instr::CallOther(n) => flows(n as u64 + 2, 1),
        Instr::Scan(n) => flows(2, 2 * (n as u64) + 1),
        Instr::CatchBegin(to) => Effect {
            takes: 0,
            next: Some(Next {
                leaves: 0,
                change: Change::Opens(to),
            }),
            jump: Some(Jump { to, leaves: 1 }),
            row: None,
            ends: false,
        },
        Instr::CatchEnd => Effect {
            takes: 0,
            next: Some(Next {
                leaves: 0,
                change: Change::Closes,
            }),
            jump: None,
            row: None,
            ends: false,
        },
        Instr::Switch(k) => Effect {
            takes: 1,
            next: None,
            jump: None,
            row: Some(k),
            ends: false,
        },
        Instr::EachBegin(_) => flows(1, 2),
        Instr::EachNext(to, n) => may_jump(2, 0, to, n as u64 + 2),
        Instr::Return => Effect {
            takes: 1,
            next: None,
            jump: None,
            row: None,
            ends: true,
        },
        Instr::ReturnZero => Effect {
            takes: 0,
            next: None,
            jump: None,
            row: None,
            ends: true,
        },
    }
}

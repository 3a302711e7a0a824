//! What is asked of an instruction whether a path reaches it or not.
ghost use Rattle.std.specs.Prelude.{◌≡◌, ◌<◌, ◌∷◌, [], length, map, nat_lt, slice_get};
ghost use Rattle.std.specs.Option.{option_copied};
ghost use Rattle.lp_instr.specs.Code.{case_place};
ghost use Rattle.lp_code.specs.Inside.{are_variables, has_text, have_texts, is_allowed, is_named, is_turn, jump_stands, jumps, jumps_stand, row_has_texts, row_places, stands};
ghost use Rattle.lp_code.specs.Owners.{locals_at};

use crate::body::Body;
use lp_code::program::RawProgram;
use lp_instr::efun::Efun;
use lp_instr::instr::{Case, Instr};

fn is_text(raw: &RawProgram, k: u32) -> bool
    ensures { result ≡ nat_lt k (length raw.now.consts) }
{
    (k as usize) < raw.consts.as_slice().len()
}

fn is_local(body: &Body, at: usize, k: u32) -> bool
    requires { at < length body.now.instrs }
    ensures { result ≡ nat_lt k (locals_at body.now at) }
{
    k < body.locals(at) as u32
}

fn is_variable(raw: &RawProgram, k: u32) -> bool
    ensures { result ≡ nat_lt k (length raw.now.tables.vars) }
{
    (k as usize) < raw.tables.vars.as_slice().len()
}

fn is_slot(raw: &RawProgram, k: u32) -> bool
    ensures { result ≡ nat_lt k (length raw.now.tables.slots) }
{
    (k as usize) < raw.tables.slots.as_slice().len()
}

fn is_parent(raw: &RawProgram, k: u32) -> bool
    ensures { result ≡ nat_lt k (length raw.now.tables.parents) }
{
    (k as usize) < raw.tables.parents.as_slice().len()
}

fn is_allowed(efun: Efun, args: u32) -> bool
    ensures { result ≡ is_allowed efun args }
{
    let arity = efun.arity();
    if arity.least > args {
        return false;
    }
    match arity.most {
        None => true,
        Some(most) => args <= most,
    }
}

fn has_text(count: usize, case: &Case) -> bool
    ensures { result ≡ has_text count case.now }
{
    match case {
        Case::Ints(_, _, _) => true,
        Case::Text(k, _) => (*k as usize) < count,
    }
}

/// Whether the texts of some labels are among so many.
pub(crate) fn have_texts(count: usize, cases: &[Case]) -> bool
    ensures { result ≡ have_texts count cases.now }
{
    for case in cases {
        if !has_text(count, case) {
            return false;
        }
    }
    true
}

fn row_has_texts(raw: &RawProgram, k: u32) -> bool
    ensures { result ≡ row_has_texts (length raw.now.consts) (slice_get raw.now.switches k) }
{
    match raw.switches.as_slice().get(k as usize) {
        None => false,
        Some(row) => have_texts(raw.consts.as_slice().len(), row.cases.as_slice()),
    }
}

fn is_named(body: &Body, at: usize, instr: Instr) -> bool
    requires { at < length body.now.instrs }
    ensures { result ≡ is_named body.now at instr }
{
    let raw = body.raw();
    match instr {
        Instr::PushText(k) => is_text(raw, k),
        Instr::PushLocal(k) | Instr::SetLocal(k) => is_local(body, at, k),
        Instr::PushGlobal(k) | Instr::SetGlobal(k) => is_variable(raw, k),
        Instr::Rotate(n) => 1 <= n,
        Instr::CallSlot(k, _) => is_slot(raw, k),
        Instr::CallFixed(parent, _, _) => is_parent(raw, parent),
        Instr::CallEfun(efun, n) => is_allowed(efun, n),
        Instr::CallSimul(k, _) => is_text(raw, k),
        Instr::Switch(k) => row_has_texts(raw, k),
        Instr::EachBegin(n) | Instr::EachNext(_, n) => 1 <= n && n <= 2,
        _ => true,
    }
}

fn is_turn(instr: Option<&Instr>) -> bool
    ensures { result ≡ is_turn (option_copied instr.entry) }
{
    match instr {
        Some(Instr::LoopTurn) => true,
        _ => false,
    }
}

fn jump_stands(raw: &RawProgram, at: usize, to: u32) -> bool
    ensures { result ≡ jump_stands raw.now at to }
{
    let to = to as usize;
    let instrs = raw.instrs.as_slice();
    to < instrs.len() && (at < to || is_turn(instrs.get(to)))
}

fn one_stands(raw: &RawProgram, at: usize, to: u32) -> bool
    ensures { result ≡ jumps_stand raw.now at (to ∷ []) }
{
    if !jump_stands(raw, at, to) {
        return false;
    }
    true
}

/// The place of a label.
pub(crate) fn case_place(case: &Case) -> u32
    ensures { result ≡ case_place case.now }
{
    match case {
        Case::Ints(_, _, to) => *to,
        Case::Text(_, to) => *to,
    }
}

fn cases_stand(raw: &RawProgram, at: usize, cases: &[Case]) -> bool
    ensures { result ≡ jumps_stand raw.now at (map case_place cases.now) }
{
    for case in cases {
        if !jump_stands(raw, at, case_place(case)) {
            return false;
        }
    }
    true
}

fn row_stands(raw: &RawProgram, at: usize, k: u32) -> bool
    ensures { result ≡ jumps_stand raw.now at (row_places (slice_get raw.now.switches k)) }
{
    match raw.switches.as_slice().get(k as usize) {
        None => true,
        Some(row) => jump_stands(raw, at, row.other) && cases_stand(raw, at, row.cases.as_slice()),
    }
}

fn jumps_stand(raw: &RawProgram, at: usize, instr: Instr) -> bool
    ensures { result ≡ jumps_stand raw.now at (jumps raw.now instr) }
{
    match instr {
        Instr::Jump(to)
        | Instr::JumpIfZero(to)
        | Instr::JumpIfNotZero(to)
        | Instr::KeepIfZero(to)
        | Instr::KeepIfNotZero(to)
        | Instr::CatchBegin(to)
        | Instr::EachNext(to, _) => one_stands(raw, at, to),
        Instr::Switch(k) => row_stands(raw, at, k),
        _ => true,
    }
}

/// Whether all that is asked of an instruction without paths holds.
pub(crate) fn stands(body: &Body, at: usize, instr: Instr) -> bool
    requires { at < length body.now.instrs }
    ensures { result ≡ stands body.now at instr }
{
    let named = is_named(body, at, instr);
    let jumps = jumps_stand(body.raw(), at, instr);
    named && jumps
}

//! What is asked of an instruction that a path reaches.
ghost use Rattle.std.specs.Prelude.{◌≡◌, ◌<◌, ◌^◌, ◌+◌, ◌-◌, length, map, nat_lt, not, option_to_list};
ghost use Rattle.std.specs.Option.{option_copied};
ghost use Rattle.lp_verify.specs.Flow.{case_exit, exit, exit_holds, exits, exits_hold, flows, goes_on, holds, is_enough, is_none, is_within, jump_exits, may_change, next_exits, row_at, row_exits};
ghost use Rattle.lp_verify.specs.Openings.{list_at};
ghost use Rattle.lp_verify.specs.Walks.{IsIn, known_of, shape_of};

use crate::body::Body;
use crate::effect::{Change, Effect, Exit, describe};
use crate::openings::Openings;
use crate::seen::{Form, Seen};
use crate::stand::{case_place, stands};
use lp_code::program::{RawProgram, SwitchRow};
use lp_instr::instr::{Case, Instr};

/// Whether a place is in the code of the function of an instruction.
pub(crate) fn is_within(body: &Body, at: usize, to: usize) -> bool
    requires { at < length body.now.instrs }
    ensures { result ≡ is_within body.now at to }
{
    if to < body.places() {
        return body.owner(to) == body.owner(at);
    }
    false
}

fn may_change(openings: &Openings, change: Change, number: usize) -> bool
    requires { number < length openings.now }
    ensures { result ≡ may_change change (list_at openings.now number) }
{
    match change {
        Change::Closes => openings.innermost(number).is_some(),
        _ => true,
    }
}

fn is_low(max: u32, height: u32, takes: u64, leaves: u64) -> bool
    ensures { result ≡ not (nat_lt max (height - takes + leaves)) }
{
    let rest = (height as u64).saturating_sub(takes);
    !((max as u64) < rest.saturating_add(leaves))
}

fn exit_holds(
    body: &Body,
    openings: &Openings,
    at: usize,
    form: Form,
    effect: Effect,
    exit: Exit,
) -> bool
    requires inside { at < length body.now.instrs }
    requires open { form.open < length openings.now }
    ensures { result ≡ exit_holds body.now at (shape_of openings.now form) effect exit }
{
    let within = is_within(body, at, exit.to);
    let low = is_low(
        body.raw().max_height,
        form.height,
        effect.takes,
        exit.leaves,
    );
    let change = may_change(openings, exit.change, form.open);
    within && low && change
}

/// Where an instruction goes on with the next one.
pub(crate) fn next_exit(at: usize, effect: Effect) -> Option<Exit>
    requires { at + 1 < 2 ^ 64 }
    ensures { option_to_list result ≡ next_exits at effect.next }
{
    match effect.next {
        None => None,
        Some(next) => Some(Exit {
            to: at + 1,
            leaves: next.leaves,
            change: next.change,
        }),
    }
}

/// Where an instruction may go on elsewhere.
pub(crate) fn jump_exit(effect: Effect) -> Option<Exit>
    ensures { option_to_list result ≡ jump_exits effect.jump }
{
    match effect.jump {
        None => None,
        Some(jump) => Some(Exit {
            to: jump.to as usize,
            leaves: jump.leaves,
            change: Change::Stay,
        }),
    }
}

/// Where a label leads.
pub(crate) fn case_exit(case: &Case) -> Exit
    ensures { result ≡ case_exit case.now }
{
    Exit {
        to: case_place(case) as usize,
        leaves: 0,
        change: Change::Stay,
    }
}

/// Where a switch goes on if no label fits.
pub(crate) fn other_exit(row: &SwitchRow) -> Exit
    ensures { result ≡ exit row.now.other 0 Change.Stay }
{
    Exit {
        to: row.other as usize,
        leaves: 0,
        change: Change::Stay,
    }
}

/// The row of the list of switches by which an instruction goes on.
pub(crate) fn row_at(raw: &RawProgram, effect: Effect) -> Option<&SwitchRow>
    ensures { option_copied result ≡ row_at raw.now effect.row }
{
    match effect.row {
        None => None,
        Some(k) => raw.switches.as_slice().get(k as usize),
    }
}

fn may_take(
    body: &Body,
    openings: &Openings,
    at: usize,
    form: Form,
    effect: Effect,
    exit: Option<Exit>,
) -> bool
    requires inside { at < length body.now.instrs }
    requires open { form.open < length openings.now }
    ensures { result ≡ exits_hold body.now at (shape_of openings.now form) effect (option_to_list exit) }
{
    match exit {
        None => true,
        Some(exit) => {
            if !exit_holds(body, openings, at, form, effect, exit) {
                return false;
            }
            true
        }
    }
}

fn cases_hold(
    body: &Body,
    openings: &Openings,
    at: usize,
    form: Form,
    effect: Effect,
    cases: &[Case],
) -> bool
    requires inside { at < length body.now.instrs }
    requires open { form.open < length openings.now }
    ensures { result ≡ exits_hold body.now at (shape_of openings.now form) effect (map case_exit cases.now) }
{
    for case in cases {
        if !exit_holds(body, openings, at, form, effect, case_exit(case)) {
            return false;
        }
    }
    true
}

fn row_holds(
    body: &Body,
    openings: &Openings,
    at: usize,
    form: Form,
    effect: Effect,
    row: Option<&SwitchRow>,
) -> bool
    requires inside { at < length body.now.instrs }
    requires open { form.open < length openings.now }
    ensures { result ≡ exits_hold body.now at (shape_of openings.now form) effect (row_exits (option_copied row.entry)) }
{
    match row {
        None => true,
        Some(row) => {
            let other = exit_holds(body, openings, at, form, effect, other_exit(row));
            let cases = cases_hold(body, openings, at, form, effect, row.cases.as_slice());
            other && cases
        }
    }
}

fn exits_hold(body: &Body, openings: &Openings, at: usize, form: Form, effect: Effect) -> bool
    requires inside { at < length body.now.instrs }
    requires open { form.open < length openings.now }
    requires small { at + 1 < 2 ^ 64 }
    ensures { result ≡ exits_hold body.now at (shape_of openings.now form) effect (exits body.now at effect) }
{
    let next = may_take(body, openings, at, form, effect, next_exit(at, effect));
    let jump = may_take(body, openings, at, form, effect, jump_exit(effect));
    let row = row_holds(body, openings, at, form, effect, row_at(body.raw(), effect));
    next && (jump && row)
}

fn is_enough(openings: &Openings, form: Form, effect: Effect) -> bool
    requires { form.open < length openings.now }
    ensures { result ≡ is_enough (shape_of openings.now form) effect }
{
    let floor = match openings.innermost(form.open) {
        None => 0,
        Some(opening) => opening.height,
    };
    !((form.height as u64) < effect.takes.saturating_add(floor as u64))
}

fn is_closed(openings: &Openings, number: usize) -> bool
    requires { number < length openings.now }
    ensures { result ≡ is_none (list_at openings.now number) }
{
    openings.innermost(number).is_none()
}

fn flows(body: &Body, openings: &Openings, at: usize, form: Form, effect: Effect) -> bool
    requires inside { at < length body.now.instrs }
    requires open { form.open < length openings.now }
    requires small { at + 1 < 2 ^ 64 }
    ensures { result ≡ flows body.now at (shape_of openings.now form) effect }
{
    let low = !(body.raw().max_height < form.height);
    let enough = is_enough(openings, form, effect);
    let lead = exits_hold(body, openings, at, form, effect);
    let closed = is_closed(openings, form.open);
    low && enough && lead && (!effect.ends || closed)
}

/// Whether all that is asked of an instruction that a path reaches holds.
pub(crate) fn holds(body: &Body, openings: &Openings, at: usize, form: Form, instr: Instr) -> bool
    requires inside { at < length body.now.instrs }
    requires open { form.open < length openings.now }
    requires small { at + 1 < 2 ^ 64 }
    ensures { result ≡ holds body.now at (shape_of openings.now form) instr }
{
    let stand = stands(body, at, instr);
    let flow = flows(body, openings, at, form, describe(instr));
    stand && flow
}

/// Whether paths go on behind an instruction, by what is known of its place.
pub(crate) fn goes_on(
    body: &Body,
    openings: &Openings,
    at: usize,
    known: Seen,
    instr: Instr,
) -> bool
    requires inside { at < length body.now.instrs }
    requires known_in { IsIn openings.now known }
    requires small { at + 1 < 2 ^ 64 }
    ensures { result ≡ goes_on body.now at (known_of openings.now known) instr }
{
    match known {
        Seen::Never => false,
        Seen::Once(form) => holds(body, openings, at, form, instr),
        Seen::Mixed => true,
    }
}

//! What is learned behind an instruction.
ghost use Rattle.std.specs.Prelude.{◌≡◌, ◌<◌, ◌^◌, ◌+◌, ◌∷◌, [], IfOk, OnOk, length, map, option_to_list, true};
ghost use Rattle.std.specs.Option.{option_copied};
ghost use Rattle.lp_verify.specs.Flow.{after, case_exit, changed, exit_holds, exits, leads, once_at, row_exits};
ghost use Rattle.lp_verify.specs.Openings.{GoesOn, list_at};
ghost use Rattle.lp_verify.specs.Walks.{IsReady, MayLead, Moves, known_of, shape_of};

use crate::body::Body;
use crate::effect::{Change, Effect, Exit};
use crate::flow::{case_exit, is_within, jump_exit, next_exit, other_exit, row_at};
use crate::openings::{Opening, Openings};
use crate::seen::{Form, Seen};
use crate::walk::Walk;
use lp_code::program::{RawProgram, SwitchRow};
use lp_instr::instr::Case;
use std::alloc::AllocError;

/// The number of the list of open catches behind an exit.
fn changed(openings: &mut Openings, change: Change, form: Form) -> Result<usize, AllocError>
    requires { form.open < length openings.old }
    ensures list { IfOk result (λ k. list_at openings.new k ≡ changed change form.height (list_at openings.old form.open)) }
    ensures inside { IfOk result (λ k. k < length openings.new) }
    ensures more { OnOk result (GoesOn openings.old openings.new) }
{
    match change {
        Change::Stay => Ok(form.open),
        Change::Opens(to) => {
            let number = openings.open(Opening {
                to,
                height: form.height,
                outer: form.open,
            })?;
            Ok(number)
        }
        Change::Closes => match openings.innermost(form.open) {
            None => Ok(form.open),
            Some(opening) => Ok(opening.outer),
        },
    }
}

fn max_height(raw: &RawProgram) -> u32
    ensures is { result ≡ raw.now.max_height }
    ensures fits { raw.now.max_height < 2 ^ 32 }
{
    raw.max_height
}

/// The height behind an exit.
fn height_behind(
    openings: &Openings,
    body: &Body,
    at: usize,
    form: Form,
    effect: Effect,
    exit: Exit,
) -> u32
    requires { exit_holds body.now at (shape_of openings.now form) effect exit ≡ true }
    ensures { result ≡ (after (shape_of openings.now form) effect exit).height }
{
    let _max = max_height(body.raw());
    let _openings = openings;
    let _at = at;
    ((form.height as u64).saturating_sub(effect.takes) + exit.leaves) as u32
}

impl Walk {
    /// The shape behind an exit is learned.
    fn leave(
        &mut self,
        body: &Body,
        at: usize,
        form: Form,
        effect: Effect,
        exit: Exit,
    ) -> Result<(), AllocError>
        requires ready { IsReady body.now self.old (Seen.Once form) }
        requires held { exit_holds body.now at (shape_of self.old.openings form) effect exit ≡ true }
        ensures { OnOk result (Moves (once_at (shape_of self.old.openings form) effect exit ∷ []) self.old self.new) }
    {
        let height = height_behind(&self.openings, body, at, form, effect, exit);
        let open = changed(&mut self.openings, exit.change, form)?;
        self.learn(exit.to, Seen::Once(Form { height, open }))?;
        Ok(())
    }

    /// That paths mix behind an exit is learned.
    fn mix(&mut self, body: &Body, at: usize, effect: Effect, exit: Exit) -> Result<(), AllocError>
        requires inside { at < length body.now.instrs }
        requires ready { IsReady body.now self.old Seen.Mixed }
        ensures { OnOk result (Moves (leads body.now at (known_of self.old.openings Seen.Mixed) effect (exit ∷ [])) self.old self.new) }
    {
        let _effect = effect;
        if is_within(body, at, exit.to) {
            self.learn(exit.to, Seen::Mixed)?;
        }
        Ok(())
    }

    fn lead(
        &mut self,
        body: &Body,
        at: usize,
        known: Seen,
        effect: Effect,
        exit: Exit,
    ) -> Result<(), AllocError>
        requires inside { at < length body.now.instrs }
        requires ready { IsReady body.now self.old known }
        requires held { MayLead body.now at (known_of self.old.openings known) effect (exit ∷ []) }
        ensures { OnOk result (Moves (leads body.now at (known_of self.old.openings known) effect (exit ∷ [])) self.old self.new) }
    {
        match known {
            Seen::Never => Ok(()),
            Seen::Once(form) => {
                self.leave(body, at, form, effect, exit)?;
                Ok(())
            }
            Seen::Mixed => {
                self.mix(body, at, effect, exit)?;
                Ok(())
            }
        }
    }

    fn lead_one(
        &mut self,
        body: &Body,
        at: usize,
        known: Seen,
        effect: Effect,
        exit: Option<Exit>,
    ) -> Result<(), AllocError>
        requires inside { at < length body.now.instrs }
        requires ready { IsReady body.now self.old known }
        requires held { MayLead body.now at (known_of self.old.openings known) effect (option_to_list exit) }
        ensures { OnOk result (Moves (leads body.now at (known_of self.old.openings known) effect (option_to_list exit)) self.old self.new) }
    {
        match exit {
            None => Ok(()),
            Some(exit) => {
                self.lead(body, at, known, effect, exit)?;
                Ok(())
            }
        }
    }

    fn lead_cases(
        &mut self,
        body: &Body,
        at: usize,
        known: Seen,
        effect: Effect,
        cases: &[Case],
    ) -> Result<(), AllocError>
        requires inside { at < length body.now.instrs }
        requires ready { IsReady body.now self.old known }
        requires held { MayLead body.now at (known_of self.old.openings known) effect (map case_exit cases.now) }
        ensures { OnOk result (Moves (leads body.now at (known_of self.old.openings known) effect (map case_exit cases.now)) self.old self.new) }
    {
        for case in cases {
            self.lead(body, at, known, effect, case_exit(case))?;
        }
        Ok(())
    }

    fn lead_row(
        &mut self,
        body: &Body,
        at: usize,
        known: Seen,
        effect: Effect,
        row: Option<&SwitchRow>,
    ) -> Result<(), AllocError>
        requires inside { at < length body.now.instrs }
        requires ready { IsReady body.now self.old known }
        requires held { MayLead body.now at (known_of self.old.openings known) effect (row_exits (option_copied row)) }
        ensures { OnOk result (Moves (leads body.now at (known_of self.old.openings known) effect (row_exits (option_copied row.entry))) self.old self.new) }
    {
        match row {
            None => Ok(()),
            Some(row) => {
                self.lead(body, at, known, effect, other_exit(row))?;
                self.lead_cases(body, at, known, effect, row.cases.as_slice())?;
                Ok(())
            }
        }
    }

    /// What an instruction with an effect teaches of the places that it leads to.
    pub(crate) fn lead_all(
        &mut self,
        body: &Body,
        at: usize,
        known: Seen,
        effect: Effect,
    ) -> Result<(), AllocError>
        requires inside { at < length body.now.instrs }
        requires small { at + 1 < 2 ^ 64 }
        requires ready { IsReady body.now self.old known }
        requires held { MayLead body.now at (known_of self.old.openings known) effect (exits body.now at effect) }
        ensures { OnOk result (Moves (leads body.now at (known_of self.old.openings known) effect (exits body.now at effect)) self.old self.new) }
    {
        let next = next_exit(at, effect);
        let jump = jump_exit(effect);
        let row = row_at(body.raw(), effect);
        self.lead_one(body, at, known, effect, next)?;
        self.lead_one(body, at, known, effect, jump)?;
        self.lead_row(body, at, known, effect, row)?;
        Ok(())
    }
}

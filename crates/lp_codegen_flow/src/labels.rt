//! Labels of a switch, and the row that they make.
ghost use Rattle.std.specs.Prelude.{◌≡◌, ◌≢◌, MatchResult, None, is_some, ℕ};
ghost use Rattle.lp_tree.specs.declared.stmt.Label.TheVariants as kinds;
ghost use Rattle.lp_tree.specs.declared.stmt.Part.TheVariants as parts;
ghost use Rattle.lp_codegen_expr.specs.Clear.{Spares};
ghost use Rattle.lp_codegen_expr.specs.Drafts.{draft_of};
ghost use Rattle.lp_codegen_expr.specs.declared.scope.Scope.{Scope as ScopeOf};
ghost use Rattle.lp_codegen_flow.specs.Clear.{IsNew};
ghost use Rattle.lp_codegen_flow.specs.Switches.{HasSwitch, PartStands, or_end, row_of};

use lp_code::listed::Listed;
use lp_code::program::SwitchRow;
use lp_codegen_expr::code::{Code, GenFault, counted};
use lp_instr::instr::Case;
use lp_tree::stmt::{Constant, Label};

/// What is known of the labels of a switch so far.
#[derive(Drop)]
pub struct Labels {
    /// Those that compare, in their order, each with the place to go on at.
    pub cases: Vec<Case>,
    /// The place of `default`, where it was met.
    pub other: Option<u32>,
}

/// A label that compares with a value stands here.
fn gen_case(value: &Constant, labels: &mut Labels, into: &mut Code) -> Result<(), GenFault>
    ensures { MatchResult result (λ _. (line : ℕ) (s : ScopeOf) → PartStands (parts.Label (kinds.Case line value.now)) labels.old labels.new s s (draft_of into.old) (draft_of into.new)) (λ f. f ≢ GenFault.Unclear) }
{
    let here = into.here()?;
    match value {
        Constant::Int(n) => {
            labels.cases.push(Case::Ints(*n, *n, here))?;
            Ok(())
        }
        Constant::Text(text) => {
            let k = into.text(text)?;
            labels.cases.push(Case::Text(k, here))?;
            Ok(())
        }
    }
}

/// A label that compares with the integers of a range stands here.
fn gen_range(from: &i64, to: &i64, labels: &mut Labels, into: &mut Code) -> Result<(), GenFault>
    ensures { MatchResult result (λ _. (line : ℕ) (s : ScopeOf) → PartStands (parts.Label (kinds.Range line from.now to.now)) labels.old labels.new s s (draft_of into.old) (draft_of into.new)) (λ f. f ≢ GenFault.Unclear) }
{
    let here = into.here()?;
    labels.cases.push(Case::Ints(*from, *to, here))?;
    Ok(())
}

/// `default` stands here. There is one place for it, so a second one is refused.
fn gen_default(labels: &mut Labels, into: &mut Code) -> Result<(), GenFault>
    ensures { MatchResult result (λ _. (line : ℕ) (s : ScopeOf) → PartStands (parts.Label (kinds.Default line)) labels.old labels.new s s (draft_of into.old) (draft_of into.new)) (Spares (labels.old.other ≡ None)) }
{
    let here = into.here()?;
    match labels.other {
        None => {
            labels.other = Some(here);
            Ok(())
        }
        Some(_) => Err(GenFault::Unclear),
    }
}

/// A label stands here.
pub fn gen_label(label: &Label, labels: &mut Labels, into: &mut Code) -> Result<(), GenFault>
    ensures { MatchResult result (λ _. (s : ScopeOf) → PartStands (parts.Label label.now) labels.old labels.new s s (draft_of into.old) (draft_of into.new)) (Spares (IsNew (is_some labels.old.other) label.now)) }
{
    match label {
        Label::Case { value, .. } => {
            gen_case(value, labels, into)?;
            Ok(())
        }
        Label::Range { from, to, .. } => {
            gen_range(from, to, labels, into)?;
            Ok(())
        }
        Label::Default { .. } => {
            gen_default(labels, into)?;
            Ok(())
        }
    }
}

/// The place of `default`, or else the end.
fn place_or(other: Option<u32>, end: u32) -> u32
    ensures { result ≡ or_end other end }
{
    match other {
        Some(place) => place,
        None => end,
    }
}

/// The number of one more row of switches: that of these labels, where the end is the place for `default` if none stands
/// among them.
pub fn add_switch(labels: Labels, end: u32, into: &mut Code) -> Result<u32, GenFault>
    ensures { MatchResult result (λ k. HasSwitch k (row_of labels end) (draft_of into.old) (draft_of into.new)) (λ f. f ≢ GenFault.Unclear) }
{
    let row = counted(into.switches.len())?;
    let other = place_or(labels.other, end);
    into.switches.push(SwitchRow {
        cases: Listed::from_vec(labels.cases),
        other,
    })?;
    Ok(row)
}

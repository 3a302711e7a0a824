//! The directives of conditionals.
ghost use Rattle.std.specs.Prelude.{◌≡◌, ◌∷◌, List, false, not};
ghost use Rattle.lp_preproc.specs.Directives.{begun, begun_inside, else_line, is_elif_line as is_elif, endif, has_rest, if_name, one_name, skipped, stage_else, stage_if, with_groups};
ghost use Rattle.lp_preproc.specs.State.{Open, State};
ghost use Rattle.lp_preproc.specs.Tables.{macros_in};
ghost use Rattle.lp_preproc.specs.Steps.{Does, grouped, within};

use crate::definitions::one_name;
use crate::directive::Directive;
use crate::stack::Stack;
use crate::state::{Group, Stage};
use crate::stop::Stop;
use crate::table::Table;
use lp_tree::fault::FaultKind;
use lp_tree::token::Token;

// Whether what stands behind the word is a fault.
fn has_rest(group: &Group, rest: &[Token]) -> bool
    ensures { result ≡ has_rest group.now rest.now }
{
    rest.len() > 0 && !group.inner
}

// What a conditional is behind its `#else`.
fn stage_else(stage: Stage) -> Stage
    ensures { result ≡ stage_else stage }
{
    match stage {
        Stage::Waiting => Stage::Live,
        _ => Stage::Done,
    }
}

/// What a conditional is by its condition.
pub fn stage_if(holds: bool) -> Stage
    ensures { result ≡ stage_if holds }
{
    if holds { Stage::Live } else { Stage::Waiting }
}

/// A conditional begins by its condition.
pub fn begun(holds: bool) -> Group
    ensures { result ≡ begun holds }
{
    Group {
        stage: stage_if(holds),
        after_else: false,
        inner: false,
    }
}

/// `#else`
pub fn else_line(groups: &mut Stack<Group>, rest: &[Token], line: u32) -> Result<(), Stop>
    ensures { (s : State) (o : Open) (os : List Open) → Does (else_line (within s o groups.old os) groups.old rest.now line) result (within s o groups.new os) }
{
    let Some(group) = groups.pop() else {
        return Err(Stop::At(FaultKind::StrayElse, line));
    };
    if group.after_else {
        return Err(Stop::At(FaultKind::StrayElse, line));
    }
    if has_rest(&group, rest) {
        return Err(Stop::At(FaultKind::BadDirective, line));
    }
    groups.push(Group {
        stage: stage_else(group.stage),
        after_else: true,
        inner: group.inner,
    })?;
    Ok(())
}

/// `#endif`
pub fn endif(groups: &mut Stack<Group>, rest: &[Token], line: u32) -> Result<(), Stop>
    ensures { (s : State) (o : Open) (os : List Open) → Does (endif (within s o groups.old os) groups.old rest.now line) result (within s o groups.new os) }
{
    let Some(group) = groups.pop() else {
        return Err(Stop::At(FaultKind::StrayElse, line));
    };
    if has_rest(&group, rest) {
        return Err(Stop::At(FaultKind::BadDirective, line));
    }
    Ok(())
}

// A conditional begins in a skipped group.
fn begin_inside(groups: &mut Stack<Group>) -> Result<(), Stop>
    ensures { (s : State) (o : Open) (os : List Open) → Does (with_groups (within s o groups.old os) (begun_inside ∷ groups.old)) result (within s o groups.new os) }
{
    groups.push(Group {
        stage: Stage::Done,
        after_else: false,
        inner: true,
    })?;
    Ok(())
}

/// A directive in a skipped group, which is no `#elif`.
pub fn skipped(
    groups: &mut Stack<Group>,
    said: Option<Directive>,
    rest: &[Token],
    line: u32,
) -> Result<(), Stop>
    requires { is_elif said ≡ false }
    ensures { (s : State) (o : Open) (os : List Open) → Does (skipped (within s o groups.old os) (grouped o groups.old) said rest.now line) result (within s o groups.new os) }
{
    match said {
        Some(Directive::If) => begin_inside(groups),
        Some(Directive::Ifdef) => begin_inside(groups),
        Some(Directive::Ifndef) => begin_inside(groups),
        Some(Directive::Else) => else_line(groups, rest, line),
        Some(Directive::Endif) => endif(groups, rest, line),
        _ => Ok(()),
    }
}

/// `#ifdef`
pub fn ifdef(
    groups: &mut Stack<Group>,
    table: &Table,
    words: &[Token],
    line: u32,
) -> Result<(), Stop>
    ensures { (s : State) (o : Open) (os : List Open) → s.macros ≡ (macros_in table.now) → Does (if_name (within s o groups.old os) groups.old (one_name words.now) line (λ b. b)) result (within s o groups.new os) }
{
    let Some(name) = one_name(words) else {
        return Err(Stop::At(FaultKind::BadDirective, line));
    };
    groups.push(begun(table.find(name.as_slice()).is_some()))?;
    Ok(())
}

/// `#ifndef`
pub fn ifndef(
    groups: &mut Stack<Group>,
    table: &Table,
    words: &[Token],
    line: u32,
) -> Result<(), Stop>
    ensures { (s : State) (o : Open) (os : List Open) → s.macros ≡ (macros_in table.now) → Does (if_name (within s o groups.old os) groups.old (one_name words.now) line not) result (within s o groups.new os) }
{
    let Some(name) = one_name(words) else {
        return Err(Stop::At(FaultKind::BadDirective, line));
    };
    groups.push(begun(table.find(name.as_slice()).is_none()))?;
    Ok(())
}

//! Switches.
ghost use Rattle.std.specs.Prelude.{◌≡◌, ◌<◌, ◌≤◌, Some, length, slice_get};
ghost use Rattle.std.specs.Option.{option_copied};
ghost use Rattle.lp_code.specs.declared.program.SwitchRow.{SwitchRow as Row};
ghost use Rattle.lp_isa.specs.Machine.{case_fits, is_text_at, table_place};
ghost use Rattle.lp_language.specs.Operations.{is_between};
ghost use Rattle.lp_instr.specs.Code.{case_place};
ghost use Rattle.lp_step.specs.Steps.{Keeps, Performs};
ghost use Rattle.lp_step.specs.Switches.{with_texts};

use crate::next::Next;
use crate::stack::pop;
use lp_code::program::SwitchRow;
use lp_instr::instr::{Case, Instr};
use lp_values::text::Text;
use lp_values::value::Value;
use lp_world::frame::Frame;
use lp_world::live::Live;

/// Whether a value is an integer from a first to a last one.
fn is_between(first: i64, last: i64, v: &Value) -> bool
    ensures { result ≡ is_between first last v.now }
{
    match v {
        Value::Int(n) => first <= *n && *n <= last,
        _ => false,
    }
}

/// Whether a value is this text. No value is a text that is not there.
fn is_text_at(text: Option<&Text>, v: &Value) -> bool
    ensures { result ≡ is_text_at (option_copied text.entry) v.now }
{
    match (text, v) {
        (Some(text), Value::Str(s)) => *s == *text,
        _ => false,
    }
}

/// Whether a label fits a value as read, among these texts.
fn fits(case: &Case, v: &Value, texts: &[Text]) -> bool
    ensures { result ≡ case_fits (with_texts texts.now) case.now v.now }
{
    match case {
        Case::Ints(first, last, _) => is_between(*first, *last, v),
        Case::Text(k, _) => is_text_at(texts.get(*k as usize), v),
    }
}

/// The place of a label.
fn place_of(case: &Case) -> u32
    ensures { result ≡ case_place case.now }
{
    match case {
        Case::Ints(_, _, to) => *to,
        Case::Text(_, to) => *to,
    }
}

/// The place of the first label that fits a value as read, or else the other place. The labels stand in the
/// order of the source, so each is looked at.
fn place_in_row(cases: &[Case], other: u32, v: &Value, texts: &[Text]) -> u32
    ensures { result ≡ table_place (with_texts texts.now) v.now cases.now other }
{
    for case in cases {
        if fits(case, v, texts) {
            return place_of(case);
        }
    }
    other
}

/// Where a row of the program's list of switches leads with a value as read. Nothing of the row is copied.
fn place_at(frame: &Frame, k: u32, v: &Value) -> u32
    requires { k < length frame.now.code.switches }
    ensures { (row : Row) → slice_get frame.now.code.switches k ≡ Some row → result ≡ table_place (with_texts frame.now.code.consts) v.now row.cases row.other }
{
    let raw = frame.code.raw();
    let row = &raw.switches.as_slice()[k as usize];
    place_in_row(row.cases.as_slice(), row.other, v, raw.consts.as_slice())
}

/// Goes on where a row of the program's list of switches says: takes a value.
pub fn switch_on(live: &Live, stack: &mut Vec<Value>, frame: &mut Frame, k: u32) -> Next
    requires operands { 1 ≤ length stack.old.items }
    requires there { k < length frame.old.code.switches }
    ensures table { (budget : _) → Performs (Instr.Switch k) live.now stack.old.items frame.old budget result live.now stack.new.items frame.new budget }
    ensures keeps { Keeps live.now stack.old.items result live.now stack.new.items }
{
    let v = pop(stack).into_read(&live.objects);
    frame.at = place_at(frame, k, &v);
    Next::Again
}

//! Breaks and continues become jumps.
ghost use Rattle.std.specs.Prelude.{◌≡◌};
ghost use Rattle.lp_codegen_flow.specs.Led.{Led, lead_to};

use lp_codegen_expr::code::Draft;
use lp_instr::instr::Instr;

/// Makes each break from a place on a jump to `out`, and each continue one to `again`, where that is given.
pub fn lead(code: &mut Vec<Draft>, from: u32, out: u32, again: Option<u32>)
    ensures { Led from out again code.old.items code.new.items }
{
    for k in from as usize..code.len() {
        code[k] = led(code[k], out, again);
    }
}

/// One instruction, where a break leads to `out`, and a continue to `again`, where that is given.
fn led(draft: Draft, out: u32, again: Option<u32>) -> Draft
    ensures { result ≡ lead_to out again draft }
{
    match draft {
        Draft::Done(instr) => Draft::Done(instr),
        Draft::Break => Draft::Done(Instr::Jump(out)),
        Draft::Continue => match again {
            Some(place) => Draft::Done(Instr::Jump(place)),
            None => Draft::Continue,
        },
    }
}

//! How high the stack may become.
ghost use Rattle.std.specs.Prelude.{◌≡◌, ◌≢◌, MatchResult};
ghost use Rattle.lp_codegen_expr.specs.declared.code.GenFault.TheVariants.{Unclear};
ghost use Rattle.lp_sound_laws.specs.Heights.{gain as gained, gains};

use lp_codegen_expr::code::GenFault;
use lp_instr::instr::Instr;

/// How many values an instruction leaves at most beyond those that it takes.
fn gain(instr: Instr) -> u64
    ensures { result ≡ gained instr }
{
    match instr {
        Instr::PushInt(_) => 1,
        Instr::PushText(_) => 1,
        Instr::PushLocal(_) => 1,
        Instr::PushGlobal(_) => 1,
        Instr::Dup => 1,
        Instr::Dup2 => 2,
        Instr::MakeArray(_) => 1,
        Instr::MakeMap(_) => 1,
        Instr::CallSlot(_, _) => 1,
        Instr::CallFixed(_, _, _) => 1,
        Instr::CallEfun(_, _) => 1,
        Instr::CallSimul(_, _) => 1,
        Instr::Scan(n) => 2 * (n as u64) + 1,
        Instr::CatchBegin(_) => 1,
        Instr::EachBegin(_) => 1,
        Instr::EachNext(_, n) => n as u64,
        _ => 0,
    }
}

/// A greatest height: what all these instructions leave together. The stack of a function never becomes higher, since no
/// place is reached with two heights.
pub(crate) fn greatest_height(instrs: &[Instr]) -> Result<u32, GenFault>
    ensures { MatchResult result (λ n. n ≡ gains instrs.now) (λ f. f ≢ Unclear) }
{
    let mut total = 0u64;
    for instr in instrs {
        match total.checked_add(gain(*instr)) {
            Some(sum) => total = sum,
            None => return Err(GenFault::TooLarge),
        }
    }
    if total < 4294967296 {
        Ok(total as u32)
    } else {
        Err(GenFault::TooLarge)
    }
}

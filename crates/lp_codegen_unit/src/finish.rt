//! Code under construction in which no jump is open becomes instructions.
ghost use Rattle.std.specs.Prelude.{◌≡◌, IfErr, IfOk, map};
ghost use Rattle.lp_codegen_unit.specs.Finish.{IsInstr, Finishes, RefusesOpen};

use lp_code::program::{FunRow, SwitchRow};
use lp_codegen_expr::code::{Code, Draft, GenFault};
use lp_codegen_expr::texts::Texts;
use lp_instr::instr::Instr;
use lp_values::text::Text;
use std::alloc::{AllocError, Global};

/// The code of a unit.
#[derive(Drop)]
pub struct UnitCode {
    /// The instructions of its functions, and of its initialisers behind them.
    pub instrs: Vec<Instr>,
    /// The texts, each once.
    pub texts: Vec<Text>,
    /// The switches.
    pub switches: Vec<SwitchRow>,
    /// The functions, in the order of the unit's text, and the initialisers behind them, where there are some.
    pub funs: Vec<FunRow>,
}

/// The instruction, where no jump is open.
fn instr_of(draft: Draft) -> Option<Instr>
    ensures { IsInstr draft result }
{
    match draft {
        Draft::Done(instr) => Some(instr),
        Draft::Break => None,
        Draft::Continue => None,
    }
}

/// The instructions of code in which no jump is open.
fn instrs_of(alloc: Global, drafts: &[Draft]) -> Result<Vec<Instr>, GenFault>
    ensures ok { IfOk result (λ v. map Draft.Done v.items ≡ drafts.now) }
    ensures err { IfErr result (RefusesOpen drafts.now) }
{
    let mut instrs = Vec::with_capacity(alloc, drafts.len())?;
    for draft in drafts {
        match instr_of(*draft) {
            Some(instr) => instrs.push(instr)?,
            None => return Err(GenFault::Unclear),
        }
    }
    Ok(instrs)
}

/// The texts of code, in their order.
fn texts_of(alloc: Global, texts: &Texts) -> Result<Vec<Text>, AllocError>
    ensures { IfOk result (λ v. v.items ≡ texts.now) }
{
    let all = texts.as_slice();
    let mut copies = Vec::with_capacity(alloc, all.len())?;
    for text in all {
        copies.push(text.copy()?)?;
    }
    Ok(copies)
}

/// Code in which no jump is open, with the rows of its functions.
pub fn finish(alloc: Global, code: Code, funs: Vec<FunRow>) -> Result<UnitCode, GenFault>
    ensures ok { IfOk result (Finishes code funs.items) }
    ensures err { IfErr result (RefusesOpen code.instrs.items) }
{
    let instrs = instrs_of(alloc, code.instrs.as_slice())?;
    let texts = texts_of(alloc, &code.texts)?;
    let Code { switches, .. } = code;
    Ok(UnitCode {
        instrs,
        texts,
        switches,
        funs,
    })
}

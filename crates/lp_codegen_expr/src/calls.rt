//! The code of calls, whose arguments are on the stack.
ghost use Rattle.std.specs.Prelude.{MatchResult};
ghost use Rattle.lp_codegen_expr.specs.Names.{Plan, layout_of};
ghost use Rattle.lp_codegen_expr.specs.Clear.{IsCalled, IsEfun, IsParentCalled, Spares};
ghost use Rattle.lp_codegen_expr.specs.Drafts.{Adds, draft_of, of_call, of_efun_call, of_parent_call};

use crate::code::{Code, GenFault, counted};
use crate::scope::{Called, Layout, callee, parent_row};
use lp_instr::efun::Efun;
use lp_instr::instr::Instr;
use lp_tree::chars::Chars;

/// A call by a name, with so many arguments.
pub fn gen_call(
    name: &Chars,
    count: usize,
    layout: &Layout,
    into: &mut Code,
) -> Result<(), GenFault>
    ensures { MatchResult result (λ _. Adds (layout_of layout.now) (of_call name.now count) (draft_of into.old) (draft_of into.new)) (Spares (IsCalled (layout_of layout.now) name.now)) }
{
    let n = counted(count)?;
    match callee(layout, name) {
        Called::Row(k) => {
            let k = counted(k)?;
            into.put(Instr::CallSlot(k, n))?;
            Ok(())
        }
        Called::Simul => {
            let k = into.text(name)?;
            into.put(Instr::CallSimul(k, n))?;
            Ok(())
        }
        Called::Efun(e) => {
            into.put(Instr::CallEfun(e, n))?;
            Ok(())
        }
        Called::Nobody => Err(GenFault::Unclear),
    }
}

/// A call of an efun by its name, with so many arguments.
pub fn gen_efun_call(name: &Chars, count: usize, into: &mut Code) -> Result<(), GenFault>
    ensures { MatchResult result (λ _. (l : Plan) → Adds l (of_efun_call name.now count) (draft_of into.old) (draft_of into.new)) (Spares (IsEfun name.now)) }
{
    let n = counted(count)?;
    match Efun::named(name.as_slice()) {
        Some(e) => {
            into.put(Instr::CallEfun(e, n))?;
            Ok(())
        }
        None => Err(GenFault::Unclear),
    }
}

/// A call of a parent's function, with so many arguments.
pub fn gen_parent_call(
    parent: Option<usize>,
    name: &Chars,
    count: usize,
    layout: &Layout,
    into: &mut Code,
) -> Result<(), GenFault>
    ensures { MatchResult result (λ _. Adds (layout_of layout.now) (of_parent_call parent name.now count) (draft_of into.old) (draft_of into.new)) (Spares (IsParentCalled (layout_of layout.now) parent name.now)) }
{
    let n = counted(count)?;
    match parent {
        Some(p) => match parent_row(layout, p, name) {
            Some(k) => {
                let k = counted(k)?;
                let p = counted(p)?;
                into.put(Instr::CallFixed(p, k, n))?;
                Ok(())
            }
            None => Err(GenFault::Unclear),
        },
        None => Err(GenFault::Unclear),
    }
}

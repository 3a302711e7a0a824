//! The code of texts, names and places.
ghost use Rattle.std.specs.Prelude.{◌≢◌, MatchResult};
ghost use Rattle.lp_codegen_expr.specs.Names.{Plan, layout_of};
ghost use Rattle.lp_codegen_expr.specs.Clear.{IsPlaceClear, IsVariable, Spares};
ghost use Rattle.lp_codegen_expr.specs.Drafts.{Adds, draft_of, of_close, of_pushes, of_read, of_write_slot};

use crate::code::{Code, GenFault, counted};
use crate::scope::{Scope, Variable, look_up};
use lp_instr::instr::Instr;
use lp_tree::chars::Chars;
use lp_tree::expr::Expr;

/// Code that pushes a text.
pub fn gen_text(text: &Chars, into: &mut Code) -> Result<(), GenFault>
    ensures { MatchResult result (λ _. (l : Plan) → Adds l (of_pushes text.now) (draft_of into.old) (draft_of into.new)) (λ f. f ≢ GenFault.Unclear) }
{
    let k = into.text(text)?;
    into.put(Instr::PushText(k))?;
    Ok(())
}

/// Code that pushes a variable.
pub fn gen_read(name: &Chars, scope: &Scope, into: &mut Code) -> Result<(), GenFault>
    ensures { MatchResult result (λ _. Adds (layout_of scope.now.layout) (of_read scope.now.locals.items name.now) (draft_of into.old) (draft_of into.new)) (Spares (IsVariable (layout_of scope.now.layout) scope.now.locals.items name.now)) }
{
    match look_up(scope, name) {
        Variable::Local(k) => {
            let k = counted(k)?;
            into.put(Instr::PushLocal(k))?;
            Ok(())
        }
        Variable::Global(k) => {
            let k = counted(k)?;
            into.put(Instr::PushGlobal(k))?;
            Ok(())
        }
        Variable::Nothing => Err(GenFault::Unclear),
    }
}

/// Code that writes what is on top to a variable, and leaves it there.
pub fn gen_write_slot(name: &Chars, scope: &Scope, into: &mut Code) -> Result<(), GenFault>
    ensures { MatchResult result (λ _. Adds (layout_of scope.now.layout) (of_write_slot scope.now.locals.items name.now) (draft_of into.old) (draft_of into.new)) (Spares (IsVariable (layout_of scope.now.layout) scope.now.locals.items name.now)) }
{
    match look_up(scope, name) {
        Variable::Local(k) => {
            let k = counted(k)?;
            into.put(Instr::SetLocal(k))?;
            Ok(())
        }
        Variable::Global(k) => {
            let k = counted(k)?;
            into.put(Instr::SetGlobal(k))?;
            Ok(())
        }
        Variable::Nothing => Err(GenFault::Unclear),
    }
}

/// Code that writes what is on top to a place that was read, of which the container and the index lie below.
pub fn gen_close(place: &Expr, scope: &Scope, into: &mut Code) -> Result<(), GenFault>
    ensures { MatchResult result (λ _. Adds (layout_of scope.now.layout) (of_close scope.now.locals.items place.now) (draft_of into.old) (draft_of into.new)) (Spares (IsPlaceClear (layout_of scope.now.layout) scope.now.locals.items place.now)) }
{
    match place {
        Expr::Name { name, .. } => {
            gen_write_slot(name, scope, into)?;
            Ok(())
        }
        Expr::Index { edge, .. } => {
            into.put(Instr::SetIndex(*edge))?;
            Ok(())
        }
        _ => Err(GenFault::Unclear),
    }
}

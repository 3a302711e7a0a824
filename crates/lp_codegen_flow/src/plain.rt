//! The code of what statements have beside other statements.
ghost use Rattle.std.specs.Prelude.{◌≡◌, ◌≢◌, ◌∷◌, [], List, MatchResult, ℕ, map, option_map};
ghost use Rattle.lp_tree.specs.TreeView.{tree_of};
ghost use Rattle.lp_tree.specs.Statements.{Break as BreakTree, Continue as ContinueTree, Return as ReturnTree};
ghost use Rattle.lp_tree.specs.StatementView.{declarator_of, init_of};
ghost use Rattle.lp_codegen_expr.specs.Names.{Plan, layout_of};
ghost use Rattle.lp_codegen_expr.specs.Clear.{IsClear, Spares};
ghost use Rattle.lp_codegen_expr.specs.Drafts.{Adds, draft_of};
ghost use Rattle.lp_codegen_flow.specs.Clear.{AreClearEaches, AreClearOnes, IsClearEach, IsClearIf, IsClearInit, IsClearSecond};
ghost use Rattle.lp_codegen_flow.specs.Flows.{EachStands, EachesStand, InitStands, OnesStand, SecondStands, count_of, of_run, of_run_if, of_stmt, of_test, of_value_if};

use lp_codegen_expr::code::{Code, Draft, GenFault, counted};
use lp_codegen_expr::expr::gen_expr;
use lp_codegen_expr::plain::gen_write_slot;
use lp_codegen_expr::scope::Scope;
use lp_instr::instr::Instr;
use lp_tree::expr::Expr;
use lp_tree::stmt::{Declarator, Each, Init, Local};

/// The code of an expression whose value is dropped.
pub fn gen_run(e: &Expr, scope: &Scope, into: &mut Code) -> Result<(), GenFault>
    ensures { MatchResult result (λ _. Adds (layout_of scope.now.layout) (of_run (tree_of e.now) scope.now.locals.items) (draft_of into.old) (draft_of into.new)) (Spares (IsClear (layout_of scope.now.layout) scope.now.locals.items (tree_of e.now))) }
{
    gen_expr(e, scope, into)?;
    into.put(Instr::Pop)?;
    Ok(())
}

/// The same, where there is one.
pub fn gen_run_if(e: &Option<Expr>, scope: &Scope, into: &mut Code) -> Result<(), GenFault>
    ensures { MatchResult result (λ _. Adds (layout_of scope.now.layout) (of_run_if (option_map tree_of e.now) scope.now.locals.items) (draft_of into.old) (draft_of into.new)) (Spares (IsClearIf (layout_of scope.now.layout) scope.now.locals.items (option_map tree_of e.now))) }
{
    match e {
        Some(of) => {
            gen_run(of, scope, into)?;
            Ok(())
        }
        None => Ok(()),
    }
}

/// The code of an expression, or of 0 where there is none.
pub fn gen_value_if(e: &Option<Expr>, scope: &Scope, into: &mut Code) -> Result<(), GenFault>
    ensures { MatchResult result (λ _. Adds (layout_of scope.now.layout) (of_value_if (option_map tree_of e.now) scope.now.locals.items) (draft_of into.old) (draft_of into.new)) (Spares (IsClearIf (layout_of scope.now.layout) scope.now.locals.items (option_map tree_of e.now))) }
{
    match e {
        Some(of) => {
            gen_expr(of, scope, into)?;
            Ok(())
        }
        None => {
            into.put(Instr::PushInt(0))?;
            Ok(())
        }
    }
}

/// A jump back to a place while a test is not 0; one that is not given never is.
pub fn gen_test(e: &Option<Expr>, turn: u32, scope: &Scope, into: &mut Code) -> Result<(), GenFault>
    ensures { MatchResult result (λ _. Adds (layout_of scope.now.layout) (of_test (option_map tree_of e.now) turn scope.now.locals.items) (draft_of into.old) (draft_of into.new)) (Spares (IsClearIf (layout_of scope.now.layout) scope.now.locals.items (option_map tree_of e.now))) }
{
    match e {
        Some(of) => {
            gen_expr(of, scope, into)?;
            into.put(Instr::JumpIfNotZero(turn))?;
            Ok(())
        }
        None => {
            into.put(Instr::Jump(turn))?;
            Ok(())
        }
    }
}

/// The code of a `break`, whose place is not known yet.
pub fn gen_break(into: &mut Code) -> Result<(), GenFault>
    ensures { MatchResult result (λ _. (l : Plan) (line : ℕ) (ns : List (List ℕ)) → Adds l (of_stmt (BreakTree line) ns) (draft_of into.old) (draft_of into.new)) (λ f. f ≢ GenFault.Unclear) }
{
    into.put_open(Draft::Break)?;
    Ok(())
}

/// The code of a `continue`, whose place is not known yet.
pub fn gen_continue(into: &mut Code) -> Result<(), GenFault>
    ensures { MatchResult result (λ _. (l : Plan) (line : ℕ) (ns : List (List ℕ)) → Adds l (of_stmt (ContinueTree line) ns) (draft_of into.old) (draft_of into.new)) (λ f. f ≢ GenFault.Unclear) }
{
    into.put_open(Draft::Continue)?;
    Ok(())
}

/// The code of a `return`.
pub fn gen_return(value: &Option<Expr>, scope: &Scope, into: &mut Code) -> Result<(), GenFault>
    ensures { MatchResult result (λ _. (line : ℕ) → Adds (layout_of scope.now.layout) (of_stmt (ReturnTree line (option_map tree_of value.now)) scope.now.locals.items) (draft_of into.old) (draft_of into.new)) (Spares (IsClearIf (layout_of scope.now.layout) scope.now.locals.items (option_map tree_of value.now))) }
{
    match value {
        Some(e) => {
            gen_expr(e, scope, into)?;
            into.put(Instr::Return)?;
            Ok(())
        }
        None => {
            into.put(Instr::ReturnZero)?;
            Ok(())
        }
    }
}

/// The code of a local that is declared. It is seen behind its own value.
fn gen_one(one: &Declarator, scope: &mut Scope, into: &mut Code) -> Result<(), GenFault>
    ensures { MatchResult result (λ _. OnesStand (declarator_of one.now ∷ []) scope.old scope.new (draft_of into.old) (draft_of into.new)) (Spares (IsClearIf (layout_of scope.old.layout) scope.old.locals.items (option_map tree_of one.now.value))) }
{
    gen_value_if(&one.value, scope, into)?;
    let slot = counted(scope.locals.len())?;
    into.put_all(&[Instr::SetLocal(slot), Instr::Pop])?;
    scope.locals.push(one.name.copy()?)?;
    Ok(())
}

/// The code of a declaration.
pub fn gen_local(local: &Local, scope: &mut Scope, into: &mut Code) -> Result<(), GenFault>
    ensures { MatchResult result (λ _. OnesStand (map declarator_of local.now.ones.items) scope.old scope.new (draft_of into.old) (draft_of into.new)) (Spares (AreClearOnes (layout_of scope.old.layout) scope.old.locals.items (map declarator_of local.now.ones.items))) }
{
    for one in &local.ones {
        gen_one(one, scope, into)?;
    }
    Ok(())
}

/// The code of the first part of a `for`.
pub fn gen_init(init: &Init, scope: &mut Scope, into: &mut Code) -> Result<(), GenFault>
    ensures { MatchResult result (λ _. InitStands (init_of init.now) scope.old scope.new (draft_of into.old) (draft_of into.new)) (Spares (IsClearInit (layout_of scope.old.layout) scope.old.locals.items (init_of init.now))) }
{
    match init {
        Init::Nothing => Ok(()),
        Init::Declares(local) => {
            gen_local(local, scope, into)?;
            Ok(())
        }
        Init::Runs(e) => {
            gen_run(e, scope, into)?;
            Ok(())
        }
    }
}

/// How many variables a `foreach` has.
pub fn each_vars(second: &Option<Each>) -> u32
    ensures { result ≡ count_of second.now }
{
    match second {
        Some(_) => 2,
        None => 1,
    }
}

/// Code by which a variable of a `foreach` takes its value from the stack.
fn gen_each(each: &Each, scope: &mut Scope, into: &mut Code) -> Result<(), GenFault>
    ensures { MatchResult result (λ _. EachStands each.now scope.old scope.new (draft_of into.old) (draft_of into.new)) (Spares (IsClearEach (layout_of scope.old.layout) scope.old.locals.items each.now)) }
{
    match each.type_name {
        Some(_) => {
            let slot = counted(scope.locals.len())?;
            into.put_all(&[Instr::SetLocal(slot), Instr::Pop])?;
            scope.locals.push(each.name.copy()?)?;
            Ok(())
        }
        None => {
            gen_write_slot(&each.name, scope, into)?;
            into.put(Instr::Pop)?;
            Ok(())
        }
    }
}

/// The same, of the second variable, where there is one.
fn gen_second(second: &Option<Each>, scope: &mut Scope, into: &mut Code) -> Result<(), GenFault>
    ensures { MatchResult result (λ _. SecondStands second.now scope.old scope.new (draft_of into.old) (draft_of into.new)) (Spares (IsClearSecond (layout_of scope.old.layout) scope.old.locals.items second.now)) }
{
    match second {
        Some(each) => {
            gen_each(each, scope, into)?;
            Ok(())
        }
        None => Ok(()),
    }
}

/// Code by which the variables of a `foreach` take their values from the stack.
pub fn gen_eaches(
    first: &Each,
    second: &Option<Each>,
    scope: &mut Scope,
    into: &mut Code,
) -> Result<(), GenFault>
    ensures { MatchResult result (λ _. EachesStand first.now second.now scope.old scope.new (draft_of into.old) (draft_of into.new)) (Spares (AreClearEaches (layout_of scope.old.layout) scope.old.locals.items first.now second.now)) }
{
    gen_each(first, scope, into)?;
    gen_second(second, scope, into)?;
    Ok(())
}

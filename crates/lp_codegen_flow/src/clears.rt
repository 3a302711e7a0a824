//! The code by which locals become 0 where their declaration may be passed over.
ghost use Rattle.std.specs.Prelude.{◌≡◌, ◌≢◌, ◌+◌, ◌++◌, MatchResult, length};
ghost use Rattle.lp_tree.specs.StatementView.{init_of, stmt_of};
ghost use Rattle.lp_tree.specs.Pieces.{parts_of};
ghost use Rattle.lp_language.specs.Scope.{declared, declared_each, declared_first, declared_parts, declared_second, slots_from};
ghost use Rattle.lp_codegen_expr.specs.Names.{Plan};
ghost use Rattle.lp_codegen_expr.specs.Drafts.{Adds, draft_of};
ghost use Rattle.lp_codegen_flow.specs.Switches.{declared_part};
ghost use Rattle.lp_codegen_flow.specs.Cleared.{Cleared, cleared_by, hidden_by, inside_of, local_by, names_in, of_clears};

use lp_codegen_expr::code::{Code, GenFault, counted};
use lp_instr::instr::Instr;
use lp_tree::stmt::{Each, Init, Local, Part, Stmt};

/// Which locals of a statement become 0.
#[derive(Clone, Copy, Drop)]
pub enum Which {
    /// Those that stand in no block of it and whose declaration may be passed over.
    Loose,
    /// The same, and its own where it is a declaration.
    Own,
    /// All that are seen behind it.
    All,
}

/// The slot behind so many more.
pub fn past(first: u32, count: usize) -> Result<u32, GenFault>
    ensures { MatchResult result (λ k. k ≡ first + count) (λ f. f ≢ GenFault.Unclear) }
{
    match (first as usize).checked_add(count) {
        Some(k) => counted(k),
        None => Err(GenFault::TooLarge),
    }
}

/// Which of a part of an `if` or a loop.
fn inside(which: Which) -> Which
    ensures { result ≡ inside_of which }
{
    match which {
        Which::Loose => Which::Own,
        Which::Own => Which::Own,
        Which::All => Which::All,
    }
}

/// How many locals the first part of a `for` declares.
fn init_count(init: &Init) -> usize
    ensures { result ≡ length (declared_first (init_of init.now)) }
{
    match init {
        Init::Nothing => 0,
        Init::Declares(local) => local.ones.len(),
        Init::Runs(_) => 0,
    }
}

/// How many locals a variable of a `foreach` declares: itself, where it has a type.
fn each_count(each: &Each) -> usize
    ensures { result ≡ length (declared_each each.now) }
{
    if each.type_name.is_some() { 1 } else { 0 }
}

/// How many locals the variables of a `foreach` declare.
fn eaches_count(first: &Each, second: &Option<Each>) -> usize
    ensures { result ≡ length (declared_each first.now ++ declared_second second.now) }
{
    match second {
        Some(each) => each_count(first) + each_count(each),
        None => each_count(first),
    }
}

/// The locals of a declaration, from a slot on, become 0. The answer is the slot behind them.
fn clear_each(local: &Local, first: u32, into: &mut Code) -> Result<u32, GenFault>
    ensures { MatchResult result (λ k. Cleared (slots_from first (names_in local.now.ones.items)) first (length local.now.ones.items) k (draft_of into.old) (draft_of into.new)) (λ f. f ≢ GenFault.Unclear) }
{
    let mut slot = first;
    for _one in &local.ones {
        into.put_all(&[Instr::PushInt(0), Instr::SetLocal(slot), Instr::Pop])?;
        slot = past(slot, 1)?;
    }
    Ok(slot)
}

/// The locals of a declaration, from a slot on, become 0, where they are among those that do. The answer is the slot
/// behind them.
fn clear_local(local: &Local, which: Which, first: u32, into: &mut Code) -> Result<u32, GenFault>
    ensures { MatchResult result (λ k. Cleared (local_by which (names_in local.now.ones.items) first) first (length local.now.ones.items) k (draft_of into.old) (draft_of into.new)) (λ f. f ≢ GenFault.Unclear) }
{
    match which {
        Which::Loose => past(first, local.ones.len()),
        Which::Own => clear_each(local, first, into),
        Which::All => clear_each(local, first, into),
    }
}

/// Some of the locals of a statement, from a slot on, become 0. The answer is the slot behind all that are seen behind it.
#[cycle(clears)]
pub fn gen_clears(s: &Stmt, which: Which, first: u32, into: &mut Code) -> Result<u32, GenFault>
    ensures { MatchResult result (λ k. Cleared (cleared_by which (stmt_of s.now) first) first (length (declared (stmt_of s.now))) k (draft_of into.old) (draft_of into.new)) (λ f. f ≢ GenFault.Unclear) }
{
    match s {
        Stmt::Block { .. } => Ok(first),
        Stmt::Empty { .. } => Ok(first),
        Stmt::Run { .. } => Ok(first),
        Stmt::Declares { local, .. } => {
            let next = clear_local(local, which, first, into)?;
            Ok(next)
        }
        Stmt::If { yes, no, .. } => {
            let between = gen_clears(yes, inside(which), first, into)?;
            match no {
                Some(other) => {
                    let next = gen_clears(other, inside(which), between, into)?;
                    Ok(next)
                }
                None => Ok(between),
            }
        }
        Stmt::While { body, .. } => {
            let next = gen_clears(body, inside(which), first, into)?;
            Ok(next)
        }
        Stmt::DoWhile { body, .. } => {
            let next = gen_clears(body, inside(which), first, into)?;
            Ok(next)
        }
        Stmt::For { init, body, .. } => {
            let inner = past(first, init_count(init))?;
            clear_hidden(body, which, inner, into)?;
            Ok(first)
        }
        Stmt::Foreach {
            first: one,
            second,
            body,
            ..
        } => {
            let inner = past(first, eaches_count(one, second))?;
            clear_hidden(body, which, inner, into)?;
            Ok(first)
        }
        Stmt::Switch { .. } => Ok(first),
        Stmt::Break { .. } => Ok(first),
        Stmt::Continue { .. } => Ok(first),
        Stmt::Return { .. } => Ok(first),
    }
}

/// The same, of a body whose locals are not seen behind its loop.
#[cycle(clears)]
fn clear_hidden(body: &Stmt, which: Which, first: u32, into: &mut Code) -> Result<(), GenFault>
    ensures { MatchResult result (λ _. (l : Plan) → Adds l (of_clears (hidden_by which (stmt_of body.now) first)) (draft_of into.old) (draft_of into.new)) (λ f. f ≢ GenFault.Unclear) }
{
    match which {
        Which::Loose => {
            gen_clears(body, Which::Loose, first, into)?;
            Ok(())
        }
        Which::Own => {
            gen_clears(body, Which::Loose, first, into)?;
            Ok(())
        }
        Which::All => Ok(()),
    }
}

/// All locals of a part of a switch, from a slot on, become 0. The answer is the slot behind them.
fn clear_part(part: &Part<Stmt>, first: u32, into: &mut Code) -> Result<u32, GenFault>
    ensures { MatchResult result (λ k. Cleared (slots_from first (declared_part part.now)) first (length (declared_part part.now)) k (draft_of into.old) (draft_of into.new)) (λ f. f ≢ GenFault.Unclear) }
{
    match part {
        Part::Label(_) => Ok(first),
        Part::Stmt(s) => {
            let next = gen_clears(s, Which::All, first, into)?;
            Ok(next)
        }
    }
}

/// All locals of the parts of a switch, from a slot on, become 0.
pub fn clear_parts(parts: &Vec<Part<Stmt>>, first: u32, into: &mut Code) -> Result<(), GenFault>
    ensures { MatchResult result (λ _. (l : Plan) → Adds l (of_clears (slots_from first (declared_parts (parts_of parts.now.items)))) (draft_of into.old) (draft_of into.new)) (λ f. f ≢ GenFault.Unclear) }
{
    let mut slot = first;
    for part in parts {
        slot = clear_part(part, slot, into)?;
    }
    Ok(())
}

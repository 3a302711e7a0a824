//! How many slots the locals of a function take.
ghost use Rattle.std.specs.Prelude.{◌≡◌, ◌≢◌, ◌++◌, MatchResult, length, map, max};
ghost use Rattle.lp_tree.specs.Pieces.{parts_of};
ghost use Rattle.lp_tree.specs.StatementView.{init_of, stmt_of, stmt_trees};
ghost use Rattle.lp_language.specs.Scope.{declared_each, declared_first, declared_second, slots_in_all as slots_of_all};
ghost use Rattle.lp_codegen_unit.specs.Used.{UsesParts, UsesSlots};

use lp_codegen_expr::code::GenFault;
use lp_codegen_flow::clears::past;
use lp_tree::stmt::{Each, Init, Part, Stmt};

/// The slots that a statement takes.
#[derive(Clone, Copy, Drop)]
pub struct Used {
    /// How many are in use at most.
    pub most: u32,
    /// The slot behind the locals that are seen behind it.
    pub next: u32,
}

fn larger(a: u32, b: u32) -> u32
    ensures { result ≡ max a b }
{
    if a < b { b } else { a }
}

// How many locals the first part of a `for` declares.
fn init_count(init: &Init) -> usize
    ensures { result ≡ length (declared_first (init_of init.now)) }
{
    match init {
        Init::Nothing => 0,
        Init::Declares(local) => local.ones.len(),
        Init::Runs(_) => 0,
    }
}

// How many locals a variable of a `foreach` declares: itself, where it has a type.
fn each_count(each: &Each) -> usize
    ensures { result ≡ length (declared_each each.now) }
{
    if each.type_name.is_some() { 1 } else { 0 }
}

// How many locals the variables of a `foreach` declare.
fn eaches_count(first: &Each, second: &Option<Each>) -> usize
    ensures { result ≡ length (declared_each first.now ++ declared_second second.now) }
{
    match second {
        Some(each) => each_count(first) + each_count(each),
        None => each_count(first),
    }
}

// What is used up to a slot alone.
fn up_to(next: u32) -> Used
    ensures { result ≡ record { most = next; next = next } }
{
    Used { most: next, next }
}

// What is used inside, where the slots behind are those before.
fn inside(used: Used, next: u32) -> Used
    ensures { result ≡ record { most = used.most; next = next } }
{
    Used {
        most: used.most,
        next,
    }
}

// What is used by one and then by another.
fn both(first: Used, second: Used) -> Used
    ensures { result ≡ record { most = max first.most second.most; next = second.next } }
{
    Used {
        most: larger(first.most, second.most),
        next: second.next,
    }
}

/// The slots that a statement takes, where those before `first` are in use.
#[cycle(slots)]
pub fn slots_in(s: &Stmt, first: u32) -> Result<Used, GenFault>
    ensures { MatchResult result (UsesSlots (stmt_of s.now) first) (λ f. f ≢ GenFault.Unclear) }
{
    match s {
        Stmt::Block { stmts, .. } => {
            let most = slots_in_all(stmts, first)?;
            Ok(Used { most, next: first })
        }
        Stmt::Empty { .. } => Ok(up_to(first)),
        Stmt::Run { .. } => Ok(up_to(first)),
        Stmt::Declares { local, .. } => {
            let next = past(first, local.ones.len())?;
            Ok(up_to(next))
        }
        Stmt::If { yes, no, .. } => {
            let used = slots_in(yes, first)?;
            match no {
                Some(other) => {
                    let second = slots_in(other, used.next)?;
                    Ok(both(used, second))
                }
                None => Ok(both(used, up_to(used.next))),
            }
        }
        Stmt::While { body, .. } => {
            let used = slots_in(body, first)?;
            Ok(used)
        }
        Stmt::DoWhile { body, .. } => {
            let used = slots_in(body, first)?;
            Ok(used)
        }
        Stmt::For { init, body, .. } => {
            let inner = past(first, init_count(init))?;
            let used = slots_in(body, inner)?;
            Ok(inside(used, first))
        }
        Stmt::Foreach {
            first: one,
            second,
            body,
            ..
        } => {
            let inner = past(first, eaches_count(one, second))?;
            let used = slots_in(body, inner)?;
            Ok(inside(used, first))
        }
        Stmt::Switch { parts, .. } => {
            let used = slots_in_parts(parts, first)?;
            Ok(inside(used, first))
        }
        Stmt::Break { .. } => Ok(up_to(first)),
        Stmt::Continue { .. } => Ok(up_to(first)),
        Stmt::Return { .. } => Ok(up_to(first)),
    }
}

/// How many slots are in use at most in statements, where those before `first` are.
#[cycle(slots)]
pub fn slots_in_all(stmts: &Vec<Stmt>, first: u32) -> Result<u32, GenFault>
    ensures { MatchResult result (λ n. n ≡ slots_of_all (stmt_trees (map stmt_of stmts.now.items)) first) (λ f. f ≢ GenFault.Unclear) }
{
    let mut used = Used {
        most: 0,
        next: first,
    };
    for s in stmts {
        let more = slots_in(s, used.next)?;
        used = both(used, more);
    }
    Ok(larger(used.most, used.next))
}

// The slots that the parts of a switch take: at most, and behind all that they declare.
#[cycle(slots)]
fn slots_in_parts(parts: &Vec<Part<Stmt>>, first: u32) -> Result<Used, GenFault>
    ensures { MatchResult result (UsesParts (parts_of parts.now.items) first) (λ f. f ≢ GenFault.Unclear) }
{
    let mut used = Used {
        most: 0,
        next: first,
    };
    for part in parts {
        match part {
            Part::Label(_) => {}
            Part::Stmt(s) => {
                let more = slots_in(s, used.next)?;
                used = both(used, more);
            }
        }
    }
    Ok(both(used, up_to(used.next)))
}

//! Whether breaks and continues have what they leave.
ghost use Rattle.std.specs.Prelude.{◌≡◌, map, true};
ghost use Rattle.lp_tree.specs.Pieces.{parts_of};
ghost use Rattle.lp_tree.specs.StatementView.{stmt_of, stmt_trees};
ghost use Rattle.lp_codegen_flow.specs.Closed.{are_closed, is_closed, parts_closed, with};

use lp_tree::stmt::{Part, Stmt};

/// Whether each break and each continue in a statement leaves something: a loop or a `switch` in it, or what stands round
/// it, where a break or a continue may leave that. Takes no memory.
#[cycle(closed)]
pub fn is_closed(s: &Stmt, may_break: bool, may_continue: bool) -> bool
    ensures { result ≡ is_closed (with may_break may_continue) (stmt_of s.now) }
{
    match s {
        Stmt::Block { stmts, .. } => are_closed(stmts, may_break, may_continue),
        Stmt::Empty { .. } => true,
        Stmt::Run { .. } => true,
        Stmt::Declares { .. } => true,
        Stmt::If { yes, no, .. } => match no {
            Some(other) => {
                if !is_closed(yes, may_break, may_continue) {
                    return false;
                }
                is_closed(other, may_break, may_continue)
            }
            None => is_closed(yes, may_break, may_continue),
        },
        Stmt::While { body, .. } => is_closed(body, true, true),
        Stmt::DoWhile { body, .. } => is_closed(body, true, true),
        Stmt::For { body, .. } => is_closed(body, true, true),
        Stmt::Foreach { body, .. } => is_closed(body, true, true),
        Stmt::Switch { parts, .. } => parts_closed(parts, may_continue),
        Stmt::Break { .. } => may_break,
        Stmt::Continue { .. } => may_continue,
        Stmt::Return { .. } => true,
    }
}

/// The same of the statements of a block.
#[cycle(closed)]
pub fn are_closed(stmts: &Vec<Stmt>, may_break: bool, may_continue: bool) -> bool
    ensures { result ≡ are_closed (with may_break may_continue) (stmt_trees (map stmt_of stmts.now.items)) }
{
    for s in stmts {
        if !is_closed(s, may_break, may_continue) {
            return false;
        }
    }
    true
}

/// The same of the parts of a `switch`, which a break leaves.
#[cycle(closed)]
fn parts_closed(parts: &Vec<Part<Stmt>>, may_continue: bool) -> bool
    ensures { result ≡ parts_closed (with true may_continue) (parts_of parts.now.items) }
{
    for part in parts {
        if let Part::Stmt(s) = part {
            if !is_closed(s, true, may_continue) {
                return false;
            }
        }
    }
    true
}

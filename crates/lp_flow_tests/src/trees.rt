//! Trees that no source spells, with the nearest that have code.
use lp_codegen_expr::code::{Code, GenFault};
use lp_codegen_expr::index::Index;
use lp_codegen_expr::scope::{Layout, Scope};
use lp_codegen_expr::texts::Texts;
use lp_codegen_flow::fun::gen_fun;
use lp_tree::expr::Expr;
use lp_tree::operator::{AssignOp, Step};
use lp_tree::stmt::{Part, Stmt};
use std::alloc::{AllocError, Global};
use std::test::Fail;

/// The statement of a function.
#[derive(Clone, Copy, Debug)]
enum Tree {
    /// What leaves nothing.
    Break,
    Continue,
    /// The same in a `switch`, which a break leaves.
    BreakOfSwitch,
    ContinueInSwitch,
    /// A number that is assigned to, and one that is stepped.
    Set,
    Add,
    AndThen,
    Stepped,
    /// A sequence of so many numbers.
    Sequence(usize),
}

fn number() -> Expr {
    Expr::Int { line: 1, value: 0 }
}

fn assigned(alloc: Global, op: AssignOp) -> Result<Expr, AllocError> {
    let place = Box::new(alloc, number())?;
    let value = Box::new(alloc, number())?;
    Ok(Expr::Assign {
        line: 1,
        op,
        place,
        value,
    })
}

fn stepped(alloc: Global) -> Result<Expr, AllocError> {
    let place = Box::new(alloc, number())?;
    Ok(Expr::PreStep {
        line: 1,
        step: Step::Up,
        place,
    })
}

fn sequence(alloc: Global, count: usize) -> Result<Expr, AllocError> {
    let mut parts = Vec::new(alloc);
    for _ in 0..count {
        parts.push(number())?;
    }
    Ok(Expr::Sequence { line: 1, parts })
}

fn in_a_switch(alloc: Global, s: Stmt) -> Result<Stmt, AllocError> {
    let parts = vec![in alloc; Part::Stmt(s)]?;
    Ok(Stmt::Switch {
        line: 1,
        on: number(),
        parts,
    })
}

fn run(of: Expr) -> Stmt {
    Stmt::Run { line: 1, of }
}

fn statement(alloc: Global, tree: Tree) -> Result<Stmt, AllocError> {
    match tree {
        Tree::Break => Ok(Stmt::Break { line: 1 }),
        Tree::Continue => Ok(Stmt::Continue { line: 1 }),
        Tree::BreakOfSwitch => in_a_switch(alloc, Stmt::Break { line: 1 }),
        Tree::ContinueInSwitch => in_a_switch(alloc, Stmt::Continue { line: 1 }),
        Tree::Set => Ok(run(assigned(alloc, AssignOp::Set)?)),
        Tree::Add => Ok(run(assigned(alloc, AssignOp::Add)?)),
        Tree::AndThen => Ok(run(assigned(alloc, AssignOp::AndThen)?)),
        Tree::Stepped => Ok(run(stepped(alloc)?)),
        Tree::Sequence(count) => Ok(run(sequence(alloc, count)?)),
    }
}

fn no_names(alloc: Global) -> Result<Index, AllocError> {
    Index::from_vec(alloc, Vec::new(alloc))
}

// A file without names.
fn scope(alloc: Global) -> Result<Scope, AllocError> {
    let layout = Layout {
        globals: no_names(alloc)?,
        places: Vec::new(alloc),
        rows: no_names(alloc)?,
        parents: Vec::new(alloc),
        inherited: no_names(alloc)?,
        inherited_from: Vec::new(alloc),
        parent_names: no_names(alloc)?,
        parent_numbers: Vec::new(alloc),
        simuls: no_names(alloc)?,
    };
    Ok(Scope {
        layout,
        locals: Vec::new(alloc),
    })
}

// Whether a function with this statement has code exactly where it is said to.
fn is_so(alloc: Global, tree: Tree, has: bool) -> Result<bool, AllocError> {
    let stmts = vec![in alloc; statement(alloc, tree)?]?;
    let mut scope = scope(alloc)?;
    let mut code = Code {
        instrs: Vec::new(alloc),
        texts: Texts::new(alloc),
        switches: Vec::new(alloc),
    };
    match gen_fun(&stmts, &mut scope, &mut code) {
        Ok(()) => Ok(has),
        Err(GenFault::Unclear) => Ok(!has),
        Err(GenFault::NoMemory) | Err(GenFault::TooLarge) => Err(AllocError),
    }
}

/// Trees, and whether they have code.
const ROWS: [(Tree, bool); 10] = [
    (Tree::Break, false),
    (Tree::BreakOfSwitch, true),
    (Tree::Continue, false),
    (Tree::ContinueInSwitch, false),
    (Tree::Set, false),
    (Tree::Add, false),
    (Tree::AndThen, false),
    (Tree::Stepped, false),
    (Tree::Sequence(0), false),
    (Tree::Sequence(1), true),
];

#[test]
fn trees(rt: HostRuntime) -> Result<(), Fail> {
    for (tree, has) in ROWS {
        assert!(rt; is_so(rt.alloc(), tree, has)?, "{tree:?}");
    }
    Ok(())
}

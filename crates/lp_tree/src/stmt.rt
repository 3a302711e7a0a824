//! Statements.
ghost use Rattle.std.specs.Prelude.{◌≡◌};
ghost use Rattle.lp_tree.specs.Statements.{stmt_line};
ghost use Rattle.lp_tree.specs.StatementView.{stmt_of};

use crate::chars::Chars;
use crate::expr::Expr;
use crate::keyword::Base;
use crate::types::TypeName;

/// A name that a declaration declares: `*name = value`.
#[derive(Drop)]
pub struct Declarator {
    /// The line of its first token.
    pub line: u32,
    /// How many stars stand before the name.
    pub stars: u32,
    /// The name.
    pub name: Chars,
    /// What it is set to at first.
    pub value: Option<Expr>,
}

/// A declaration of locals: `int a, *b = c`.
#[derive(Drop)]
pub struct Local {
    /// The line of its first token.
    pub line: u32,
    /// What the types are made of.
    pub base: Base,
    /// What is declared: one at least.
    pub ones: Vec<Declarator>,
}

/// A variable of a `foreach`: `int name`, or a name alone.
#[derive(Debug, Drop)]
pub struct Each {
    /// The line of its first token.
    pub line: u32,
    /// Its type, where it declares a variable with one.
    pub type_name: Option<TypeName>,
    /// The name.
    pub name: Chars,
}

/// The first part of a `for`.
#[derive(Drop)]
pub enum Init {
    /// Nothing.
    Nothing,
    /// A declaration, which is visible up to the statement's end.
    Declares(Local),
    /// An expression.
    Runs(Expr),
}

/// What a label compares with.
#[derive(Debug, Drop)]
pub enum Constant {
    /// `5` and `-5`
    Int(i64),
    /// `"text"`
    Text(Chars),
}

/// A label of a `switch`.
#[derive(Debug, Drop)]
pub enum Label {
    /// `case value:`
    Case { line: u32, value: Constant },
    /// `case from .. to:`
    Range { line: u32, from: i64, to: i64 },
    /// `default:`
    Default { line: u32 },
}

/// A part of a `switch`.
#[derive(Drop)]
pub enum Part<S> {
    /// A label.
    Label(Label),
    /// A statement.
    Stmt(S),
}

/// A statement: one variant per production, with the line of its first token and its parts in order.
#[derive(Drop)]
pub enum Stmt {
    /// `{ .. }`
    Block {
        line: u32,
        stmts: Vec<Stmt>,
    },
    /// `;`
    Empty {
        line: u32,
    },
    /// `of;`
    Run {
        line: u32,
        of: Expr,
    },
    /// `local;`
    Declares {
        line: u32,
        local: Local,
    },
    /// `if (test) yes` and `if (test) yes else no`
    If {
        line: u32,
        test: Expr,
        yes: Box<Stmt>,
        no: Option<Box<Stmt>>,
    },
    /// `while (test) body`
    While {
        line: u32,
        test: Expr,
        body: Box<Stmt>,
    },
    /// `do body while (test);`
    DoWhile {
        line: u32,
        body: Box<Stmt>,
        test: Expr,
    },
    /// `for (init; test; step) body`
    For {
        line: u32,
        init: Init,
        test: Option<Expr>,
        step: Option<Expr>,
        body: Box<Stmt>,
    },
    /// `foreach (first, second : over) body`
    Foreach {
        line: u32,
        first: Each,
        second: Option<Each>,
        over: Expr,
        body: Box<Stmt>,
    },
    /// `switch (on) { .. }`
    Switch {
        line: u32,
        on: Expr,
        parts: Vec<Part<Stmt>>,
    },
    /// `break;`
    Break {
        line: u32,
    },
    /// `continue;`
    Continue {
        line: u32,
    },
    /// `return;` and `return value;`
    Return {
        line: u32,
        value: Option<Expr>,
    },
}

impl Stmt {
    /// The line of its first token.
    pub fn line(&self) -> u32
        ensures { result ≡ stmt_line (stmt_of self.now) }
    {
        match self {
            Stmt::Block { line, .. } => *line,
            Stmt::Empty { line } => *line,
            Stmt::Run { line, .. } => *line,
            Stmt::Declares { line, .. } => *line,
            Stmt::If { line, .. } => *line,
            Stmt::While { line, .. } => *line,
            Stmt::DoWhile { line, .. } => *line,
            Stmt::For { line, .. } => *line,
            Stmt::Foreach { line, .. } => *line,
            Stmt::Switch { line, .. } => *line,
            Stmt::Break { line } => *line,
            Stmt::Continue { line } => *line,
            Stmt::Return { line, .. } => *line,
        }
    }
}

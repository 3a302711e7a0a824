//! Expressions.
ghost use Rattle.std.specs.Prelude.{◌≡◌};
ghost use Rattle.lp_tree.specs.Trees.{line_of, is_place};
ghost use Rattle.lp_tree.specs.TreeView.{tree_of};

use crate::chars::Chars;
use crate::operator::{AssignOp, BinOp, Step, UnOp};
use crate::types::TypeName;

/// From where an index counts.
#[derive(Clone, Copy, Debug, PartialEq, Eq)]
pub enum Edge {
    /// From the first place, which is 0.
    Front,
    /// From behind the last place, which is 1: `<1`.
    Back,
}

/// An end of a range.
#[derive(Debug, Drop)]
pub enum Bound<E> {
    /// None: the range goes to the first place, or to the last.
    Open,
    /// A place that belongs to the range.
    At(Edge, E),
}

/// An expression: one variant per production, with the line of its first token and its parts in order.
#[derive(Drop)]
pub enum Expr {
    /// `5`, and `'a'` by its code point.
    Int {
        line: u32,
        value: i64,
    },
    /// `"text"`
    Text {
        line: u32,
        text: Chars,
    },
    /// `name`: a variable.
    Name {
        line: u32,
        name: Chars,
    },
    /// `(inner)`
    Paren {
        line: u32,
        inner: Box<Expr>,
    },
    /// `({ a, b, })`
    Array {
        line: u32,
        items: Vec<Expr>,
    },
    /// `([ k: v, ])`
    Mapping {
        line: u32,
        pairs: Vec<(Expr, Expr)>,
    },
    /// `name(args)`
    Call {
        line: u32,
        name: Chars,
        args: Vec<Expr>,
    },
    /// `efun::name(args)`
    EfunCall {
        line: u32,
        name: Chars,
        args: Vec<Expr>,
    },
    /// `::name(args)`
    ParentCall {
        line: u32,
        name: Chars,
        args: Vec<Expr>,
    },
    /// `"parent"::name(args)`
    NamedParentCall {
        line: u32,
        parent: Chars,
        name: Chars,
        args: Vec<Expr>,
    },
    /// `catch(inner)`
    Catch {
        line: u32,
        inner: Box<Expr>,
    },
    /// `sscanf(text, form, place, place)`
    Sscanf {
        line: u32,
        text: Box<Expr>,
        form: Box<Expr>,
        places: Vec<Expr>,
    },
    /// `of[at]` and `of[<at]`
    Index {
        line: u32,
        of: Box<Expr>,
        edge: Edge,
        at: Box<Expr>,
    },
    /// `of[from .. to]`
    Range {
        line: u32,
        of: Box<Expr>,
        from: Bound<Box<Expr>>,
        to: Bound<Box<Expr>>,
    },
    /// `of->name(args)`
    CallOther {
        line: u32,
        of: Box<Expr>,
        name: Chars,
        args: Vec<Expr>,
    },
    /// `place++` and `place--`
    PostStep {
        line: u32,
        step: Step,
        place: Box<Expr>,
    },
    /// `++place` and `--place`
    PreStep {
        line: u32,
        step: Step,
        place: Box<Expr>,
    },
    /// `!of`, `~of` and `-of`
    Unary {
        line: u32,
        op: UnOp,
        of: Box<Expr>,
    },
    /// `(type) of`
    Cast {
        line: u32,
        to: TypeName,
        of: Box<Expr>,
    },
    /// `left + right`, with any operator that takes both its operands
    Binary {
        line: u32,
        op: BinOp,
        left: Box<Expr>,
        right: Box<Expr>,
    },
    /// `left && right`
    AndThen {
        line: u32,
        left: Box<Expr>,
        right: Box<Expr>,
    },
    /// `left || right`
    OrElse {
        line: u32,
        left: Box<Expr>,
        right: Box<Expr>,
    },
    /// `test ? yes : no`
    Cond {
        line: u32,
        test: Box<Expr>,
        yes: Box<Expr>,
        no: Box<Expr>,
    },
    /// `place = value`, with any operator of assignment
    Assign {
        line: u32,
        op: AssignOp,
        place: Box<Expr>,
        value: Box<Expr>,
    },
    /// `first, second, third`: two parts at least
    Sequence {
        line: u32,
        parts: Vec<Expr>,
    },
}

impl Expr {
    /// The line of its first token.
    pub fn line(&self) -> u32
        ensures { result ≡ line_of (tree_of self.now) }
    {
        match self {
            Expr::Int { line, .. } => *line,
            Expr::Text { line, .. } => *line,
            Expr::Name { line, .. } => *line,
            Expr::Paren { line, .. } => *line,
            Expr::Array { line, .. } => *line,
            Expr::Mapping { line, .. } => *line,
            Expr::Call { line, .. } => *line,
            Expr::EfunCall { line, .. } => *line,
            Expr::ParentCall { line, .. } => *line,
            Expr::NamedParentCall { line, .. } => *line,
            Expr::Catch { line, .. } => *line,
            Expr::Sscanf { line, .. } => *line,
            Expr::Index { line, .. } => *line,
            Expr::Range { line, .. } => *line,
            Expr::CallOther { line, .. } => *line,
            Expr::PostStep { line, .. } => *line,
            Expr::PreStep { line, .. } => *line,
            Expr::Unary { line, .. } => *line,
            Expr::Cast { line, .. } => *line,
            Expr::Binary { line, .. } => *line,
            Expr::AndThen { line, .. } => *line,
            Expr::OrElse { line, .. } => *line,
            Expr::Cond { line, .. } => *line,
            Expr::Assign { line, .. } => *line,
            Expr::Sequence { line, .. } => *line,
        }
    }

    /// Whether it is a place, to which a value can be assigned: a name or an index.
    pub fn is_place(&self) -> bool
        ensures { result ≡ is_place (tree_of self.now) }
    {
        match self {
            Expr::Name { .. } | Expr::Index { .. } => true,
            _ => false,
        }
    }
}

//! Units: what a source declares.
ghost use Rattle.std.specs.Prelude.{◌≡◌};
ghost use Rattle.lp_tree.specs.Units.{item_line};
ghost use Rattle.lp_tree.specs.UnitView.{item_of};

use crate::chars::Chars;
use crate::keyword::{Base, Modifier};
use crate::stmt::{Declarator, Stmt};
use crate::types::TypeName;

/// A parameter: `int name`, or a name alone.
#[derive(Debug, Drop)]
pub struct Param {
    /// The line of its first token.
    pub line: u32,
    /// Its type, if one is written.
    pub type_name: Option<TypeName>,
    /// The name.
    pub name: Chars,
}

/// A function's block.
#[derive(Drop)]
pub struct Block {
    /// The line of its `{`.
    pub line: u32,
    /// Its statements.
    pub stmts: Vec<Stmt>,
}

/// What a unit consists of: one variant per production, with the line of its first token and its parts in order.
#[derive(Drop)]
pub enum Item {
    /// `inherit "path";`
    Inherit {
        line: u32,
        path: Chars,
    },
    /// `private int name(params);`
    Proto {
        line: u32,
        mods: Vec<Modifier>,
        type_name: Option<TypeName>,
        name: Chars,
        params: Vec<Param>,
    },
    /// `private int name(params) { .. }`
    Fun {
        line: u32,
        mods: Vec<Modifier>,
        type_name: Option<TypeName>,
        name: Chars,
        params: Vec<Param>,
        body: Block,
    },
    /// `private int a, *b = c;`
    Var {
        line: u32,
        mods: Vec<Modifier>,
        base: Base,
        ones: Vec<Declarator>,
    },
}

/// A unit: what a source declares, in its order. No `inherit` stands behind a variable or a function.
#[derive(Drop)]
pub struct Unit {
    /// Its items.
    pub items: Vec<Item>,
}

impl Item {
    /// The line of its first token.
    pub fn line(&self) -> u32
        ensures { result ≡ item_line (item_of self.now) }
    {
        match self {
            Item::Inherit { line, .. } => *line,
            Item::Proto { line, .. } => *line,
            Item::Fun { line, .. } => *line,
            Item::Var { line, .. } => *line,
        }
    }
}

//! What the machine waits for.
use lp_parser_stmt::focus::Focus as StmtFocus;
use lp_parser_stmt::names::Names;
use lp_parser_stmt::stack::Stack;
use lp_tree::chars::Chars;
use lp_tree::keyword::{Base, Modifier};
use lp_tree::types::TypeName;
use lp_tree::unit::Param;

/// A function up to its parameters.
#[derive(Drop)]
pub struct Head {
    /// The line of its first token.
    pub line: u32,
    /// Its modifiers.
    pub mods: Vec<Modifier>,
    /// What it returns, if a type is written.
    pub type_name: Option<TypeName>,
    /// Its name.
    pub name: Chars,
}

/// A function up to the end of its parameters.
#[derive(Drop)]
pub struct Header {
    /// What stands before them.
    pub head: Head,
    /// The parameters that were read.
    pub params: Vec<Param>,
}

/// A declaration up to its names, begun on this line.
#[derive(Drop)]
pub struct Typed {
    /// The line of its first token.
    pub line: u32,
    /// Its modifiers.
    pub mods: Vec<Modifier>,
    /// What its types are made of.
    pub base: Base,
}

/// What the machine waits for.
#[derive(Drop)]
pub enum Focus {
    /// An item, or the end.
    Top,
    /// The path of an `inherit` on this line.
    NeedPath(u32),
    /// The semicolon behind it.
    EndInherit(u32, Chars),
    /// What stands behind modifiers, begun on this line.
    Modified(u32, Vec<Modifier>),
    /// Names of variables, or of a function.
    Typed(Typed, Names),
    /// The parenthesis behind the name of a function without a type.
    NeedOpen(Head),
    /// The first parameter, or the end of none.
    NeedParam(Head),
    /// A parameter behind a comma.
    NextParam(Header),
    /// A star of the type of a parameter that was begun on this line, or its name.
    ParamStars(Header, u32, TypeName),
    /// What stands behind a parameter.
    BehindParam(Header),
    /// The semicolon of a prototype, or the brace of a function.
    HaveParams(Header),
    /// A token of the block of a function, whose brace is on this line.
    InBody(Header, u32, Stack, StmtFocus),
}

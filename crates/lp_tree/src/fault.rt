//! Faults of a source.
ghost use Rattle.std.specs.Prelude.{◌≡◌};
ghost use Rattle.lp_tree.specs.FaultText.{text_of};

use crate::path::FilePath;

/// What is wrong in a source.
#[derive(Clone, Copy, Debug, PartialEq, Eq)]
pub enum FaultKind {
    NoFile,
    NoInclude,
    IncludeDepth,
    OpenIf,
    StrayElse,
    BadDirective,
    MacroArgs,
    MacroDepth,
    TooManyTokens,
    UserError,
    Lex,
    Unexpected,
    TooNested,
    UnknownName,
    UnknownFunction,
    WrongCount,
    WrongType,
    MissingType,
    DoubleName,
    DoubleCase,
    BadReturn,
    NomaskOverridden,
    NoInheritPragma,
    AmbiguousSuper,
    Cycle,
    InheritDepth,
    TooManyNames,
    Aborted,
}

/// A fault, where it stands. Line 0 is for a fault of a whole file.
#[derive(Debug, Drop)]
pub struct Fault {
    /// The path of the file that was compiled.
    pub file: FilePath,
    /// The line, from 1, or 0.
    pub line: u32,
    /// What is wrong.
    pub kind: FaultKind,
}

impl FaultKind {
    /// The text that tells a keeper what is wrong.
    pub fn text(self) -> &'static str
        ensures { result.now ≡ text_of self }
    {
        match self {
            FaultKind::NoFile => "no such file",
            FaultKind::NoInclude => "no such include",
            FaultKind::IncludeDepth => "includes too deep",
            FaultKind::OpenIf => "open #if",
            FaultKind::StrayElse => "stray directive",
            FaultKind::BadDirective => "bad directive",
            FaultKind::MacroArgs => "wrong macro arguments",
            FaultKind::MacroDepth => "macros too deep",
            FaultKind::TooManyTokens => "too many tokens",
            FaultKind::UserError => "#error",
            FaultKind::Lex => "bad token",
            FaultKind::Unexpected => "unexpected token",
            FaultKind::TooNested => "nested too deep",
            FaultKind::UnknownName => "unknown name",
            FaultKind::UnknownFunction => "unknown function",
            FaultKind::WrongCount => "wrong number of arguments",
            FaultKind::WrongType => "wrong type",
            FaultKind::MissingType => "missing type",
            FaultKind::DoubleName => "name used twice",
            FaultKind::DoubleCase => "label used twice",
            FaultKind::BadReturn => "wrong return",
            FaultKind::NomaskOverridden => "nomask function overridden",
            FaultKind::NoInheritPragma => "not inheritable",
            FaultKind::AmbiguousSuper => "ambiguous parent",
            FaultKind::Cycle => "inherits itself",
            FaultKind::InheritDepth => "inherits too deep",
            FaultKind::TooManyNames => "too many names",
            FaultKind::Aborted => "load aborted",
        }
    }
}

//! Reserved words.

/// A word that changes what is declared.
#[derive(Clone, Copy, Debug, PartialEq, Eq)]
pub enum Modifier {
    /// `private`
    Private,
    /// `protected`
    Protected,
    /// `public`
    Public,
    /// `static`
    Static,
    /// `nosave`
    Nosave,
    /// `nomask`
    Nomask,
    /// `varargs`
    Varargs,
}

/// What a type is made of.
#[derive(Clone, Copy, Debug, PartialEq, Eq)]
pub enum Base {
    /// `int`
    Int,
    /// `status`
    Status,
    /// `string`
    String,
    /// `object`
    Object,
    /// `mapping`
    Mapping,
    /// `mixed`
    Mixed,
    /// `void`
    Void,
}

/// A reserved word, which is no name.
#[derive(Clone, Copy, Debug, PartialEq, Eq)]
pub enum Keyword {
    /// A modifier.
    Modifier(Modifier),
    /// A word that begins a type.
    Base(Base),
    /// `inherit`
    Inherit,
    /// `if`
    If,
    /// `else`
    Else,
    /// `while`
    While,
    /// `do`
    Do,
    /// `for`
    For,
    /// `foreach`
    Foreach,
    /// `switch`
    Switch,
    /// `case`
    Case,
    /// `default`
    Default,
    /// `break`
    Break,
    /// `continue`
    Continue,
    /// `return`
    Return,
    /// `catch`
    Catch,
    /// `sscanf`
    Sscanf,
}

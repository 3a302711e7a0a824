//! Pragmas.
ghost use Rattle.std.specs.Prelude.{◌≡◌, false};

/// How closely types are checked.
#[derive(Clone, Copy, Debug, PartialEq, Eq)]
pub enum TypeMode {
    /// `weak_types`: calls of unknown functions and the like alone.
    Weak,
    /// `strong_types`: also arguments, assignments and returns.
    Strong,
    /// `strict_types`: also that functions and parameters have types.
    Strict,
}

/// The pragmas of a file. The last of the three on types counts for the whole file.
#[derive(Clone, Copy, Debug, PartialEq, Eq)]
pub struct Pragmas {
    /// `no_clone`
    pub no_clone: bool,
    /// `no_inherit`
    pub no_inherit: bool,
    /// `no_shadow`
    pub no_shadow: bool,
    /// `weak_types`, `strong_types` or `strict_types`
    pub types: TypeMode,
}

impl Pragmas {
    /// The pragmas of a file that names none.
    pub fn new() -> Pragmas
        ensures clone { result.no_clone ≡ false }
        ensures inherit { result.no_inherit ≡ false }
        ensures shadow { result.no_shadow ≡ false }
        ensures types { result.types ≡ TypeMode.Weak }
    {
        Pragmas {
            no_clone: false,
            no_inherit: false,
            no_shadow: false,
            types: TypeMode::Weak,
        }
    }
}

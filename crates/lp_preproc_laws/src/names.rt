//! Names that come out of an expansion.
ghost use Rattle.std.specs.Prelude.{List};
ghost use Rattle.lp_tree.specs.declared.pragma.Pragmas.{Pragmas as AnyPragmas};
ghost use Rattle.lp_tree.specs.declared.token.Token.{Token as Tok};
ghost use Rattle.lp_preproc.specs.Expansion.{IsExpansion};
ghost use Rattle.lp_preproc.specs.State.{Setting};
ghost use Rattle.lp_preproc_laws.specs.Names.{AreNamed};

/// Law: each name that comes out of an expansion is spelled as a source spells names, in letters of ASCII, digits and `_`,
/// because the expansion only hands on names: what it puts in of its own are texts and integers.
pub fn law_names()
    ensures { (c : Setting) (ts : List Tok) (p : AnyPragmas) → IsExpansion c ts p → AreNamed ts }
{}

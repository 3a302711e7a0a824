//! Integers that come out of an expansion.
ghost use Rattle.std.specs.Prelude.{List};
ghost use Rattle.lp_tree.specs.Signs.{AreUnsigned};
ghost use Rattle.lp_tree.specs.declared.pragma.Pragmas.{Pragmas as AnyPragmas};
ghost use Rattle.lp_tree.specs.declared.token.Token.{Token as Tok};
ghost use Rattle.lp_preproc.specs.Expansion.{IsExpansion};
ghost use Rattle.lp_preproc.specs.State.{Setting};

/// Law: no integer that comes out of an expansion is negative, because the sign is a token of its own.
pub fn law_unsigned()
    ensures { (c : Setting) (ts : List Tok) (p : AnyPragmas) → IsExpansion c ts p → AreUnsigned ts }
{}

//! Names that a file declares.
ghost use Rattle.std.specs.Prelude.{ℕ, List};
ghost use Rattle.lp_files.specs.declared.store.Store.{Store as AnyStore};
ghost use Rattle.lp_tree.specs.declared.pragma.Pragmas.{Pragmas as AnyPragmas};
ghost use Rattle.lp_tree.specs.Units.{ItemTree};
ghost use Rattle.lp_layout.specs.Layout.{IsSpelled};
ghost use Rattle.lp_front.specs.Reading.{Declares};

use lp_preproc_laws::names::law_names;

/// Law: the names of functions, prototypes and variables that a file declares are of ASCII, for each is one of the names
/// that come out of its expansion. So their code points are their bytes.
pub fn law_spelled()
    ensures { (files : AnyStore) (path : List ℕ) (is : List ItemTree) (p : AnyPragmas) → Declares files path is p → IsSpelled is }
{
    law_names();
}

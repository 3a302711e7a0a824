//! Saving and restoring.
ghost use Rattle.std.specs.Prelude.{◌≡◌, ℕ, List, Bool, Option, Some, Result, Vec, map};
ghost use Rattle.std.specs.declared.alloc.Global.{Global};
ghost use Rattle.lp_values.specs.declared.id.ObjId.{ObjId};
ghost use Rattle.lp_values.specs.declared.value.Value.{Value};
ghost use Rattle.lp_cells.specs.Cells.{Store};
ghost use Rattle.lp_save.specs.declared.fault.RestoreFault.{RestoreFault};
ghost use Rattle.lp_save.specs.Desks.{Restores};
ghost use Rattle.lp_save.specs.Reading.{outcome};
ghost use Rattle.lp_save.specs.SaveText.{saved_text};
ghost use Rattle.lp_save_laws.specs.Matching.{AreSavable, ComesAgain, ReadsBack};

/// Law: the text of saved values, restored under their names beside any cells, gives each of them a value.
/// The values and what they name are as they were saved, up to a one-to-one matching of cells: two
/// references to one array or mapping become two references to one, two arrays or mappings never become
/// one, also where they lie in themselves. Objects have become 0.
pub fn law_round_trip()
    ensures { (live : ObjId → Bool) (cells : Store) (base : Store) (ps : List (List ℕ × Value)) (bytes : List ℕ) → AreSavable live cells ps → saved_text live cells ps ≡ Some bytes → ReadsBack live cells base ps bytes }
{}

/// Law: whatever `restore_text` answers of the text that `save_text` gave, no line of it is faulty, and where
/// memory suffices each variable gets the value that it had, as `law_round_trip` says.
pub fn law_comes_again()
    ensures { (live : ObjId → Bool) (cells : Store) (base : Store) (new : Store) (ps : List (List ℕ × Value)) (bytes : List ℕ) (r : Result (Vec (Option Value) Global) RestoreFault) → AreSavable live cells ps → saved_text live cells ps ≡ Some bytes → Restores r base new (outcome (map (λ p. p.0) ps) bytes base) → ComesAgain live cells base new (map (λ p. p.1) ps) r }
{}

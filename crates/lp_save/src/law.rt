//! Laws of reading saved text.
ghost use Rattle.std.specs.Prelude.{◌≡◌, ◌≤◌, ◌+◌, ◌∷◌, ◌++◌, ℕ, List, flat_map, length};
ghost use Rattle.lp_cells.specs.Cells.{Store};
ghost use Rattle.lp_values.specs.Limits.{max_code_points};
ghost use Rattle.lp_values.specs.declared.value.Value.TheVariants.{Str};
ghost use Rattle.lp_save.specs.Reading.{Done, outcome, value_at, without_kind};
ghost use Rattle.lp_save.specs.SaveText.{Rest, left, restored_text, saved_point};

/// Law: reading that tells what is wrong with a faulty line gives the same values, the same cells and the same
/// first faulty line as reading that does not.
pub fn law_kinds()
    ensures { (names : List (List ℕ)) (bytes : List ℕ) (cells : Store) → without_kind (outcome names bytes cells) ≡ restored_text names bytes cells }
{}

/// Law: what is spelled of a text of at most 100000 code points is read as that text, whatever stands behind it.
pub fn law_texts()
    ensures { (t : List ℕ) (rest : List ℕ) (n : ℕ) (levels : ℕ) (r : Rest) → length t ≤ max_code_points → value_at (n + 1) levels (left (34 ∷ flat_map saved_point t ++ 34 ∷ rest) r) ≡ Done (Str t) (left rest r) }
{}

//! Integers.
ghost use Rattle.std.specs.Prelude.{◌≡◌, ◌<◌, ◌++◌, ℕ, ℤ, List};
ghost use Rattle.std.specs.Char.{is_ascii_digit};
ghost use Rattle.std.specs.Fmt.{signed_decimal};
ghost use Rattle.std.specs.List.{prefix_len};
ghost use Rattle.lp_values.specs.declared.value.Value.TheVariants.{Int};
ghost use Rattle.lp_save.specs.Reading.{Done, value_at};
ghost use Rattle.lp_save.specs.SaveText.{Rest, left};
ghost use Rattle.lp_save_laws.specs.Matching.{IsInt};

/// Law: what is spelled of an integer of 64 bits is read as that integer, where no digit stands behind it.
pub fn law_integers()
    ensures { (i : ℤ) (rest : List ℕ) (steps : ℕ) (levels : ℕ) (r : Rest) → IsInt i → 0 < steps → prefix_len is_ascii_digit rest ≡ 0 → value_at steps levels (left (signed_decimal i ++ rest) r) ≡ Done (Int i) (left rest r) }
{}

//! Mappings.
ghost use Rattle.std.specs.Prelude.{◌≡◌, ◌≤◌, List, filter, length};
ghost use Rattle.lp_values.specs.declared.id.CellId.{CellId};
ghost use Rattle.lp_values.specs.declared.value.Value.{Value};
ghost use Rattle.lp_cells.specs.Mapping.{HasDistinctKeys, pairs_of};
ghost use Rattle.lp_save_laws.specs.Matching.{InOrder, Matched, Matching, PairsMatch, becomes_zero};

/// Law: where at most one key of a mapping becomes 0, no two keys become one: the restored pairs are those
/// that match, all in their order.
pub fn law_mappings()
    ensures { (m : Matching) (ps : List (Value × Value)) (rs : List (Value × Value)) → ((c : CellId) (d : CellId) (e : CellId) → Matched m c e → Matched m d e → c ≡ d) → HasDistinctKeys ps → length (filter (λ p. becomes_zero p.0) ps) ≤ 1 → InOrder (PairsMatch m) ps rs → pairs_of rs ≡ rs }
{}

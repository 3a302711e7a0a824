//! Laws of scripts.
ghost use Rattle.std.specs.Prelude.{◌≡◌, ◌<◌, ◌≤◌, ◌++◌, ◌∷◌, [], ℕ, List, Err, nat_le, true, false, length, take, drop};
ghost use Rattle.lp_events.specs.declared.item.Item.{Item as I};
ghost use Rattle.lp_events.specs.declared.item.Item.TheVariants.{End as the_end};
ghost use Rattle.lp_events.specs.Script.{Context, Over, Fits, spelling, after_item, longest_input, IsScript, IsTooLarge, IsBadScript};
ghost use Rattle.lp_script.specs.declared.behind.Refusal.TheVariants.{Bad, Large};
ghost use Rattle.lp_script.specs.Behind.{Behind};
ghost use Rattle.lp_script.specs.Given.{Stands};

/// What a refusal says of the whole input, behind items that were read.
pub fn refusals()
    ensures bad { (bytes taken : List ℕ) (xs : List I) (cut at : ℕ) (c : Context) → Stands longest_input bytes taken xs cut c → (c.stage ≡ Over → ⊥)
        → Behind c (take longest_input taken) (nat_le (length taken) longest_input) cut (Err (Bad at)) → IsBadScript bytes xs at }
    ensures large { (bytes taken : List ℕ) (xs : List I) (cut : ℕ) (c : Context) → Stands longest_input bytes taken xs cut c
        → Behind c (take longest_input taken) (nat_le (length taken) longest_input) cut (Err Large) → IsTooLarge bytes xs }
{}

/// One more item, and where it is the last one.
pub fn more_items()
    ensures more { (m : ℕ) (bytes taken : List ℕ) (xs : List I) (cut : ℕ) (c : Context) (x : I) (n : ℕ) → Stands m bytes taken xs cut c → Fits c x → n ≤ length (take m taken)
        → drop cut (take m taken) ≡ spelling x ++ drop n (take m taken) → Stands m bytes taken (xs ++ x ∷ []) n (after_item c x) }
    ensures script { (bytes taken : List ℕ) (xs : List I) (n : ℕ) (c : Context) → Stands longest_input bytes taken (xs ++ the_end ∷ []) n (after_item c the_end)
        → n ≡ length (take longest_input taken) → nat_le (length taken) longest_input ≡ true → IsScript bytes (xs ++ the_end ∷ []) }
    ensures large { (bytes taken : List ℕ) (xs : List I) (n : ℕ) (c : Context) → Stands longest_input bytes taken (xs ++ the_end ∷ []) n (after_item c the_end)
        → n ≡ length (take longest_input taken) → nat_le (length taken) longest_input ≡ false → IsTooLarge bytes (xs ++ the_end ∷ []) }
    ensures bad { (bytes taken : List ℕ) (xs : List I) (n : ℕ) (c : Context) → Stands longest_input bytes taken (xs ++ the_end ∷ []) n (after_item c the_end)
        → n < length (take longest_input taken) → IsBadScript bytes (xs ++ the_end ∷ []) n }
{}

//! What the definition promises.
ghost use Rattle.std.specs.Prelude.{◌≡◌};
ghost use Rattle.lp_preproc.specs.Expansion.{LeadsTo, Outcome, next};
ghost use Rattle.lp_preproc.specs.Falls.{Falls};
ghost use Rattle.lp_preproc.specs.State.{Next, Setting, State};

use lp_lexer::law_apart;
use lp_parser_expr::law::one_tree_law;

/// Law: what is next leads to one outcome at most.
pub fn law_one_outcome()
    ensures { (c : Setting) (n : Next) (o p : Outcome) → LeadsTo c n o → LeadsTo c n p → o ≡ p }
{
    one_tree_law();
}

/// Law: each step leaves less to do, so an expansion comes to an end.
pub fn law_falls()
    ensures { (c : Setting) (s : State) → Falls s (next c s) }
{
    law_apart();
}

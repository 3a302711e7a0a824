//! That each file has an answer.
ghost use Rattle.lp_preproc.specs.State.{Setting};
ghost use Rattle.lp_preproc_laws.specs.Answers.{HasAnswer};

use lp_lexer::law_answered as sources_have_tokens_or_a_fault;
use lp_parser_expr::law::machine_law;
use lp_preproc::law::law_falls as steps_leave_less;

/// Law: each file has an expansion or a first fault. It has no second one of them by `law_one_outcome` of the preprocessor.
pub fn law_answered()
    ensures { (c : Setting) → HasAnswer c }
{
    sources_have_tokens_or_a_fault();
    machine_law();
    steps_leave_less();
}

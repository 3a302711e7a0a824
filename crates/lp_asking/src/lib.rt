//! Who asks, what a running function asks, and how calls end: what a call hands down and gives back on the state.
//!
//! The arguments of a call lie on top of the one stack. Who asks goes on with the value, or at its innermost catch.
#![tactic(auto)]

ghost use Rattle.lp_asking.specs.Courses.{CallsEnd, QuestionsEnd, QuestionsHave};

pub mod advance;
pub mod asker;
pub mod catching;
pub mod ending;
pub mod entry;
pub mod question;
pub mod resume;
pub mod truth;

/// Law: where a function's entry is paid and not too deep, its call ends as its body does, with the function's place at a
/// stop without one.
pub fn law_calls_end()
    ensures { CallsEnd }
{}

/// Law: a course that asks a question ends as it does after an outcome of that question.
pub fn law_questions_end()
    ensures { QuestionsEnd }
{}

/// Law: a question has the outcome with which its course ends.
pub fn law_questions_have()
    ensures { QuestionsHave }
{}

pub use lp_frames::entry::Callee;

//! What the definitions of the operator's connection come to. Each function has a clause and nothing to do.
ghost use Rattle.lp_control.specs.Laws.{AnswersAreFronts};

/// The operator's connection stands for what was heard of it and what its wire took: at the beginning; where its stream begins anew; where a
/// piece of its stream is fed, which gives the lines that are heard; where it is answered; where it is offered what is pending; and over
/// whatever concerns other connections. So what was taken for it is, span by span, a front of the answers.
#[tactic(auto, using(crate::proofs::Answered::answers_fronts))]
pub fn answers_are_fronts()
    ensures { AnswersAreFronts }
{}

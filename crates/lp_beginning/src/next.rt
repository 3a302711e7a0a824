//! What jobs ask.
ghost use Rattle.lp_beginning.specs.Feeding.{AsksNext};

use crate::job::{Making, Question};

/// What a job asks next, without arguments: the initialisers of the next part that has some; and then `create`. Takes no memory.
pub fn next(job: &Making) -> Question
    ensures { AsksNext job.now result }
{
    match job.parts.get(job.done) {
        Some(part) => Question::Initialise(job.object, *part),
        None => Question::Create(job.object),
    }
}

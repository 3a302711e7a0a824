//! What jobs of `clone_object` ask.
ghost use Rattle.std.specs.Prelude.{IfOk};
ghost use Rattle.lp_cloning.specs.Beginning.{AsksNext};
ghost use Rattle.lp_cloning.specs.Jobs.{IsWanted};

use crate::job::{Cloning, Question};
use lp_beginning::next::next as next_of;
use std::alloc::{AllocError, Global};

/// What a job asks next, without arguments: that its blueprint is loaded, or what is asked for the clone.
///
/// # Errors
/// Where memory runs out.
pub fn next(alloc: Global, job: &Cloning) -> Result<Question, AllocError>
    requires { IsWanted job.now }
    ensures { IfOk result (AsksNext job.now) }
{
    match job {
        Cloning::Load(name) => Ok(Question::Load(String::from_str(alloc, name.as_str())?)),
        Cloning::Make(job) => Ok(Question::Make(next_of(job))),
    }
}

//! What runs jobs elsewhere, with what each call promises.
ghost use Rattle.std.specs.Prelude.{◌≡◌, ◌≤◌, ◌∷◌, ℕ, List, [], IfOk, Option};
ghost use Rattle.std.specs.Result.{is_err};
ghost use Rattle.lp_io.specs.Counts.{Counts};

use lp_io::{Failed, Octets};

/// A job that ended.
#[derive(Debug, Drop)]
pub struct Ended {
    /// The number with which it was handed over.
    pub job: u32,
    /// What it wrote.
    pub out: Octets,
    /// The status with which it ended.
    pub status: u8,
}

/// Why no job is known to have ended.
#[derive(Clone, Copy, Debug, PartialEq, Eq)]
pub enum SpawnError {
    /// The spawner failed.
    Failed,
    /// There was no memory.
    NoMemory,
}

/// What runs jobs elsewhere: each is the program of this crate's caller with some words and some input.
///
/// A spawner counts its faults in `faults`; the count never falls, and stands still at `u64::MAX`. One in memory tells in `started` which
/// jobs were handed to it, in order, and may promise in `is_true` that what it answered so far is true: that where the job of a number, the
/// latest one, is the one test of a script, and what it wrote is a line of that test with a verdict, it is the test's verdict. One over
/// real processes tells `None`, and promises nothing.
pub trait Spawner {
    ghost use Rattle.lp_jobs.specs.Jobs.{AnswersTruly, Job, after_starting, is_spawn_fault, job_of};

    ghost faults: { Self → ℕ };

    ghost started: { Self → Option (List Job) };

    ghost is_true: { Self → Type 0 };

    /// Takes a job, and begins it if it can. It fails only where the count of faults rises, and the job does not run then.
    fn start(&mut self, job: u32, words: &[String], input: &[u8]) -> Result<(), Failed>
        ensures started { started self.new ≡ after_starting (started self.old) (job_of job words.now input.now ∷ []) }
        ensures truth { is_true self.new → is_true self.old }
        ensures faults { Counts (is_err result) (faults self.old) (faults self.new) }
        ensures no_fall { faults self.old ≤ faults self.new };

    /// Waits until a job ends, and gives what it wrote, with its status. It fails only where the count of faults rises, or for want of
    /// memory. Nothing is said of whether it ever answers.
    fn next(&mut self) -> Result<Ended, SpawnError>
        ensures started { started self.new ≡ started self.old }
        ensures truth { is_true self.new → is_true self.old × IfOk result (AnswersTruly (started self.old)) }
        ensures faults { Counts (is_spawn_fault result) (faults self.old) (faults self.new) }
        ensures no_fall { faults self.old ≤ faults self.new };
}

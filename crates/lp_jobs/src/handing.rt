//! A test is handed over.
ghost use Rattle.std.specs.Prelude.{◌≡◌, ◌∷◌, [], IfOk, OnOk, codes, map, string_bytes};
ghost use Rattle.lp_jobs.specs.Jobs.{after_starting, job_if, test_job};

use crate::spawner::Spawner;
use lp_suite::Entry;
use std::alloc::{AllocError, Global};

// The words of the job of a test.
fn words_of(alloc: Global, path: &str, fun: &str) -> Result<Vec<String>, AllocError>
    ensures { IfOk result (λ v. map string_bytes v.items ≡ codes "one" ∷ path.now ∷ fun.now ∷ []) }
{
    let mut words = Vec::new(alloc);
    words.push(String::from_str(alloc, "one")?)?;
    words.push(String::from_str(alloc, path)?)?;
    words.push(String::from_str(alloc, fun)?)?;
    Ok(words)
}

// A test is handed over, with this number. Tells whether it runs.
fn hand_test<P: Spawner>(
    alloc: Global,
    spawn: &mut P,
    job: u32,
    path: &str,
    fun: &str,
    input: &[u8],
) -> Result<bool, AllocError>
    ensures started { OnOk result (P.started spawn.new ≡ after_starting (P.started spawn.old) (test_job job path.now fun.now input.now ∷ [])) }
    ensures truth { P.is_true spawn.new → P.is_true spawn.old }
{
    let words = words_of(alloc, path, fun)?;
    Ok(spawn.start(job, words.as_slice(), input).is_ok())
}

/// What is told of a mudlib at this place is handed over, where it is a test. Tells whether it runs.
pub(crate) fn hand<P: Spawner>(
    alloc: Global,
    spawn: &mut P,
    job: u32,
    entry: &Entry,
    input: &[u8],
) -> Result<bool, AllocError>
    ensures started { OnOk result (P.started spawn.new ≡ after_starting (P.started spawn.old) (job_if job entry.now input.now)) }
    ensures truth { P.is_true spawn.new → P.is_true spawn.old }
{
    match entry {
        Entry::Test(path, fun) => {
            hand_test(alloc, spawn, job, path.as_str(), fun.as_str(), input)
        }
        Entry::Faulty(_) => Ok(false),
    }
}

//! Faults of a file: each has a record in the log, and they end the load.
ghost use Rattle.std.specs.Prelude.{◌≡◌, ◌++◌, ◌∷◌, [], IfOk, OnOk, map};
ghost use Rattle.std.specs.Fmt.{decimal};
ghost use Rattle.std.specs.Str.{chars};
ghost use Rattle.lp_loading.specs.Faults.{fault_text};
ghost use Rattle.lp_loading.specs.declared.job.Answer.TheVariants as answers;
ghost use Rattle.lp_loading.specs.declared.job.Step.TheVariants as steps;
ghost use Rattle.lp_meaning.specs.FileLoads.{fault_record as meant};
ghost use Rattle.lp_world.specs.Closed.{IsClosed};

use crate::job::{Answer, Step};
use lp_events::out::Out;
use lp_tree::fault::Fault;
use lp_values::decimal::spelling;
use lp_values::text::{Text, code_points};
use lp_world::live::Live;
use std::alloc::{AllocError, Global};

/// Code points come behind others.
fn put_points(text: &mut Vec<char>, points: &[char]) -> Result<(), AllocError>
    ensures { OnOk result (text.new.items ≡ text.old.items ++ points.now) }
{
    text.extend_from_slice(points)?;
    Ok(())
}

/// The code points of words come behind others.
fn put_words(alloc: Global, text: &mut Vec<char>, words: &str) -> Result<(), AllocError>
    ensures { OnOk result (text.new.items ≡ text.old.items ++ chars words.now) }
{
    let points = code_points(alloc, words)?;
    put_points(text, points.as_slice())
}

/// A number comes behind others.
fn put_number(alloc: Global, text: &mut Vec<char>, n: u32) -> Result<(), AllocError>
    ensures { OnOk result (text.new.items ≡ text.old.items ++ decimal n) }
{
    let digits = spelling(alloc, n as u64)?;
    put_points(text, digits.as_slice())
}

/// The text of a fault's record comes behind others.
fn put_fault(alloc: Global, text: &mut Vec<char>, fault: &Fault) -> Result<(), AllocError>
    ensures { OnOk result (text.new.items ≡ text.old.items ++ fault_text fault.now) }
{
    put_words(alloc, text, fault.file.as_str())?;
    put_words(alloc, text, " line ")?;
    put_number(alloc, text, fault.line)?;
    put_words(alloc, text, ": ")?;
    put_words(alloc, text, fault.kind.text())
}

/// The record of a fault.
fn fault_record(alloc: Global, fault: &Fault) -> Result<Out, AllocError>
    ensures { IfOk result (λ out. out ≡ meant fault.now) }
{
    let mut text = Vec::new(alloc);
    put_fault(alloc, &mut text, fault)?;
    Ok(Out::Log(Text::from_vec(alloc, text)?))
}

/// One more output.
pub(crate) fn put_out(live: &mut Live, out: Out) -> Result<(), AllocError>
    requires closed { IsClosed live.old }
    ensures out { OnOk result (live.new ≡ record live.old { outputs = live.old.outputs ++ out ∷ [] }) }
    ensures closed { IsClosed live.new }
    ensures objects { live.new.objects ≡ live.old.objects }
    ensures cells { live.new.cells ≡ live.old.cells }
{
    live.outputs.push(out)
}

/// The records of faults come to the log.
fn log_faults(live: &mut Live, faults: &[Fault]) -> Result<(), AllocError>
    requires closed { IsClosed live.old }
    ensures logs { OnOk result (live.new ≡ record live.old { outputs = live.old.outputs ++ map meant faults.now }) }
    ensures closed { IsClosed live.new }
    ensures objects { live.new.objects ≡ live.old.objects }
    ensures cells { live.new.cells ≡ live.old.cells }
{
    match faults {
        [f, rest @ ..] => {
            let out = fault_record(live.alloc, f)?;
            put_out(live, out)?;
            log_faults(live, rest)
        }
        [] => Ok(()),
    }
}

/// The faults of a file are logged, and end its load.
pub(crate) fn end_faulty(live: &mut Live, faults: Vec<Fault>) -> Result<Step, AllocError>
    requires closed { IsClosed live.old }
    ensures logs { OnOk result (live.new ≡ record live.old { outputs = live.old.outputs ++ map meant faults.items }) }
    ensures ends { IfOk result (λ r. r ≡ steps.Ends (answers.Faulty faults)) }
    ensures closed { IsClosed live.new }
    ensures objects { live.new.objects ≡ live.old.objects }
    ensures cells { live.new.cells ≡ live.old.cells }
{
    log_faults(live, faults.as_slice())?;
    Ok(Step::Ends(Answer::Faulty(faults)))
}

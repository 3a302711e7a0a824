//! Calls of the driver end.
ghost use Rattle.std.specs.Prelude.{◌≡◌, IfOk, None, OnOk};
ghost use Rattle.std.specs.Str.{chars};
ghost use Rattle.lp_language.specs.Resolve.{without_c};
ghost use Rattle.lp_meaning.specs.FileLoads.{could_not_load, failed_name};
ghost use Rattle.lp_targets.specs.Brought.{Brings};
ghost use Rattle.lp_cells.specs.Cells.{IsThere, Store};
ghost use Rattle.lp_turn.specs.Calls.{IsCallEndThere};
ghost use Rattle.lp_turn.specs.Ends.{HasValueOf, IsLoadEnd, Tells, TellsBoth};
ghost use Rattle.lp_world.specs.Closed.{IsClosed};

use crate::job::CallEnd;
use crate::outputs::tell;
use lp_asking::ending::{Cause, Ending, Stop};
use lp_efuns::names::ends_in_c;
use lp_events::out::Out;
use lp_records::uncaught::{error_record, notice};
use lp_residence::answers::EnterFault;
use lp_swapfile::SwapFile;
use lp_tree::fault::Fault;
use lp_values::error::{ErrorKind, RunError};
use lp_values::id::ObjId;
use lp_values::text::code_points;
use lp_values::value::Value;
use lp_world::live::Live;
use std::alloc::{AllocError, Global};

/// A record, and what a player is told, if anything, are the next outputs.
fn tell_both(live: &mut Live, player: Option<ObjId>, out: Out) -> Result<(), AllocError>
    requires closed { IsClosed live.old }
    ensures told { OnOk result (TellsBoth player out live.old live.new) }
    ensures only { live.new ≡ record live.old { outputs = live.new.outputs } }
    ensures closed { IsClosed live.new }
{
    match notice(live, player)? {
        Some(text) => {
            tell(live, out)?;
            tell(live, text)
        }
        None => tell(live, out),
    }
}

/// An end of a call was uncaught: the log is told, and the player whose call it was.
fn tell_stop<W: SwapFile>(
    live: &mut Live,
    swap: &mut W,
    player: Option<ObjId>,
    stop: &Stop,
) -> Result<(), EnterFault>
    requires closed { IsClosed live.old }
    ensures tells { W.is_truthful swap.new → OnOk result (Tells player stop.now (W.content swap.old) live.old (W.content swap.new) live.new) }
    ensures brings { Brings (W.content swap.old) (W.content swap.new) (W.last swap.new) (W.read_faults swap.old) (W.read_faults swap.new) (W.write_faults swap.old) (W.write_faults swap.new)
        (W.is_truthful swap.old) (W.is_truthful swap.new) (W.is_honest swap.old) (W.is_honest swap.new) live.old (record live.new { outputs = live.old.outputs }) result }
    ensures closed { IsClosed live.new }
{
    match error_record(live, swap, stop) {
        Ok(out) => match tell_both(live, player, out) {
            Ok(()) => Ok(()),
            Err(_) => Err(EnterFault::NoMemory),
        },
        Err(e) => Err(e),
    }
}

/// What a call gives the driver: its value, or 0 where its end was uncaught, which is told.
fn value_of_ending<W: SwapFile>(
    live: &mut Live,
    swap: &mut W,
    player: Option<ObjId>,
    end: Ending,
) -> Result<Value, EnterFault>
    requires closed { IsClosed live.old }
    ensures value { W.is_truthful swap.new → IfOk result (λ v. HasValueOf player (CallEnd.Ended end) (W.content swap.old) live.old (W.content swap.new) live.new v) }
    ensures there { IfOk result (λ v. (cells : Store) → IsCallEndThere cells (CallEnd.Ended end) → IsThere cells v) }
    ensures brings { Brings (W.content swap.old) (W.content swap.new) (W.last swap.new) (W.read_faults swap.old) (W.read_faults swap.new) (W.write_faults swap.old) (W.write_faults swap.new)
        (W.is_truthful swap.old) (W.is_truthful swap.new) (W.is_honest swap.old) (W.is_honest swap.new) live.old (record live.new { outputs = live.old.outputs }) result }
    ensures closed { IsClosed live.new }
{
    match end {
        Ending::Value(v) => Ok(v),
        Ending::Stopped(stop) => match tell_stop(live, swap, player, &stop) {
            Ok(()) => Ok(Value::Int(0)),
            Err(e) => Err(e),
        },
    }
}

/// The same of a call that may end with faults, which are no value.
pub(crate) fn value_of<W: SwapFile>(
    live: &mut Live,
    swap: &mut W,
    player: Option<ObjId>,
    end: CallEnd,
) -> Result<Value, EnterFault>
    requires closed { IsClosed live.old }
    ensures value { W.is_truthful swap.new → IfOk result (λ v. HasValueOf player end (W.content swap.old) live.old (W.content swap.new) live.new v) }
    ensures there { IfOk result (λ v. (cells : Store) → IsCallEndThere cells end → IsThere cells v) }
    ensures brings { Brings (W.content swap.old) (W.content swap.new) (W.last swap.new) (W.read_faults swap.old) (W.read_faults swap.new) (W.write_faults swap.old) (W.write_faults swap.new)
        (W.is_truthful swap.old) (W.is_truthful swap.new) (W.is_honest swap.old) (W.is_honest swap.new) live.old (record live.new { outputs = live.old.outputs }) result }
    ensures closed { IsClosed live.new }
{
    match end {
        CallEnd::Ended(e) => value_of_ending(live, swap, player, e),
        CallEnd::Faulty(_) => Ok(Value::Int(0)),
    }
}

/// The path of a file without `.c`, as code points.
fn name_of_file(alloc: Global, path: &str) -> Result<Vec<char>, AllocError>
    ensures { IfOk result (λ v. v.items ≡ without_c (chars path.now)) }
{
    let mut all = code_points(alloc, path)?;
    if ends_in_c(all.as_slice()) {
        let n = all.len();
        all.truncate(n.saturating_sub(2));
    }
    Ok(all)
}

/// The name whose file failed: that of the first fault, or the one that was loaded.
fn name_failed(alloc: Global, name: &str, faults: &[Fault]) -> Result<Vec<char>, AllocError>
    ensures { IfOk result (λ v. v.items ≡ failed_name (chars name.now) faults.now) }
{
    match faults {
        [f, ..] => name_of_file(alloc, f.file.as_str()),
        [] => code_points(alloc, name),
    }
}

/// The error of a load that found faults, which nobody catches.
fn load_failed(alloc: Global, name: &str, faults: &[Fault]) -> Result<Stop, AllocError>
    ensures { IfOk result (λ s. s ≡ record { cause = Cause.Failed (could_not_load (chars name.now) faults.now); place = None }) }
{
    let failed = name_failed(alloc, name, faults)?;
    let error = RunError::new(alloc, ErrorKind::CouldNotLoad, failed.as_slice())?;
    Ok(Stop {
        cause: Cause::Failed(error),
        place: None,
    })
}

/// A load found faults: the driver is told of an error.
fn loaded_with_faults<W: SwapFile>(
    live: &mut Live,
    swap: &mut W,
    name: &str,
    faults: &[Fault],
) -> Result<(), EnterFault>
    requires closed { IsClosed live.old }
    ensures end { (fs : _) → fs.items ≡ faults.now → W.is_truthful swap.new → OnOk result (IsLoadEnd (chars name.now) (CallEnd.Faulty fs) (W.content swap.old) live.old (W.content swap.new) live.new) }
    ensures brings { Brings (W.content swap.old) (W.content swap.new) (W.last swap.new) (W.read_faults swap.old) (W.read_faults swap.new) (W.write_faults swap.old) (W.write_faults swap.new)
        (W.is_truthful swap.old) (W.is_truthful swap.new) (W.is_honest swap.old) (W.is_honest swap.new) live.old (record live.new { outputs = live.old.outputs }) result }
    ensures closed { IsClosed live.new }
{
    match load_failed(live.alloc, name, faults) {
        Ok(stop) => tell_stop(live, swap, None, &stop),
        Err(_) => Err(EnterFault::NoMemory),
    }
}

/// A load of the driver ended otherwise.
fn loaded_with<W: SwapFile>(live: &mut Live, swap: &mut W, end: Ending) -> Result<(), EnterFault>
    requires closed { IsClosed live.old }
    ensures end { (name : _) → W.is_truthful swap.new → OnOk result (IsLoadEnd name (CallEnd.Ended end) (W.content swap.old) live.old (W.content swap.new) live.new) }
    ensures brings { Brings (W.content swap.old) (W.content swap.new) (W.last swap.new) (W.read_faults swap.old) (W.read_faults swap.new) (W.write_faults swap.old) (W.write_faults swap.new)
        (W.is_truthful swap.old) (W.is_truthful swap.new) (W.is_honest swap.old) (W.is_honest swap.new) live.old (record live.new { outputs = live.old.outputs }) result }
    ensures closed { IsClosed live.new }
{
    match value_of_ending(live, swap, None, end) {
        Ok(_) => Ok(()),
        Err(e) => Err(e),
    }
}

/// A load of the driver ended. Its faults are an error, which is told as every uncaught end.
pub(crate) fn loaded<W: SwapFile>(
    live: &mut Live,
    swap: &mut W,
    name: &str,
    end: CallEnd,
) -> Result<(), EnterFault>
    requires closed { IsClosed live.old }
    ensures end { W.is_truthful swap.new → OnOk result (IsLoadEnd (chars name.now) end (W.content swap.old) live.old (W.content swap.new) live.new) }
    ensures brings { Brings (W.content swap.old) (W.content swap.new) (W.last swap.new) (W.read_faults swap.old) (W.read_faults swap.new) (W.write_faults swap.old) (W.write_faults swap.new)
        (W.is_truthful swap.old) (W.is_truthful swap.new) (W.is_honest swap.old) (W.is_honest swap.new) live.old (record live.new { outputs = live.old.outputs }) result }
    ensures closed { IsClosed live.new }
{
    match end {
        CallEnd::Ended(e) => loaded_with(live, swap, e),
        CallEnd::Faulty(faults) => loaded_with_faults(live, swap, name, faults.as_slice()),
    }
}

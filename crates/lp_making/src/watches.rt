//! Watches of a new object, for `reset` and `clean_up`.
ghost use Rattle.std.specs.Prelude.{◌≡◌, ◌≤◌, ◌^◌, OnErr, OnOk, false};
ghost use Rattle.std.specs.Bool.{OnTrue};
ghost use Rattle.lp_timers.specs.Timers.{is_watched, watch_time};
ghost use Rattle.lp_timers.specs.Timing.{watch_kind};
ghost use Rattle.lp_making.specs.Objects.{IsUnwatched, with_watch, with_watches, without_watches};

use lp_timers::kind::Watch;
use lp_timers::timers::Timers;
use lp_values::id::ObjId;
use std::alloc::AllocError;

/// How many seconds pass until an object is reset, or asked whether it may be cleaned up.
fn time_of(kind: Watch) -> u64
    ensures time { result ≡ watch_time (watch_kind kind) }
    ensures small { result ≤ 3600 }
{
    match kind {
        Watch::Reset => 1800,
        Watch::CleanUp => 3600,
    }
}

/// Whether an object is watched for nothing.
pub(crate) fn is_unwatched(timers: &Timers, ob: ObjId) -> bool
    ensures { OnTrue result (IsUnwatched timers.now ob) }
{
    !timers.is_watched(ob, Watch::Reset) && !timers.is_watched(ob, Watch::CleanUp)
}

/// An object is watched where its program has the function.
fn watch_if(
    timers: &mut Timers,
    has: bool,
    kind: Watch,
    ob: ObjId,
    now: u64,
) -> Result<(), AllocError>
    requires fresh { is_watched timers.old.watches (watch_kind kind) ob ≡ false }
    requires now { now ≤ 10 ^ 12 }
    ensures ok { OnOk result (timers.new ≡ with_watch timers.old has (watch_kind kind) ob now) }
    ensures err { OnErr result (timers.new ≡ timers.old) }
{
    if !has {
        return Ok(());
    }
    timers.watch(ob, kind, now + time_of(kind))
}

/// An object is watched for nothing any more.
pub(crate) fn unwatch(timers: &mut Timers, ob: ObjId)
    ensures { timers.new ≡ without_watches timers.old ob }
{
    timers.unwatch(ob, Watch::Reset);
    timers.unwatch(ob, Watch::CleanUp);
}

/// A new object is watched for `reset` and `clean_up`, where its program has these functions. After want of memory nothing
/// has changed.
pub(crate) fn watch_new(
    timers: &mut Timers,
    reset: bool,
    clean_up: bool,
    ob: ObjId,
    now: u64,
) -> Result<(), AllocError>
    requires fresh { IsUnwatched timers.old ob }
    requires now { now ≤ 10 ^ 12 }
    ensures ok { OnOk result (timers.new ≡ with_watches timers.old reset clean_up ob now) }
    ensures err { OnErr result (timers.new ≡ timers.old) }
{
    watch_if(timers, reset, Watch::Reset, ob, now)?;
    match watch_if(timers, clean_up, Watch::CleanUp, ob, now) {
        Ok(()) => Ok(()),
        Err(e) => {
            unwatch(timers, ob);
            Err(e)
        }
    }
}

//! Objects are counted.
ghost use Rattle.std.specs.Prelude.{◌≡◌, ◌+◌, ◌-◌, ◌<◌, ◌^◌, cond, length, filter};
ghost use Rattle.std.specs.Option.{option_copied};
ghost use Rattle.lp_world.specs.Rows.{is_live_row, is_out_state};
ghost use Rattle.lp_report.specs.Report.{is_out_object as is_out_row};

use lp_values::id::ObjId;
use lp_world::objects::{Object, ObjectState, ObjectTable};

/// Whether there is an object, and it is live.
fn is_live(object: Option<&Object>) -> bool
    ensures { result ≡ is_live_row (option_copied object.entry) }
{
    match object {
        Some(o) => o.is_live,
        None => false,
    }
}

/// Whether an object's variables are out.
fn is_out_state(state: &ObjectState) -> bool
    ensures { result ≡ is_out_state state.now }
{
    match state {
        ObjectState::Resident(_) => false,
        ObjectState::Swapped { .. } => true,
    }
}

/// Whether there is an object, and it is live and out.
fn is_out(object: Option<&Object>) -> bool
    ensures { result ≡ is_out_row (option_copied object.entry) }
{
    match object {
        Some(o) => o.is_live && is_out_state(&o.state),
        None => false,
    }
}

/// One more, if something is so.
pub(crate) fn counted(count: u64, is_so: bool) -> u64
    requires { count < 2 ^ 64 - 1 }
    ensures { result ≡ count + cond is_so 1 0 }
{
    if is_so { count + 1 } else { count }
}

/// How many objects are live.
pub(crate) fn count_live(objects: &ObjectTable) -> u64
    ensures { result ≡ length (filter is_live_row objects.now) }
{
    let mut count = 0;
    for n in 0..objects.len() {
        count = counted(count, is_live(objects.get(ObjId(n as u64))));
    }
    count
}

/// How many live objects are out.
pub(crate) fn count_out(objects: &ObjectTable) -> u64
    ensures { result ≡ length (filter is_out_row objects.now) }
{
    let mut count = 0;
    for n in 0..objects.len() {
        count = counted(count, is_out(objects.get(ObjId(n as u64))));
    }
    count
}

//! What the items and faults of a script are to those who read it.
ghost use Rattle.std.specs.Prelude.{◌≡◌};
ghost use Rattle.lp_top.specs.Replay.{is_end as end_item, status_of_fault};

use crate::status::Status;
use lp_events::item::Item;
use lp_script::ScriptFault;

/// The end that a fault of a script is.
pub(crate) fn status_of(fault: ScriptFault) -> Status
    ensures { result ≡ status_of_fault fault }
{
    match fault {
        ScriptFault::BadScript { at } => Status::BadScript { at },
        ScriptFault::TooLarge => Status::TooLarge,
        ScriptFault::InputFault => Status::InputFault,
        ScriptFault::NoMemory => Status::NoMemory,
    }
}

/// Whether an item is the last one.
pub(crate) fn is_end(item: &Item) -> bool
    ensures { result ≡ end_item item.now }
{
    matches!(item, Item::End)
}

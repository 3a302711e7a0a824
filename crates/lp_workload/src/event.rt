//! The events of a workload.
ghost use Rattle.std.specs.Prelude.{◌≡◌, ◌+◌, ◌%◌, ◌≤◌, ◌^◌, ◌<◌, IfOk};
ghost use Rattle.lp_events.specs.declared.event.Event.TheVariants.{Line as the_line};
ghost use Rattle.lp_workload.specs.Workload.{box_name, event_for as event_of, moment_after as moment_behind};

use lp_events::event::Event;
use lp_events::octets::{ObjectName, Octets};
use std::alloc::{AllocError, Global};

// A line of the one connection.
fn line(alloc: Global, word: &[u8]) -> Result<Event, AllocError>
    ensures { IfOk result (λ e. e ≡ the_line 1 word.now) }
{
    Ok(Event::Line(1, Octets::from_slice(alloc, word)?))
}

// The name of a box.
fn name_of_box(alloc: Global, choice: u64) -> Result<ObjectName, AllocError>
    ensures { IfOk result (λ n. n ≡ box_name choice) }
{
    let number = 1 + choice % 8;
    let name = format!(in alloc; "/obj/box#{number}")?;
    Ok(ObjectName::from_string(name))
}

/// The event that a word of the generator chooses at a moment.
#[tactic(auto, unfolding(crate::specs::Workload::event_for))]
pub(crate) fn event_for(alloc: Global, moment: u64, word: u64) -> Result<Event, AllocError>
    requires { moment < 2 ^ 63 }
    ensures { IfOk result (λ e. e ≡ event_of moment word) }
{
    let choice = word / 4;
    match word % 4 {
        0 => line(alloc, b"put"),
        1 => line(alloc, b"get"),
        2 => Ok(Event::Tick(moment + 1 + choice % 5)),
        _ => Ok(Event::Swap(name_of_box(alloc, choice)?)),
    }
}

/// The moment after an event.
pub(crate) fn moment_after(moment: u64, event: &Event) -> u64
    ensures { result ≡ moment_behind moment event.now }
{
    match event {
        Event::Tick(later) => *later,
        Event::Connect(_)
        | Event::Line(_, _)
        | Event::Gone(_)
        | Event::Reload(_, _)
        | Event::Swap(_) => moment,
    }
}

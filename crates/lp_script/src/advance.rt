//! What stands before the item after another.
ghost use Rattle.std.specs.Prelude.{◌≡◌, IfOk, OnOk, OnErr};
ghost use Rattle.lp_events.specs.Script.{beginning, after_item, after_event};
ghost use Rattle.lp_script.specs.Before.{context_of};

use crate::before::{Before, Stage};
use crate::connections::Connections;
use lp_events::event::Event;
use lp_events::item::Item;
use std::alloc::{AllocError, Global};

/// Before the first item. It takes no memory.
pub fn before_first(alloc: Global) -> Before
    ensures { context_of result ≡ beginning }
{
    Before {
        stage: Stage::Beginning,
        moment: 0,
        last_path: Vec::new(alloc),
        highest: 0,
        connections: Connections::new(alloc),
    }
}

fn pass_event(before: &mut Before, event: &Event) -> Result<(), AllocError>
    ensures ok { OnOk result (context_of before.new ≡ after_event (context_of before.old) event.now) }
    ensures err { OnErr result (context_of before.new ≡ context_of before.old) }
{
    match event {
        Event::Connect(k) => {
            before.connections.open(*k)?;
            before.highest = *k;
        }
        Event::Gone(k) => before.connections.close(*k),
        Event::Tick(moment) => before.moment = *moment,
        Event::Line(_, _) | Event::Reload(_, _) | Event::Swap(_) => (),
    }
    Ok(())
}

/// Goes on behind an item. Where memory is wanting nothing changes.
pub fn pass_item(alloc: Global, before: &mut Before, item: &Item) -> Result<(), AllocError>
    ensures ok { OnOk result (context_of before.new ≡ after_item (context_of before.old) item.now) }
    ensures err { OnErr result (context_of before.new ≡ context_of before.old) }
{
    match item {
        Item::Head(_, moment) => {
            before.stage = Stage::Filing;
            before.moment = *moment;
        }
        Item::File(path, _) => before.last_path = Vec::from_slice(alloc, path.as_str().as_bytes())?,
        Item::Start => before.stage = Stage::Running,
        Item::Event(event) => return pass_event(before, event),
        Item::End => before.stage = Stage::Over,
    }
    Ok(())
}

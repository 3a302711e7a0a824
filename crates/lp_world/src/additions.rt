//! A state without anything, and laws of a version or an object more. Each law has a clause and nothing to do.
ghost use Rattle.std.specs.Prelude.{◌≡◌, ◌≤◌, ◌^◌, [], List, None, ℕ};
ghost use Rattle.lp_actions.specs.Held.{Lists, next_in};
ghost use Rattle.lp_files.specs.Store.{file_at};
ghost use Rattle.lp_objects.specs.Stands.{Stands as Name, next_clone_in};
ghost use Rattle.lp_places.specs.Stands.{Stands as Place};
ghost use Rattle.lp_world.specs.Additions.{NewObjectStaysClosed, NewVersionStaysClosed};
ghost use Rattle.lp_world.specs.Closed.{IsClosed};

use crate::connections::Connections;
use crate::live::Live;
use crate::objects::ObjectTable;
use crate::versions::VersionTable;
use lp_actions::actions::Actions;
use lp_cells::cells::Cells;
use lp_events::out::Outs;
use lp_files::store::Store;
use lp_objects::objects::Objects;
use lp_places::places::Places;
use lp_swapper::Swapper;
use lp_timers::timers::Timers;
use std::alloc::Global;

/// A state without anything: no objects, versions, cells or files, and nothing out. The clock is in seconds, up
/// to 10^12. Takes no memory.
pub fn empty_state(alloc: Global, clock: u64, generator: u64) -> Live
    requires { clock ≤ 10 ^ 12 }
    ensures closed { IsClosed result }
    ensures objects { result.objects ≡ [] }
    ensures versions { result.versions ≡ [] }
    ensures cells { result.cells ≡ [] }
    ensures swapper { result.swapper ≡ record { holes = []; end = 0; taken = 0 } }
    ensures names { Name result.names [] }
    ensures next_clone { next_clone_in result.names ≡ 1 }
    ensures files { (path : List ℕ) → file_at result.store path ≡ None }
    ensures places { Place result.places [] [] }
    ensures actions { Lists result.actions [] }
    ensures next_sentence { next_in result.actions ≡ 1 }
    ensures simul { result.simul ≡ None }
    ensures outputs { result.outputs ≡ [] }
    ensures timers { result.timers ≡ record { next = 1; call_outs = []; beats = []; watches = [] } }
    ensures connections { result.connections ≡ record { opened = []; highest = 0; present = []; waiting = [] } }
    ensures clock { result.clock ≡ clock }
    ensures generator { result.generator ≡ generator }
{
    Live {
        alloc,
        names: Objects::new(alloc),
        objects: ObjectTable::new(alloc),
        versions: VersionTable::new(alloc),
        cells: Cells::new(alloc),
        store: Store::new(alloc),
        places: Places::new(alloc),
        actions: Actions::new(alloc),
        timers: Timers::new(alloc),
        connections: Connections::new(alloc),
        simul: None,
        outputs: Outs::new(alloc),
        clock,
        generator,
        swapper: Swapper::new(alloc),
    }
}

/// A closed state stays closed where a version comes whose program is in memory, and which is closed with it.
pub fn new_version_stays_closed()
    ensures { NewVersionStaysClosed }
{}

/// It does where an object comes in memory, of a version that is there, with as many variables, whose cells are
/// there.
pub fn new_object_stays_closed()
    ensures { NewObjectStaysClosed }
{}

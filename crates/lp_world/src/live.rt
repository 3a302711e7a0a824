//! The live state.
use crate::connections::Connections;
use crate::objects::ObjectTable;
use crate::versions::VersionTable;
use lp_actions::actions::Actions;
use lp_cells::cells::Cells;
use lp_events::out::Outs;
use lp_files::store::Store;
use lp_objects::objects::Objects;
use lp_places::places::Places;
use lp_swapper::Swapper;
use lp_timers::timers::Timers;
use lp_values::text::Text;
use std::alloc::Global;

/// The live state. Each part is a table of its own, so that a call may use one while it changes another.
#[derive(Drop)]
pub struct Live {
    pub alloc: Global,
    /// The names of objects, with the numbers of objects and of clones.
    pub names: Objects,
    /// The objects by their serials.
    pub objects: ObjectTable,
    /// The versions by their numbers.
    pub versions: VersionTable,
    /// The arrays and mappings that are in memory.
    pub cells: Cells,
    /// The files.
    pub store: Store,
    /// Environments, inventories and shadows.
    pub places: Places,
    /// The actions of living objects.
    pub actions: Actions,
    /// Call-outs, heart beats and watches.
    pub timers: Timers,
    /// Connections, and what waits for their lines.
    pub connections: Connections,
    /// The name of the simul-efun object.
    pub simul: Option<Text>,
    /// The outputs of this turn.
    pub outputs: Outs,
    /// The clock, in seconds.
    pub clock: u64,
    /// The word of the random generator.
    pub generator: u64,
    /// The room of the swap file.
    pub swapper: Swapper,
}

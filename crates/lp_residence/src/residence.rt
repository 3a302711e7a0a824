//! Where objects and programs are.
ghost use Rattle.lp_residence.specs.Residence.{IsResidence, IsVersionResidence};

use lp_values::id::{ObjId, ProgId};
use lp_world::objects::{ObjectState, ObjectTable};
use lp_world::versions::{ProgramState, VersionTable};

/// Where something is.
#[derive(Clone, Copy, Debug, PartialEq, Eq)]
pub(crate) enum Residence {
    /// There is none.
    Missing,
    /// It is in memory.
    Inside,
    /// It is out.
    Outside,
}

/// Where a live object is.
#[tactic(auto, unfolding(lp_world::specs::Rows::live_in))]
pub(crate) fn object_residence(objects: &ObjectTable, ob: ObjId) -> Residence
    ensures { IsResidence objects.now ob result }
{
    match objects.get(ob) {
        Some(o) => {
            if !o.is_live {
                return Residence::Missing;
            }
            match &o.state {
                ObjectState::Resident(_) => Residence::Inside,
                ObjectState::Swapped { .. } => Residence::Outside,
            }
        }
        None => Residence::Missing,
    }
}

/// Where the program of a version is.
pub(crate) fn version_residence(versions: &VersionTable, p: ProgId) -> Residence
    ensures { IsVersionResidence versions.now p result }
{
    match versions.get(p) {
        Some(v) => match &v.state {
            ProgramState::Resident(_) => Residence::Inside,
            ProgramState::Swapped(_) => Residence::Outside,
        },
        None => Residence::Missing,
    }
}

//! An object is moved into another one.
ghost use Rattle.std.specs.Prelude.{◌≡◌, IfErr, IfOk, List, None, OnErr, OnOk, Option};
ghost use Rattle.lp_code.specs.declared.program.RawProgram.{RawProgram as Raw};
ghost use Rattle.lp_language.specs.World.{World};
ghost use Rattle.lp_meaning.specs.MovesAndCommands.{moved_world};
ghost use Rattle.lp_places.specs.Places.{may_move};
ghost use Rattle.lp_swapfile.specs.Device.{Bytes};
ghost use Rattle.lp_world.specs.Closed.{IsClosed};
ghost use Rattle.lp_world.specs.Stands.{Stands};
ghost use Rattle.lp_moving.specs.Moving.{IsMoved, IsRefused, fault_of};

use crate::fault::MoveFault;
use crate::reach::drop_unreached;
use crate::visits::{InitCall, calls_of};
use lp_places::fault::PlaceFault;
use lp_values::id::ObjId;
use lp_world::live::Live;

/// Why an object is not moved, as the places tell it.
fn fault_of(fault: PlaceFault) -> MoveFault
    ensures { result ≡ fault_of fault }
{
    match fault {
        PlaceFault::IsShadow => MoveFault::IsShadow,
        PlaceFault::WouldContainItself => MoveFault::WouldContainItself,
        PlaceFault::NoMemory => MoveFault::NoMemory,
    }
}

/// The item becomes the first in its destination, if it may, and actions that then are out of reach end.
fn relocate(live: &mut Live, item: ObjId, dest: ObjId) -> Result<(), MoveFault>
    requires closed { IsClosed live.old }
    ensures moves { OnOk result ((told : Option Bytes) (programs : List Raw) (w : World) → Stands told programs live.old w → (may_move w.places w.shadows item dest ≡ None) × Stands told programs live.new (moved_world w item dest)) }
    ensures refused { IfErr result (λ e. (told : Option Bytes) (programs : List Raw) (w : World) → Stands told programs live.old w → IsRefused e (may_move w.places w.shadows item dest)) }
    ensures same { OnErr result ((told : Option Bytes) (programs : List Raw) (w : World) → Stands told programs live.old w → Stands told programs live.new w) }
    ensures closed { IsClosed live.new }
    ensures objects { live.new.objects ≡ live.old.objects }
    ensures versions { live.new.versions ≡ live.old.versions }
    ensures cells { live.new.cells ≡ live.old.cells }
    ensures names { live.new.names ≡ live.old.names }
    ensures outputs { live.new.outputs ≡ live.old.outputs }
    ensures store { live.new.store ≡ live.old.store }
    ensures room { live.new.swapper ≡ live.old.swapper }
{
    match live.places.put(item, dest) {
        Ok(()) => {
            drop_unreached(&mut live.actions, &live.places);
            Ok(())
        }
        Err(fault) => Err(fault_of(fault)),
    }
}

/// Moves an item into an object: it becomes the first in the inventory there, and each action whose
/// giver is then out of reach of its holder ends. Answers the calls of `init` that follow, in their
/// order; whether one is still made when its turn comes, `may_init` says. Costs what is in the
/// destination and where the item was, and a look at each action.
///
/// # Errors
/// `IsShadow` exactly where the item is a shadow; `WouldContainItself` exactly where else the
/// destination is the item or inside it; `NoMemory`. After each the state stands for what it stood for.
pub fn move_into(live: &mut Live, item: ObjId, dest: ObjId) -> Result<Vec<InitCall>, MoveFault>
    requires closed { IsClosed live.old }
    ensures moves { IfOk result (λ calls. (told : Option Bytes) (programs : List Raw) (w : World) → Stands told programs live.old w → IsMoved told programs w item dest live.new calls.items) }
    ensures refused { IfErr result (λ e. (told : Option Bytes) (programs : List Raw) (w : World) → Stands told programs live.old w → IsRefused e (may_move w.places w.shadows item dest)) }
    ensures same { OnErr result ((told : Option Bytes) (programs : List Raw) (w : World) → Stands told programs live.old w → Stands told programs live.new w) }
    ensures closed { IsClosed live.new }
    ensures objects { live.new.objects ≡ live.old.objects }
    ensures versions { live.new.versions ≡ live.old.versions }
    ensures cells { live.new.cells ≡ live.old.cells }
    ensures names { live.new.names ≡ live.old.names }
    ensures outputs { live.new.outputs ≡ live.old.outputs }
    ensures store { live.new.store ≡ live.old.store }
    ensures room { live.new.swapper ≡ live.old.swapper }
{
    let calls = calls_of(live.alloc, item, dest, live.places.inventory(dest))?;
    relocate(live, item, dest)?;
    Ok(calls)
}

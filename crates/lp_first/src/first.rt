//! The state before anything was made.
ghost use Rattle.std.specs.Prelude.{◌≡◌, ◌≤◌, ◌^◌, [], List, Option, ℕ};
ghost use Rattle.lp_swapfile.specs.Device.{Bytes};
ghost use Rattle.lp_objects.specs.Stands.{Stands as AreNames};
ghost use Rattle.lp_language.specs.World.{File, new_world};
ghost use Rattle.lp_world.specs.Closed.{IsClosed};
ghost use Rattle.lp_targets.specs.Callees.{IsWorldOf};
ghost use Rattle.lp_first.specs.First.{HasFiles};

use lp_files::store::Store;
use lp_world::additions::empty_state;
use lp_world::live::Live;
use std::alloc::Global;

/// The state before anything was made: these files, and no versions, objects, cells, connections,
/// call-outs or outputs. Its clock stands at `moment`, in seconds, up to 10^12; its generator begins with
/// `seed`; the first clone, action and call-out will each have the number 1. Nothing is in the swap file.
/// The files are the store's as it is handed over, with its changed list. Takes no memory.
///
/// It stands for the first world over each list of files that has the same bytes at each path, whatever
/// the swap file tells.
pub fn first_state(alloc: Global, store: Store, seed: u64, moment: u64) -> Live
    requires { moment ≤ 10 ^ 12 }
    ensures world { (told : Option Bytes) (files : List File) → HasFiles store files → IsWorldOf told [] result (new_world files seed moment) }
    ensures closed { IsClosed result }
    ensures names { AreNames result.names [] }
    ensures store { result.store ≡ store }
    ensures outputs { result.outputs ≡ [] }
{
    let mut live = empty_state(alloc, moment, seed);
    live.store = store;
    live
}

//! A file has a new text.
ghost use Rattle.std.specs.Prelude.{◌≡◌, IfOk, IsAscii, OnErr, Some, map};
ghost use Rattle.lp_language.specs.World.{World};
ghost use Rattle.lp_meaning.specs.WorldSteps.{blueprint, is_clone_name as is_clone, reloaded_blueprint};
ghost use Rattle.lp_objects.specs.Stands.{Stands as Name};
ghost use Rattle.lp_world.specs.Closed.{IsClosed};
ghost use Rattle.lp_world.specs.Stands.{named_of};
ghost use Rattle.lp_making.specs.Reloads.{StandsAsBefore, StandsDestructed, StandsReloaded};

use lp_objects::objects::Objects;
use lp_residence::ending::destroy;
use lp_values::id::ObjId;
use lp_values::value::Living;
use lp_world::laws::same_live;
use lp_world::live::Live;
use std::alloc::AllocError;

/// Whether a name has a `#`, as those of clones alone have.
fn is_clone_name(name: &[u8]) -> bool
    ensures { result ≡ is_clone name.now }
{
    name.contains(&35)
}

/// The live blueprint with a name.
fn blueprint(names: &Objects, name: &str) -> Option<ObjId>
    requires ascii { IsAscii name.now }
    ensures { (w : World) → Name names.now (map named_of w.objects) → result ≡ blueprint w name.now }
{
    if is_clone_name(name.as_bytes()) {
        return None;
    }
    names.find(name)
}

/// The live blueprint of a file, where its path ends in `.c`.
fn blueprint_of(names: &Objects, path: &str) -> Option<ObjId>
    requires ascii { IsAscii path.now }
    ensures { (w : World) → Name names.now (map named_of w.objects) → result ≡ reloaded_blueprint w path.now }
{
    match path.strip_suffix(".c") {
        Some(name) => blueprint(names, name),
        None => None,
    }
}

/// Destructs an object, where it is live. Answers the connection that it had.
fn destruct(live: &mut Live, ob: ObjId) -> Option<u32>
    requires closed { IsClosed live.old }
    ensures stands { StandsDestructed live.old live.new (Some ob) result }
    ensures closed { IsClosed live.new }
    ensures outputs { live.new.outputs ≡ live.old.outputs }
    ensures cells { live.new.cells ≡ live.old.cells }
    ensures versions { live.new.versions ≡ live.old.versions }
    ensures store { live.new.store ≡ live.old.store }
{
    if live.objects.is_live(ob) {
        return destroy(live, ob);
    }
    None
}

/// Destructs an object, where there is one and it is live. Answers the connection that it had.
fn destruct_if(live: &mut Live, found: Option<ObjId>) -> Option<u32>
    requires closed { IsClosed live.old }
    ensures stands { StandsDestructed live.old live.new found result }
    ensures closed { IsClosed live.new }
    ensures outputs { live.new.outputs ≡ live.old.outputs }
    ensures cells { live.new.cells ≡ live.old.cells }
    ensures versions { live.new.versions ≡ live.old.versions }
    ensures store { live.new.store ≡ live.old.store }
{
    match found {
        Some(ob) => destruct(live, ob),
        None => None,
    }
}

/// A file has a new text; where its path ends in `.c` and the blueprint of that path is live, that one is destructed, and all
/// else stays. Answers the connection that the blueprint had, which is open no longer: that the line is closed the caller tells.
/// Takes time in proportion to the text, and to what ends with the blueprint. The path is of letters of ASCII.
///
/// `AllocError`: memory ran out. Then the state stands for the same worlds.
pub fn reload(live: &mut Live, path: &str, bytes: &[u8]) -> Result<Option<u32>, AllocError>
    requires ascii { IsAscii path.now }
    requires closed { IsClosed live.old }
    ensures stands { IfOk result (λ k. StandsReloaded live.old live.new path.now bytes.now k) }
    ensures refused { OnErr result (StandsAsBefore live.old live.new) }
    ensures closed { IsClosed live.new }
    ensures outputs { live.new.outputs ≡ live.old.outputs }
    ensures cells { live.new.cells ≡ live.old.cells }
    ensures versions { live.new.versions ≡ live.old.versions }
{
    let found = blueprint_of(&live.names, path);
    live.store.write(path, bytes)?;
    Ok(destruct_if(live, found))
}

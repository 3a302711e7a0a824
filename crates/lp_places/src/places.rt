//! Where objects are, and what shadows what.
ghost use Rattle.std.specs.Prelude.{◌≡◌, IfErr, List, None, OnErr, OnOk, Some, [], true, ℕ};
ghost use Rattle.lp_places.specs.Places.{Lying, Shadowing, environment, inventory, may_move, may_shadow, moved, next_at, places_without, shadowed, shadowing, shadows_of, shadows_without, unshadowed};
ghost use Rattle.lp_places.specs.Stands.{IsMoved, IsNotMoved, Stands, answered};

use crate::fault::{PlaceFault, ShadowNo};
use crate::links::Links;
use lp_values::id::ObjId;
use std::alloc::Global;

/// Environments and inventories, and chains of shadows.
#[derive(Drop)]
pub struct Places {
    lyings: Links,
    shadowings: Links,
}

impl Places {
    /// Nothing is anywhere, and nothing shadows. Takes no memory.
    pub fn new(alloc: Global) -> Places
        ensures { Stands result [] [] }
    {
        Places {
            lyings: Links::new(alloc),
            shadowings: Links::new(alloc),
        }
    }

    /// The object in which an object is. Takes no memory.
    pub fn environment(&self, ob: ObjId) -> Option<ObjId>
        ensures { (places : List Lying) → (shadows : List Shadowing) → Stands self.now places shadows → result ≡ environment places ob }
    {
        self.lyings.target(ob)
    }

    /// What is in an object: what was moved there last stands first. Takes no memory.
    pub fn inventory(&self, ob: ObjId) -> &[ObjId]
        ensures { (places : List Lying) → (shadows : List Shadowing) → Stands self.now places shadows → result.now ≡ inventory places ob }
    {
        self.lyings.sources(ob)
    }

    /// The object behind another one in the inventory of its environment. Takes no memory, and time as a
    /// look-up.
    pub fn next(&self, ob: ObjId) -> Option<ObjId>
        ensures { (places : List Lying) → (shadows : List Shadowing) → Stands self.now places shadows → result ≡ next_at places ob }
    {
        self.lyings.next(ob)
    }

    /// The shadows of an object, the newest first. Takes no memory.
    pub fn shadows(&self, ob: ObjId) -> &[ObjId]
        ensures { (places : List Lying) → (shadows : List Shadowing) → Stands self.now places shadows → result.now ≡ shadows_of shadows ob }
    {
        self.shadowings.sources(ob)
    }

    /// Whom an object shadows. Takes no memory.
    pub fn shadowing(&self, ob: ObjId) -> Option<ObjId>
        ensures { (places : List Lying) → (shadows : List Shadowing) → Stands self.now places shadows → result ≡ shadowing shadows ob }
    {
        self.shadowings.target(ob)
    }

    /// Moves an item into an object, first in its inventory. `IsShadow` comes exactly where the item is
    /// a shadow, `WouldContainItself` exactly where else the destination is the item or inside it. After
    /// a refusal all is as it was.
    pub fn put(&mut self, item: ObjId, dest: ObjId) -> Result<(), PlaceFault>
        ensures moved { OnOk result ((places : List Lying) → (shadows : List Shadowing) → Stands self.old places shadows → IsMoved self.new places shadows item dest) }
        ensures refused { IfErr result (λ e. (places : List Lying) → (shadows : List Shadowing) → Stands self.old places shadows → IsNotMoved self.new places shadows item dest e) }
    {
        if self.shadowing(item).is_some() {
            return Err(PlaceFault::IsShadow);
        }
        if self.lyings.is_inside(dest, item) {
            return Err(PlaceFault::WouldContainItself);
        }
        match self.lyings.join(item, dest) {
            Ok(()) => Ok(()),
            Err(_) => Err(PlaceFault::NoMemory),
        }
    }

    /// An object was destructed: it leaves its environment and what is in it is nowhere, it leaves the
    /// chain of its victim, and its own shadows shadow nothing any more. Takes no memory.
    pub fn take_out(&mut self, ob: ObjId)
        ensures { (places : List Lying) → (shadows : List Shadowing) → Stands self.old places shadows → Stands self.new (places_without places ob) (shadows_without shadows ob) }
    {
        self.lyings.take_out(ob);
        self.shadowings.take_out(ob);
    }

    /// An object stops shadowing, and its chain closes up. Takes no memory.
    pub fn unshadow(&mut self, by: ObjId)
        ensures { (places : List Lying) → (shadows : List Shadowing) → Stands self.old places shadows → Stands self.new places (unshadowed shadows by) }
    {
        self.shadowings.leave(by);
    }

    /// Whether an object may shadow another one, and else the first of the reasons, in their order.
    /// Takes no memory.
    pub fn may_shadow(&self, by: ObjId, ob: ObjId) -> Result<(), ShadowNo>
        ensures { (places : List Lying) → (shadows : List Shadowing) → Stands self.now places shadows → answered result ≡ may_shadow places shadows by ob }
    {
        if by == ob {
            return Err(ShadowNo::Same);
        }
        if self.shadowing(by).is_some() {
            return Err(ShadowNo::AlreadyShadowing);
        }
        if !self.shadows(by).is_empty() {
            return Err(ShadowNo::IsShadowed);
        }
        if self.environment(by).is_some() {
            return Err(ShadowNo::HasEnvironment);
        }
        if self.shadowing(ob).is_some() {
            return Err(ShadowNo::VictimShadows);
        }
        Ok(())
    }

    /// An object begins to shadow another one, as its outermost shadow, where it may. Its only refusal
    /// is want of memory, after which all is as it was.
    pub fn shadow(&mut self, by: ObjId, ob: ObjId) -> Result<(), PlaceFault>
        ensures shadows { OnOk result ((places : List Lying) → (shadows : List Shadowing) → Stands self.old places shadows → may_shadow places shadows by ob ≡ None → Stands self.new places (shadowed shadows by ob)) }
        ensures refused { IfErr result (λ e. e ≡ PlaceFault.NoMemory) }
        ensures err { OnErr result ((places : List Lying) → (shadows : List Shadowing) → Stands self.old places shadows → Stands self.new places shadows) }
    {
        match self.shadowings.join(by, ob) {
            Ok(()) => Ok(()),
            Err(_) => Err(PlaceFault::NoMemory),
        }
    }
}

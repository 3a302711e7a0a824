//! The table of objects.
ghost use Rattle.std.specs.Prelude.{◌≡◌, ◌+◌, ◌∷◌, ◌++◌, IfErr, IfOk, List, None, true, OnErr, OnOk, Some, [], cond, length, nat_eq, nat_lt, ℕ, ◌==◌, if◌then◌else◌};
ghost use Rattle.std.specs.Option.{option_copied, option_map};
ghost use Rattle.std.specs.Ordering.{nat_cmp};
ghost use Rattle.std.specs.BTreeMap.{get};
ghost use Rattle.std.specs.Str.{chars};
ghost use Rattle.lp_objects.specs.Objects.{Named, is_live, killed, live_count, max_live, may_add, object_at, object_named, with_object};
ghost use Rattle.lp_objects.specs.Stands.{IsAdded, IsNotAdded, Stands, died_in, ended_entry, is_among, is_dead, known_at, last_number, next_clone_in};

use crate::fault::ObjectFault;
use lp_values::id::{ObjId, ProgId};
use std::alloc::{AllocError, Global};
use std::collections::BTreeMap;

/// How many objects may be live.
const MAX_LIVE: usize = 100000;

// What is known of an object.
#[derive(Drop)]
struct Entry {
    name: String,
    program: ProgId,
    is_live: bool,
}

/// The objects by their serials and the live ones by their names.
#[derive(Drop)]
pub struct Objects {
    alloc: Global,
    next: u64,
    clones: u64,
    serials: BTreeMap<String, ObjId>,
    entries: BTreeMap<u64, Entry>,
    died: Vec<ObjId>,
}

// An object dies, if it is there.
fn mark_dead(entries: &mut BTreeMap<u64, Entry>, serial: u64)
    ensures each { (n : ℕ) → get nat_cmp entries.new n ≡ cond (nat_eq serial n) (option_map ended_entry (get nat_cmp entries.old n)) (get nat_cmp entries.old n) }
{
    if let Some(entry) = entries.get_mut(&serial) {
        entry.is_live = false;
    }
}

// Takes out the entries of these objects.
fn take_out_all(entries: &mut BTreeMap<u64, Entry>, objects: &[ObjId])
    ensures { (n : ℕ) → get nat_cmp entries.new n ≡ cond (is_among n objects.now) None (get nat_cmp entries.old n) }
{
    for o in objects {
        entries.remove(&o.0);
    }
}

impl Objects {
    /// No objects. The first clone has the number 1. Takes no memory.
    pub fn new(alloc: Global) -> Objects
        ensures none { Stands result [] }
        ensures died { died_in result ≡ [] }
        ensures clones { next_clone_in result ≡ 1 }
    {
        Objects {
            alloc,
            next: 0,
            clones: 1,
            serials: BTreeMap::new(alloc),
            entries: BTreeMap::new(alloc),
            died: Vec::new(alloc),
        }
    }

    /// The live object with a name. Takes no memory.
    pub fn find(&self, name: &str) -> Option<ObjId>
        ensures { (objects : List Named) → Stands self.now objects → result ≡ object_named objects (chars name.now) }
    {
        self.serials.get(name).copied()
    }

    /// The name of an object that is live, or died and is not forgotten. Takes no memory.
    pub fn name(&self, id: ObjId) -> Option<&str>
        ensures { (objects : List Named) → Stands self.now objects → option_map (λ s. chars s.now) result ≡ option_map (λ x. x.name) (known_at self.now objects id.0) }
    {
        match self.entries.get(&id.0) {
            Some(entry) => Some(entry.name.as_str()),
            None => None,
        }
    }

    /// The version of an object that is live, or died and is not forgotten. Takes no memory.
    pub fn program(&self, id: ObjId) -> Option<ProgId>
        ensures { (objects : List Named) → Stands self.now objects → result ≡ option_map (λ x. x.program) (known_at self.now objects id.0) }
    {
        match self.entries.get(&id.0) {
            Some(entry) => Some(entry.program),
            None => None,
        }
    }

    /// Whether an object is live. Takes no memory.
    pub fn is_live(&self, id: ObjId) -> bool
        ensures { (objects : List Named) → Stands self.now objects → result ≡ is_live objects id }
    {
        match self.entries.get(&id.0) {
            Some(entry) => entry.is_live,
            None => false,
        }
    }

    /// Whether one more object may be live: fewer than 100000 are. Takes no memory.
    pub fn has_room(&self) -> bool
        ensures { (objects : List Named) → Stands self.now objects → result ≡ nat_lt (live_count objects) max_live }
    {
        self.serials.len() < MAX_LIVE
    }

    /// Makes an object, live and with the next serial. `NameTaken` comes exactly where a live object
    /// has the name, `TooMany` exactly where else 100000 objects are live. After a refusal all is as it was.
    pub fn add(&mut self, name: &str, program: ProgId) -> Result<ObjId, ObjectFault>
        ensures made { IfOk result (λ id. (objects : List Named) → Stands self.old objects → IsAdded self.new objects (chars name.now) program id) }
        ensures refused { IfErr result (λ e. (objects : List Named) → Stands self.old objects → IsNotAdded self.new objects (chars name.now) e) }
        ensures died { died_in self.new ≡ died_in self.old }
        ensures clones { next_clone_in self.new ≡ next_clone_in self.old }
    {
        if self.serials.contains_key(name) {
            return Err(ObjectFault::NameTaken);
        }
        if self.serials.len() == MAX_LIVE {
            return Err(ObjectFault::TooMany);
        }
        Ok(self.enter(name, program)?)
    }

    // Makes an object of a name that no live one has.
    fn enter(&mut self, name: &str, program: ProgId) -> Result<ObjId, AllocError>
        ensures made { IfOk result (λ id. (objects : List Named) → Stands self.old objects → may_add objects (chars name.now) ≡ None → IsAdded self.new objects (chars name.now) program id) }
        ensures refused { OnErr result ((objects : List Named) → Stands self.old objects → may_add objects (chars name.now) ≡ None → Stands self.new objects) }
        ensures died { died_in self.new ≡ died_in self.old }
        ensures clones { next_clone_in self.new ≡ next_clone_in self.old }
    {
        let serial = self.next;
        if serial == u64::MAX {
            return Err(AllocError);
        }
        let entry = Entry {
            name: String::from_str(self.alloc, name)?,
            program,
            is_live: true,
        };
        let key = String::from_str(self.alloc, name)?;
        // A death takes no memory, so the room for it is made here.
        self.died.reserve(self.serials.len() + 1)?;
        self.serials.insert(key, ObjId(serial))?;
        match self.entries.insert(serial, entry) {
            Ok(_) => {
                self.next += 1;
                Ok(ObjId(serial))
            }
            Err(_) => {
                self.serials.remove(name);
                Err(AllocError)
            }
        }
    }

    /// A live object dies, and tells whether it was live. Its name and its version stay known until the
    /// dead are forgotten. Takes no memory.
    pub fn kill(&mut self, id: ObjId) -> bool
        ensures was { (objects : List Named) → Stands self.old objects → result ≡ is_live objects id }
        ensures killed { (objects : List Named) → Stands self.old objects → Stands self.new (if result then killed objects id else objects) }
        ensures died { (objects : List Named) → Stands self.old objects → died_in self.new ≡ (if result then died_in self.old ++ id ∷ [] else died_in self.old) }
        ensures clones { next_clone_in self.new ≡ next_clone_in self.old }
    {
        match self.entries.get(&id.0) {
            Some(entry) if entry.is_live => {
                self.serials.remove(entry.name.as_str());
            }
            _ => return false,
        }
        mark_dead(&mut self.entries, id.0);
        let _ = self.died.push(id);
        true
    }

    /// The objects that died and are not forgotten, in the order of their deaths.
    pub fn died(&self) -> &[ObjId]
        ensures all { result.now ≡ died_in self.now }
        ensures dead { (objects : List Named) → Stands self.now objects → (n : ℕ) → is_among n result.now ≡ true → is_dead (object_at objects n) ≡ true }
    {
        self.died.as_slice()
    }

    /// Forgets the names and the versions of the dead. Takes no memory, and time by how many died.
    pub fn forget_dead(&mut self)
        ensures same { (objects : List Named) → Stands self.old objects → Stands self.new objects }
        ensures none { died_in self.new ≡ [] }
        ensures clones { next_clone_in self.new ≡ next_clone_in self.old }
    {
        take_out_all(&mut self.entries, self.died.as_slice());
        self.died.clear();
    }

    /// The number that the next clone gets; there is none exactly where the counter stands at its end,
    /// 18446744073709551615. Takes no memory.
    pub fn clone_number(&self) -> Option<u64>
        ensures { result ≡ (if next_clone_in self.now == last_number then None else Some (next_clone_in self.now)) }
    {
        if self.clones == u64::MAX {
            return None;
        }
        Some(self.clones)
    }

    /// The number of a new clone. None is given out twice; there is none exactly where the counter
    /// stands at its end, 18446744073709551615, where it stays. Takes no memory.
    pub fn next_clone(&mut self) -> Option<u64>
        ensures given { result ≡ (if next_clone_in self.old == last_number then None else Some (next_clone_in self.old)) }
        ensures after { next_clone_in self.new ≡ (if next_clone_in self.old == last_number then last_number else next_clone_in self.old + 1) }
        ensures same { (objects : List Named) → Stands self.old objects → Stands self.new objects }
        ensures died { died_in self.new ≡ died_in self.old }
    {
        if self.clones == u64::MAX {
            return None;
        }
        let number = self.clones;
        self.clones += 1;
        Some(number)
    }
}

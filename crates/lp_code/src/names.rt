//! Names of the functions that every program may call.
ghost use Rattle.std.specs.Prelude.{◌≡◌, IfOk, bytes_eq};
ghost use Rattle.std.specs.List.{list_any};

use crate::name::Name;
use crate::slots::note;
use std::alloc::{AllocError, Global};
use std::collections::HashMap;
use std::marker::Model;

/// The names of the functions of the simul-efun object, which every program may call as it calls efuns.
/// Whether a name is among them takes no longer with more names.
#[derive(Drop)]
pub struct Names2 {
    names: Vec<Name>,
    places: HashMap<String, usize>,
}

impl Model for Names2 {
    ghost use Rattle.std.specs.Prelude.{List, ℕ};
    ghost use Rattle.lp_code.specs.Names.{HasPlaces};

    ghost Value = { List (List ℕ) };

    ghost view = { λ n. n.names.items };

    ghost invariant = { λ n. HasPlaces n.names.items n.places };
}

impl Names2 {
    /// The names of a vector.
    pub fn from_vec(alloc: Global, names: Vec<Name>) -> Result<Names2, AllocError>
        ensures { IfOk result (λ n. n ≡ names.items) }
    {
        let mut places = HashMap::new(alloc);
        for i in 0..names.len() {
            note(alloc, &mut places, names[i].as_str(), i)?;
        }
        Ok(Names2 { names, places })
    }

    /// The names, in the order in which they were given.
    pub fn as_slice(&self) -> &[Name]
        ensures { result.now ≡ self.now }
    {
        self.names.as_slice()
    }

    /// Whether a name is among them. Takes no memory.
    pub fn has(&self, name: &str) -> bool
        ensures { result ≡ list_any (bytes_eq name.now) self.now }
    {
        self.places.contains_key(name)
    }
}

//! The parameters of macros.
ghost use Rattle.std.specs.Prelude.{◌≡◌, [], IfOk};
ghost use Rattle.lp_preproc.specs.Places.{IsAdded, place_of};

use lp_tree::chars::Chars;
use std::alloc::{AllocError, Global};
use std::collections::BTreeMap;
use std::marker::Model;
use std::rc::Rc;

/// Names, of which no two are one, in their order; the place of each is found by its letters.
#[derive(Debug, Drop)]
pub struct Distinct {
    names: Vec<Chars>,
    places: BTreeMap<Vec<char>, usize>,
}

impl Model for Distinct {
    ghost use Rattle.std.specs.Prelude.{List, ℕ, ◌≡◌};
    ghost use Rattle.std.specs.Ordering.{nat_cmp};
    ghost use Rattle.std.specs.Cmp.Lexicographic.{slice_cmp};
    ghost use Rattle.std.specs.BTreeMap.{get_by};
    ghost use Rattle.lp_preproc.specs.Places.{place_of};

    ghost Value = { List (List ℕ) };

    ghost view = { λ d. d.names.items };

    ghost invariant = { λ d. (q : List ℕ) → get_by (λ k. slice_cmp nat_cmp q k.items) d.places ≡ place_of q d.names.items };
}

impl Distinct {
    /// No names. Takes no memory.
    pub fn new(alloc: Global) -> Distinct
        ensures { result ≡ [] }
    {
        Distinct {
            names: Vec::new(alloc),
            places: BTreeMap::new(alloc),
        }
    }

    /// The names.
    pub fn as_slice(&self) -> &[Chars]
        ensures { result.now ≡ self.now }
    {
        self.names.as_slice()
    }

    /// The place of a name.
    pub fn place(&self, name: &[char]) -> Option<usize>
        ensures { result ≡ place_of name.now self.now }
    {
        self.places.get(name).copied()
    }

    /// Puts a name behind the others, unless it is there, and tells whether it did.
    pub fn add(&mut self, alloc: Global, name: &Chars) -> Result<bool, AllocError>
        ensures { IfOk result (IsAdded name.now self.old self.new) }
    {
        if self.places.get(name.as_slice()).is_some() {
            return Ok(false);
        }
        let place = self.names.len();
        let letters = Vec::from_slice(alloc, name.as_slice())?;
        let own = name.copy()?;
        self.names.reserve(1)?;
        self.places.insert(letters, place)?;
        match self.names.push(own) {
            Ok(()) => Ok(true),
            // There is room.
            Err(_) => unreachable!(),
        }
    }
}

/// The parameters of a macro. Copies share their memory.
#[derive(Debug, Drop)]
pub struct Params {
    names: Rc<Distinct>,
}

impl Model for Params {
    ghost use Rattle.std.specs.Prelude.{List, ℕ};

    ghost Value = { List (List ℕ) };

    ghost view = { λ p. p.names.value };
}

impl Params {
    /// These parameters.
    pub fn from_names(alloc: Global, names: Distinct) -> Result<Params, AllocError>
        ensures { IfOk result (λ p. p ≡ names) }
    {
        Ok(Params {
            names: Rc::new(alloc, names)?,
        })
    }

    /// Their names.
    pub fn as_slice(&self) -> &[Chars]
        ensures { result.now ≡ self.now }
    {
        self.names.as_slice()
    }

    /// The place of a name.
    pub fn place(&self, name: &[char]) -> Option<usize>
        ensures { result ≡ place_of name.now self.now }
    {
        self.names.place(name)
    }

    /// The same parameters, in the same memory.
    pub fn copy(&self) -> Result<Params, AllocError>
        ensures { IfOk result (λ p. p ≡ self.now) }
    {
        Ok(Params {
            names: self.names.clone()?,
        })
    }
}

//! The locals that a statement sees.
ghost use Rattle.std.specs.Prelude.{◌≡◌, IfOk, List, [], ◌∷◌, OnErr, OnOk};
ghost use Rattle.lp_types_expr.specs.Known.{local_kind};
ghost use Rattle.lp_types_expr.specs.Scopes.{Scope, declaring, inside, is_double, left, mark_of, visible};

use crate::local::Local;
use crate::mark::Mark;
use crate::placed::{add, forget, keep, kind_at, place};
use crate::row::Row;
use lp_tree::chars::Chars;
use lp_tree::types::TypeName;
use std::alloc::{AllocError, Global};
use std::collections::HashMap;
use std::marker::Model;

/// The locals of a function that are seen where one of its statements stands, and which of them its block declared.
/// Each call takes the time of one look-up, however many locals there are; to leave a block takes the time of those
/// that it declared.
#[derive(Drop)]
pub struct Scopes {
    alloc: Global,
    answer: Option<TypeName>,
    rows: Vec<Row>,
    places: HashMap<Vec<char>, usize>,
    outer: usize,
}

impl Model for Scopes {
    ghost use Rattle.std.specs.Prelude.{◌≡◌, take, drop, length, ◌≤◌};
    ghost use Rattle.lp_types_expr.specs.Scopes.{Scope};

    ghost Value = { Scope };

    ghost use Rattle.lp_types_expr.specs.Placed.{ArePlaced, locals_of};

    ghost view = { λ s. record { answer = s.answer; outer = take s.outer (locals_of s.rows.items); block = drop s.outer (locals_of s.rows.items) } };

    ghost invariant = { λ s. (s.outer ≤ length s.rows.items) × ArePlaced s.rows.items s.places };
}

impl Scopes {
    /// A function's scope before its parameters, with the type of the function's value where it has one.
    pub fn new(alloc: Global, answer: Option<TypeName>) -> Result<Scopes, AllocError>
        ensures { IfOk result (λ s. s ≡ record { answer = answer; outer = []; block = [] }) }
    {
        Ok(Scopes {
            alloc,
            answer,
            rows: Vec::new(alloc),
            places: HashMap::new(alloc),
            outer: 0,
        })
    }

    /// The type of the function's value, where it has one.
    pub fn answer(&self) -> Option<TypeName>
        ensures { result ≡ self.now.answer }
    {
        self.answer
    }

    /// The block declares a local. An `Err` leaves all as it was.
    pub fn declare(&mut self, name: &Chars, kind: TypeName) -> Result<(), AllocError>
        ensures ok { OnOk result (self.new ≡ declaring self.old (record { name = name.now; kind = kind } ∷ [])) }
        ensures err { OnErr result (self.new ≡ self.old) }
    {
        add(self.alloc, &mut self.rows, &mut self.places, name, kind)
    }

    /// Whether the block declared a local of this name.
    pub fn is_double(&self, name: &Chars) -> bool
        ensures { result ≡ is_double self.now name.now }
    {
        match place(self.rows.as_slice(), &self.places, name) {
            None => false,
            Some(place) => self.outer <= place,
        }
    }

    /// The type of the local that a name means, if one is seen.
    pub fn local_kind(&self, name: &Chars) -> Option<TypeName>
        ensures { result ≡ local_kind (visible self.now) name.now }
    {
        kind_at(
            self.rows.as_slice(),
            place(self.rows.as_slice(), &self.places, name),
        )
    }

    /// A block begins inside this one.
    pub fn enter(&mut self) -> Mark
        ensures inside { self.new ≡ inside self.old }
        ensures mark { result ≡ mark_of self.old }
    {
        let mark = Mark {
            locals: self.rows.len(),
            outer: self.outer,
        };
        self.outer = mark.locals;
        mark
    }

    /// The block ends that began where the mark was made.
    pub fn leave(&mut self, mark: Mark)
        ensures left { self.new ≡ left mark self.old }
        ensures back { (before : Scope) (more : List Local) → mark ≡ mark_of before → self.old ≡ declaring (inside before) more → self.new ≡ before }
    {
        self.outer = keep(&mut self.rows, &mut self.places, mark);
    }
}

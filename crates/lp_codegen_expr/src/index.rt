//! Names, found by a map.
ghost use Rattle.std.specs.Prelude.{◌≡◌, IfOk, OnOk, List, ℕ, Some, cond, nat_eq};
ghost use Rattle.std.specs.Cmp.Lexicographic.{pointwise};
ghost use Rattle.lp_language.specs.Scope.{slot_of};
ghost use Rattle.lp_codegen_expr.specs.Found.{HasLast, place_in};

use lp_tree::chars::Chars;
use std::alloc::{AllocError, Global};
use std::collections::HashMap;
use std::marker::Model;

/// A list of names. The last place of a name is found by a map, in a time that does not grow with the list.
#[derive(Drop)]
pub struct Index {
    names: Vec<Chars>,
    places: HashMap<Vec<char>, usize>,
}

impl Model for Index {
    ghost use Rattle.std.specs.Prelude.{List, ℕ};
    ghost use Rattle.lp_codegen_expr.specs.Found.{HasLast};

    ghost Value = { List (List ℕ) };

    ghost view = { λ i. i.names.items };

    ghost invariant = { λ i. HasLast i.names.items i.places };
}

/// A name is noted with its place, over a place where it was noted before.
fn note(
    alloc: Global,
    places: &mut HashMap<Vec<char>, usize>,
    name: &Chars,
    at: usize,
) -> Result<(), AllocError>
    ensures { OnOk result ((q : List ℕ) → place_in places.new q ≡ cond (pointwise nat_eq name.now q) (Some at) (place_in places.old q)) }
{
    places.insert(Vec::from_slice(alloc, name.as_slice())?, at)?;
    Ok(())
}

impl Index {
    /// The names of a vector, in its order.
    pub fn from_vec(alloc: Global, names: Vec<Chars>) -> Result<Index, AllocError>
        ensures { IfOk result (λ i. i ≡ names.items) }
    {
        let mut places = HashMap::new(alloc);
        for i in 0..names.len() {
            note(alloc, &mut places, &names[i], i)?;
        }
        Ok(Index { names, places })
    }

    /// The names.
    pub fn as_slice(&self) -> &[Chars]
        ensures { result.now ≡ self.now }
    {
        self.names.as_slice()
    }

    /// The last place of a name, if it is among them. Takes no memory.
    pub fn place(&self, name: &Chars) -> Option<usize>
        ensures { result ≡ slot_of self.now name.now }
    {
        self.places.get(name.as_slice()).copied()
    }
}

//! What a cell holds.
ghost use Rattle.std.specs.Prelude.{◌≡◌, ◌<◌, length, slice_set};

use crate::pairs::Pairs;
use lp_values::value::Value;
use std::marker::Model;

/// The items of an array.
#[derive(Drop)]
pub struct Items {
    items: Vec<Value>,
}

impl Model for Items {
    ghost use Rattle.std.specs.Prelude.{List};
    ghost use Rattle.lp_values.specs.declared.value.Value.{Value as V};

    ghost Value = { List V };

    ghost view = { λ t. t.items.items };
}

impl Items {
    /// These items.
    pub fn from_vec(items: Vec<Value>) -> Items
        ensures { result ≡ items.items }
    {
        Items { items }
    }

    /// The items, to keep. Takes no memory.
    pub fn into_vec(self) -> Vec<Value>
        ensures { result.items ≡ self }
    {
        self.items
    }

    /// The items.
    pub fn as_slice(&self) -> &[Value]
        ensures { result.now ≡ self.now }
    {
        self.items.as_slice()
    }

    /// Writes the item at a place.
    pub fn write(&mut self, i: usize, v: Value)
        requires { i < length self.old }
        ensures { self.new ≡ slice_set self.old i v }
    {
        self.items[i] = v;
    }
}

/// What a cell holds: an array's items, or a mapping's pairs.
#[derive(Drop)]
pub enum Content {
    /// An array.
    Array(Items),
    /// A mapping.
    Mapping(Pairs),
}

/// Which kind of cell there is, if one is.
#[derive(Clone, Copy, Debug, PartialEq, Eq)]
pub enum Kind {
    /// An array.
    Array,
    /// A mapping.
    Mapping,
    /// No cell.
    Nothing,
}

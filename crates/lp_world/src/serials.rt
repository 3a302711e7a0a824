//! Lists of cells.
ghost use Rattle.std.specs.Prelude.{◌≡◌};

use lp_values::id::CellId;
use std::marker::Model;

/// A list of cells, by their serials.
#[derive(Debug, Drop)]
pub struct Serials {
    items: Vec<CellId>,
}

impl Model for Serials {
    ghost use Rattle.std.specs.Prelude.{List};
    ghost use Rattle.lp_values.specs.declared.id.CellId.{CellId};

    ghost Value = { List CellId };

    ghost view = { λ t. t.items.items };
}

impl Serials {
    /// The list of a vector's items. Takes no memory.
    pub fn from_vec(items: Vec<CellId>) -> Serials
        ensures { result ≡ items.items }
    {
        Serials { items }
    }

    /// The cells.
    pub fn as_slice(&self) -> &[CellId]
        ensures { result.now ≡ self.now }
    {
        self.items.as_slice()
    }
}

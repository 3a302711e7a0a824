//! Lists in records, as contracts see them.
ghost use Rattle.std.specs.Prelude.{◌≡◌};

use crate::record::{Packed, PackedCell};
use std::marker::Model;

/// Values.
#[derive(Debug, Drop)]
pub struct Values {
    items: Vec<Packed>,
}

impl Model for Values {
    ghost use Rattle.std.specs.Prelude.{List};
    ghost use Rattle.lp_image.specs.declared.record.Packed.{Packed};

    ghost Value = { List Packed };

    ghost view = { λ t. t.items.items };
}

impl Values {
    /// These items. Takes no memory.
    pub fn from_vec(items: Vec<Packed>) -> Values
        ensures { result ≡ items.items }
    {
        Values { items }
    }

    /// The items, to keep. Takes no memory.
    pub fn into_vec(self) -> Vec<Packed>
        ensures { result.items ≡ self }
    {
        self.items
    }

    /// The items.
    pub fn as_slice(&self) -> &[Packed]
        ensures { result.now ≡ self.now }
    {
        self.items.as_slice()
    }
}

/// The pairs of a mapping.
#[derive(Debug, Drop)]
pub struct Pairs {
    items: Vec<(Packed, Packed)>,
}

impl Model for Pairs {
    ghost use Rattle.std.specs.Prelude.{List};
    ghost use Rattle.lp_image.specs.declared.record.Packed.{Packed};

    ghost Value = { List (Packed × Packed) };

    ghost view = { λ t. t.items.items };
}

impl Pairs {
    /// These items. Takes no memory.
    pub fn from_vec(items: Vec<(Packed, Packed)>) -> Pairs
        ensures { result ≡ items.items }
    {
        Pairs { items }
    }

    /// The items, to keep. Takes no memory.
    pub fn into_vec(self) -> Vec<(Packed, Packed)>
        ensures { result.items ≡ self }
    {
        self.items
    }

    /// The items.
    pub fn as_slice(&self) -> &[(Packed, Packed)]
        ensures { result.now ≡ self.now }
    {
        self.items.as_slice()
    }
}

/// Arrays and mappings.
#[derive(Debug, Drop)]
pub struct Cells {
    items: Vec<PackedCell>,
}

impl Model for Cells {
    ghost use Rattle.std.specs.Prelude.{List};
    ghost use Rattle.lp_image.specs.declared.record.PackedCell.{PackedCell};

    ghost Value = { List PackedCell };

    ghost view = { λ t. t.items.items };
}

impl Cells {
    /// These items. Takes no memory.
    pub fn from_vec(items: Vec<PackedCell>) -> Cells
        ensures { result ≡ items.items }
    {
        Cells { items }
    }

    /// The items, to keep. Takes no memory.
    pub fn into_vec(self) -> Vec<PackedCell>
        ensures { result.items ≡ self }
    {
        self.items
    }

    /// The items.
    pub fn as_slice(&self) -> &[PackedCell]
        ensures { result.now ≡ self.now }
    {
        self.items.as_slice()
    }
}

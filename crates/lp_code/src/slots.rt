//! Slots of a program, found by name.
ghost use Rattle.std.specs.Prelude.{◌≡◌, ◌<◌, IfOk, IfSome, List, None, OnOk, Some, bytes_eq, cond, length, ℕ};
ghost use Rattle.std.specs.HashMap.{get_by_text};
ghost use Rattle.lp_code.specs.Slots.{IsIndex, earlier, first_place};

use crate::tables::Slot;
use std::alloc::{AllocError, Global};
use std::collections::HashMap;
use std::marker::Model;

/// A list of slots, in which a name is found by a map.
#[derive(Debug, Drop)]
pub struct Slots {
    rows: Vec<Slot>,
    places: HashMap<String, usize>,
}

impl Model for Slots {
    ghost use Rattle.std.specs.Prelude.{List};
    ghost use Rattle.lp_code.specs.declared.tables.Slot.{Slot as Row};
    ghost use Rattle.lp_code.specs.Slots.{IsIndex};

    ghost Value = { List Row };

    ghost view = { λ s. s.rows.items };

    ghost invariant = { λ s. IsIndex s.rows.items s.places };
}

/// A name is noted with its place, where it was not noted before.
pub(crate) fn note(
    alloc: Global,
    places: &mut HashMap<String, usize>,
    name: &str,
    at: usize,
) -> Result<(), AllocError>
    ensures { OnOk result ((q : List ℕ) → get_by_text places.new q ≡ earlier (get_by_text places.old q) (cond (bytes_eq q name.now) (Some at) None)) }
{
    if places.contains_key(name) {
        return Ok(());
    }
    places.insert(String::from_str(alloc, name)?, at)?;
    Ok(())
}

/// The place of the first slot of each name.
fn index(alloc: Global, rows: &[Slot]) -> Result<HashMap<String, usize>, AllocError>
    ensures { IfOk result (λ m. IsIndex rows.now m) }
{
    let mut places = HashMap::new(alloc);
    for i in 0..rows.len() {
        note(alloc, &mut places, rows[i].name.as_str(), i)?;
    }
    Ok(places)
}

impl Slots {
    /// The slots of a vector.
    pub fn from_vec(alloc: Global, rows: Vec<Slot>) -> Result<Slots, AllocError>
        ensures { IfOk result (λ s. s ≡ rows.items) }
    {
        let places = index(alloc, rows.as_slice())?;
        Ok(Slots { rows, places })
    }

    /// The slots, to keep. Takes no memory.
    pub fn into_vec(self) -> Vec<Slot>
        ensures { result.items ≡ self }
    {
        let Slots { rows, .. } = self;
        rows
    }

    /// The slots.
    pub fn as_slice(&self) -> &[Slot]
        ensures { result.now ≡ self.now }
    {
        self.rows.as_slice()
    }

    /// The place of the first slot of a name, if one has it. Takes no memory, and no longer with more slots.
    pub fn place(&self, name: &str) -> Option<usize>
        ensures is { result ≡ first_place name.now self.now }
        ensures inside { IfSome result (λ k. k < length self.now) }
    {
        self.places.get(name).copied()
    }
}

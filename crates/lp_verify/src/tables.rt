//! Whether tables are as they have to be.
ghost use Rattle.std.specs.Prelude.{◌≡◌, ◌↔◌, ◌≤◌, ◌++◌, ◌∷◌, [], IfOk, IsTrue, MatchBool, length};
ghost use Rattle.lp_code.specs.Inside.{AreTables};
ghost use Rattle.lp_verify.specs.Names.{AreDistinctNames, Puts};

use indexmap::IndexSet;
use lp_code::name::Name;
use lp_code::tables::{Slot, Tables};
use std::alloc::{AllocError, Global};

/// Whether a name was not there. It is put last then.
fn is_new(names: &mut IndexSet<Name>, name: Name) -> Result<bool, AllocError>
    ensures { IfOk result (λ r. Puts names.old.keys name names.new.keys r) }
{
    let (_, new) = names.insert_full(name)?;
    Ok(new)
}

fn are_new(alloc: Global, names: &mut IndexSet<Name>, slots: &[Slot]) -> Result<bool, AllocError>
    requires { names.old.keys ≡ [] }
    ensures { IfOk result (λ r. IsTrue r ↔ AreDistinctNames slots.now) }
{
    for slot in slots {
        let name = slot.name.copy(alloc)?;
        let new = is_new(names, name)?;
        if !new {
            return Ok(false);
        }
    }
    Ok(true)
}

fn are_distinct(alloc: Global, slots: &[Slot]) -> Result<bool, AllocError>
    ensures { IfOk result (λ r. IsTrue r ↔ AreDistinctNames slots.now) }
{
    let mut names = IndexSet::new(alloc);
    are_new(alloc, &mut names, slots)
}

/// Whether there are at most 65535 slots, of distinct names.
pub(crate) fn are_tables(alloc: Global, tables: &Tables) -> Result<bool, AllocError>
    ensures { IfOk result (λ r. IsTrue r ↔ AreTables tables.now) }
{
    let slots = tables.slots.as_slice();
    let distinct = are_distinct(alloc, slots)?;
    Ok(slots.len() <= 65535 && distinct)
}

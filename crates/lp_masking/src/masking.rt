//! Nomask functions that stand in the way of a shadow.
ghost use Rattle.std.specs.Prelude.{◌≡◌, ◌≤◌, is_some, length, slice_get};
ghost use Rattle.std.specs.Option.{option_copied};
ghost use Rattle.lp_language.specs.Resolve.{Heritage};
ghost use Rattle.lp_layout.specs.Layout.{slot_named};
ghost use Rattle.lp_part_laws.specs.Parts.{reached_in};
ghost use Rattle.lp_part_laws.specs.Versions.{FitsVersion};
ghost use Rattle.lp_masking.specs.Masks.{is_forbidden_in, is_masking, programs_forbid, rows_mask};

use lp_code::program::RawProgram;
use lp_code::tables::Slot;

/// A row of a program's table, by its place.
fn slot_at(code: &RawProgram, slot: u16) -> Option<&Slot>
    ensures { option_copied result ≡ slice_get code.now.tables.slots slot }
{
    code.tables.slots.as_slice().get(slot as usize)
}

/// The row of a name in a program's tables, found by their map.
fn row_named<'a>(whole: &'a RawProgram, name: &str) -> Option<&'a Slot>
    requires { length whole.now.tables.slots ≤ 65535 }
    ensures { option_copied result ≡ slot_named whole.now.tables.slots name.now }
{
    match whole.tables.slot(name) {
        Some(k) => slot_at(whole, k),
        None => None,
    }
}

/// Whether a name has a function in a program.
fn has_function(whole: &RawProgram, name: &str) -> bool
    requires { length whole.now.tables.slots ≤ 65535 }
    ensures { result ≡ is_some (reached_in (slot_named whole.now.tables.slots name.now)) }
{
    match row_named(whole, name) {
        Some(slot) => slot.fun != 65535,
        None => false,
    }
}

/// Whether a row is that of a nomask function whose name has a function in another program.
#[tactic(auto, unfolding(crate::specs::Masks::is_masking))]
fn is_masking(slot: &Slot, other: &RawProgram) -> bool
    requires { length other.now.tables.slots ≤ 65535 }
    ensures { result ≡ is_masking other.now.tables.slots slot.now }
{
    if slot.fun == 65535 {
        return false;
    }
    if (slot.mods / 32) % 2 != 1 {
        return false;
    }
    has_function(other, slot.name.as_str())
}

/// Whether one of some rows is.
fn do_mask(slots: &[Slot], other: &RawProgram) -> bool
    requires { length other.now.tables.slots ≤ 65535 }
    ensures { result ≡ rows_mask other.now.tables.slots slots.now }
{
    for slot in slots {
        if is_masking(slot, other) {
            return true;
        }
    }
    false
}

/// Whether a program forbids that an object of another one shadows its objects: it has a nomask function whose name the other one
/// has a function of, or its file says `no_shadow`. Looks each of its rows up once, by the map of the other one's names; takes no
/// memory.
pub fn forbids(victim: &RawProgram, other: &RawProgram) -> bool
    requires { length other.now.tables.slots ≤ 65535 }
    ensures value { result ≡ programs_forbid victim.now other.now }
    ensures means { (h k : Heritage) → FitsVersion h victim.now → FitsVersion k other.now → result ≡ is_forbidden_in h k }
{
    do_mask(victim.tables.slots.as_slice(), other) || victim.tables.pragmas.no_shadow
}

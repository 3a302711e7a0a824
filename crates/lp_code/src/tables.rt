//! Tables of a program: which function each name means, and which variables there are.
ghost use Rattle.std.specs.Prelude.{◌≡◌, ◌≤◌, ◌+◌, length};
ghost use Rattle.lp_code.specs.Slots.{first_place};

use crate::listed::Listed;
use crate::name::Name;
use crate::slots::Slots;
use crate::steps::Steps;
use lp_tree::path::FilePath;
use lp_tree::pragma::Pragmas;
use lp_tree::types::TypeName;
use lp_values::id::ProgId;
use std::sync::ledger::Ledger;

/// A name and the function that it means in the program.
#[derive(Debug, Drop)]
pub struct Slot {
    /// The name.
    pub name: Name,
    /// The part in which the function stands, counted from 0, parents first, the program itself last.
    pub part: u16,
    /// The place of the function among those of its part, in the order of the text. 65535 is no function: a call gives 0.
    pub fun: u16,
    /// The modifiers: bit 0 for `private`, 1 `protected`, 2 `public`, 3 `static`, 4 `nosave`, 5 `nomask`, 6 `varargs`.
    pub mods: u16,
    /// The type of the value.
    pub answer: TypeName,
    /// The types of the parameters.
    pub params: Listed<TypeName>,
}

/// A variable. Its place in the list is its offset.
#[derive(Debug, Drop)]
pub struct VarRow {
    /// The name.
    pub name: Name,
    /// The part in which it is declared, counted as in `Slot`.
    pub part: u16,
    /// The modifiers, as in `Slot`.
    pub mods: u16,
    /// The type.
    pub kind: TypeName,
}

/// The tables of a program.
#[derive(Debug, Drop)]
pub struct Tables {
    /// The path of its file, without `.c`.
    pub path: FilePath,
    /// The versions of its parents, in the order of the inherits.
    pub parents: Listed<ProgId>,
    /// The version of each part, the program's own last.
    pub parts: Listed<ProgId>,
    /// Which function each name means: at most 65535 rows, of distinct names.
    pub slots: Slots,
    /// The variables, those of the parents first.
    pub vars: Listed<VarRow>,
    /// The pragmas of its file.
    pub pragmas: Pragmas,
}

impl Tables {
    /// The place of the slot of a name, or None where no slot has it. Takes no memory, and no longer with more slots.
    pub fn slot(&self, name: &str) -> Option<u16>
        requires { length self.now.slots ≤ 65535 }
        ensures { result ≡ first_place name.now self.now.slots }
    {
        let place = self.slots.place(name)?;
        Some(place as u16)
    }

    /// As `slot`, and counts a step where a name is compared: one look-up in the map of the names, and none where no slot is.
    pub fn find<L: Ledger>(&self, name: &str, steps: &mut Steps<L>) -> Option<u16>
        requires { length self.now.slots ≤ 65535 }
        ensures is { result ≡ first_place name.now self.now.slots }
        ensures counts { steps.old ≤ steps.new }
        ensures few { steps.new ≤ steps.old + 1 }
        ensures cost { steps.new ≤ steps.old + length self.now.slots }
    {
        if self.slots.as_slice().is_empty() {
            return None;
        }
        steps.tick();
        self.slot(name)
    }
}

//! A unit without faults is that of a version, and its program is sound.
#![tactic(auto)]

ghost use Rattle.lp_unit_laws.specs.Arguments.{WellTypedIsCounted};
ghost use Rattle.lp_unit_laws.specs.Units.{FaultlessIsSound, FaultlessTablesAreFine};
ghost use Rattle.lp_unit_laws.specs.Versions.{FaultlessIsVersion};

use lp_sim::{translated_code_is_sound, translated_initialisers_are_sound};

/// The law of arguments: where the types of a unit have no fault, each call of an efun has a number of arguments that the efun
/// allows.
pub fn law_arguments()
    ensures { WellTypedIsCounted }
{}

/// The law of versions: a unit without faults over the tables of versions is that of a version with its tables, in which no name
/// is used twice.
pub fn law_versions()
    ensures { FaultlessIsVersion }
{}

/// The law of tables: those of a unit whose layout has no fault have at most 65535 slots, of distinct names.
pub fn law_tables()
    ensures { FaultlessTablesAreFine }
{}

/// The law of programs: one that has the code of a unit without faults, with the unit's tables, is sound, so that the verifier
/// does not refuse it; where its stack may become as high as all its instructions together make it, and an instruction names
/// each row of its list of switches.
pub fn law_programs()
    ensures { FaultlessIsSound }
{
    translated_code_is_sound();
    translated_initialisers_are_sound();
}

//! Laws of the code of units.
ghost use Rattle.lp_codegen_laws.specs.Units.{FaultlessUnitIsClear, KnownUnitIsClear};

use lp_types::check::law_meaning;

/// The law of clear units: where the checks find no fault in a unit that the grammar made, all that it has code for is clear,
/// for each layout that knows the names which the check of types knows. So no generator refuses it but for want of memory or
/// room.
pub fn law_known()
    ensures { KnownUnitIsClear }
{
    law_meaning();
}

/// The same for the layout of the unit's own tables.
pub fn law_faultless()
    ensures { FaultlessUnitIsClear }
{
    law_meaning();
}

//! What compiling gives where the checks find no fault.
ghost use Rattle.lp_compile.specs.Faultless.{FaultlessHasCode};

use lp_codegen_laws::laws::law_faultless;

/// The law of faultless units: each is clear for the layout of its version's tables, so that `generate` refuses it for want of
/// memory or room alone.
pub fn law_code()
    ensures { FaultlessHasCode }
{
    law_faultless();
}

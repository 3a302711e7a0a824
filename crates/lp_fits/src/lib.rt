//! The programs of all versions fit them.
#![tactic(auto)]

ghost use Rattle.lp_fits.specs.Fits.{EntryStillFits, NewVersionFits};

use lp_front::names::law_spelled;

/// The law of new versions: the programs of all versions still fit them where a file that was compiled for the next number
/// becomes the version with that number.
pub fn law_fits()
    ensures { NewVersionFits }
{
    law_spelled();
}

/// The law of entries: so they do where an entry of a function counts.
pub fn law_entered()
    ensures { EntryStillFits }
{}

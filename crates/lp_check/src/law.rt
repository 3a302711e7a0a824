//! Laws of what a report tells.
ghost use Rattle.std.specs.Prelude.{◌≡◌, List, ℕ};
ghost use Rattle.lp_loads.specs.Loads.{Loaded};
ghost use Rattle.lp_check.specs.Report.{AreEnded};
ghost use Rattle.lp_check.specs.Unique.{OneReport};

use lp_parser::law::one_unit_law;
use lp_preproc::law::law_one_outcome;

/// Law: there is one order in which the faults of loads are told.
pub fn law_one_order()
    ensures { (ls : Loaded) (ps qs : List (List ℕ)) → AreEnded ls ps → AreEnded ls qs → ps ≡ qs }
{}

/// Law: the files of a script have one report, since an expansion has one outcome and tokens spell one unit.
pub fn law_one_report()
    ensures { OneReport }
{
    law_one_outcome();
    one_unit_law();
}

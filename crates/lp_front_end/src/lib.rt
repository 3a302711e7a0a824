//! The front end of the written meaning as it is: reading is expansion and grammar, checking is typing and layout.
//!
//! No code runs here. The functions are laws: each has a clause and nothing to do.
#![tactic(auto)]

ghost use Rattle.lp_meaning.specs.FrontEnd.{FrontEnd};
ghost use Rattle.lp_front_end.specs.Examples.{Examples};
ghost use Rattle.lp_front_end.specs.FrontEnds.{AllAreTheSame, IsFrontEnd, NamesTheFile, ThereIsOne};
ghost use Rattle.lp_front_end.specs.Parents.{FilesAreOfNames, MissingAreTheSame, NamesHaveFiles, TablesAreTheSame};
ghost use Rattle.lp_front_end.specs.Stores.{StoresAreRead};
ghost use Rattle.lp_front_end.specs.Told.{CheckIsTold, FaultsAreTold, ReadIsTold};

use lp_parser::law::one_unit_law;
use lp_preproc::law::law_one_outcome;
use lp_preproc_laws::answered::law_answered;

/// Law: there is a front end, for each file has an expansion or a first fault, and the tokens of an expansion spell a unit or
/// have a first fault.
pub fn law_there_is_one()
    ensures { ThereIsOne }
{
    law_answered();
}

/// Law: all front ends are the same, for an expansion has one outcome, tokens spell one unit at most, and no token but one is
/// their first fault. What is said of one is said of each.
pub fn law_all_are_the_same()
    ensures { AllAreTheSame }
{
    law_one_outcome();
    one_unit_law();
}

/// Law: each fault that is told of a file names that file.
pub fn law_faults_name_the_file()
    ensures { (front : FrontEnd) → IsFrontEnd front → NamesTheFile front }
{}

/// Law: where a store has the files of a world, what is read of a file is what the store's file declares, or its first fault.
pub fn law_stores_are_read()
    ensures { StoresAreRead }
{
    law_one_outcome();
    one_unit_law();
}

/// Law: who asks for a file is told what is read of it: what it declares, or its first fault.
pub fn law_read_is_told()
    ensures { ReadIsTold }
{}

/// Law: who asks whether a unit is sound is told its faults, or that it has none.
pub fn law_check_is_told()
    ensures { CheckIsTold }
{}

/// Law: where a unit has a fault, its faults are the reply.
pub fn law_faults_are_told()
    ensures { FaultsAreTold }
{}

/// Law: the files that a unit inherits are those of the names that a load of it goes by.
pub fn law_files_are_of_names()
    ensures { FilesAreOfNames }
{}

/// Law: names apart have files apart.
pub fn law_names_have_files()
    ensures { NamesHaveFiles }
{}

/// Law: the first parent whose tables are not known while a file is compiled is the first that is missing.
pub fn law_missing_are_the_same()
    ensures { MissingAreTheSame }
{
    law_files_are_of_names();
}

/// Law: the tables with which a file is compiled are those of the versions with which it is checked.
pub fn law_tables_are_the_same()
    ensures { TablesAreTheSame }
{
    law_files_are_of_names();
}

/// Law: small files are read and checked as they should be.
pub fn law_examples()
    ensures { (front : FrontEnd) → IsFrontEnd front → Examples front }
{
    law_one_outcome();
    one_unit_law();
}

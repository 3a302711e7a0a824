//! Small mudlibs with their events, on which the written meaning gives the transcript that the rules
//! of LPC ask for: tests of the definitions, which no theorem tests.
//!
//! Each function is a law: it has a clause, the rows of one topic with what they give, and nothing to do. The rows
//! stand in `specs/`, with the text of each file and the trees that it spells.
#![tactic(auto)]

ghost use Rattle.lp_meaning_rows.specs.Values.{ValuesRows};
ghost use Rattle.lp_meaning_rows.specs.Calls.{CallsRows};
ghost use Rattle.lp_meaning_rows.specs.Loads.{LoadsRows};
ghost use Rattle.lp_meaning_rows.specs.Places.{PlacesRows};
ghost use Rattle.lp_meaning_rows.specs.Commands.{CommandsRows};
ghost use Rattle.lp_meaning_rows.specs.Rows.{RowsAreRuns};
ghost use Rattle.lp_meaning_rows.specs.Time.{TimeRows};
ghost use Rattle.lp_meaning_rows.specs.Files.{FilesRows};
ghost use Rattle.lp_meaning_rows.specs.WrongRules.{WrongRules};

/// Rows on values, operators and statements.
pub fn rows_on_values()
    ensures { ValuesRows }
{}

/// Rows on which function a call reaches.
pub fn rows_on_calls()
    ensures { CallsRows }
{}

/// Rows on loading and reloading.
pub fn rows_on_loads()
    ensures { LoadsRows }
{}

/// Rows on environments and destruction.
pub fn rows_on_places()
    ensures { PlacesRows }
{}

/// Rows on commands, lines and errors.
pub fn rows_on_commands()
    ensures { CommandsRows }
{}

/// Rows on ticks.
pub fn rows_on_time()
    ensures { TimeRows }
{}

/// Rows on files and saved text.
pub fn rows_on_files()
    ensures { FilesRows }
{}

/// Nine wrong rules, each with one line of the meaning changed, are told from the meaning by a row: it
/// gives one transcript by the meaning, and another by them.
pub fn wrong_rules_are_refused()
    ensures { WrongRules }
{}

/// What a row gives is the transcript of its run: the rows are tests of the meaning itself.
pub fn rows_are_runs()
    ensures { RowsAreRuns }
{}

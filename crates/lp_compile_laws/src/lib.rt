//! What compiling a file gives is what the front end of the written meaning tells of it.
//!
//! No code runs here. The functions are laws: each has a clause and nothing to do.
#![tactic(auto)]

ghost use Rattle.lp_compile_laws.specs.Told.{AnswersAreApart, CompiledIsSound, RefusedIsTold};

use lp_front_end::{law_missing_are_the_same, law_stores_are_read, law_tables_are_the_same};

/// Law: what was compiled is what the front end reads, all its parents are known, and with their versions it has no fault.
pub fn law_compiled_is_sound()
    ensures { CompiledIsSound }
{
    law_stores_are_read();
    law_missing_are_the_same();
    law_tables_are_the_same();
}

/// Law: what was refused has the first fault that the front end reads, or else the parent that is needed is the first that is
/// missing, or else it has the faults that the front end finds with the versions of its parents.
pub fn law_refused_is_told()
    ensures { RefusedIsTold }
{
    law_stores_are_read();
    law_missing_are_the_same();
    law_tables_are_the_same();
}

/// Law: a file of which a program is compiled has neither a parent that is not loaded nor faults, whatever else compiling it
/// over the same may answer: so a program comes exactly where neither of them does, but for want of room or memory.
pub fn law_answers_are_apart()
    ensures { AnswersAreApart }
{
    law_stores_are_read();
}

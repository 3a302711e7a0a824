//! The code of a tree does what the tree means.
#![tactic(auto)]

ghost use Rattle.lp_isa.specs.SoundCode.{SoundCodeNeverFails, TranslatedCodeIsSound, TranslatedInitialisersAreSound};
ghost use Rattle.lp_isa.specs.Work.{SoundCodeEnds};
ghost use Rattle.lp_sim.specs.Examples.{Examples, HasCode};
ghost use Rattle.lp_sim.specs.WrongLines.{WrongLines};
ghost use Rattle.lp_isa.specs.Runs.{DoesTheMeaning, KeepsTheInitialisers, KeepsTheMeaning};

/// Wherever the code stands for a function's body, it makes the calls of every list that fits the
/// body, in the same order, and ends with the same value or stop, outputs, budget and world.
pub fn code_keeps_the_meaning()
    ensures { KeepsTheMeaning }
{}

/// The same of the initialisers of a program.
pub fn initialisers_keep_the_meaning()
    ensures { KeepsTheInitialisers }
{}

/// The same in the words of the machine alone, one instruction at a time.
pub fn code_does_the_meaning()
    ensures { DoesTheMeaning }
{}

/// What small pieces of LPC give.
pub fn law_examples()
    ensures { Examples }
{}

/// Code that keeps the invariant never comes to an instruction that finds too little on the stack,
/// or to a place outside of its function.
pub fn sound_code_never_fails()
    ensures { SoundCodeNeverFails }
{}

/// Code that stands for a function's body keeps the invariant, with some greatest height, where
/// each instruction names what is there.
pub fn translated_code_is_sound()
    ensures { TranslatedCodeIsSound }
{}

/// Each instruction of sound code leaves less to do, so that a run ends, or asks, after finitely
/// many.
pub fn sound_code_ends()
    ensures { SoundCodeEnds }
{}

/// So does the code of initialisers.
pub fn translated_initialisers_are_sound()
    ensures { TranslatedInitialisersAreSound }
{}

/// There is code that stands for two small functions.
pub fn law_code()
    ensures { HasCode }
{}

/// Wrong lines of the instruction table, of the meaning and of translation, each told apart by a
/// function: by the meaning and by its code it ends in one way, and by the wrong line in another.
pub fn wrong_lines_are_refused()
    ensures { WrongLines }
{}

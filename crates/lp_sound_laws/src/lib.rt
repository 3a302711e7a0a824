//! Translated code is sound.
#![tactic(auto)]

ghost use Rattle.lp_sound_laws.specs.Heights.{SoundCodeIsLow};
ghost use Rattle.lp_sound_laws.specs.Parts.{PartsAreProgram};
ghost use Rattle.lp_sound_laws.specs.Placed.{InitialisersArePlaced, TranslatedCodeIsPlaced};

/// The law of heights: what all instructions of sound code leave together bounds its stack, and the code is sound for any
/// names in the tables of parents among which it finds what it names.
pub fn law_heights()
    ensures { SoundCodeIsLow }
{}

/// The law of places: each instruction of translated code names what is there and leads to one that is there, whether a path
/// reaches it or not.
pub fn law_places()
    ensures { TranslatedCodeIsPlaced }
{}

/// The same of initialisers.
pub fn law_initialisers()
    ensures { InitialisersArePlaced }
{}

/// The law of programs: where the rows of functions are those of all code, in order, functions begin at rising places, each
/// instruction stands, each function is sound, and so is each switch that an instruction names.
pub fn law_programs()
    ensures { PartsAreProgram }
{}

//! Laws of the written meaning on reloads: what was made keeps its program, and what is made afterwards has the new one.
#![tactic(auto)]

ghost use Rattle.lp_reload_laws.specs.Reloads.{ReloadsKeep, MakingGives};

/// A reload changes the text of one file alone, and no version of any object: each object that was made, live or not, has the program
/// that it had. The blueprint of the file, where it lives, lives no longer, so that the next load of its name compiles the new text.
pub fn law_reload()
    ensures { ReloadsKeep }
{}

/// A version that is made is what was compiled, behind all others, which stay; and an object that is made has the version that it is made
/// of: a clone that of its blueprint.
pub fn law_making()
    ensures { MakingGives }
{}

//! Stack code as data: the efuns and the instructions, and when the code of a function is sound.
//!
//! The definitions stand in `specs/`. What runs, writes, checks or spells instructions stands above.
#![tactic(auto)]

pub mod efun;
pub mod efuns;
pub mod instr;

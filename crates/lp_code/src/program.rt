//! Programs.
ghost use Rattle.std.specs.Prelude.{◌≡◌};
ghost use Rattle.lp_code.specs.Programs.{IsProgram};

use crate::listed::Listed;
use crate::name::Name;
use crate::tables::Tables;
use lp_instr::instr::{Case, Instr};
use lp_values::text::Text;
use std::marker::Model;

/// A row of the list of switches.
#[derive(Debug, Drop)]
pub struct SwitchRow {
    /// The labels, each with the place to go on at.
    pub cases: Listed<Case>,
    /// The place where none fits.
    pub other: u32,
}

/// A function. Its code ends where that of the next function begins, or else with the last instruction.
#[derive(Debug, Drop)]
pub struct FunRow {
    /// The name.
    pub name: Name,
    /// Its first instruction.
    pub from: u32,
    /// How many parameters it has.
    pub params: u8,
    /// How many locals it has, the parameters among them. Up to 255 locals stand beside up to 255 parameters.
    pub locals: u16,
}

/// What a program is made of, before it is known to be sound.
#[derive(Debug, Drop)]
pub struct RawProgram {
    /// The instructions of all functions.
    pub instrs: Listed<Instr>,
    /// The texts that instructions and labels name by their numbers.
    pub consts: Listed<Text>,
    /// The switches that instructions name by their numbers.
    pub switches: Listed<SwitchRow>,
    /// The functions, in the order of their code.
    pub funs: Listed<FunRow>,
    /// The tables.
    pub tables: Tables,
    /// How many operands the stack may hold.
    pub max_height: u32,
}

/// A sound program.
#[derive(Debug, Drop)]
pub struct Program {
    raw: RawProgram,
}

impl Model for Program {
    ghost use Rattle.lp_code.specs.declared.program.RawProgram.{RawProgram as Raw};
    ghost use Rattle.lp_code.specs.Programs.{IsProgram};

    ghost Value = { Raw };

    ghost view = { λ p. p.raw };

    ghost invariant = { λ p. IsProgram p.raw };
}

impl Program {
    /// The program of these parts, which are sound.
    pub fn from_sound(raw: RawProgram) -> Program
        requires { IsProgram raw }
        ensures { result ≡ raw }
    {
        Program { raw }
    }

    /// What it is made of.
    pub fn raw(&self) -> &RawProgram
        ensures same { result.now ≡ self.now }
        ensures sound { IsProgram self.now }
    {
        &self.raw
    }

    /// What it is made of, to keep.
    pub fn into_raw(self) -> RawProgram
        ensures same { result ≡ self }
        ensures sound { IsProgram self }
    {
        self.raw
    }
}

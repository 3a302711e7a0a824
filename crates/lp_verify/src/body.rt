//! A program that is verified, with the function of each of its instructions.
ghost use Rattle.std.specs.Prelude.{◌≡◌, ◌<◌, IfOk, length};
ghost use Rattle.lp_code.specs.Owners.{locals_at, owner};

use crate::owners::owners;
use lp_code::program::RawProgram;
use lp_instr::instr::Instr;
use std::alloc::{AllocError, Global};
use std::marker::Model;

/// A program that is verified.
#[derive(Drop)]
pub(crate) struct Body<'a> {
    raw: &'a RawProgram,
    owners: Vec<usize>,
}

impl<'a> Model for Body<'a> {
    ghost use Rattle.std.specs.Prelude.{length};
    ghost use Rattle.lp_code.specs.declared.program.RawProgram.{RawProgram as Raw};
    ghost use Rattle.lp_verify.specs.Marks.{MarksOwners};

    ghost Value = { Raw };

    ghost view = { λ b. b.raw.now };

    ghost invariant = { λ b. MarksOwners (length b.raw.now.instrs) b.raw.now.funs b.owners.items };
}

impl<'a> Body<'a> {
    /// The program, with the function of each instruction.
    pub(crate) fn new(alloc: Global, raw: &'a RawProgram) -> Result<Body<'a>, AllocError>
        ensures { IfOk result (λ b. b ≡ raw.now) }
    {
        let owners = owners(alloc, raw.instrs.as_slice().len(), raw.funs.as_slice())?;
        Ok(Body { raw, owners })
    }

    /// The program.
    pub(crate) fn raw(&self) -> &RawProgram
        ensures { result.now ≡ self.now }
    {
        self.raw
    }

    /// How many instructions there are.
    pub(crate) fn places(&self) -> usize
        ensures { result ≡ length self.now.instrs }
    {
        self.raw.instrs.as_slice().len()
    }

    /// The function of an instruction, counted from 1.
    pub(crate) fn owner(&self, at: usize) -> usize
        requires { at < length self.now.instrs }
        ensures { result ≡ owner self.now.funs at }
    {
        self.owners[at]
    }

    /// How many locals the function of an instruction has.
    pub(crate) fn locals(&self, at: usize) -> u16
        requires { at < length self.now.instrs }
        ensures { result ≡ locals_at self.now at }
    {
        let owner = self.owner(at);
        if owner == 0 {
            return 0;
        }
        match self.raw.funs.as_slice().get(owner - 1) {
            Some(row) => row.locals,
            None => 0,
        }
    }
}

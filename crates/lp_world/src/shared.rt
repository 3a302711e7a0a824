//! Programs in memory, which frames share.
ghost use Rattle.std.specs.Prelude.{◌≡◌, IfOk};
ghost use Rattle.lp_code.specs.Programs.{IsProgram};

use lp_code::program::{Program, RawProgram};
use std::alloc::{AllocError, Global};
use std::marker::Model;
use std::rc::Rc;

/// A program in memory. The table of versions and the frames that run it share it.
#[derive(Drop)]
pub struct SharedProgram {
    program: Rc<Program>,
}

impl Model for SharedProgram {
    ghost use Rattle.lp_code.specs.declared.program.RawProgram.{RawProgram as Raw};

    ghost Value = { Raw };

    ghost view = { λ p. p.program.value };
}

impl SharedProgram {
    /// The program, to be shared.
    pub fn new(alloc: Global, program: Program) -> Result<SharedProgram, AllocError>
        ensures { IfOk result (λ p. p ≡ program) }
    {
        Ok(SharedProgram {
            program: Rc::new(alloc, program)?,
        })
    }

    /// What it is made of.
    pub fn raw(&self) -> &RawProgram
        ensures same { result.now ≡ self.now }
        ensures sound { IsProgram self.now }
    {
        self.program.raw()
    }

    /// The program itself.
    pub fn program(&self) -> &Program
        ensures { result.now ≡ self.now }
    {
        &self.program
    }

    /// The same program, in the same memory.
    pub fn share(&self) -> Result<SharedProgram, AllocError>
        ensures { IfOk result (λ p. p ≡ self.now) }
    {
        Ok(SharedProgram {
            program: self.program.clone()?,
        })
    }
}

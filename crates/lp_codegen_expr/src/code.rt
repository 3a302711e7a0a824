//! Code under construction.
ghost use Rattle.std.specs.Prelude.{◌≡◌, ◌≢◌, [], ◌∷◌, length, map, MatchResult};
ghost use Rattle.lp_codegen_expr.specs.Drafts.{draft_of, filled, grown, HasText};

use crate::texts::Texts;
use lp_code::program::SwitchRow;
use lp_instr::instr::Instr;
use lp_tree::chars::Chars;
use std::alloc::{AllocError, AllocFailed};

/// Why there is no code for a tree. What was added to the code before stays there.
#[derive(Debug, Drop, thiserror::Error)]
pub enum GenFault {
    /// There is no memory.
    #[error("out of memory")]
    NoMemory,
    /// A number that has no room in an instruction: a place, a text or a count from 4294967296 on.
    #[error("too large")]
    TooLarge,
    /// The tree has a name that means nothing, or assigns to what is no place, or is a sequence without parts.
    #[error("no code stands for it")]
    Unclear,
}

impl From<AllocError> for GenFault {
    ghost use Rattle.lp_codegen_expr.specs.declared.code.GenFault.TheVariants.{NoMemory};

    ghost from_gives = { λ _ e. e ≡ NoMemory };

    fn from(_: AllocError) -> Self {
        GenFault::NoMemory
    }
}

impl<T: Drop> From<AllocFailed<T>> for GenFault {
    ghost use Rattle.lp_codegen_expr.specs.declared.code.GenFault.TheVariants.{NoMemory};

    ghost from_gives = { λ _ e. e ≡ NoMemory };

    fn from(_e: AllocFailed<T>) -> GenFault {
        GenFault::NoMemory
    }
}

/// One instruction, or a jump out of the innermost loop, or to its next turn, whose place is not known yet.
#[derive(Clone, Copy, Drop)]
pub enum Draft {
    /// An instruction.
    Done(Instr),
    /// A jump out of the innermost loop.
    Break,
    /// A jump to the next turn of the innermost loop.
    Continue,
}

/// Code under construction, with its texts and switches.
#[derive(Drop)]
pub struct Code {
    /// The instructions.
    pub instrs: Vec<Draft>,
    /// The texts.
    pub texts: Texts,
    /// The switches.
    pub switches: Vec<SwitchRow>,
}

impl Code {
    /// The place of the next instruction.
    pub fn here(&self) -> Result<u32, GenFault>
        ensures { MatchResult result (λ k. k ≡ length (draft_of self.now).code) (λ f. f ≢ GenFault.Unclear) }
    {
        counted(self.instrs.len())
    }

    /// One more instruction.
    pub fn put(&mut self, instr: Instr) -> Result<(), GenFault>
        ensures { MatchResult result (λ _. draft_of self.new ≡ grown (draft_of self.old) (Draft.Done instr ∷ [])) (λ f. f ≢ GenFault.Unclear) }
    {
        self.instrs.push(Draft::Done(instr))?;
        Ok(())
    }

    /// A jump whose place is not known yet.
    pub fn put_open(&mut self, draft: Draft) -> Result<(), GenFault>
        ensures { MatchResult result (λ _. draft_of self.new ≡ grown (draft_of self.old) (draft ∷ [])) (λ f. f ≢ GenFault.Unclear) }
    {
        self.instrs.push(draft)?;
        Ok(())
    }

    /// Several more instructions.
    pub fn put_all(&mut self, instrs: &[Instr]) -> Result<(), GenFault>
        ensures { MatchResult result (λ _. draft_of self.new ≡ grown (draft_of self.old) (map Draft.Done instrs.now)) (λ f. f ≢ GenFault.Unclear) }
    {
        for instr in instrs {
            self.put(*instr)?;
        }
        Ok(())
    }

    /// An instruction in place of another. Where there is none, nothing changes.
    pub fn fill(&mut self, at: u32, instr: Instr)
        ensures { draft_of self.new ≡ filled (draft_of self.old) at (Draft.Done instr) }
    {
        let at = at as usize;
        if at < self.instrs.len() {
            self.instrs[at] = Draft::Done(instr);
        }
    }

    /// The number of a text, which is added where it was not there.
    pub fn text(&mut self, text: &Chars) -> Result<u32, GenFault>
        ensures { MatchResult result (λ k. HasText k text.now (draft_of self.old) (draft_of self.new)) (λ f. f ≢ GenFault.Unclear) }
    {
        let number = self.texts.number(text.as_slice())?;
        counted(number)
    }
}

/// A number, where an instruction has room for it.
pub fn counted(number: usize) -> Result<u32, GenFault>
    ensures { MatchResult result (λ k. k ≡ number) (λ f. f ≢ GenFault.Unclear) }
{
    if number < 4294967296 {
        Ok(number as u32)
    } else {
        Err(GenFault::TooLarge)
    }
}

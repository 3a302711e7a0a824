//! Where internal calls of a version lead, as far as that was found.
ghost use Rattle.std.specs.Prelude.{◌≡◌, ◌<◌, ℕ, None, OnErr, OnOk, Some, vec_len};
ghost use Rattle.std.specs.Bool.{OnTrue};
ghost use Rattle.lp_world.specs.Targets.{AreAllAmong, IsAmong, IsAnswerAmong, answer_at, slot_answer, with_answer, with_slot};

use std::alloc::{AllocError, Global};

/// A function: the part in whose text it stands, and its row there.
#[derive(Clone, Copy, Debug, PartialEq, Eq)]
pub struct FunAt {
    /// The part.
    pub part: u16,
    /// The row.
    pub fun: u16,
}

/// What was found for the slots of a part's version: not looked for yet, no function, or a function.
#[derive(Drop)]
pub(crate) struct PartTargets {
    pub(crate) answers: Vec<Option<Option<FunAt>>>,
}

/// Whether a part has a function at a row, where the parts have so many functions.
pub fn is_among(counts: &[u32], part: u16, fun: u16) -> bool
    ensures { OnTrue result (IsAmong counts.now part fun) }
{
    match counts.get(part as usize) {
        Some(n) => (fun as u32) < *n,
        None => false,
    }
}

/// Whether an answer, if it is a function, is one that is there.
fn is_answer_among(answer: &Option<Option<FunAt>>, counts: &[u32]) -> bool
    ensures { OnTrue result (IsAnswerAmong counts.now answer.now) }
{
    match answer {
        Some(Some(f)) => is_among(counts, f.part, f.fun),
        _ => true,
    }
}

/// Whether each answer that is a function is one that is there.
fn are_among(answers: &[Option<Option<FunAt>>], counts: &[u32]) -> bool
    ensures { OnTrue result (AreAllAmong counts.now answers.now) }
{
    for answer in answers {
        if !is_answer_among(answer, counts) {
            return false;
        }
    }
    true
}

impl PartTargets {
    /// Makes room for a slot.
    fn grow(&mut self, slot: usize) -> Result<(), AllocError>
        ensures same { (k : ℕ) → slot_answer self.new k ≡ slot_answer self.old k }
        ensures room { OnOk result (slot < vec_len self.new.answers) }
    {
        while self.answers.len() <= slot {
            self.answers.push(None)?;
        }
        Ok(())
    }

    /// Keeps what was found for a slot.
    fn keep(&mut self, slot: usize, answer: Option<FunAt>) -> Result<(), AllocError>
        ensures ok { OnOk result ((k : ℕ) → slot_answer self.new k ≡ with_slot slot answer k (slot_answer self.old k)) }
        ensures err { OnErr result ((k : ℕ) → slot_answer self.new k ≡ slot_answer self.old k) }
    {
        self.grow(slot)?;
        self.answers[slot] = Some(answer);
        Ok(())
    }
}

/// For each part of a version, and each slot of the part's own version, the function that an internal call
/// of that slot reaches, where it was found once. An answer is found by its numbers.
#[derive(Drop)]
pub struct Targets {
    parts: Vec<PartTargets>,
}

impl Targets {
    /// Nothing was found yet. Takes no memory.
    pub fn new(alloc: Global) -> Targets
        ensures { (part slot : ℕ) → answer_at result part slot ≡ None }
    {
        Targets {
            parts: Vec::new(alloc),
        }
    }

    /// What was found for a slot of a part: nothing yet, no function, or a function. Takes no memory.
    pub fn answer(&self, part: u16, slot: u16) -> Option<Option<FunAt>>
        ensures { result ≡ answer_at self.now part slot }
    {
        match self.parts.get(part as usize) {
            Some(p) => match p.answers.get(slot as usize) {
                Some(answer) => *answer,
                None => None,
            },
            None => None,
        }
    }

    /// Makes room for a part.
    fn grow(&mut self, alloc: Global, part: usize) -> Result<(), AllocError>
        ensures same { (n k : ℕ) → answer_at self.new n k ≡ answer_at self.old n k }
        ensures room { OnOk result (part < vec_len self.new.parts) }
    {
        while self.parts.len() <= part {
            self.parts.push(PartTargets {
                answers: Vec::new(alloc),
            })?;
        }
        Ok(())
    }

    /// Keeps what was found for a slot of a part. After want of memory the same is kept as before.
    pub fn keep(
        &mut self,
        alloc: Global,
        part: u16,
        slot: u16,
        answer: Option<FunAt>,
    ) -> Result<(), AllocError>
        ensures ok { OnOk result ((n k : ℕ) → answer_at self.new n k ≡ with_answer part slot answer n k (answer_at self.old n k)) }
        ensures err { OnErr result ((n k : ℕ) → answer_at self.new n k ≡ answer_at self.old n k) }
    {
        self.grow(alloc, part as usize)?;
        self.parts[part as usize].keep(slot as usize, answer)
    }

    /// Whether each function that is kept is there, where the parts have so many functions.
    pub fn are_among(&self, counts: &[u32]) -> bool
        ensures { OnTrue result ((n k : ℕ) → IsAnswerAmong counts.now (answer_at self.now n k)) }
    {
        for part in &self.parts {
            if !are_among(part.answers.as_slice(), counts) {
                return false;
            }
        }
        true
    }
}

//! One action.
ghost use Rattle.std.specs.Prelude.{◌≡◌, ℕ, IfOk};
ghost use Rattle.lp_values.specs.declared.id.ObjId.{ObjId};
ghost use Rattle.lp_actions.specs.Actions.{matches};
ghost use Rattle.lp_actions.specs.Stored.{sentence_from, sentence_of};

use lp_values::id::ObjId;
use lp_values::text::Text;
use std::alloc::AllocError;

/// An action of a living object, its holder.
#[derive(Debug, Drop)]
pub struct Sentence {
    /// Which action it is. Each has another number, and a later one a higher.
    pub number: u64,
    /// The object whose function it is.
    pub giver: ObjId,
    /// The name of the function.
    pub fun: Text,
    /// The word that calls for it.
    pub verb: Text,
    /// Whether the word that is typed may go on behind the verb.
    pub flag: bool,
}

/// Where an action is kept.
#[derive(Clone, Copy, Debug, PartialEq, Eq, PartialOrd, Ord)]
pub(crate) struct Place {
    pub(crate) holder: u64,
    pub(crate) number: u64,
}

/// What is kept of an action at its place.
#[derive(Debug, Drop)]
pub(crate) struct Deed {
    pub(crate) giver: ObjId,
    pub(crate) fun: Text,
    pub(crate) verb: Text,
    pub(crate) flag: bool,
}

impl Deed {
    /// Whether a typed word calls for the action: its verb is that word, or with the flag a front of
    /// it.
    pub(crate) fn matches(&self, typed: &[char]) -> bool
        ensures { (holder : ObjId) (number : ℕ) → result ≡ matches typed.now (sentence_from holder number self.now) }
    {
        if self.flag {
            typed.starts_with(self.verb.as_slice())
        } else {
            self.verb.as_slice() == typed
        }
    }

    /// The action with a number that is kept so. The texts keep their memory.
    pub(crate) fn sentence(&self, number: u64) -> Result<Sentence, AllocError>
        ensures { IfOk result (λ s. (holder : ObjId) → sentence_of holder s ≡ sentence_from holder number self.now) }
    {
        Ok(Sentence {
            number,
            giver: self.giver,
            fun: self.fun.copy()?,
            verb: self.verb.copy()?,
            flag: self.flag,
        })
    }
}

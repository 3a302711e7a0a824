//! The arguments of a use.
ghost use Rattle.std.specs.Prelude.{◌≡◌, ◌++◌, ◌∷◌, [], ◌+◌, ◌-◌, ◌<◌, IfOk, OnOk};
ghost use Rattle.lp_preproc.specs.Uses.{all_of};

use crate::row::Row;
use crate::state::Use;
use crate::word::Word;
use std::alloc::{AllocError, Global};
use std::marker::Model;
use std::mem::replace;

/// The arguments of a use, as far as they were read.
#[derive(Drop)]
pub struct Arguments {
    usage: Use,
    // How many parentheses are open within the present argument: each is a word of it.
    nested: usize,
    whole: Row<Row<Word>>,
    current: Row<Word>,
}

impl Model for Arguments {
    ghost use Rattle.std.specs.Prelude.{length, ◌≤◌};
    ghost use Rattle.lp_preproc.specs.Arguments.{Arguments};

    ghost Value = { Arguments };

    ghost view = { λ a. record { usage = a.usage; nested = a.nested; whole = a.whole; current = a.current } };

    ghost invariant = { λ a. a.nested ≤ length a.current };
}

impl Arguments {
    /// Nothing was read of them but the `(` of the use.
    pub fn new(alloc: Global, usage: Use) -> Arguments
        ensures { result ≡ record { usage = usage; nested = 0; whole = []; current = [] } }
    {
        Arguments {
            usage,
            nested: 0,
            whole: Row::new(alloc),
            current: Row::new(alloc),
        }
    }

    /// How many parentheses are open within the present argument.
    pub fn nested(&self) -> usize
        ensures { result ≡ self.now.nested }
    {
        self.nested
    }

    /// The line of the use.
    pub fn line(&self) -> u32
        ensures { result ≡ self.now.usage.word.line }
    {
        self.usage.word.line
    }

    /// A word of the present argument.
    pub fn push(&mut self, word: Word) -> Result<(), AllocError>
        ensures { OnOk result (self.new ≡ record self.old { current = self.old.current ++ word ∷ [] }) }
    {
        self.current.push(word)
    }

    /// A word of the present argument that opens a pair of parentheses.
    pub fn open(&mut self, word: Word) -> Result<(), AllocError>
        ensures { OnOk result (self.new ≡ record self.old { nested = self.old.nested + 1; current = self.old.current ++ word ∷ [] }) }
    {
        // No more are open than there are words, and so many words are never in memory.
        let _words = self.current.len();
        self.current.push(word)?;
        self.nested += 1;
        Ok(())
    }

    /// A word of the present argument that closes a pair of parentheses.
    pub fn close(&mut self, word: Word) -> Result<(), AllocError>
        requires { 0 < self.old.nested }
        ensures { OnOk result (self.new ≡ record self.old { nested = self.old.nested - 1; current = self.old.current ++ word ∷ [] }) }
    {
        self.current.push(word)?;
        self.nested -= 1;
        Ok(())
    }

    /// The present argument is whole, and another begins.
    pub fn part(&mut self, alloc: Global) -> Result<(), AllocError>
        requires { self.old.nested ≡ 0 }
        ensures { OnOk result (self.new ≡ record self.old { whole = all_of self.old; current = [] }) }
    {
        let current = replace(&mut self.current, Row::new(alloc));
        self.whole.push(current)
    }

    /// The use and all its arguments.
    pub fn finish(self) -> Result<(Use, Row<Row<Word>>), AllocError>
        ensures usage { IfOk result (λ r. r.0 ≡ self.usage) }
        ensures all { IfOk result (λ r. r.1 ≡ all_of self) }
    {
        let usage = self.usage;
        let mut all = self.whole;
        all.push(self.current)?;
        Ok((usage, all))
    }
}

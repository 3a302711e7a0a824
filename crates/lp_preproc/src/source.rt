//! Open files.
ghost use Rattle.std.specs.Prelude.{◌≡◌, ◌∷◌, IfOk, List, OnOk, false};
ghost use Rattle.lp_preproc.specs.Steps.{Does};
ghost use Rattle.std.specs.Option.{option_copied};
ghost use Rattle.lp_preproc.specs.Directives.{first_bad, goes_on, is_bad, is_elif_line, is_greater, is_hash, is_less, next_lines, rest_of_line, skipped};
ghost use Rattle.lp_preproc.specs.Expansion.{word_of};
ghost use Rattle.lp_preproc.specs.State.{Open as AnyOpen, State, line_or, skips as skips_groups};

use crate::conditionals::skipped;
use crate::directive::Directive;
use crate::names::Names;
use crate::row::Row;
use crate::stack::Stack;
use crate::state::{Group, Stage};
use crate::stop::Stop;
use crate::word::Word;
use lp_tree::operator::BinOp;
use lp_tree::token::{Mark, Token, TokenKind};
use std::alloc::{AllocError, Global};

/// An open file: of an included file with the line of its `#include` in the compiled file.
#[derive(Drop)]
pub struct Open {
    /// Its path.
    pub path: Row<u8>,
    /// The tokens that are left of it.
    pub left: Stack<Token>,
    /// Its open conditionals.
    pub groups: Stack<Group>,
    /// The line of its `#include` in the compiled file.
    pub included: Option<u32>,
    /// The line of a conditional without end.
    pub last_line: u32,
}

/// Whether a token is a `#`.
pub fn is_hash(kind: &TokenKind) -> bool
    ensures { result ≡ is_hash kind.now }
{
    matches!(kind, TokenKind::Mark(Mark::Hash))
}

/// Whether a token is none.
pub fn is_bad(kind: &TokenKind) -> bool
    ensures { result ≡ is_bad kind.now }
{
    matches!(kind, TokenKind::Bad(_))
}

/// Whether a token is a `<`.
pub fn is_less(kind: &TokenKind) -> bool
    ensures { result ≡ is_less kind.now }
{
    matches!(kind, TokenKind::Mark(Mark::Binary(BinOp::Lt)))
}

/// Whether a token is a `>`.
pub fn is_greater(kind: &TokenKind) -> bool
    ensures { result ≡ is_greater kind.now }
{
    matches!(kind, TokenKind::Mark(Mark::Binary(BinOp::Gt)))
}

/// The first that is no token.
pub fn bad_place(tokens: &[Token]) -> Option<&Token>
    ensures { option_copied result ≡ first_bad tokens.now }
{
    'tokens: for token in tokens {
        if is_bad(&token.kind) {
            return Some(token);
        }
    }
    None
}

impl Open {
    /// The line of a token in the compiled file.
    pub fn line_of(&self, line: u32) -> u32
        ensures { result ≡ line_or self.now.included line }
    {
        match self.included {
            None => line,
            Some(own) => own,
        }
    }

    /// Whether its lines are skipped.
    pub fn skips(&self) -> bool
        ensures { result ≡ skips_groups self.now.groups }
    {
        match self.groups.first() {
            None => false,
            Some(group) => !matches!(group.stage, Stage::Live),
        }
    }

    /// A token as a word.
    pub fn word_of(&self, token: Token) -> Word
        ensures { result ≡ word_of self.now token }
    {
        Word {
            kind: token.kind,
            line: self.line_of(token.line),
            hidden: Names::none(),
            depth: 0,
        }
    }

    /// Whether the next token stands on the same line.
    fn goes_on(&self) -> bool
        ensures { result ≡ goes_on self.now.left }
    {
        match self.left.first() {
            None => false,
            Some(token) => !token.first,
        }
    }

    /// Takes the rest of a line.
    pub fn take_line(&mut self, alloc: Global) -> Result<Row<Token>, AllocError>
        ensures taken { IfOk result (λ r. r ≡ rest_of_line self.old.left) }
        ensures left { OnOk result (self.new ≡ record self.old { left = next_lines self.old.left }) }
    {
        let mut words = Row::new(alloc);
        'line: while self.goes_on() {
            if let Some(token) = self.left.pop() {
                words.push(token)?;
            }
        }
        Ok(words)
    }
}

impl Open {
    /// A directive in a skipped group.
    pub fn skip_directive(
        &mut self,
        said: Option<Directive>,
        rest: &[Token],
        line: u32,
    ) -> Result<(), Stop>
        requires { is_elif_line said ≡ false }
        ensures { (s : State) (os : List AnyOpen) → Does (skipped (record s { files = self.old ∷ os }) self.old said rest.now line) result (record s { files = self.new ∷ os }) }
    {
        skipped(&mut self.groups, said, rest, line)
    }
}

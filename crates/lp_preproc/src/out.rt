//! What came out.
ghost use Rattle.std.specs.Prelude.{◌≡◌, ◌∷◌, [], ◌++◌, ◌<◌, ◌^◌, IfOk, List, OnOk, length, reverse, ℕ};
ghost use Rattle.std.specs.Option.{option_map};
ghost use Rattle.lp_preproc.specs.Outs.{longer, longer_kind};
ghost use Rattle.lp_preproc.specs.Uses.{last_text, text_of};
ghost use Rattle.lp_preproc.specs.declared.word.Word.{Word as AnyWord};

use crate::row::Row;
use crate::stack::Stack;
use crate::word::Word;
use lp_tree::chars::Chars;
use lp_tree::token::TokenKind;
use std::alloc::{AllocError, Global};
use std::marker::Model;

/// The words that came out, the last one first. Neighbouring texts are joined in place: what goes behind a text is kept
/// beside the words until another word comes out.
#[derive(Drop)]
pub struct Out {
    words: Stack<Word>,
    more: Vec<char>,
}

impl Model for Out {
    ghost use Rattle.std.specs.Prelude.{List};
    ghost use Rattle.lp_preproc.specs.Outs.{longer};
    ghost use Rattle.lp_preproc.specs.declared.word.Word.{Word};

    ghost Value = { List Word };

    ghost view = { λ o. longer o.more.items o.words };
}

// Two texts as one.
fn joined(alloc: Global, before: &Chars, after: &[char]) -> Result<Chars, AllocError>
    ensures { IfOk result (λ t. t ≡ before.now ++ after.now) }
{
    let mut letters = Vec::from_slice(alloc, before.as_slice())?;
    letters.extend_from_slice(after)?;
    Chars::from_vec(alloc, letters)
}

// A text with letters behind it.
fn longer_kind(alloc: Global, kind: TokenKind, more: &[char]) -> Result<TokenKind, AllocError>
    ensures { IfOk result (λ k. k ≡ longer_kind more.now kind) }
{
    Ok(match kind {
        TokenKind::Text(text) => TokenKind::Text(joined(alloc, &text, more)?),
        TokenKind::Name(name) => TokenKind::Name(name),
        TokenKind::Int(value) => TokenKind::Int(value),
        TokenKind::Mark(mark) => TokenKind::Mark(mark),
        TokenKind::Bad(why) => TokenKind::Bad(why),
    })
}

// A word whose text has letters more.
fn longer_word(alloc: Global, word: Word, more: &[char]) -> Result<Word, AllocError>
    ensures { IfOk result (λ w. w ≡ record word { kind = longer_kind more.now word.kind }) }
{
    Ok(Word {
        kind: longer_kind(alloc, word.kind, more)?,
        line: word.line,
        hidden: word.hidden,
        depth: word.depth,
    })
}

// The letters go into the last word.
fn settle(alloc: Global, words: &mut Stack<Word>, more: &mut Vec<char>) -> Result<(), AllocError>
    ensures words { OnOk result (words.new ≡ longer more.old.items words.old) }
    ensures letters { OnOk result (more.new.items ≡ []) }
{
    if more.len() == 0 {
        return Ok(());
    }
    if let Some(last) = words.pop() {
        words.push(longer_word(alloc, last, more.as_slice())?)?;
    }
    more.clear();
    Ok(())
}

// How many code points a text has with so many more.
fn text_len(kind: &TokenKind, more: usize) -> Option<usize>
    requires { more < 2 ^ 63 }
    ensures { (letters : List ℕ) → more ≡ length letters → result ≡ option_map length (text_of (longer_kind letters kind.now)) }
{
    match kind {
        TokenKind::Text(text) => Some(text.as_slice().len() + more),
        _ => None,
    }
}

impl Out {
    /// Nothing.
    pub fn new(alloc: Global) -> Out
        ensures { result ≡ [] }
    {
        Out {
            words: Stack::new(alloc),
            more: Vec::new(alloc),
        }
    }

    /// How many words there are.
    pub fn len(&self) -> usize
        ensures { result ≡ length self.now }
    {
        self.words.len()
    }

    /// One more word.
    pub fn push(&mut self, alloc: Global, word: Word) -> Result<(), AllocError>
        ensures { OnOk result (self.new ≡ word ∷ self.old) }
    {
        settle(alloc, &mut self.words, &mut self.more)?;
        self.words.push(word)
    }

    /// How many code points the text has that came out last, if a text did.
    pub fn text_len(&self) -> Option<usize>
        ensures { result ≡ option_map length (last_text self.now) }
    {
        match self.words.first() {
            Some(word) => text_len(&word.kind, self.more.len()),
            None => None,
        }
    }

    /// The line of the last word, or 0.
    pub fn last_line(&self) -> u32
        ensures { (u : AnyWord) (us : List AnyWord) → self.now ≡ u ∷ us → result ≡ u.line }
    {
        match self.words.first() {
            Some(word) => word.line,
            None => 0,
        }
    }

    /// Letters more of the text that came out last. Takes time in proportion to the letters.
    pub fn extend(&mut self, letters: &[char]) -> Result<(), AllocError>
        ensures { OnOk result (self.new ≡ longer letters.now self.old) }
    {
        self.more.extend_from_slice(letters)?;
        Ok(())
    }

    /// The words, the first one first.
    pub fn into_row(self, alloc: Global) -> Result<Row<Word>, AllocError>
        ensures { IfOk result (λ r. r ≡ reverse self) }
    {
        let mut words = self.words;
        let mut more = self.more;
        settle(alloc, &mut words, &mut more)?;
        Ok(words.into_row())
    }
}

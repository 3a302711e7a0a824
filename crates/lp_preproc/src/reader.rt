//! What is read of the words of a file or of a list, and what came out.
ghost use Rattle.std.specs.Prelude.{◌≡◌, ◌++◌, ℕ, IfOk, List, Some, length as list_length};
ghost use Rattle.lp_preproc.specs.Macros.{Table};
ghost use Rattle.lp_preproc.specs.Steps.{Does, Standing, state_of};
ghost use Rattle.lp_preproc.specs.Uses.{emit, last_text, lone_text, one_more, out_by, put_back, text_after, text_of, with_text};

use crate::out::Out;
use crate::row::Row;
use crate::stack::Stack;
use crate::state::{Purpose, Reading};
use crate::stop::Stop;
use crate::word::Word;
use lp_tree::chars::Chars;
use lp_tree::fault::FaultKind;
use lp_tree::token::TokenKind;
use std::alloc::{AllocError, Global};

/// How many tokens a file may have.
const MOST_TOKENS: usize = 200000;

/// How many code points a text may have.
const LONGEST_TEXT: usize = 100000;

/// Where the reading of words is, and what came out so far.
#[derive(Drop)]
pub struct Reader {
    /// What the words are expanded for.
    pub purpose: Purpose,
    /// What is being read.
    pub reading: Reading,
    /// Words that come before all others.
    pub waiting: Stack<Word>,
    /// What came out, the last one first.
    pub out: Out,
    /// How many tokens, uses and includes were put in.
    pub put_in: u32,
}

// A word more comes out.
fn one_more(alloc: Global, reader: &mut Reader, word: Word) -> Result<(), Stop>
    ensures { (ms : Table) (k : Standing) → Does (one_more (state_of reader.old ms k) word) result (state_of reader.new ms k) }
{
    if reader.out.len() >= MOST_TOKENS {
        return Err(Stop::At(FaultKind::TooManyTokens, word.line));
    }
    reader.out.push(alloc, word)?;
    Ok(())
}

// A text that has no text before it.
fn lone_text(alloc: Global, reader: &mut Reader, word: Word, length: usize) -> Result<(), Stop>
    ensures { (ms : Table) (k : Standing) (t : List ℕ) → length ≡ list_length t → Does (lone_text (state_of reader.old ms k) word t) result (state_of reader.new ms k) }
{
    if length > LONGEST_TEXT {
        return Err(Stop::At(FaultKind::Lex, word.line));
    }
    one_more(alloc, reader, word)
}

// The text of a word that is one.
fn text_copy(kind: &TokenKind) -> Result<Option<Chars>, AllocError>
    ensures { IfOk result (λ t. t ≡ text_of kind.now) }
{
    match kind {
        TokenKind::Text(text) => Ok(Some(text.copy()?)),
        _ => Ok(None),
    }
}

// A text behind the one that came out last, which has so many code points.
fn text_behind(reader: &mut Reader, before: usize, text: &[char]) -> Result<(), Stop>
    ensures { (ms : Table) (k : Standing) (t : List ℕ) → last_text reader.old.out ≡ Some t → before ≡ list_length t → Does (with_text (state_of reader.old ms k) (t ++ text.now) reader.old.out) result (state_of reader.new ms k) }
{
    if before > LONGEST_TEXT || text.len() > LONGEST_TEXT - before {
        return Err(Stop::At(FaultKind::Lex, reader.out.last_line()));
    }
    reader.out.extend(text)?;
    Ok(())
}

// A text comes out.
fn text_out(alloc: Global, reader: &mut Reader, word: Word, text: Chars) -> Result<(), Stop>
    ensures { (ms : Table) (k : Standing) → Does (text_after (state_of reader.old ms k) word text (last_text reader.old.out)) result (state_of reader.new ms k) }
{
    match reader.out.text_len() {
        Some(before) => text_behind(reader, before, text.as_slice()),
        None => lone_text(alloc, reader, word, text.as_slice().len()),
    }
}

// A word of the file comes out, whose text is this one if it is a text.
fn out_by(alloc: Global, reader: &mut Reader, word: Word, text: Option<Chars>) -> Result<(), Stop>
    ensures { (ms : Table) (k : Standing) → Does (out_by (state_of reader.old ms k) word text) result (state_of reader.new ms k) }
{
    match text {
        Some(text) => text_out(alloc, reader, word, text),
        None => one_more(alloc, reader, word),
    }
}

// A word of the file comes out.
fn file_out(alloc: Global, reader: &mut Reader, word: Word) -> Result<(), Stop>
    ensures { (ms : Table) (k : Standing) → Does (out_by (state_of reader.old ms k) word (text_of word.kind)) result (state_of reader.new ms k) }
{
    let text = text_copy(&word.kind)?;
    out_by(alloc, reader, word, text)
}

/// A word comes out.
pub fn emit(alloc: Global, reader: &mut Reader, word: Word) -> Result<(), Stop>
    ensures { (ms : Table) (k : Standing) → Does (emit (state_of reader.old ms k) word) result (state_of reader.new ms k) }
{
    match reader.purpose {
        Purpose::File => file_out(alloc, reader, word),
        _ => {
            reader.out.push(alloc, word)?;
            Ok(())
        }
    }
}

/// How many tokens, uses and includes may be put in.
pub const MOST_PUT_IN: u32 = 1000000;

/// The result of a use is put in: it is read before the others.
pub fn put_back(reader: &mut Reader, word: &Word, words: Row<Word>) -> Result<(), Stop>
    ensures { (ms : Table) (k : Standing) → Does (put_back (state_of reader.old ms k) word.now words) result (state_of reader.new ms k) }
{
    let total = reader.put_in as u64 + (1 + words.len() as u64);
    if total > MOST_PUT_IN as u64 {
        return Err(Stop::At(FaultKind::TooManyTokens, word.line));
    }
    reader.put_in = total as u32;
    reader.waiting.push_row(words)?;
    Ok(())
}

/// What came out.
pub fn out_of(reader: Reader) -> Out
    ensures { result ≡ reader.out }
{
    let Reader {
        purpose: _,
        reading,
        waiting,
        out,
        put_in: _,
    } = reader;
    drop(reading);
    drop(waiting);
    out
}

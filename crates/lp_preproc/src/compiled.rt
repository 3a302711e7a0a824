//! The file that is compiled.
ghost use Rattle.std.specs.Prelude.{◌≡◌, ◌≤◌, ◌∷◌, [], IfErr, IfOk, List, None, length, map, reverse, ℕ};
ghost use Rattle.lp_lexer.specs.Source.{most_bytes};
ghost use Rattle.lp_tree.specs.declared.fault.FaultKind.{FaultKind as Kind};
ghost use Rattle.lp_tree.specs.declared.pragma.Pragmas.{Pragmas as AnyPragmas};
ghost use Rattle.lp_tree.specs.declared.token.Token.{Token as Tok};
ghost use Rattle.lp_preproc.specs.Expansion.{IsExpansion, IsFault, IsFaultUnlessMemory, IsFirstFault, IsUnlessMemory, came_out, compiled, last_line, line_at, opening, opening_bytes, setting};
ghost use Rattle.lp_preproc.specs.Macros.{predefined};
ghost use Rattle.lp_preproc.specs.State.{Goes, Setting, begin};
ghost use Rattle.lp_preproc.specs.Steps.{Expanding, IsFaultOf, IsIn, stop_of, whole_of};
ghost use Rattle.lp_preproc.specs.Tables.{macros_in};

use crate::expander::{Expander, MOST_BYTES, run};
use crate::fault::{Expanded, PreFault};
use crate::law::law_one_outcome;
use crate::macros::{Body, Kinds, Macro};
use crate::out::Out;
use crate::place::Place;
use crate::reader::{Reader, out_of as reader_out};
use crate::row::Row;
use crate::source::Open;
use crate::stack::Stack;
use crate::state::{Purpose, Reading};
use crate::stop::Stop;
use crate::table::Table;
use crate::word::Word;
use lp_files::store::Store;
use lp_lexer::{LexFault, lex};
use lp_tree::chars::Chars;
use lp_tree::fault::{Fault, FaultKind};
use lp_tree::path::FilePath;
use lp_tree::pragma::Pragmas;
use lp_tree::token::{Token, TokenKind};
use std::alloc::{AllocError, Global};

// The line of a byte.
fn line_at(bytes: &[u8], at: usize) -> u32
    requires { length bytes.now ≤ most_bytes }
    ensures { result ≡ line_at bytes.now at }
{
    let mut line = 1;
    let end = at.min(bytes.len());
    'bytes: for i in 0..end {
        if bytes[i] == b'\n' {
            line += 1;
        }
    }
    line
}

// The line of the last token, or 0.
fn last_line(tokens: &[Token]) -> u32
    ensures { result ≡ last_line 0 tokens.now }
{
    let mut line = 0;
    'tokens: for token in tokens {
        line = token.line;
    }
    line
}

// A macro without parameters.
fn plain(body: Body) -> Macro
    ensures { result ≡ record { params = None; body = body } }
{
    Macro { params: None, body }
}

// A macro that is one token.
fn token(alloc: Global, kind: TokenKind) -> Result<Macro, AllocError>
    ensures { IfOk result (λ m. m ≡ record { params = None; body = Body.Tokens (kind ∷ []) }) }
{
    let mut kinds = Vec::new(alloc);
    kinds.push(kind)?;
    Ok(plain(Body::Tokens(Kinds::from_vec(alloc, kinds)?)))
}

// A name or a text of the program.
fn letters(alloc: Global, text: &[char]) -> Result<Chars, AllocError>
    ensures { IfOk result (λ t. t ≡ text.now) }
{
    Chars::from_vec(alloc, Vec::from_slice(alloc, text)?)
}

// What is defined before the first line.
fn predefined(alloc: Global) -> Result<Table, AllocError>
    ensures { IfOk result (λ t. macros_in t ≡ predefined) }
{
    let mut table = Table::new(alloc);
    table.put(
        alloc,
        &['_', '_', 'F', 'I', 'L', 'E', '_', '_'],
        plain(Body::File),
    )?;
    table.put(
        alloc,
        &['_', '_', 'L', 'I', 'N', 'E', '_', '_'],
        plain(Body::Line),
    )?;
    table.put(
        alloc,
        &['_', '_', 'D', 'I', 'R', '_', '_'],
        plain(Body::Folder),
    )?;
    let version = token(alloc, TokenKind::Text(letters(alloc, &['3', '.', '6'])?))?;
    table.put(
        alloc,
        &['_', '_', 'V', 'E', 'R', 'S', 'I', 'O', 'N', '_', '_'],
        version,
    )?;
    table.put(
        alloc,
        &['L', 'P', 'C', '3'],
        token(alloc, TokenKind::Int(1))?,
    )?;
    table.put(
        alloc,
        &['_', '_', 'L', 'D', 'M', 'U', 'D', '_', '_'],
        token(alloc, TokenKind::Int(1))?,
    )?;
    Ok(table)
}

// The begin of a file of these tokens.
fn opened(alloc: Global, path: Row<u8>, tokens: Vec<Token>) -> Result<Expander, AllocError>
    ensures { IfOk result (λ e. (c : Setting) → path ≡ c.path → whole_of e ≡ record begin { files = compiled c tokens.items ∷ [] }) }
{
    let last = last_line(tokens.as_slice());
    let mut files = Stack::new(alloc);
    files.push(Open {
        path,
        left: Stack::from_row(Row::from_vec(tokens)),
        groups: Stack::new(alloc),
        included: None,
        last_line: last,
    })?;
    match predefined(alloc) {
        Ok(table) => Ok(Expander {
            reader: Reader {
                purpose: Purpose::File,
                reading: Reading::Plain,
                waiting: Stack::new(alloc),
                out: Out::new(alloc),
                put_in: 0,
            },
            files,
            table,
            pragmas: Pragmas::new(),
        }),
        Err(error) => {
            drop(files);
            Err(error)
        }
    }
}

// What came out.
fn out_of(alloc: Global, reader: Reader) -> Result<Row<Word>, AllocError>
    ensures { IfOk result (λ r. r ≡ reverse reader.out) }
{
    reader_out(reader).into_row(alloc)
}

// What came out of the files, and their pragmas.
fn finished(alloc: Global, expander: Expander) -> Result<(Row<Word>, Pragmas), AllocError>
    ensures out { IfOk result (λ r. r.0 ≡ reverse expander.reader.out) }
    ensures pragmas { IfOk result (λ r. r.1 ≡ expander.pragmas) }
{
    let pragmas = expander.pragmas;
    let reader = expander.reader;
    Ok((out_of(alloc, reader)?, pragmas))
}

// The expansion of a file of these tokens.
fn expand_tokens(
    alloc: Global,
    files: &Store,
    place: &Place,
    path: Row<u8>,
    tokens: Vec<Token>,
) -> Result<(Row<Word>, Pragmas), Stop>
    ensures { (c : Setting) → IsIn files.now place.now c → path ≡ c.path → Expanding c (Goes (record begin { files = compiled c tokens.items ∷ [] })) result }
{
    let mut expander = opened(alloc, path, tokens)?;
    match run(alloc, files, place, &mut expander) {
        Ok(()) => {
            let done = finished(alloc, expander)?;
            Ok(done)
        }
        Err(stop) => Err(stop),
    }
}

// Why bytes without tokens have no expansion.
fn stop_of(bytes: &[u8], fault: LexFault) -> Stop
    requires { length bytes.now ≤ most_bytes }
    ensures { result ≡ stop_of bytes.now fault }
{
    match fault {
        LexFault::NoMemory => Stop::NoMemory,
        LexFault::At { at, kind: _ } => Stop::At(FaultKind::Lex, line_at(bytes, at as usize)),
    }
}

// The expansion of a file of these bytes.
fn expand_bytes(
    alloc: Global,
    files: &Store,
    place: &Place,
    path: Row<u8>,
    bytes: &[u8],
) -> Result<(Row<Word>, Pragmas), Stop>
    ensures { (c : Setting) → IsIn files.now place.now c → path ≡ c.path → Expanding c (opening_bytes c bytes.now) result }
{
    if bytes.len() > MOST_BYTES {
        return Err(Stop::At(FaultKind::TooManyTokens, 0));
    }
    match lex(alloc, bytes) {
        Ok(tokens) => expand_tokens(alloc, files, place, path, tokens),
        Err(fault) => Err(stop_of(bytes, fault)),
    }
}

// The expansion of a file, as words.
fn expand_words(alloc: Global, files: &Store, path: &str) -> Result<(Row<Word>, Pragmas), Stop>
    ensures { Expanding (setting files.now path.now) (opening (setting files.now path.now)) result }
{
    let Some(bytes) = files.read(path) else {
        return Err(Stop::At(FaultKind::NoFile, 0));
    };
    let place = Place::new(alloc, path)?;
    let own = Row::from_vec(Vec::from_slice(alloc, path.as_bytes())?);
    expand_bytes(alloc, files, &place, own, bytes)
}

// A token that came out.
fn came_out(word: Word) -> Token
    ensures { result ≡ came_out word }
{
    Token {
        kind: word.kind,
        line: word.line,
        at: 0,
        len: 0,
        first: false,
    }
}

// The tokens that came out.
fn tokens_of(alloc: Global, words: Row<Word>) -> Result<Vec<Token>, AllocError>
    ensures { IfOk result (λ ts. ts.items ≡ map came_out words) }
{
    let mut left = Stack::from_row(words);
    let mut tokens = Vec::new(alloc);
    'words: while let Some(word) = left.pop() {
        tokens.push(came_out(word))?;
    }
    Ok(tokens)
}

// Why a file has no expansion.
fn fault_of(alloc: Global, path: &str, stop: Stop) -> PreFault
    ensures { IsFaultOf path.now stop result }
{
    let Stop::At(kind, line) = stop else {
        return PreFault::NoMemory;
    };
    match FilePath::from_str(alloc, path) {
        Ok(file) => PreFault::At(Fault { file, line, kind }),
        Err(_) => PreFault::NoMemory,
    }
}

/// The expansion of a file: its tokens with their lines in it and its pragmas, or its first fault.
///
/// A token has its kind and its line; its place in the file that it came from is lost. Faults are those of the file that
/// is compiled: a fault within an included file has the line of its `#include`. `NoFile` at line 0 comes exactly where
/// the store has no file at the path.
pub fn expand(alloc: Global, files: &Store, path: &str) -> Result<Expanded, PreFault>
    // What is answered is the expansion.
    ensures found { IfOk result (λ e. IsExpansion (setting files.now path.now) e.tokens.items e.pragmas) }
    // The expansion is answered, unless memory runs out.
    ensures only { (ts : List Tok) (p : AnyPragmas) → IsExpansion (setting files.now path.now) ts p → IsUnlessMemory ts p result }
    // What is answered is the first fault.
    ensures fault { IfErr result (IsFault (setting files.now path.now)) }
    // The first fault is answered, unless memory runs out.
    ensures only_fault { (kind : Kind) (line : ℕ) → IsFirstFault (setting files.now path.now) kind line → IsFaultUnlessMemory (setting files.now path.now) kind line result }
{
    law_one_outcome();
    match expand_words(alloc, files, path) {
        Ok((words, pragmas)) => Ok(Expanded {
            tokens: tokens_of(alloc, words)?,
            pragmas,
        }),
        Err(stop) => Err(fault_of(alloc, path, stop)),
    }
}

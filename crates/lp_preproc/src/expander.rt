//! The expansion of a file.
ghost use Rattle.std.specs.Prelude.{◌≡◌, ◌≤◌, ◌<◌, ◌+◌, ◌∷◌, ◌&&◌, [], IfOk, List, OnOk, Some, false, length, true};
ghost use Rattle.std.specs.Option.{option_map};
ghost use Rattle.lp_files.specs.Store.{file_at};
ghost use Rattle.lp_lexer.specs.Source.{most_bytes};
ghost use Rattle.lp_preproc.specs.declared.directive.Directive.TheVariants.{If, Include};
ghost use Rattle.lp_preproc.specs.Expansion.{closed, directive_line, from_file, from_files, next, token};
ghost use Rattle.lp_preproc.specs.Directives.{asks_nothing, behind, bytes_of, carried_out, elif, elif_waiting, in_sys, include_bytes, included, is_elif_line, is_hash, last_of, next_lines, path_of, quoted, rest_of_line, skipped};
ghost use Rattle.lp_preproc.specs.State.{Goes, Open as AnyOpen, Setting, State, line_or};
ghost use Rattle.lp_preproc.specs.Tables.{macros_in};
ghost use Rattle.lp_preproc.specs.Steps.{Does, IsIn, IsLexing, IsOf, Reaches, Runs, Turns, grouped, holding, turned, whole_of};
ghost use Rattle.lp_preproc.specs.Uses.{folder as folder_of, text_of};

use crate::bytes::{beside, between, encoded, folder, in_sys};
use crate::condition::holds;
use crate::conditionals::{begun, else_line, endif, ifdef, ifndef, stage_if};
use crate::definitions::{define, said, undefine, with_pragmas};
use crate::directive::Directive;
use crate::law::law_falls;
use crate::list::{expand_word, take_waiting};
use crate::place::Place;
use crate::reader::{MOST_PUT_IN, Reader};
use crate::reading::take_end;
use crate::row::Row;
use crate::source::{Open, bad_place, is_bad, is_greater, is_hash, is_less};
use crate::stack::Stack;
use crate::state::{Group, Stage};
use crate::stop::Stop;
use crate::table::Table;
use lp_files::store::Store;
use lp_lexer::{LexFault, lex};
use lp_tree::fault::FaultKind;
use lp_tree::pragma::Pragmas;
use lp_tree::token::{Token, TokenKind};
use std::alloc::{AllocError, Global};

/// How many bytes a file may have.
pub const MOST_BYTES: usize = 16777216;

/// How deep included files may lie.
const MOST_INCLUDED: usize = 32;

/// Where the expansion of a file is.
#[derive(Drop)]
pub struct Expander {
    /// The words that are read, and what came out.
    pub reader: Reader,
    /// The open files, the innermost first.
    pub files: Stack<Open>,
    /// The macros.
    pub table: Table,
    /// The pragmas.
    pub pragmas: Pragmas,
}

// The end of a file, which is open no more.
fn close(expander: &mut Expander, source: Open) -> Result<(), Stop>
    ensures { Does (closed (whole_of expander.old) source expander.old.files source.groups) result (whole_of expander.new) }
{
    match source.groups.first() {
        Some(_) => Err(Stop::At(FaultKind::OpenIf, source.last_line)),
        None => Ok(()),
    }
}

// A token of a file that is no directive.
fn take_token(
    alloc: Global,
    place: &Place,
    expander: &mut Expander,
    source: Open,
    next: Token,
) -> Result<bool, Stop>
    ensures { (c : Setting) → IsOf place.now c → Turns c (token c (whole_of expander.old) source expander.old.files next source.left) result (whole_of expander.new) }
{
    if source.skips() {
        expander.files.push(source)?;
        return Ok(false);
    }
    if is_bad(&next.kind) {
        return Err(Stop::At(FaultKind::Lex, source.line_of(next.line)));
    }
    let word = source.word_of(next);
    expander.files.push(source)?;
    expand_word(alloc, place, &expander.table, &mut expander.reader, 0, word)
}

// What a directive does that asks for nothing: neither a condition nor a file.
fn carry(
    alloc: Global,
    files: &Store,
    source: &mut Open,
    table: &mut Table,
    pragmas: &mut Pragmas,
    says: Directive,
    rest: &[Token],
    line: u32,
) -> Result<(), Stop>
    requires { asks_nothing says ≡ true }
    ensures { (c : Setting) (s : State) (os : List AnyOpen) → c.files ≡ file_at files.now
        → Does (carried_out c (holding s (source.old ∷ os) (macros_in table.old) pragmas.old) source.old (Some says) rest.now line) result (holding s (source.new ∷ os) (macros_in table.new) pragmas.new) }
{
    match says {
        Directive::Ifdef => ifdef(&mut source.groups, table, rest, line),
        Directive::Ifndef => ifndef(&mut source.groups, table, rest, line),
        Directive::Else => else_line(&mut source.groups, rest, line),
        Directive::Endif => endif(&mut source.groups, rest, line),
        Directive::Define => define(alloc, table, bytes_of(files, source), rest, line),
        Directive::Undef => undefine(table, rest, line),
        Directive::Error => Err(Stop::At(FaultKind::UserError, line)),
        Directive::Pragma => {
            *pragmas = with_pragmas(*pragmas, rest);
            Ok(())
        }
        Directive::If | Directive::Elif | Directive::Include => unreachable!(),
    }
}

// The words behind the first one.
fn behind(words: &[Token]) -> &[Token]
    ensures { result.now ≡ behind words.now }
{
    if words.len() == 0 { words } else { &words[1..] }
}

// A directive in a skipped group, which is no `#elif`.
fn pass_directive(
    expander: &mut Expander,
    source: Open,
    said: Option<Directive>,
    rest: &[Token],
    line: u32,
) -> Result<(), Stop>
    requires { is_elif_line said ≡ false }
    ensures { Does (skipped (record (whole_of expander.old) { files = source ∷ expander.old.files }) source said rest.now line) result (whole_of expander.new) }
{
    let mut source = source;
    match source.skip_directive(said, rest, line) {
        Ok(()) => {
            expander.files.push(source)?;
            Ok(())
        }
        Err(stop) => Err(stop),
    }
}

// A directive in a group that is read, which asks for nothing.
fn carry_directive(
    alloc: Global,
    files: &Store,
    expander: &mut Expander,
    source: Open,
    says: Directive,
    rest: &[Token],
    line: u32,
) -> Result<(), Stop>
    requires { asks_nothing says ≡ true }
    ensures { (c : Setting) → c.files ≡ file_at files.now → Does (carried_out c (record (whole_of expander.old) { files = source ∷ expander.old.files }) source (Some says) rest.now line) result (whole_of expander.new) }
{
    let mut source = source;
    match carry(
        alloc,
        files,
        &mut source,
        &mut expander.table,
        &mut expander.pragmas,
        says,
        rest,
        line,
    ) {
        Ok(()) => {
            expander.files.push(source)?;
            Ok(())
        }
        Err(stop) => Err(stop),
    }
}

// `#if`
fn carry_if(
    alloc: Global,
    place: &Place,
    expander: &mut Expander,
    source: Open,
    rest: &[Token],
    line: u32,
) -> Result<(), Stop>
    ensures { (c : Setting) → IsOf place.now c → Reaches c (carried_out c (record (whole_of expander.old) { files = source ∷ expander.old.files }) source (Some If) rest.now line) result (whole_of expander.new) }
{
    match holds(
        alloc,
        place,
        &expander.table,
        &mut expander.reader,
        rest,
        line,
    ) {
        Ok(holds) => {
            let mut source = source;
            source.groups.push(begun(holds))?;
            expander.files.push(source)?;
            Ok(())
        }
        Err(stop) => Err(stop),
    }
}

// An `#elif` of a conditional of which no group was read yet.
fn evaluate_elif(
    alloc: Global,
    place: &Place,
    expander: &mut Expander,
    source: Open,
    group: Group,
    rest: &[Token],
    line: u32,
) -> Result<(), Stop>
    ensures { (c : Setting) → IsOf place.now c → (o : AnyOpen) → source ≡ grouped o source.groups
        → Reaches c (elif_waiting (record (whole_of expander.old) { files = o ∷ expander.old.files }) o.included group source.groups rest.now line) result (whole_of expander.new) }
{
    if let Some(bad) = bad_place(rest) {
        return Err(Stop::At(FaultKind::Lex, source.line_of(bad.line)));
    }
    match holds(
        alloc,
        place,
        &expander.table,
        &mut expander.reader,
        rest,
        line,
    ) {
        Ok(holds) => {
            let mut source = source;
            source.groups.push(Group {
                stage: stage_if(holds),
                after_else: group.after_else,
                inner: group.inner,
            })?;
            expander.files.push(source)?;
            Ok(())
        }
        Err(stop) => Err(stop),
    }
}

// `#elif`
fn take_elif(
    alloc: Global,
    place: &Place,
    expander: &mut Expander,
    source: Open,
    rest: &[Token],
    line: u32,
) -> Result<(), Stop>
    ensures { (c : Setting) → IsOf place.now c → Reaches c (elif (record (whole_of expander.old) { files = source ∷ expander.old.files }) source.included source.groups rest.now line) result (whole_of expander.new) }
{
    let mut source = source;
    let Some(group) = source.groups.pop() else {
        return Err(Stop::At(FaultKind::StrayElse, line));
    };
    if group.after_else {
        return Err(Stop::At(FaultKind::StrayElse, line));
    }
    if matches!(group.stage, Stage::Waiting) {
        return evaluate_elif(alloc, place, expander, source, group, rest, line);
    }
    source.groups.push(Group {
        stage: Stage::Done,
        after_else: group.after_else,
        inner: group.inner,
    })?;
    expander.files.push(source)?;
    Ok(())
}

// The bytes of an open file.
fn bytes_of<'a>(files: &'a Store, source: &Open) -> &'a [u8]
    ensures { (c : Setting) → c.files ≡ file_at files.now → result.now ≡ bytes_of c source.now }
{
    match files.read_bytes(source.path.as_slice()) {
        Some(bytes) => bytes,
        None => &[],
    }
}

// The path between `<` and `>`.
fn system_path(
    alloc: Global,
    bytes: &[u8],
    first: &Token,
    last: &Token,
) -> Result<Option<Row<u8>>, AllocError>
    ensures { IfOk result (λ p. p ≡ in_sys bytes.now first.now last.now) }
{
    if !is_less(&first.kind) || !is_greater(&last.kind) {
        return Ok(None);
    }
    let between = between(alloc, bytes, first, last)?;
    Ok(Some(in_sys(alloc, between.as_slice())?))
}

// The path of a text.
fn quoted_path(
    alloc: Global,
    folder: &[u8],
    kind: &TokenKind,
) -> Result<Option<Row<u8>>, AllocError>
    ensures { IfOk result (λ p. p ≡ quoted folder.now (text_of kind.now)) }
{
    match kind {
        TokenKind::Text(text) => {
            let path = encoded(alloc, text.as_slice())?;
            Ok(Some(beside(alloc, folder, path.as_slice())?))
        }
        _ => Ok(None),
    }
}

// The last of some tokens.
fn last_of<'a>(first: &'a Token, rest: &'a [Token]) -> &'a Token
    ensures { result.now ≡ last_of first.now rest.now }
{
    let mut last = first;
    'tokens: for token in rest {
        last = token;
    }
    last
}

// The path that an `#include` names.
fn include_path(
    alloc: Global,
    files: &Store,
    source: &Open,
    rest: &[Token],
) -> Result<Option<Row<u8>>, AllocError>
    ensures { (c : Setting) → c.files ≡ file_at files.now → IfOk result (λ p. p ≡ path_of (folder_of source.now.path) (bytes_of c source.now) rest.now) }
{
    if rest.len() == 0 {
        return Ok(None);
    }
    if rest.len() == 1 {
        return quoted_path(alloc, folder(source.path.as_slice()), &rest[0].kind);
    }
    let last = last_of(&rest[1], &rest[2..]);
    system_path(alloc, bytes_of(files, source), &rest[0], last)
}

// The tokens of an included file.
fn tokens_of(alloc: Global, bytes: &[u8], line: u32) -> Result<Vec<Token>, Stop>
    requires { length bytes.now ≤ most_bytes }
    ensures { IsLexing bytes.now line result }
{
    match lex(alloc, bytes) {
        Ok(tokens) => Ok(tokens),
        Err(LexFault::NoMemory) => Err(Stop::NoMemory),
        Err(LexFault::At { .. }) => Err(Stop::At(FaultKind::Lex, line)),
    }
}

// A file is open, before the others.
fn push_file(
    alloc: Global,
    expander: &mut Expander,
    path: Row<u8>,
    tokens: Vec<Token>,
    line: u32,
) -> Result<(), AllocError>
    requires { expander.old.reader.put_in < 1000000 }
    ensures { OnOk result (whole_of expander.new ≡ record (whole_of expander.old) { files = included path line tokens.items ∷ expander.old.files; put_in = expander.old.reader.put_in + 1 }) }
{
    expander.files.push(Open {
        path,
        left: Stack::from_row(Row::from_vec(tokens)),
        groups: Stack::new(alloc),
        included: Some(line),
        last_line: line,
    })?;
    expander.reader.put_in += 1;
    Ok(())
}

// A file is included.
fn include_file(
    alloc: Global,
    expander: &mut Expander,
    path: Row<u8>,
    found: Option<&[u8]>,
    line: u32,
) -> Result<(), Stop>
    ensures { (c : Setting) → Reaches c (include_bytes (whole_of expander.old) path line (option_map (λ b. b.now) found.entry)) result (whole_of expander.new) }
{
    let Some(bytes) = found else {
        return Err(Stop::At(FaultKind::NoInclude, line));
    };
    if expander.files.len() > MOST_INCLUDED {
        return Err(Stop::At(FaultKind::IncludeDepth, line));
    }
    if expander.reader.put_in >= MOST_PUT_IN {
        return Err(Stop::At(FaultKind::TooManyTokens, line));
    }
    if bytes.len() > MOST_BYTES {
        return Err(Stop::At(FaultKind::TooManyTokens, line));
    }
    match tokens_of(alloc, bytes, line) {
        Ok(tokens) => {
            push_file(alloc, expander, path, tokens, line)?;
            Ok(())
        }
        Err(stop) => Err(stop),
    }
}

// `#include`
fn carry_include(
    alloc: Global,
    files: &Store,
    expander: &mut Expander,
    source: Open,
    rest: &[Token],
    line: u32,
) -> Result<(), Stop>
    ensures { (c : Setting) → c.files ≡ file_at files.now → Reaches c (carried_out c (record (whole_of expander.old) { files = source ∷ expander.old.files }) source (Some Include) rest.now line) result (whole_of expander.new) }
{
    let Some(path) = include_path(alloc, files, &source, rest)? else {
        return Err(Stop::At(FaultKind::BadDirective, line));
    };
    expander.files.push(source)?;
    let found = files.read_bytes(path.as_slice());
    include_file(alloc, expander, path, found, line)
}

// A directive in a group that is read.
fn carry_any(
    alloc: Global,
    files: &Store,
    place: &Place,
    expander: &mut Expander,
    source: Open,
    said: Option<Directive>,
    rest: &[Token],
    line: u32,
) -> Result<(), Stop>
    ensures { (c : Setting) → IsIn files.now place.now c → Reaches c (carried_out c (record (whole_of expander.old) { files = source ∷ expander.old.files }) source said rest.now line) result (whole_of expander.new) }
{
    match said {
        None => Err(Stop::At(FaultKind::BadDirective, line)),
        Some(Directive::If) => carry_if(alloc, place, expander, source, rest, line),
        Some(Directive::Elif) => take_elif(alloc, place, expander, source, rest, line),
        Some(Directive::Include) => carry_include(alloc, files, expander, source, rest, line),
        Some(says) => carry_directive(alloc, files, expander, source, says, rest, line),
    }
}

// A directive in a skipped group.
fn pass_any(
    alloc: Global,
    place: &Place,
    expander: &mut Expander,
    source: Open,
    said: Option<Directive>,
    rest: &[Token],
    line: u32,
) -> Result<(), Stop>
    ensures { (c : Setting) → IsOf place.now c → Reaches c (skipped (record (whole_of expander.old) { files = source ∷ expander.old.files }) source said rest.now line) result (whole_of expander.new) }
{
    match said {
        Some(Directive::Elif) => take_elif(alloc, place, expander, source, rest, line),
        _ => pass_directive(expander, source, said, rest, line),
    }
}

// A directive, whose words stand behind its `#`.
fn take_directive(
    alloc: Global,
    files: &Store,
    place: &Place,
    expander: &mut Expander,
    source: Open,
    words: &[Token],
    line: u32,
) -> Result<(), Stop>
    ensures { (c : Setting) → IsIn files.now place.now c → Reaches c (directive_line c (whole_of expander.old) source expander.old.files words.now line) result (whole_of expander.new) }
{
    let says = said(words);
    if source.skips() {
        return pass_any(alloc, place, expander, source, says, behind(words), line);
    }
    if let Some(bad) = bad_place(words) {
        return Err(Stop::At(FaultKind::Lex, source.line_of(bad.line)));
    }
    carry_any(
        alloc,
        files,
        place,
        expander,
        source,
        says,
        behind(words),
        line,
    )
}

// Nothing came to an end.
fn turned(done: Result<(), Stop>) -> Result<bool, Stop>
    ensures { result ≡ turned done }
{
    match done {
        Ok(()) => Ok(false),
        Err(stop) => Err(stop),
    }
}

// Whether a token begins a directive.
fn begins_directive(next: &Token) -> bool
    ensures { result ≡ (next.now.first && is_hash next.now.kind) }
{
    next.first && is_hash(&next.kind)
}

// The rest of a line that a `#` begins.
fn line_directive(
    alloc: Global,
    files: &Store,
    place: &Place,
    expander: &mut Expander,
    source: Open,
    line: u32,
) -> Result<bool, Stop>
    ensures { (c : Setting) → IsIn files.now place.now c → Turns c (directive_line c (whole_of expander.old) (record source { left = next_lines source.left }) expander.old.files (rest_of_line source.left) (line_or source.included line)) result (whole_of expander.new) }
{
    let mut source = source;
    let words = source.take_line(alloc)?;
    let line = source.line_of(line);
    turned(take_directive(
        alloc,
        files,
        place,
        expander,
        source,
        words.as_slice(),
        line,
    ))
}

// A line or a token of a file.
fn from_line(
    alloc: Global,
    files: &Store,
    place: &Place,
    expander: &mut Expander,
    source: Open,
    next: Token,
) -> Result<bool, Stop>
    ensures { (c : Setting) → IsIn files.now place.now c → Turns c (from_file c (whole_of expander.old) source expander.old.files (next ∷ source.left)) result (whole_of expander.new) }
{
    if begins_directive(&next) {
        let line = next.line;
        return line_directive(alloc, files, place, expander, source, line);
    }
    take_token(alloc, place, expander, source, next)
}

// The end of a file.
fn end_file(expander: &mut Expander, source: Open) -> Result<bool, Stop>
    ensures { (c : Setting) → Turns c (from_file c (whole_of expander.old) source expander.old.files []) result (whole_of expander.new) }
{
    turned(close(expander, source))
}

// The next line or token of a file, or its end.
fn from_file(
    alloc: Global,
    files: &Store,
    place: &Place,
    expander: &mut Expander,
    source: Open,
) -> Result<bool, Stop>
    ensures { (c : Setting) → IsIn files.now place.now c → Turns c (from_file c (whole_of expander.old) source expander.old.files source.left) result (whole_of expander.new) }
{
    let mut source = source;
    match source.left.pop() {
        None => end_file(expander, source),
        Some(next) => from_line(alloc, files, place, expander, source, next),
    }
}

// What comes next where no word waits.
fn from_files(
    alloc: Global,
    files: &Store,
    place: &Place,
    expander: &mut Expander,
) -> Result<bool, Stop>
    ensures { (c : Setting) → IsIn files.now place.now c → Turns c (from_files c (whole_of expander.old) expander.old.files) result (whole_of expander.new) }
{
    match expander.files.pop() {
        None => take_end(alloc, &mut expander.reader),
        Some(source) => from_file(alloc, files, place, expander, source),
    }
}

// One step.
fn turn(alloc: Global, files: &Store, place: &Place, expander: &mut Expander) -> Result<bool, Stop>
    ensures { (c : Setting) → IsIn files.now place.now c → Turns c (next c (whole_of expander.old)) result (whole_of expander.new) }
{
    match take_waiting(&mut expander.reader) {
        None => from_files(alloc, files, place, expander),
        Some(word) => expand_word(alloc, place, &expander.table, &mut expander.reader, 0, word),
    }
}

/// Expands to the end of all files, or up to the first fault.
pub fn run(alloc: Global, files: &Store, place: &Place, expander: &mut Expander) -> Result<(), Stop>
    ensures { (c : Setting) → IsIn files.now place.now c → Runs c (Goes (whole_of expander.old)) result (whole_of expander.new) }
{
    'turns: loop {
        // Each turn leaves less to do.
        law_falls();
        match turn(alloc, files, place, expander) {
            Ok(true) => return Ok(()),
            Ok(false) => {}
            Err(stop) => return Err(stop),
        }
    }
}

//! Lists of words that are expanded by themselves.
ghost use Rattle.std.specs.Prelude.{◌≡◌, ◌≤◌, ◌<◌, ◌+◌, [], OnOk};
ghost use Rattle.lp_tree.specs.declared.pragma.Pragmas.{Pragmas as AnyPragmas};
ghost use Rattle.lp_preproc.specs.Expansion.{next};
ghost use Rattle.lp_preproc.specs.State.{Setting};
ghost use Rattle.lp_preproc.specs.Macros.{Table as AnyTable};
ghost use Rattle.lp_preproc.specs.Steps.{ComesOut, Expands, IsOf, IsTaken, Reaches, Standing, Turns, in_list, listed, state_of};
ghost use Rattle.lp_preproc.specs.Tables.{macros_in};
ghost use Rattle.lp_preproc.specs.Uses.{expanded, read, used};
ghost use Rattle.lp_preproc.specs.declared.state.Use.{Use as AnyUse};

use crate::law::law_falls;
use crate::out::Out;
use crate::place::Place;
use crate::reader::{Reader, out_of};
use crate::reading::{Read, take_end, take_word};
use crate::result::put_result;
use crate::row::Row;
use crate::stack::Stack;
use crate::state::{Purpose, Reading, Use};
use crate::stop::Stop;
use crate::table::Table;
use crate::word::Word;
use lp_tree::fault::FaultKind;
use std::alloc::Global;

/// How deep a macro use may lie.
const DEEPEST: u32 = 64;

/// What comes out of a list of words, and how much was put in then.
#[cycle(words)]
pub fn expand_list(
    alloc: Global,
    place: &Place,
    table: &Table,
    purpose: Purpose,
    least: u32,
    words: Row<Word>,
    put_in: u32,
) -> Result<(Row<Word>, u32), Stop>
    requires { least ≤ 64 }
    ensures { (c : Setting) → IsOf place.now c → (p : AnyPragmas) → ComesOut c (listed purpose least words (macros_in table.now) p put_in) result }
{
    let mut reader = Reader {
        purpose,
        reading: Reading::Plain,
        waiting: Stack::from_row(words),
        out: Out::new(alloc),
        put_in,
    };
    'turns: loop {
        // Each turn leaves less to do.
        law_falls();
        match turn(alloc, place, table, &mut reader, least) {
            Ok(true) => {
                let put_in = reader.put_in;
                let out = out_of(reader).into_row(alloc)?;
                return Ok((out, put_in));
            }
            Ok(false) => {}
            Err(stop) => {
                drop(reader);
                return Err(stop);
            }
        }
    }
}

/// The first word that waits.
pub fn take_waiting(reader: &mut Reader) -> Option<Word>
    ensures { IsTaken result reader.old reader.new }
{
    reader.waiting.pop()
}

// One step in a list of words.
#[cycle(words)]
fn turn(
    alloc: Global,
    place: &Place,
    table: &Table,
    reader: &mut Reader,
    least: u32,
) -> Result<bool, Stop>
    requires { least ≤ 64 }
    ensures { (c : Setting) → IsOf place.now c → (p : AnyPragmas) → Turns c (next c (state_of reader.old (macros_in table.now) (in_list least p))) result (state_of reader.new (macros_in table.now) (in_list least p)) }
{
    match take_waiting(reader) {
        None => take_end(alloc, reader),
        Some(word) => expand_word(alloc, place, table, reader, least, word),
    }
}

/// A word comes next, and what it uses is expanded.
#[cycle(words)]
pub fn expand_word(
    alloc: Global,
    place: &Place,
    table: &Table,
    reader: &mut Reader,
    least: u32,
    word: Word,
) -> Result<bool, Stop>
    requires { least ≤ 64 }
    ensures { (c : Setting) → IsOf place.now c → (k : Standing) → k.least ≡ least → Turns c (read c (state_of reader.old (macros_in table.now) k) word) result (state_of reader.new (macros_in table.now) k) }
{
    match take_word(alloc, table, reader, word) {
        Ok(Read::Went) => Ok(false),
        Ok(Read::Used(usage, args)) => match expand_use(
            alloc, place, table, reader, least, usage, args,
        ) {
            Ok(()) => Ok(false),
            Err(stop) => Err(stop),
        },
        Err(stop) => Err(stop),
    }
}

/// A use whose arguments are there.
#[cycle(words)]
pub fn expand_use(
    alloc: Global,
    place: &Place,
    table: &Table,
    reader: &mut Reader,
    least: u32,
    usage: Use,
    args: Row<Row<Word>>,
) -> Result<(), Stop>
    requires { least ≤ 64 }
    ensures { (c : Setting) → IsOf place.now c → (k : Standing) → k.least ≡ least → Reaches c (used c usage (state_of reader.old (macros_in table.now) k) args) result (state_of reader.new (macros_in table.now) k) }
{
    let depth = usage.word.depth.max(least);
    if depth >= DEEPEST {
        return Err(Stop::At(FaultKind::MacroDepth, usage.word.line));
    }
    expand_at(alloc, place, table, reader, depth + 1, usage, args)
}

// A use at a depth.
#[cycle(words)]
fn expand_at(
    alloc: Global,
    place: &Place,
    table: &Table,
    reader: &mut Reader,
    depth: u32,
    usage: Use,
    args: Row<Row<Word>>,
) -> Result<(), Stop>
    requires { depth ≤ 64 }
    ensures { (c : Setting) → IsOf place.now c → (k : Standing) → Reaches c (expanded c usage depth (state_of reader.old (macros_in table.now) k) [] args) result (state_of reader.new (macros_in table.now) k) }
{
    match expand_arguments(alloc, place, table, reader, depth, Stack::from_row(args)) {
        Ok(done) => put_result(alloc, place, reader, &usage, depth, done.as_slice()),
        Err(stop) => Err(stop),
    }
}

// The arguments of a use, each expanded by itself.
#[cycle(words)]
fn expand_arguments(
    alloc: Global,
    place: &Place,
    table: &Table,
    reader: &mut Reader,
    depth: u32,
    args: Stack<Row<Word>>,
) -> Result<Row<Row<Word>>, Stop>
    requires { depth ≤ 64 }
    ensures { (c : Setting) → IsOf place.now c → (u : AnyUse) (k : Standing) → Expands c u depth (state_of reader.old (macros_in table.now) k) args result (state_of reader.new (macros_in table.now) k) }
{
    let mut left = args;
    let mut done = Row::new(alloc);
    'args: while let Some(words) = left.pop() {
        match expand_list(
            alloc,
            place,
            table,
            Purpose::Argument,
            depth,
            words,
            reader.put_in,
        ) {
            Ok((out, put_in)) => {
                done.push(out)?;
                reader.put_in = put_in;
            }
            Err(stop) => return Err(stop),
        }
    }
    Ok(done)
}

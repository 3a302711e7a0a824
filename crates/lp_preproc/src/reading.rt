//! What a word does that comes next.
ghost use Rattle.std.specs.Prelude.{◌≡◌, ◌++◌, ◌∷◌, [], IfOk, OnOk, ◌+◌, ◌-◌, ◌<◌, List};
ghost use Rattle.std.specs.Option.{option_copied, option_map};
ghost use Rattle.lp_preproc.specs.declared.word.Word.{Word as AnyWord};
ghost use Rattle.lp_preproc.specs.Macros.{Table as AnyTable};
ghost use Rattle.lp_preproc.specs.State.{Goes, Setting};
ghost use Rattle.lp_preproc.specs.Steps.{asked_with, Finishes, IsAsked, Reads, Standing, state_of};
ghost use Rattle.lp_preproc.specs.Tables.{macros_in};
ghost use Rattle.lp_preproc.specs.Uses.{all_of, argument_word, asked, asked_name, asked_within, end_by, ended, is_defined_word, name_of, read, read_by, read_defined, read_plain, truth, close_within, closed, comma_within, emit, given, is_close, is_open, part_of, read_name, read_named, read_within, use_macro, within_by};

use crate::arguments::Arguments;
use crate::macros::Macro;
use crate::params::{Distinct, Params};
use crate::reader::{Reader, emit};
use crate::result::same_name;
use crate::row::Row;
use crate::stack::Stack;
use crate::state::{Part, Purpose, Reading, Use};
use crate::stop::Stop;
use crate::table::Table;
use crate::word::Word;
use lp_tree::chars::Chars;
use lp_tree::fault::FaultKind;
use lp_tree::token::{Mark, TokenKind};
use std::alloc::{AllocError, Global};
use std::mem::replace;

/// What reading a word came to.
#[derive(Drop)]
pub enum Read {
    /// It went on.
    Went,
    /// A use has its arguments.
    Used(Use, Row<Row<Word>>),
}

// Whether a word is a `(`.
fn is_open(kind: &TokenKind) -> bool
    ensures { result ≡ is_open kind.now }
{
    matches!(kind, TokenKind::Mark(Mark::OpenParen))
}

// Whether a word is a `)`.
fn is_close(kind: &TokenKind) -> bool
    ensures { result ≡ is_close kind.now }
{
    matches!(kind, TokenKind::Mark(Mark::CloseParen))
}

// Something else is read from here on.
fn set_reading(reader: &mut Reader, reading: Reading)
    ensures { reader.new ≡ record reader.old { reading = reading } }
{
    drop(replace(&mut reader.reading, reading));
}

// The name of a use.
fn name_of_use(usage: Use) -> Word
    ensures { result ≡ usage.word }
{
    usage.word
}

// A word comes again.
fn put_off(reader: &mut Reader, word: Word) -> Result<(), AllocError>
    ensures { OnOk result (reader.new ≡ record reader.old { waiting = word ∷ reader.old.waiting }) }
{
    reader.waiting.push(word)
}

// A word comes out.
fn out(alloc: Global, reader: &mut Reader, word: Word) -> Result<Read, Stop>
    ensures { (c : Setting) (ms : AnyTable) (k : Standing) → Reads c (emit (state_of reader.old ms k) word) result (state_of reader.new ms k) }
{
    emit(alloc, reader, word)?;
    Ok(Read::Went)
}

// A name that may stand for a macro.
fn use_macro(
    alloc: Global,
    reader: &mut Reader,
    word: Word,
    meaning: Option<&Macro>,
) -> Result<Read, Stop>
    ensures { (c : Setting) (ms : AnyTable) (k : Standing) → Reads c (use_macro c (state_of reader.old ms k) word (option_copied meaning.entry)) result (state_of reader.new ms k) }
{
    match meaning {
        None => out(alloc, reader, word),
        Some(meaning) => match &meaning.params {
            None => Ok(Read::Used(
                Use {
                    word,
                    params: Params::from_names(alloc, Distinct::new(alloc))?,
                    body: meaning.body.copy()?,
                },
                Row::new(alloc),
            )),
            Some(params) => {
                let usage = Use {
                    word,
                    params: params.copy()?,
                    body: meaning.body.copy()?,
                };
                set_reading(reader, Reading::Named(usage));
                Ok(Read::Went)
            }
        },
    }
}

// A name, which may be hidden.
fn read_name(
    alloc: Global,
    table: &Table,
    reader: &mut Reader,
    word: Word,
    name: &[char],
) -> Result<Read, Stop>
    ensures { (c : Setting) (k : Standing) → Reads c (read_name c (state_of reader.old (macros_in table.now) k) word name.now) result (state_of reader.new (macros_in table.now) k) }
{
    if word.hidden.contains(name) {
        return out(alloc, reader, word);
    }
    use_macro(alloc, reader, word, table.find(name))
}

// A word behind the name of a macro with parameters.
fn read_named(alloc: Global, reader: &mut Reader, usage: Use, word: Word) -> Result<Read, Stop>
    ensures { (c : Setting) (ms : AnyTable) (k : Standing) → Reads c (read_named (state_of reader.old ms k) usage word) result (state_of reader.new ms k) }
{
    if is_open(&word.kind) {
        set_reading(reader, Reading::Within(Arguments::new(alloc, usage)));
        return Ok(Read::Went);
    }
    put_off(reader, word)?;
    out(alloc, reader, name_of_use(usage))
}

// The arguments that a use has.
fn given(alloc: Global, params: &Params, args: Row<Row<Word>>) -> Row<Row<Word>>
    ensures { result ≡ given params.now args }
{
    if params.as_slice().len() == 0 && args.len() == 1 {
        if args.as_slice()[0].len() == 0 {
            return Row::new(alloc);
        }
    }
    args
}

// The `)` of a use.
fn close(alloc: Global, reader: &mut Reader, usage: Use, args: Row<Row<Word>>) -> Result<Read, Stop>
    ensures { (c : Setting) (ms : AnyTable) (k : Standing) → Reads c (closed c (state_of reader.old ms k) usage (given usage.params args)) result (state_of reader.new ms k) }
{
    let args = given(alloc, &usage.params, args);
    if args.len() != usage.params.as_slice().len() {
        return Err(Stop::At(FaultKind::MacroArgs, usage.word.line));
    }
    Ok(Read::Used(usage, args))
}

// A word of an argument, within as many parentheses as before.
fn same_within(reader: &mut Reader, arguments: Arguments, word: Word) -> Result<Read, Stop>
    ensures { (c : Setting) (ms : AnyTable) (k : Standing) → Reads c (argument_word (state_of reader.old ms k) arguments arguments.nested word) result (state_of reader.new ms k) }
{
    let mut arguments = arguments;
    match arguments.push(word) {
        Ok(()) => {
            set_reading(reader, Reading::Within(arguments));
            Ok(Read::Went)
        }
        Err(error) => {
            drop(arguments);
            Err(Stop::from(error))
        }
    }
}

// One pair of parentheses more within an argument.
fn open_within(reader: &mut Reader, arguments: Arguments, word: Word) -> Result<Read, Stop>
    ensures { (c : Setting) (ms : AnyTable) (k : Standing) → Reads c (argument_word (state_of reader.old ms k) arguments (arguments.nested + 1) word) result (state_of reader.new ms k) }
{
    let mut arguments = arguments;
    match arguments.open(word) {
        Ok(()) => {
            set_reading(reader, Reading::Within(arguments));
            Ok(Read::Went)
        }
        Err(error) => {
            drop(arguments);
            Err(Stop::from(error))
        }
    }
}

// One pair of parentheses less within an argument.
fn inner_close(reader: &mut Reader, arguments: Arguments, word: Word) -> Result<Read, Stop>
    requires { 0 < arguments.nested }
    ensures { (c : Setting) (ms : AnyTable) (k : Standing) → Reads c (argument_word (state_of reader.old ms k) arguments (arguments.nested - 1) word) result (state_of reader.new ms k) }
{
    let mut arguments = arguments;
    match arguments.close(word) {
        Ok(()) => {
            set_reading(reader, Reading::Within(arguments));
            Ok(Read::Went)
        }
        Err(error) => {
            drop(arguments);
            Err(Stop::from(error))
        }
    }
}

// The arguments are whole.
fn finish(alloc: Global, reader: &mut Reader, arguments: Arguments) -> Result<Read, Stop>
    ensures { (c : Setting) (ms : AnyTable) (k : Standing) → Reads c (closed c (state_of reader.old ms k) arguments.usage (given arguments.usage.params (all_of arguments))) result (state_of reader.new ms k) }
{
    let (usage, args) = arguments.finish()?;
    close(alloc, reader, usage, args)
}

// The `)` of a use, or of a pair of parentheses within an argument.
fn close_within(
    alloc: Global,
    reader: &mut Reader,
    arguments: Arguments,
    word: Word,
) -> Result<Read, Stop>
    ensures { (c : Setting) (ms : AnyTable) (k : Standing) → Reads c (close_within c (state_of reader.old ms k) arguments arguments.nested word) result (state_of reader.new ms k) }
{
    if arguments.nested() > 0 {
        return inner_close(reader, arguments, word);
    }
    finish(alloc, reader, arguments)
}

// Another argument begins.
fn next_argument(alloc: Global, reader: &mut Reader, arguments: Arguments) -> Result<Read, Stop>
    requires { arguments.nested ≡ 0 }
    ensures { (c : Setting) (ms : AnyTable) (k : Standing) → Reads c (Goes (record (state_of reader.old ms k) { reading = Reading.Within (record arguments { whole = all_of arguments; current = [] }) })) result (state_of reader.new ms k) }
{
    let mut arguments = arguments;
    match arguments.part(alloc) {
        Ok(()) => {
            set_reading(reader, Reading::Within(arguments));
            Ok(Read::Went)
        }
        Err(error) => {
            drop(arguments);
            Err(Stop::from(error))
        }
    }
}

// A comma parts arguments, or stands within one.
fn comma_within(
    alloc: Global,
    reader: &mut Reader,
    arguments: Arguments,
    word: Word,
) -> Result<Read, Stop>
    ensures { (c : Setting) (ms : AnyTable) (k : Standing) → Reads c (comma_within (state_of reader.old ms k) arguments arguments.nested word) result (state_of reader.new ms k) }
{
    if arguments.nested() > 0 {
        return same_within(reader, arguments, word);
    }
    next_argument(alloc, reader, arguments)
}

// A word of a use's arguments, which is this to them.
fn within_by(
    alloc: Global,
    reader: &mut Reader,
    arguments: Arguments,
    word: Word,
    part: Part,
) -> Result<Read, Stop>
    ensures { (c : Setting) (ms : AnyTable) (k : Standing) → Reads c (within_by c (state_of reader.old ms k) arguments word part) result (state_of reader.new ms k) }
{
    match part {
        Part::Closes => close_within(alloc, reader, arguments, word),
        Part::Parts => comma_within(alloc, reader, arguments, word),
        Part::Opens => open_within(reader, arguments, word),
        Part::Other => same_within(reader, arguments, word),
    }
}

// What a word is to the arguments of a use.
fn part_of(kind: &TokenKind) -> Part
    ensures { result ≡ part_of kind.now }
{
    match kind {
        TokenKind::Mark(Mark::OpenParen) => Part::Opens,
        TokenKind::Mark(Mark::CloseParen) => Part::Closes,
        TokenKind::Mark(Mark::Comma) => Part::Parts,
        _ => Part::Other,
    }
}

// A word of a use's arguments.
fn read_within(
    alloc: Global,
    reader: &mut Reader,
    arguments: Arguments,
    word: Word,
) -> Result<Read, Stop>
    ensures { (c : Setting) (ms : AnyTable) (k : Standing) → Reads c (read_within c (state_of reader.old ms k) arguments word) result (state_of reader.new ms k) }
{
    let part = part_of(&word.kind);
    within_by(alloc, reader, arguments, word, part)
}

// The name that a word is.
fn name_of(kind: &TokenKind) -> Result<Option<Chars>, AllocError>
    ensures { IfOk result (λ n. n ≡ name_of kind.now) }
{
    match kind {
        TokenKind::Name(name) => Ok(Some(name.copy()?)),
        _ => Ok(None),
    }
}

// The answer of `defined` to a name, with the words behind it.
fn asked_name(table: &Table, kind: &TokenKind) -> Option<bool>
    ensures { (ws : List AnyWord) → asked_name (macros_in table.now) (name_of kind.now) ws ≡ option_map (asked_with ws) result }
{
    match kind {
        TokenKind::Name(name) => Some(table.find(name.as_slice()).is_some()),
        _ => None,
    }
}

// The answer of `defined(`, whose words are taken.
fn asked_within(table: &Table, waiting: &mut Stack<Word>) -> Option<bool>
    ensures { IsAsked (asked_within (macros_in table.now) waiting.old) result waiting.new }
{
    let name = waiting.pop()?;
    let close = waiting.pop()?;
    if is_close(&close.kind) {
        return asked_name(table, &name.kind);
    }
    None
}

// The answer of `defined`, whose words are taken.
fn asked(table: &Table, waiting: &mut Stack<Word>) -> Option<bool>
    ensures { IsAsked (asked (macros_in table.now) waiting.old) result waiting.new }
{
    let first = waiting.pop()?;
    if is_open(&first.kind) {
        return asked_within(table, waiting);
    }
    asked_name(table, &first.kind)
}

// 1 or 0 in the place of a word.
fn truth(word: Word, answer: bool) -> Word
    ensures { result ≡ record word { kind = truth answer } }
{
    Word {
        kind: TokenKind::Int(if answer { 1 } else { 0 }),
        line: word.line,
        hidden: word.hidden,
        depth: word.depth,
    }
}

// `defined` in a condition.
fn read_defined(alloc: Global, table: &Table, reader: &mut Reader, word: Word) -> Result<Read, Stop>
    ensures { (c : Setting) (k : Standing) → Reads c (read_defined (state_of reader.old (macros_in table.now) k) word (asked (macros_in table.now) reader.old.waiting)) result (state_of reader.new (macros_in table.now) k) }
{
    let Some(answer) = asked(table, &mut reader.waiting) else {
        return Err(Stop::At(FaultKind::BadDirective, word.line));
    };
    out(alloc, reader, truth(word, answer))
}

// Whether a name is the `defined` of a condition.
fn is_defined_word(purpose: Purpose, name: &[char]) -> bool
    ensures { result ≡ is_defined_word purpose name.now }
{
    match purpose {
        Purpose::Condition => same_name(name, &['d', 'e', 'f', 'i', 'n', 'e', 'd']),
        _ => false,
    }
}

// A word where nothing else is read, whose name is this one if it is a name.
fn plain_by(
    alloc: Global,
    table: &Table,
    reader: &mut Reader,
    word: Word,
    name: Option<Chars>,
) -> Result<Read, Stop>
    ensures { (c : Setting) (k : Standing) → Reads c (read_plain c (state_of reader.old (macros_in table.now) k) word name) result (state_of reader.new (macros_in table.now) k) }
{
    let Some(name) = name else {
        return out(alloc, reader, word);
    };
    if is_defined_word(reader.purpose, name.as_slice()) {
        return read_defined(alloc, table, reader, word);
    }
    read_name(alloc, table, reader, word, name.as_slice())
}

// A word where nothing else is read.
fn read_plain(alloc: Global, table: &Table, reader: &mut Reader, word: Word) -> Result<Read, Stop>
    ensures { (c : Setting) (k : Standing) → Reads c (read_plain c (state_of reader.old (macros_in table.now) k) word (name_of word.kind)) result (state_of reader.new (macros_in table.now) k) }
{
    let name = name_of(&word.kind)?;
    plain_by(alloc, table, reader, word, name)
}

// What is being read is taken out, and nothing else is read.
fn take_reading(reader: &mut Reader) -> Reading
    ensures taken { result ≡ reader.old.reading }
    ensures rest { reader.new ≡ record reader.old { reading = Reading.Plain } }
{
    replace(&mut reader.reading, Reading::Plain)
}

// A word, where this is being read.
fn read_by(
    alloc: Global,
    table: &Table,
    reader: &mut Reader,
    reading: Reading,
    word: Word,
) -> Result<Read, Stop>
    ensures { (c : Setting) (k : Standing) → Reads c (read_by c (state_of reader.old (macros_in table.now) k) word reading) result (state_of reader.new (macros_in table.now) k) }
{
    match reading {
        Reading::Plain => read_plain(alloc, table, reader, word),
        Reading::Named(usage) => read_named(alloc, reader, usage, word),
        Reading::Within(arguments) => read_within(alloc, reader, arguments, word),
    }
}

/// A word comes next.
pub fn take_word(
    alloc: Global,
    table: &Table,
    reader: &mut Reader,
    word: Word,
) -> Result<Read, Stop>
    ensures { (c : Setting) (k : Standing) → Reads c (read c (state_of reader.old (macros_in table.now) k) word) result (state_of reader.new (macros_in table.now) k) }
{
    let reading = take_reading(reader);
    read_by(alloc, table, reader, reading, word)
}

// No word comes any more, where this was being read.
fn end_by(alloc: Global, reader: &mut Reader, reading: Reading) -> Result<bool, Stop>
    ensures { (ms : AnyTable) (k : Standing) → Finishes (end_by (state_of reader.old ms k) reading) result (state_of reader.new ms k) }
{
    match reading {
        Reading::Plain => Ok(true),
        Reading::Named(usage) => {
            emit(alloc, reader, usage.word)?;
            Ok(false)
        }
        Reading::Within(arguments) => Err(Stop::At(FaultKind::MacroArgs, arguments.line())),
    }
}

/// No word comes any more: something came out for that, or everything did.
pub fn take_end(alloc: Global, reader: &mut Reader) -> Result<bool, Stop>
    ensures { (ms : AnyTable) (k : Standing) → Finishes (ended (state_of reader.old ms k)) result (state_of reader.new ms k) }
{
    let reading = take_reading(reader);
    end_by(alloc, reader, reading)
}

//! The words of the command line.
ghost use Rattle.std.specs.Prelude.{◌≡◌, false, Err, IfOk, Some, None, map, string_bytes};
ghost use Rattle.std.specs.Option.{option_copied};
ghost use Rattle.clap.specs.Words.{app_of, rule_of};
ghost use Rattle.lp_serve_words.specs.Words.{serving_in};
ghost use Rattle.lp_serve_words.specs.declared.words.WordsFault.TheVariants as fault;
ghost use Rattle.lp_top.specs.Words.{check_with, command_in, command_named as named, is_set as is_option_set, line_of, make_with, named_in, replay_with, serve_with, taken_with, text_of, wanted_value as wanted};

use clap::{Arg, ArgAction, Command as Line};
use lp_serve_words::{
    Serving, WordsFault, is_serve, is_value, matched, may_all_stand, number_in, serving_of,
};
use lp_tree::path::FilePath;
use std::alloc::{AllocError, Global};

/// What the program is asked to do.
#[derive(Debug, Drop)]
pub enum Command {
    /// Reads a script and writes its transcript, and behind it, where a report is asked for, the line of its numbers. After so many
    /// seconds without an entry an object or a program is idle.
    Replay { swap_time: u32, report: bool },
    /// Reads a script and tells what is wrong with its files. With `simul` they see the functions of
    /// the file with this path as simul efuns.
    Check { simul: Option<FilePath> },
    /// Writes the script of a workload of so many events, which a generator with this seed chooses.
    Make { count: u32, seed: u64 },
    /// Serves players.
    Serve(Serving),
}

/// The names of the commands but `serve`.
#[derive(Clone, Copy, Debug, PartialEq, Eq)]
pub enum CommandName {
    Replay,
    Check,
    Make,
}

/// The most events that a workload may have.
const MOST_EVENTS: u64 = 200_000;

/// The most seconds of a swap time, and those that are taken where none is given.
const MOST_SWAP_TIME: u64 = 1_000_000_000;

const USUAL_SWAP_TIME: u32 = 900;

// The command that a word names. Takes no memory.
fn command_named(word: &str) -> Option<CommandName>
    ensures { result ≡ named word.now }
{
    if word == "replay" {
        return Some(CommandName::Replay);
    }
    if word == "check" {
        return Some(CommandName::Check);
    }
    if word == "make" {
        return Some(CommandName::Make);
    }
    None
}

// The text of a command's name.
fn name_of<'a>(name: CommandName) -> &'a str
    ensures { result.now ≡ text_of name }
{
    match name {
        CommandName::Replay => "replay",
        CommandName::Check => "check",
        CommandName::Make => "make",
    }
}

// A value that stands behind the name of a command, and is wanted.
fn wanted_value<'a>(alloc: Global, id: &'a str) -> Arg<'a>
    ensures rule { rule_of result ≡ wanted id.entry.now }
    ensures local { result.global ≡ false }
{
    Arg::new(alloc, id).required(true).action(ArgAction::Set)
}

// The words of a command as clap has them.
fn line<'a>(alloc: Global, name: CommandName) -> Result<Line<'a>, AllocError>
    ensures { IfOk result (λ l. app_of l ≡ line_of name) }
{
    let line = Line::new(alloc, name_of(name));
    match name {
        CommandName::Replay => {
            let swap_time = Arg::new(alloc, "swap-time")
                .long("swap-time")
                .action(ArgAction::Set);
            let report = Arg::new(alloc, "report")
                .long("report")
                .action(ArgAction::SetTrue);
            line.arg(swap_time)?.arg(report)
        }
        CommandName::Check => {
            let simul = Arg::new(alloc, "simul")
                .long("simul")
                .action(ArgAction::Set);
            line.arg(simul)
        }
        CommandName::Make => line
            .arg(wanted_value(alloc, "count"))?
            .arg(wanted_value(alloc, "seed")),
    }
}

// Whether an option without a value was given. Takes no memory.
fn is_set(value: Option<&str>) -> bool
    ensures { result ≡ is_option_set (option_copied value.entry) }
{
    match value {
        Some(value) => value == "true",
        None => false,
    }
}

// A replay with the value of `--swap-time`, and whether `--report` was given.
fn replay_of(swap_time: Option<&str>, report: bool) -> Result<Command, WordsFault>
    ensures named { IfOk result (λ c. replay_with (option_copied swap_time.entry) report ≡ Some c) }
    ensures refused { result ≡ Err fault.BadWords → replay_with (option_copied swap_time.entry) report ≡ None }
{
    match swap_time {
        None => Ok(Command::Replay {
            swap_time: USUAL_SWAP_TIME,
            report,
        }),
        Some(value) => match number_in(0, MOST_SWAP_TIME, Some(value)) {
            Some(number) => Ok(Command::Replay {
                swap_time: number as u32,
                report,
            }),
            None => Err(WordsFault::BadWords),
        },
    }
}

// A check with the value of `--simul`.
fn check_of(alloc: Global, simul: Option<&str>) -> Result<Command, WordsFault>
    ensures named { IfOk result (λ c. check_with (option_copied simul.entry) ≡ Some c) }
    ensures refused { result ≡ Err fault.BadWords → check_with (option_copied simul.entry) ≡ None }
{
    match simul {
        None => Ok(Command::Check { simul: None }),
        Some(path) => {
            if !is_value(path) {
                return Err(WordsFault::BadWords);
            }
            let path = FilePath::from_str(alloc, path)?;
            Ok(Command::Check { simul: Some(path) })
        }
    }
}

// A workload with these values.
fn make_of(count: Option<&str>, seed: Option<&str>) -> Result<Command, WordsFault>
    ensures named { IfOk result (λ c. make_with (option_copied count.entry) (option_copied seed.entry) ≡ Some c) }
    ensures refused { result ≡ Err fault.BadWords → make_with (option_copied count.entry) (option_copied seed.entry) ≡ None }
{
    let count = number_in(1, MOST_EVENTS, count);
    let seed = number_in(0, u64::MAX, seed);
    match (count, seed) {
        (Some(count), Some(seed)) => Ok(Command::Make {
            count: count as u32,
            seed,
        }),
        _ => Err(WordsFault::BadWords),
    }
}

// The command of this name, with its values in the words, of which the first is the name.
fn command_with(alloc: Global, name: CommandName, words: &[String]) -> Result<Command, WordsFault>
    ensures named { IfOk result (λ c. taken_with name (map string_bytes words.now) ≡ Some c) }
    ensures refused { result ≡ Err fault.BadWords → taken_with name (map string_bytes words.now) ≡ None }
{
    let matches = matched(line(alloc, name)?, words)?;
    match name {
        CommandName::Replay => {
            let report = is_set(matches.get_str("report"));
            replay_of(matches.get_str("swap-time"), report)
        }
        CommandName::Check => check_of(alloc, matches.get_str("simul")),
        CommandName::Make => make_of(matches.get_str("count"), matches.get_str("seed")),
    }
}

// The command that the first word names, with its values in the words.
fn named_of(alloc: Global, words: &[String]) -> Result<Command, WordsFault>
    ensures named { IfOk result (λ c. named_in (map string_bytes words.now) ≡ Some c) }
    ensures refused { result ≡ Err fault.BadWords → named_in (map string_bytes words.now) ≡ None }
{
    let word = match words.first() {
        Some(word) => word,
        None => return Err(WordsFault::BadWords),
    };
    let name = match command_named(word.as_str()) {
        Some(name) => name,
        None => return Err(WordsFault::BadWords),
    };
    if !may_all_stand(words) {
        return Err(WordsFault::BadWords);
    }
    command_with(alloc, name, words)
}

// A game that is served.
fn serve_of(alloc: Global, words: &[String]) -> Result<Command, WordsFault>
    ensures named { IfOk result (λ c. serve_with (serving_in (map string_bytes words.now)) ≡ Some c) }
    ensures refused { result ≡ Err fault.BadWords → serve_with (serving_in (map string_bytes words.now)) ≡ None }
{
    match serving_of(alloc, words) {
        Ok(serving) => Ok(Command::Serve(serving)),
        Err(fault) => Err(fault),
    }
}

/// The command that the words, without the program's name, name.
///
/// `BadWords` comes exactly where they name none, or else `NoMemory`.
pub fn command_of(alloc: Global, words: &[String]) -> Result<Command, WordsFault>
    ensures named { IfOk result (λ c. command_in (map string_bytes words.now) ≡ Some c) }
    ensures refused { result ≡ Err fault.BadWords → command_in (map string_bytes words.now) ≡ None }
{
    if is_serve(words) {
        return serve_of(alloc, words);
    }
    named_of(alloc, words)
}

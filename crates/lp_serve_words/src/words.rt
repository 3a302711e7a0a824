//! The words of a command and those of `serve`, as clap takes them.
ghost use Rattle.std.specs.Prelude.{◌≡◌, Err, IfOk, None, Some, false, true, map, string_bytes};
ghost use Rattle.std.specs.List.{list_all};
ghost use Rattle.clap.specs.Words.{App, HasMatchesOf, app_of, fault_of, is_simple_and_free, rule_of};
ghost use Rattle.lp_serve_words.specs.Serving.{values_of};
ghost use Rattle.lp_serve_words.specs.Words.{has_some, is_free_word, names_serve, numbers_line, ports_line, serve_line, serving_in, serving_taken, valued as valued_rule, values_found, wanted_option as wanted_rule, web_line};
ghost use Rattle.lp_serve_words.specs.declared.words.WordsFault.TheVariants as fault;

use crate::values::{ServeTexts, serving_by};
use clap::error::ErrorKind;
use clap::{Arg, ArgAction, ArgMatches, Command as Line};
use lp_tree::path::FilePath;
use std::alloc::{AllocError, Global};
use thiserror::Error;

/// How players are served.
#[derive(Debug, Drop)]
pub struct Serving {
    /// The folder of the mudlib's files.
    pub lib: FilePath,
    /// The port of the players, from 1 to 65535.
    pub port: u16,
    /// The port of the operator, another one.
    pub control: u16,
    /// The port of players in a browser, a third one, or 0 where none is given.
    pub ws: u16,
    /// After so many seconds without an entry an object or a program is idle, at most 1000000000; 0 means never.
    pub swap_time: u32,
    /// The seed of the generator of random numbers.
    pub seed: u64,
    /// The file that gets the script of the run, if one is wanted.
    pub record_file: Option<FilePath>,
    /// How often the wire is polled at most.
    pub turns: u64,
}

/// Why words are not those of a command.
#[derive(Clone, Copy, Debug, PartialEq, Eq, Error)]
pub enum WordsFault {
    /// The first word is another one, or what stands behind it does not belong to it.
    #[error("the words name no command")]
    BadWords,
    #[error("out of memory")]
    NoMemory,
}

impl From<AllocError> for WordsFault {
    ghost use Rattle.lp_serve_words.specs.declared.words.WordsFault.TheVariants.{NoMemory};

    ghost from_gives = { λ _ e. e ≡ NoMemory };

    fn from(_fault: AllocError) -> WordsFault {
        WordsFault::NoMemory
    }
}

// Whether a word may stand behind a command, whatever clap says of it. Takes no memory.
fn may_stand(word: &str) -> bool
    ensures { result ≡ is_free_word word.now }
{
    word != "--" && word != "-h" && word != "--help"
}

/// Whether each word may stand behind a command, whatever clap says of it: none is `--`, `-h` or `--help`. Takes no memory.
pub fn may_all_stand(words: &[String]) -> bool
    ensures { result ≡ list_all (λ w. is_free_word (string_bytes w)) words.now }
{
    words.iter().all(|word| may_stand(word.as_str()))
}

/// Whether the first word is `serve`. Takes no memory.
pub fn is_serve(words: &[String]) -> bool
    ensures { result ≡ names_serve (map string_bytes words.now) }
{
    match words.first() {
        Some(word) => word.as_str() == "serve",
        None => false,
    }
}

// An option with one value.
fn valued<'a>(alloc: Global, id: &'a str) -> Arg<'a>
    ensures rule { rule_of result ≡ valued_rule id.entry.now }
    ensures local { result.global ≡ false }
{
    Arg::new(alloc, id).long(id).action(ArgAction::Set)
}

// An option with one value that is wanted.
fn wanted_option<'a>(alloc: Global, id: &'a str) -> Arg<'a>
    ensures rule { rule_of result ≡ wanted_rule id.entry.now }
    ensures local { result.global ≡ false }
{
    Arg::new(alloc, id)
        .long(id)
        .required(true)
        .action(ArgAction::Set)
}

// The words as clap has them, up to the ports.
fn with_ports<'a>(alloc: Global) -> Result<Line<'a>, AllocError>
    ensures { IfOk result (λ l. app_of l ≡ ports_line) }
{
    let lib = Line::new(alloc, "serve").arg(wanted_option(alloc, "lib"))?;
    let port = lib.arg(wanted_option(alloc, "port"))?;
    port.arg(wanted_option(alloc, "control"))
}

// The same with the port of WebSockets.
fn with_web<'a>(alloc: Global) -> Result<Line<'a>, AllocError>
    ensures { IfOk result (λ l. app_of l ≡ web_line) }
{
    let ports = with_ports(alloc)?;
    ports.arg(valued(alloc, "ws"))
}

// The same, up to the numbers.
fn with_numbers<'a>(alloc: Global) -> Result<Line<'a>, AllocError>
    ensures { IfOk result (λ l. app_of l ≡ numbers_line) }
{
    let web = with_web(alloc)?;
    let time = web.arg(valued(alloc, "swap-time"))?;
    time.arg(valued(alloc, "seed"))
}

// All of the words.
fn line<'a>(alloc: Global) -> Result<Line<'a>, AllocError>
    ensures { IfOk result (λ l. app_of l ≡ serve_line) }
{
    let numbers = with_numbers(alloc)?;
    let record = numbers.arg(valued(alloc, "record"))?;
    record.arg(valued(alloc, "turns"))
}

/// What clap reads in the words of a command, of which the first is its name.
///
/// # Errors
/// `BadWords` exactly where clap finds fault with them, or else `NoMemory`.
pub fn matched<'a>(line: Line<'a>, words: &'a [String]) -> Result<ArgMatches<'a>, WordsFault>
    requires { is_simple_and_free (app_of line) ≡ true }
    ensures taken { IfOk result (λ m. has_some (fault_of (app_of line.entry) (map string_bytes words.now)) ≡ false) }
    ensures matches { IfOk result (HasMatchesOf (app_of line.entry) (map string_bytes words.now)) }
    ensures refused { result ≡ Err fault.BadWords → has_some (fault_of (app_of line.entry) (map string_bytes words.now)) ≡ true }
{
    match line.try_get_matches_from(words) {
        Ok(matches) => Ok(matches),
        Err(error) => match error.kind() {
            ErrorKind::OutOfMemory => Err(WordsFault::NoMemory),
            _ => Err(WordsFault::BadWords),
        },
    }
}

// The values of the options, where they were given. Takes no memory.
fn texts_of<'a>(matches: &ArgMatches<'a>) -> ServeTexts<'a>
    ensures { values_of result ≡ values_found matches.now }
{
    ServeTexts {
        lib: matches.get_str("lib"),
        port: matches.get_str("port"),
        control: matches.get_str("control"),
        ws: matches.get_str("ws"),
        swap_time: matches.get_str("swap-time"),
        seed: matches.get_str("seed"),
        record_file: matches.get_str("record"),
        turns: matches.get_str("turns"),
    }
}

// How players are served, by words that may stand.
fn taken_of(alloc: Global, words: &[String]) -> Result<Serving, WordsFault>
    ensures named { IfOk result (λ s. serving_taken (map string_bytes words.now) ≡ Some s) }
    ensures refused { result ≡ Err fault.BadWords → serving_taken (map string_bytes words.now) ≡ None }
{
    let matches = matched(line(alloc)?, words)?;
    serving_by(alloc, &texts_of(&matches))
}

/// How players are served, by the words without the program's name: `serve --lib DIR --port P --control P` with
/// `--ws P`, `--swap-time N`, `--seed N`, `--record FILE` and `--turns N` in any order, each at most once.
///
/// # Errors
/// `BadWords` exactly where the words are none of this form, or else `NoMemory`.
pub fn serving_of(alloc: Global, words: &[String]) -> Result<Serving, WordsFault>
    ensures named { IfOk result (λ s. serving_in (map string_bytes words.now) ≡ Some s) }
    ensures refused { result ≡ Err fault.BadWords → serving_in (map string_bytes words.now) ≡ None }
{
    if !is_serve(words) {
        return Err(WordsFault::BadWords);
    }
    if !may_all_stand(words) {
        return Err(WordsFault::BadWords);
    }
    taken_of(alloc, words)
}

//! The values of the options of `serve`.
ghost use Rattle.std.specs.Prelude.{◌≡◌, ◌≤◌, Err, IfOk, IfSome, Some, None};
ghost use Rattle.std.specs.Option.{option_copied};
ghost use Rattle.lp_serve_words.specs.Serving.{is_free_text as may_be_free_text, number_or as number_or_usual, ports_in, serving_with, two_ports_in, values_of, wanted_text as wanted};
ghost use Rattle.lp_serve_words.specs.Values.{is_value as may_be_value};
ghost use Rattle.lp_serve_words.specs.declared.words.WordsFault.TheVariants as fault;

use crate::number::number_in;
use crate::words::{Serving, WordsFault};
use lp_tree::path::FilePath;
use std::alloc::{AllocError, Global};

/// How often the wire is polled at most, where nothing is said.
const USUAL_TURNS: u64 = 1_000_000_000_000;

/// The most seconds of a swap time, and those that are taken where none is given.
const MOST_SWAP_TIME: u64 = 1_000_000_000;

const USUAL_SWAP_TIME: u64 = 900;

/// The greatest number of a port.
const LAST_PORT: u64 = 65535;

/// The values of the options of `serve`, where they were given.
#[derive(Clone, Copy)]
pub(crate) struct ServeTexts<'a> {
    pub(crate) lib: Option<&'a str>,
    pub(crate) port: Option<&'a str>,
    pub(crate) control: Option<&'a str>,
    pub(crate) ws: Option<&'a str>,
    pub(crate) swap_time: Option<&'a str>,
    pub(crate) seed: Option<&'a str>,
    pub(crate) record_file: Option<&'a str>,
    pub(crate) turns: Option<&'a str>,
}

/// Whether a text may be the value of an option. Takes no memory.
pub fn is_value(text: &str) -> bool
    ensures { result ≡ may_be_value text.now }
{
    match text.as_bytes().first() {
        Some(byte) => *byte != b'-',
        None => false,
    }
}

// A text that is wanted, if it may be a value. Takes no memory.
fn wanted_text(text: Option<&str>) -> Option<&str>
    ensures { option_copied result ≡ wanted (option_copied text.entry) }
{
    match text {
        Some(value) => { if is_value(value) { Some(value) } else { None } }
        None => None,
    }
}

// Whether a text that need not be given may stand. Takes no memory.
fn is_free_text(text: Option<&str>) -> bool
    ensures { result ≡ may_be_free_text (option_copied text.entry) }
{
    match text {
        Some(value) => is_value(value),
        None => true,
    }
}

// A path that may have been given.
fn path_of(alloc: Global, text: Option<&str>) -> Result<Option<FilePath>, AllocError>
    ensures { IfOk result (λ p. p ≡ option_copied text.entry) }
{
    match text {
        Some(text) => Ok(Some(FilePath::from_str(alloc, text)?)),
        None => Ok(None),
    }
}

// The number that is given, or the usual one. Takes no memory.
fn number_or(usual: u64, low: u64, high: u64, text: Option<&str>) -> Option<u64>
    requires { usual ≤ high }
    ensures value { result ≡ number_or_usual usual low high (option_copied text.entry) }
    ensures within { IfSome result (λ n. n ≤ high) }
{
    match text {
        Some(value) => number_in(low, high, Some(value)),
        None => Some(usual),
    }
}

// The two ports that are wanted, if they are numbers of ports and differ. Takes no memory.
fn two_ports(port: Option<&str>, control: Option<&str>) -> Option<(u16, u16)>
    ensures { result ≡ two_ports_in (option_copied port.entry) (option_copied control.entry) }
{
    let port = match number_in(1, LAST_PORT, port) {
        Some(port) => port as u16,
        None => return None,
    };
    let control = match number_in(1, LAST_PORT, control) {
        Some(control) => control as u16,
        None => return None,
    };
    if port == control {
        return None;
    }
    Some((port, control))
}

// The same with the port of WebSockets, if it is one and differs from both; it is 0 where none is given. Takes no memory.
fn ports(port: Option<&str>, control: Option<&str>, ws: Option<&str>) -> Option<((u16, u16), u16)>
    ensures { result ≡ ports_in (option_copied port.entry) (option_copied control.entry) (option_copied ws.entry) }
{
    let (port, control) = match two_ports(port, control) {
        Some(two) => two,
        None => return None,
    };
    let ws = match number_or(0, 1, LAST_PORT, ws) {
        Some(ws) => ws as u16,
        None => return None,
    };
    if ws == port || ws == control {
        return None;
    }
    Some(((port, control), ws))
}

/// How players are served, by these values.
pub(crate) fn serving_by(alloc: Global, texts: &ServeTexts<'_>) -> Result<Serving, WordsFault>
    ensures named { IfOk result (λ s. serving_with (values_of texts.now) ≡ Some s) }
    ensures refused { result ≡ Err fault.BadWords → serving_with (values_of texts.now) ≡ None }
{
    let lib = match wanted_text(texts.lib) {
        Some(lib) => lib,
        None => return Err(WordsFault::BadWords),
    };
    let ((port, control), ws) = match ports(texts.port, texts.control, texts.ws) {
        Some(all) => all,
        None => return Err(WordsFault::BadWords),
    };
    let swap_time = match number_or(USUAL_SWAP_TIME, 0, MOST_SWAP_TIME, texts.swap_time) {
        Some(seconds) => seconds as u32,
        None => return Err(WordsFault::BadWords),
    };
    let seed = match number_or(0, 0, u64::MAX, texts.seed) {
        Some(seed) => seed,
        None => return Err(WordsFault::BadWords),
    };
    if !is_free_text(texts.record_file) {
        return Err(WordsFault::BadWords);
    }
    let turns = match number_or(USUAL_TURNS, 0, u64::MAX, texts.turns) {
        Some(turns) => turns,
        None => return Err(WordsFault::BadWords),
    };
    let record_file = path_of(alloc, texts.record_file)?;
    Ok(Serving {
        lib: FilePath::from_str(alloc, lib)?,
        port,
        control,
        ws,
        swap_time,
        seed,
        record_file,
        turns,
    })
}

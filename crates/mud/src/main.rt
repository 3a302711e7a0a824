//! `mud`: a driver for LPC mudlibs.
#![tactic(auto)]

ghost use Rattle.std.specs.Prelude.{◌≡◌};
ghost use Rattle.std.specs.Process.{exit_status};
ghost use Rattle.lp_top.specs.Ends.{number_of};

mod kept_source;
mod serving;
mod telling;

use crate::kept_source::KeptSource;
use crate::serving::serve;
use crate::telling::tell_status;
use lp_folder::NoFiles;
use lp_io::{Sink, Source, StdSink, StdSource};
use lp_memory_file::MemoryFile;
use lp_top::{Status, WordsFault, code, devices, run, wants};
use lp_wire::NoWire;
use std::env::{self, FillError};
use std::io::{BufWriter, ErrorKind};
use std::process::ExitCode;
use std::rt::Env;

/// The command line with an empty word in place of the program's own name, which need not be text.
#[derive(Drop)]
struct Unnamed<'a, R>(&'a R);

impl<R: Env> Env for Unnamed<'_, R> {
    fn arg(&self, i: usize, buf: &mut [u8]) -> Result<usize, FillError> {
        if i == 0 {
            return Ok(0);
        }
        self.0.arg(i, buf)
    }

    fn var(&self, name: &str, buf: &mut [u8]) -> Result<usize, FillError> {
        self.0.var(name, buf)
    }

    fn var_at(&self, i: usize, buf: &mut [u8]) -> Result<usize, FillError> {
        self.0.var_at(i, buf)
    }
}

/// The words of the command line, without the program's name. One that is not UTF-8 names no
/// command.
fn words<R: Env + AllocGlobal>(rt: &R) -> Result<Vec<String>, Status> {
    let mut words = Vec::new(rt.alloc());
    let all = match env::args(&(Unnamed(rt), rt.alloc())) {
        Ok(all) => all,
        Err(fault) => return Err(status_of_words(fault.kind())),
    };
    for word in all.skip(1) {
        if words.push(word).is_err() {
            return Err(Status::NoMemory);
        }
    }
    Ok(words)
}

/// How the program ends where its words could not be had.
fn status_of_words(kind: ErrorKind) -> Status {
    match kind {
        ErrorKind::InvalidData => Status::BadWords,
        _ => Status::NoMemory,
    }
}

/// How the program ends where its words name no command.
fn status_of_fault(fault: WordsFault) -> Status {
    match fault {
        WordsFault::BadWords => Status::BadWords,
        WordsFault::NoMemory => Status::NoMemory,
    }
}

/// The number of a status, as that with which the program ends.
fn exit_code(status: &Status) -> ExitCode
    ensures { exit_status result ≡ number_of status.now }
{
    ExitCode::from(code(status))
}

/// Carries out a command that serves nobody, over this input and standard output. What is idle in a replay goes into a swap file in
/// memory, which tells what it holds.
fn carried_out<S: Source>(rt: &HostRuntime, words: &[String], input: &mut S) -> Status {
    let writer = match BufWriter::new(rt.alloc(), rt.stdout()) {
        Ok(writer) => writer,
        Err(_) => return Status::NoMemory,
    };
    let mut out = StdSink::new(writer);
    let status = run(
        rt.alloc(),
        words,
        input,
        &mut out,
        &mut NoFiles::new(),
        &mut MemoryFile::new(rt.alloc()),
        &mut NoWire::new(),
    );
    let _ = out.flush();
    status
}

/// Carries out a command that serves nobody, over standard input.
fn command(rt: &HostRuntime, words: &[String]) -> ExitCode {
    let mut input = KeptSource::new(rt.alloc(), StdSource::new(rt.stdin()));
    let status = carried_out(rt, words, &mut input);
    tell_status(rt, &status, input.kept());
    exit_code(&status)
}

/// Ends the program before anything was opened.
fn ended(rt: &HostRuntime, status: &Status) -> ExitCode {
    tell_status(rt, status, None);
    exit_code(status)
}

/// Carries out the command, over the devices that its words want.
fn carry_out(rt: &HostRuntime, words: &[String], wanted: &devices::Wants) -> ExitCode {
    match &wanted.lib {
        Some(lib) => serve(rt, words, lib.as_str(), wanted),
        None => command(rt, words),
    }
}

fn main(rt: HostRuntime) -> ExitCode {
    let words = match words(&rt) {
        Ok(words) => words,
        Err(status) => return ended(&rt, &status),
    };
    match wants(rt.alloc(), words.as_slice()) {
        Ok(wanted) => carry_out(&rt, words.as_slice(), &wanted),
        Err(fault) => ended(&rt, &status_of_fault(fault)),
    }
}

//! A game that is served over sockets of this machine.
use crate::exit_code;
use crate::telling::{tell_number, tell_status};
use lp_adapters::{OpenFault, Opened, Places, open, tell_ended, tell_fault, tell_listening};
use lp_io::QuietSource;
use lp_memory_file::MemoryFile;
use lp_top::devices::Wants;
use lp_top::run;
use lp_tree::path::FilePath;
use std::io::Write;
use std::process::ExitCode;

// The text of a path that may have been given. Takes no memory.
fn text_of(path: &Option<FilePath>) -> Option<&str> {
    match path {
        Some(path) => Some(path.as_str()),
        None => None,
    }
}

// The number with which the program ends where nothing could be served.
fn number_of_fault(fault: &OpenFault) -> u8 {
    match fault {
        OpenFault::Folder(_) => 8,
        OpenFault::Wire(_) => 9,
        OpenFault::Record(_) => 6,
        OpenFault::NoMemory => 11,
    }
}

// Serves the game over what was opened, with a swap file in memory, which tells what it holds.
fn play<O: Write + Drop>(
    rt: &HostRuntime,
    words: &[String],
    places: Places<'_>,
    opened: Opened<HostRuntime, O>,
) -> ExitCode {
    let Opened {
        mut files,
        mut wire,
        mut out,
    } = opened;
    tell_listening(rt, places);
    let status = run(
        rt.alloc(),
        words,
        &mut QuietSource,
        &mut out,
        &mut files,
        &mut MemoryFile::new(rt.alloc()),
        &mut wire,
    );
    tell_ended(rt);
    tell_status(rt, &status, None);
    exit_code(&status)
}

/// Serves the game of this folder, as the words say: opens what they want, and carries them out over it. Where something cannot be
/// opened, that is told, and nothing is served.
pub(crate) fn serve(rt: &HostRuntime, words: &[String], folder: &str, wants: &Wants) -> ExitCode {
    let places = Places {
        folder,
        record_file: text_of(&wants.script_file),
        port: wants.port,
        control: wants.control,
        ws: wants.ws,
    };
    match open(rt, places, rt.stdout()) {
        Ok(opened) => play(rt, words, places, opened),
        Err(fault) => {
            tell_fault(rt, places, &fault);
            let number = number_of_fault(&fault);
            tell_number(rt, number);
            ExitCode::from(number)
        }
    }
}

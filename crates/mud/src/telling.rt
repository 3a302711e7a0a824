//! What the program tells on standard error of its end.
use lp_explain::{USAGE, explain};
use lp_top::{Faults, Status, code};

/// Tells on standard error why no master is made: a line for each fault, as a check writes it.
fn tell_faults(rt: &HostRuntime, faults: &Faults) {
    for fault in faults.as_slice() {
        let file = fault.file.as_str();
        let line = fault.line;
        let text = fault.kind.text();
        let _ = eprintln!(rt; "{file} line {line}: {text}");
    }
}

/// Tells on standard error why no item of the script may stand at this byte, or the byte alone where
/// there is no memory to tell more.
fn tell_place(rt: &HostRuntime, script: Option<&[u8]>, at: u64) {
    if let Some(script) = script {
        if let Ok(line) = explain(rt.alloc(), script, at) {
            let text = line.as_str();
            let _ = eprintln!(rt; "{text}");
            return;
        }
    }
    let _ = eprintln!(rt; "at byte {at} of the script");
}

/// Tells on standard error how the program is called.
fn tell_usage(rt: &HostRuntime) {
    for line in USAGE {
        let _ = eprintln!(rt; "{line}");
    }
}

/// Tells on standard error how the program ends, where it is not well. Of the script the bytes that were
/// kept are given, if any.
pub(crate) fn tell_status(rt: &HostRuntime, status: &Status, script: Option<&[u8]>) {
    match status {
        Status::NoMaster { faults } => tell_faults(rt, faults),
        Status::BadScript { at } => tell_place(rt, script, *at),
        Status::BadWords => tell_usage(rt),
        Status::FilesFault { path } => {
            let path = path.as_str();
            let _ = eprintln!(rt; "mud: the files failed at {path}");
        }
        _ => {}
    }
    tell_number(rt, code(status));
}

/// Tells on standard error the number with which the program ends, where it is not 0.
pub(crate) fn tell_number(rt: &HostRuntime, number: u8) {
    if number != 0 {
        let _ = eprintln!(rt; "mud: status {number}");
    }
}

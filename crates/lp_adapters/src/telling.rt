//! What is told on standard error of the beginning of a served run.
use crate::opening::{OpenFault, Places};
use std::io::ErrorKind;

/// Tells that players and the operator can connect now. Nothing is told where that cannot be written.
pub fn tell_listening<R: Eprint>(rt: &R, places: Places<'_>) {
    let port = places.port;
    let control = places.control;
    let ws = places.ws;
    if ws == 0 {
        let _ = eprintln!(rt; "mud: listening on 127.0.0.1:{port}, control on 127.0.0.1:{control}");
    } else {
        let _ = eprintln!(rt;
            "mud: listening on 127.0.0.1:{port}, control on 127.0.0.1:{control}, browsers on 127.0.0.1:{ws}"
        );
    }
}

// Tells that a file or a folder cannot be opened.
fn tell_name<R: Eprint>(rt: &R, what: &str, name: &str, kind: ErrorKind) {
    let _ = eprintln!(rt; "mud: cannot open {what} {name}: {kind}");
}

/// Tells why a served run cannot begin.
pub fn tell_fault<R: Eprint>(rt: &R, places: Places<'_>, fault: &OpenFault) {
    match fault {
        OpenFault::Folder(kind) => tell_name(rt, "the folder", places.folder, *kind),
        OpenFault::Record(kind) => tell_name(
            rt,
            "the record",
            places.record_file.unwrap_or(""),
            *kind,
        ),
        OpenFault::Wire(fault) => {
            let _ = eprintln!(rt; "mud: {fault}");
        }
        OpenFault::NoMemory => {}
    }
}

/// Tells that a served run has ended.
pub fn tell_ended<R: Eprint>(rt: &R) {
    let _ = eprintln!(rt; "mud: ended");
}

//! Opening all that a served run stands on.
ghost use Rattle.std.specs.Prelude.{ℕ, Bool, IfErr, is_some};
ghost use Rattle.lp_mio_wire.specs.Faults.{Names};
ghost use Rattle.lp_adapters.specs.Faults.{IsFaultOf};

use crate::target::Target;
use lp_folder_files::FolderFiles;
use lp_io::StdSink;
use lp_mio_wire::{ListenFault, MioWire};
use lp_wsdoor::DoorWire;
use std::io::{ErrorKind, LineWriter, Write};
use std::net::Net;
use std::rt::Files as FileSystem;
use std::time::Clock;
use std::{fs, io};

/// What the words of a command name.
#[derive(Debug, Clone, Copy)]
pub struct Places<'a> {
    /// The folder of the mudlib.
    pub folder: &'a str,
    /// The file of the record; without one the log goes to the standard output.
    pub record_file: Option<&'a str>,
    /// The port of the players.
    pub port: u16,
    /// The port of the operator.
    pub control: u16,
    /// The port of players in a browser, or 0 where there is none.
    pub ws: u16,
}

/// Why a served run cannot begin.
#[derive(Debug, Drop)]
pub enum OpenFault {
    /// The folder cannot be opened.
    Folder(ErrorKind),
    /// Nobody can connect.
    Wire(ListenFault),
    /// The file of the record cannot be made.
    Record(ErrorKind),
    /// There was no memory.
    NoMemory,
}

/// All that a served run stands on. What is written goes on at the end of each line, so that a record holds what was written before the
/// program stopped, in whatever way.
#[derive(Drop)]
pub struct Opened<R: FileSystem, O: Write + Drop> {
    /// The files of the mudlib.
    pub files: FolderFiles<R>,
    /// The connections and the clock.
    pub wire: DoorWire<MioWire<R>>,
    /// Where the record or the log goes.
    pub out: StdSink<LineWriter<Target<R::File, O>>>,
}

// Opens where the record or the log goes. A record is made empty.
fn open_target<R: FileSystem, O>(
    rt: &R,
    record_file: Option<&str>,
    stdout: O,
) -> Result<Target<R::File, O>, OpenFault>
where
    O: Drop,
    ensures { IfErr result (λ fault. (port : ℕ) (control : ℕ) (ws : ℕ) → IsFaultOf port control ws (is_some record_file.entry) fault) }
{
    let name = match record_file {
        Some(name) => name,
        None => return Ok(Target::Out(stdout)),
    };
    match fs::create(rt, name) {
        Ok(file) => Ok(Target::File(file)),
        Err(e) if e.kind() == ErrorKind::OutOfMemory => Err(OpenFault::NoMemory),
        Err(e) => Err(OpenFault::Record(e.kind())),
    }
}

// Opens the sink into the record or the log.
fn open_sink<R: FileSystem + AllocGlobal, O: Write + Drop>(
    rt: &R,
    record_file: Option<&str>,
    stdout: O,
) -> Result<StdSink<LineWriter<Target<R::File, O>>>, OpenFault>
    ensures { IfErr result (λ fault. (port : ℕ) (control : ℕ) (ws : ℕ) → IsFaultOf port control ws (is_some record_file.entry) fault) }
{
    let target = open_target(rt, record_file, stdout)?;
    match LineWriter::new(rt.alloc(), target) {
        Ok(writer) => Ok(StdSink::new(writer)),
        Err(_) => Err(OpenFault::NoMemory),
    }
}

// Opens the folder.
fn open_folder<R: FileSystem + AllocGlobal + Clone + Drop>(
    rt: &R,
    folder: &str,
) -> Result<FolderFiles<R>, OpenFault>
    ensures { IfErr result (λ fault. (port : ℕ) (control : ℕ) (ws : ℕ) (records : Bool) → IsFaultOf port control ws records fault) }
{
    let own = match rt.clone() {
        Ok(own) => own,
        Err(_) => return Err(OpenFault::NoMemory),
    };
    match FolderFiles::open(own, folder) {
        Ok(files) => Ok(files),
        Err(e) if e.kind() == ErrorKind::OutOfMemory => Err(OpenFault::NoMemory),
        Err(e) => Err(OpenFault::Folder(e.kind())),
    }
}

// Opens the connections.
fn open_wire<R: AllocGlobal + Net + Clock + Clone + Drop>(
    rt: &R,
    port: u16,
    control: u16,
    ws: u16,
) -> Result<DoorWire<MioWire<R>>, ListenFault>
    ensures { IfErr result (Names port control ws) }
{
    let own = match rt.clone() {
        Ok(own) => own,
        Err(_) => return Err(ListenFault::NoMemory),
    };
    match MioWire::listen(own, rt.alloc(), port, control, ws) {
        Ok(wire) => Ok(DoorWire::new(rt.alloc(), wire)),
        Err(fault) => Err(fault),
    }
}

// A fault of the connections as one of the whole.
fn wire_fault(fault: ListenFault) -> OpenFault
    ensures { (port : ℕ) (control : ℕ) (ws : ℕ) (records : Bool) → Names port control ws fault → IsFaultOf port control ws records result }
{
    match fault {
        ListenFault::Port { port, kind } => OpenFault::Wire(ListenFault::Port { port, kind }),
        ListenFault::System(kind) => OpenFault::Wire(ListenFault::System(kind)),
        ListenFault::NoMemory => OpenFault::NoMemory,
    }
}

/// Opens all that a served run stands on: the folder first, then the ports, and the file of the record last, so that an old record is not
/// lost where nothing can be served.
pub fn open<R: FileSystem + AllocGlobal + Net + Clock + Clone + Drop, O: Write + Drop>(
    rt: &R,
    places: Places<'_>,
    stdout: O,
) -> Result<Opened<R, O>, OpenFault>
    ensures names { IfErr result (IsFaultOf places.entry.port places.entry.control places.entry.ws (is_some places.entry.record_file)) }
{
    let files = match open_folder(rt, places.folder) {
        Ok(files) => files,
        Err(fault) => return Err(fault),
    };
    let wire = match open_wire(rt, places.port, places.control, places.ws) {
        Ok(wire) => wire,
        Err(fault) => {
            drop(files);
            return Err(wire_fault(fault));
        }
    };
    match open_sink(rt, places.record_file, stdout) {
        Ok(out) => Ok(Opened { files, wire, out }),
        Err(fault) => Err(fault),
    }
}

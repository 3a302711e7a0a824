//! A wire and a folder as a case spells them.
//!
//! A wire: `moment T`, at which it begins; `fail N,N`, the numbers of its polls that fail; `takes K N,N`, the bounds of a connection's sends,
//! one after another, of which the last holds for all that follow; and then what it gives, in order: `accept K`, `lost K`, `tick T`, `idle`,
//! and `piece K BYTES` with the bytes and a line feed behind it.
//!
//! A folder: `fail N,N`, the numbers of its calls that fail; `file PATH BYTES` with the bytes and a line feed behind it; and
//! `edit N PATH BYTES` with the same, a file that others put in just before the call with that number.
//!
//! Numbers of calls are counted from 1. A line that is none of these is `Malformed`.
ghost use Rattle.std.specs.Prelude.{◌^◌, ◌≤◌};

use crate::bounds::Bounds;
use crate::folder::{Edit, TestFolder};
use crate::pieces::{line, piece};
use crate::wire::TestWire;
use lp_events::octets::Octets;
use lp_folder::MemFiles;
use lp_wire::{Happening, MemWire};
use std::alloc::{AllocError, AllocFailed, Global};

/// Why no device was made.
#[derive(Drop)]
pub enum Unspelled {
    /// It is not spelled as it should be.
    Malformed,
    /// There was no memory.
    NoMemory,
}

impl From<AllocError> for Unspelled {
    fn from(_: AllocError) -> Unspelled {
        Unspelled::NoMemory
    }
}

impl<T: Drop> From<AllocFailed<T>> for Unspelled {
    fn from(_: AllocFailed<T>) -> Unspelled {
        Unspelled::NoMemory
    }
}

/// The latest moment at which a wire begins.
const LATEST: u64 = 1_000_000_000_000;

/// A line that says something of a wire.
#[derive(Clone, Copy)]
enum OfWire<'a> {
    Moment(u64),
    Fail(&'a str),
    Takes(u32, &'a str),
    Accept(u32),
    Lost(u32),
    Tick(u64),
    Idle,
    Piece(u32, usize),
}

/// A line that says something of a folder.
#[derive(Clone, Copy)]
enum OfFolder<'a> {
    Fail(&'a str),
    File(&'a str, usize),
    Edit(u64, &'a str, usize),
}

/// What a wire is made of.
#[derive(Drop)]
struct WireParts {
    moment: u64,
    fail: Vec<u64>,
    bounds: Bounds,
    happenings: Vec<Happening>,
}

/// What a folder is made of.
#[derive(Drop)]
struct FolderParts {
    fail: Vec<u64>,
    files: Vec<Edit>,
    edits: Vec<Edit>,
}

/// Numbers with commas between them, or `-` for none.
pub fn numbers(alloc: Global, field: &str) -> Result<Vec<u64>, Unspelled> {
    let mut all = Vec::new(alloc);
    if field == "-" {
        return Ok(all);
    }
    for word in field.split(',') {
        match word.parse::<u64>() {
            Ok(number) => all.push(number)?,
            Err(_) => return Err(Unspelled::Malformed),
        }
    }
    Ok(all)
}

// The number of a connection.
fn connection(word: Option<&str>) -> Option<u32> {
    word?.parse::<u32>().ok()
}

// A number.
fn number(word: Option<&str>) -> Option<u64> {
    word?.parse::<u64>().ok()
}

// A count of bytes.
fn count(word: Option<&str>) -> Option<usize> {
    word?.parse::<usize>().ok()
}

// What a line says of a wire.
fn of_wire(text: &str) -> Option<OfWire<'_>> {
    let mut words = text.split(' ');
    match words.next()? {
        "moment" => Some(OfWire::Moment(number(words.next())?)),
        "fail" => Some(OfWire::Fail(words.next()?)),
        "takes" => {
            let k = connection(words.next())?;
            Some(OfWire::Takes(k, words.next()?))
        }
        "accept" => Some(OfWire::Accept(connection(words.next())?)),
        "lost" => Some(OfWire::Lost(connection(words.next())?)),
        "tick" => Some(OfWire::Tick(number(words.next())?)),
        "idle" => Some(OfWire::Idle),
        "piece" => {
            let k = connection(words.next())?;
            Some(OfWire::Piece(k, count(words.next())?))
        }
        _ => None,
    }
}

// What a line says of a folder.
fn of_folder(text: &str) -> Option<OfFolder<'_>> {
    let mut words = text.split(' ');
    match words.next()? {
        "fail" => Some(OfFolder::Fail(words.next()?)),
        "file" => {
            let path = words.next()?;
            Some(OfFolder::File(path, count(words.next())?))
        }
        "edit" => {
            let call = number(words.next())?;
            let path = words.next()?;
            Some(OfFolder::Edit(call, path, count(words.next())?))
        }
        _ => None,
    }
}

// The bytes that follow a line, and what stands behind them.
fn bytes_of(rest: &[u8], len: usize) -> Result<(&[u8], &[u8]), Unspelled> {
    match piece(rest, len) {
        Some(found) => Ok(found),
        None => Err(Unspelled::Malformed),
    }
}

impl WireParts {
    fn new(alloc: Global) -> WireParts {
        WireParts {
            moment: 0,
            fail: Vec::new(alloc),
            bounds: Bounds::new(alloc),
            happenings: Vec::new(alloc),
        }
    }

    // A piece of a connection's stream, and what stands behind it.
    fn take_piece<'a>(
        &mut self,
        alloc: Global,
        k: u32,
        len: usize,
        rest: &'a [u8],
    ) -> Result<&'a [u8], Unspelled> {
        let (bytes, behind) = bytes_of(rest, len)?;
        let octets = Octets::from_slice(alloc, bytes)?;
        self.happenings.push(Happening::Piece(k, octets))?;
        Ok(behind)
    }

    // What a line says, and what stands behind what belongs to it.
    fn take<'a>(
        &mut self,
        alloc: Global,
        said: OfWire<'_>,
        rest: &'a [u8],
    ) -> Result<&'a [u8], Unspelled> {
        match said {
            OfWire::Moment(moment) => self.moment = moment,
            OfWire::Fail(field) => self.fail = numbers(alloc, field)?,
            OfWire::Takes(k, field) => self.bounds.bound(k, numbers(alloc, field)?)?,
            OfWire::Accept(k) => self.happenings.push(Happening::Accept(k))?,
            OfWire::Lost(k) => self.happenings.push(Happening::Lost(k))?,
            OfWire::Tick(moment) => self.happenings.push(Happening::Tick(moment))?,
            OfWire::Idle => self.happenings.push(Happening::Idle)?,
            OfWire::Piece(k, len) => return self.take_piece(alloc, k, len, rest),
        }
        Ok(rest)
    }

    // What the next line says, and what stands behind what belongs to it.
    fn take_line<'a>(&mut self, alloc: Global, bytes: &'a [u8]) -> Result<&'a [u8], Unspelled> {
        match line(bytes) {
            Some((first, rest)) => match str::from_utf8(first) {
                Ok(text) => match of_wire(text) {
                    Some(said) => self.take(alloc, said, rest),
                    None => Err(Unspelled::Malformed),
                },
                Err(_) => Err(Unspelled::Malformed),
            },
            None => Err(Unspelled::Malformed),
        }
    }

    // What all lines say.
    fn take_all(&mut self, alloc: Global, bytes: &[u8]) -> Result<(), Unspelled> {
        let mut rest = bytes;
        for _ in 0..bytes.len() {
            if rest.is_empty() {
                return Ok(());
            }
            rest = self.take_line(alloc, rest)?;
        }
        Ok(())
    }

    // The wire.
    fn made(self, alloc: Global) -> TestWire {
        let moment = self.moment.min(LATEST);
        let memory = MemWire::new(alloc, moment, self.happenings, self.fail, Vec::new(alloc));
        TestWire::new(memory, self.bounds)
    }
}

/// The wire that a text spells. A moment past 10^12 is that moment.
pub fn wire_of(alloc: Global, text: &[u8]) -> Result<TestWire, Unspelled> {
    let mut parts = WireParts::new(alloc);
    match parts.take_all(alloc, text) {
        Ok(()) => Ok(parts.made(alloc)),
        Err(e) => {
            drop(parts);
            Err(e)
        }
    }
}

// A file that is put in before a call.
fn edit_of(alloc: Global, call: u64, path: &str, bytes: &[u8]) -> Result<Edit, AllocError> {
    let path = String::from_str(alloc, path)?;
    let bytes = bytes.to_vec(alloc)?;
    Ok(Edit { call, path, bytes })
}

impl FolderParts {
    fn new(alloc: Global) -> FolderParts {
        FolderParts {
            fail: Vec::new(alloc),
            files: Vec::new(alloc),
            edits: Vec::new(alloc),
        }
    }

    // What a line says, and what stands behind what belongs to it.
    fn take<'a>(
        &mut self,
        alloc: Global,
        said: OfFolder<'_>,
        rest: &'a [u8],
    ) -> Result<&'a [u8], Unspelled> {
        match said {
            OfFolder::Fail(field) => {
                self.fail = numbers(alloc, field)?;
                Ok(rest)
            }
            OfFolder::File(path, len) => {
                let (bytes, behind) = bytes_of(rest, len)?;
                self.files.push(edit_of(alloc, 0, path, bytes)?)?;
                Ok(behind)
            }
            OfFolder::Edit(call, path, len) => {
                let (bytes, behind) = bytes_of(rest, len)?;
                self.edits.push(edit_of(alloc, call, path, bytes)?)?;
                Ok(behind)
            }
        }
    }

    // What the next line says, and what stands behind what belongs to it.
    fn take_line<'a>(&mut self, alloc: Global, bytes: &'a [u8]) -> Result<&'a [u8], Unspelled> {
        match line(bytes) {
            Some((first, rest)) => match str::from_utf8(first) {
                Ok(text) => match of_folder(text) {
                    Some(said) => self.take(alloc, said, rest),
                    None => Err(Unspelled::Malformed),
                },
                Err(_) => Err(Unspelled::Malformed),
            },
            None => Err(Unspelled::Malformed),
        }
    }

    // What all lines say.
    fn take_all(&mut self, alloc: Global, bytes: &[u8]) -> Result<(), Unspelled> {
        let mut rest = bytes;
        for _ in 0..bytes.len() {
            if rest.is_empty() {
                return Ok(());
            }
            rest = self.take_line(alloc, rest)?;
        }
        Ok(())
    }

    // The folder.
    fn made(self, alloc: Global) -> Result<TestFolder, Unspelled> {
        let failing = self.fail.len();
        let mut memory = MemFiles::new(alloc, self.fail);
        let put = put_all(&mut memory, self.files.as_slice());
        drop(self.files);
        match put {
            Ok(()) => Ok(TestFolder::new(memory, failing, self.edits)),
            Err(_) => {
                drop(memory);
                drop(self.edits);
                Err(Unspelled::NoMemory)
            }
        }
    }
}

// Puts files into a folder.
fn put_all(memory: &mut MemFiles, files: &[Edit]) -> Result<(), AllocError> {
    for file in files {
        memory.put(file.path.as_str(), file.bytes.as_slice())?;
    }
    Ok(())
}

/// The folder that a text spells.
pub fn folder_of(alloc: Global, text: &[u8]) -> Result<TestFolder, Unspelled> {
    let mut parts = FolderParts::new(alloc);
    match parts.take_all(alloc, text) {
        Ok(()) => parts.made(alloc),
        Err(e) => {
            drop(parts);
            Err(e)
        }
    }
}

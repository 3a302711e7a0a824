//! A folder as files of a server.
ghost use Rattle.std.specs.Prelude.{◌≡◌, ◌≤◌, None, Ok, IfOk};
ghost use Rattle.lp_io.specs.Counts.{Counts};
ghost use Rattle.lp_folder.specs.Held.{is_failed};

use crate::found::{Found, found_at, has_way, name_below};
use crate::listing::list_all;
use crate::loading::load_each;
use lp_events::octets::Octets;
use lp_folder::outside::{Files, FilesError, Loaded};
use lp_words::path::is_path;
use std::fs::{OpenFile, OpenOptions};
use std::io::{ErrorKind, Write};
use std::rt::Files as FileSystem;
use std::{fs, io};

/// What is put behind the name of a file while it is written. No path of a script has it.
const UNFINISHED: &str = "~mud";

/// A folder of the system and all that lies in it, by a runtime. It tells nothing. Links are not followed, so nothing outside is read or
/// written: a path that leads through one has no file.
#[derive(Drop)]
pub struct FolderFiles<R> {
    rt: R,
    root: String,
    last: Option<ErrorKind>,
    faults: u64,
}

impl<R: FileSystem + AllocGlobal> FolderFiles<R> {
    /// The files of a folder, which has to be there; its own name may be a link.
    pub fn open(rt: R, root: &str) -> io::Result<FolderFiles<R>>
    where
        R: Drop,
        ensures faults { IfOk result (λ files. files.faults ≡ 0) }
        ensures last { IfOk result (λ files. files.last ≡ None) }
    {
        if !fs::metadata(&rt, root)?.is_dir() {
            return Err(io::Error::from(ErrorKind::NotADirectory));
        }
        let root = String::from_str(rt.alloc(), root)?;
        Ok(FolderFiles {
            rt,
            root,
            last: None,
            faults: 0,
        })
    }

    /// What the system said at the latest fault.
    pub fn last_fault(&self) -> Option<ErrorKind>
        ensures { result ≡ self.now.last }
    {
        self.last
    }

    // The bytes of a file.
    fn bytes_at(&self, path: &str) -> io::Result<Octets> {
        let alloc = self.rt.alloc();
        let root = self.root.as_str();
        let name = name_below(alloc, root, path, "")?;
        if !has_way(&self.rt, alloc, root, path, false)? {
            return Err(io::Error::from(ErrorKind::NotFound));
        }
        match found_at(&self.rt, name.as_str())? {
            Found::File => Ok(Octets::from_vec(fs::read(&self.rt, name.as_str())?)),
            Found::Nothing => Err(io::Error::from(ErrorKind::NotFound)),
            Found::Folder | Found::Other => Err(io::Error::from(ErrorKind::InvalidInput)),
        }
    }

    // Writes a file beside another name and renames it: whenever the program or the machine stops, the old file is there or the new one.
    fn put(&self, path: &str, bytes: &[u8]) -> io::Result<()> {
        let alloc = self.rt.alloc();
        let root = self.root.as_str();
        let name = name_below(alloc, root, path, "")?;
        let unfinished = name_below(alloc, root, path, UNFINISHED)?;
        has_way(&self.rt, alloc, root, path, true)?;
        match found_at(&self.rt, name.as_str())? {
            Found::Nothing | Found::File => {}
            Found::Folder | Found::Other => return Err(io::Error::from(ErrorKind::InvalidInput)),
        }
        write_new(&self.rt, unfinished.as_str(), bytes)?;
        fs::rename(&self.rt, unfinished.as_str(), name.as_str())
    }

    // Removes a file, if it is there.
    fn take_out(&self, path: &str) -> io::Result<()> {
        let alloc = self.rt.alloc();
        let root = self.root.as_str();
        let name = name_below(alloc, root, path, "")?;
        if !has_way(&self.rt, alloc, root, path, false)? {
            return Ok(());
        }
        match found_at(&self.rt, name.as_str())? {
            Found::Nothing => Ok(()),
            Found::File => fs::remove_file(&self.rt, name.as_str()),
            Found::Folder | Found::Other => Err(io::Error::from(ErrorKind::InvalidInput)),
        }
    }
}

impl<R> FolderFiles<R> {
    // How a call ends: a want of memory is no fault, every other error is one and counted.
    fn ended<T>(&mut self, outcome: io::Result<T>) -> Result<T, FilesError>
        ensures ok { IfOk result (λ value. outcome ≡ Ok value) }
        ensures faults { Counts (is_failed result) self.old.faults self.new.faults }
        ensures no_fall { self.old.faults ≤ self.new.faults }
    {
        match outcome {
            Ok(value) => Ok(value),
            Err(e) if e.kind() == ErrorKind::OutOfMemory => Err(FilesError::NoMemory),
            Err(e) => {
                self.last = Some(e.kind());
                self.faults = self.faults.saturating_add(1);
                Err(FilesError::Failed)
            }
        }
    }
}

// Writes a file that is not there, and has it put on the disk. What an earlier run left there goes first.
fn write_new<R: FileSystem>(rt: &R, name: &str, bytes: &[u8]) -> io::Result<()> {
    match fs::remove_file(rt, name) {
        Ok(()) => {}
        Err(e) if e.kind() == ErrorKind::NotFound => {}
        Err(e) => return Err(e),
    }
    let mut file = OpenOptions::new()
        .write(true)
        .create_new(true)
        .open(rt, name)?;
    file.write_all(bytes)?;
    file.sync_all()
}

// The answer for what is no path of a script.
fn no_path<T>() -> io::Result<T> {
    Err(io::Error::from(ErrorKind::InvalidFilename))
}

impl<R: FileSystem + AllocGlobal + Clone + Drop> Files for FolderFiles<R> {
    ghost faults = { λ f. f.faults };

    ghost held = { λ _. None };

    /// Reads all files, those of the folders in it too, of those whose names are paths of a script.
    fn load_all(&mut self) -> Result<Vec<Loaded>, FilesError> {
        let root = self.root.as_str();
        let loaded = match list_all(&self.rt, root) {
            Ok(paths) => load_each(&self.rt, root, &paths),
            Err(e) => Err(e),
        };
        self.ended(loaded)
    }

    /// Reads a file.
    fn read(&mut self, path: &str) -> Result<Octets, FilesError> {
        let bytes = if is_path(path.as_bytes()) {
            self.bytes_at(path)
        } else {
            no_path()
        };
        self.ended(bytes)
    }

    /// Writes a file under another name beside it, has it put on the disk, and renames it, so that a file is never cut off. Folders are
    /// made where they are wanted.
    fn write(&mut self, path: &str, bytes: &[u8]) -> Result<(), FilesError> {
        let outcome = if is_path(path.as_bytes()) {
            self.put(path, bytes)
        } else {
            no_path()
        };
        self.ended(outcome)
    }

    /// Removes a file. One that is not there is removed already.
    fn remove(&mut self, path: &str) -> Result<(), FilesError> {
        let outcome = if is_path(path.as_bytes()) {
            self.take_out(path)
        } else {
            no_path()
        };
        self.ended(outcome)
    }
}

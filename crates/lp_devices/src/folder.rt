//! A folder in memory, whose files others may change.
ghost use Rattle.std.specs.Prelude.{◌≡◌, Some, None, true, if◌then◌else◌};
ghost use Rattle.lp_folder.specs.Memory.{calls_of, held_of};

use lp_events::octets::Octets;
use lp_folder::{Files, FilesError, Loaded, MemFiles};
use std::alloc::{AllocError, Global};

/// A file that others put into the folder just before the call with this number, from 1.
#[derive(Drop)]
pub struct Edit {
    pub call: u64,
    pub path: String,
    pub bytes: Vec<u8>,
}

/// Files in memory that others may change. Where nobody does they are `MemFiles`, and tell what they hold; else they tell nothing, as a
/// folder.
#[derive(Drop)]
pub struct TestFolder {
    memory: MemFiles,
    failing: usize,
    edits: Vec<Edit>,
    calls: u64,
    tells: bool,
}

// Adds a block of a file.
fn put_file(alloc: Global, text: &mut Vec<u8>, file: &Loaded) -> Result<(), AllocError> {
    let path = file.path.as_str();
    let bytes = file.bytes.as_slice();
    let len = bytes.len();
    let head = format!(in alloc; "file {path} {len}\n")?;
    text.extend_from_slice(head.as_str().as_bytes())?;
    text.extend_from_slice(bytes)?;
    text.push(b'\n')?;
    Ok(())
}

// A block for each file.
fn put_files(alloc: Global, text: &mut Vec<u8>, files: &[Loaded]) -> Result<(), AllocError> {
    for file in files {
        put_file(alloc, text, file)?;
    }
    Ok(())
}

// Puts in the files that others put in before this call.
fn put_edits(memory: &mut MemFiles, edits: &[Edit], call: u64) -> Result<(), AllocError>
    ensures { calls_of memory.new ≡ calls_of memory.old }
{
    for edit in edits {
        if edit.call == call {
            memory.put(edit.path.as_str(), edit.bytes.as_slice())?;
        }
    }
    Ok(())
}

impl TestFolder {
    /// A folder over files in memory of whose calls so many at most fail, with these edits.
    pub fn new(memory: MemFiles, failing: usize, edits: Vec<Edit>) -> TestFolder {
        let tells = edits.is_empty();
        TestFolder {
            memory,
            failing,
            edits,
            calls: 0,
            tells,
        }
    }

    // What others do before the next call is done.
    fn begin_call(&mut self) -> Result<(), AllocError>
        ensures tells { self.new.tells ≡ self.old.tells }
        ensures same { self.old.tells ≡ true → self.new.memory ≡ self.old.memory }
        ensures calls { calls_of self.new.memory ≡ calls_of self.old.memory }
    {
        if self.tells {
            return Ok(());
        }
        self.calls = self.calls.saturating_add(1);
        put_edits(&mut self.memory, self.edits.as_slice(), self.calls)
    }

    // All files, though some calls are listed as failing.
    fn all(&mut self) -> Result<Vec<Loaded>, AllocError> {
        for _ in 0..self.failing {
            match self.memory.load_all() {
                Ok(files) => return Ok(files),
                Err(FilesError::NoMemory) => return Err(AllocError),
                Err(FilesError::Failed) => {}
            }
        }
        match self.memory.load_all() {
            Ok(files) => Ok(files),
            Err(_) => Err(AllocError),
        }
    }

    /// What the folder holds: by rising path `file PATH BYTES` and the bytes of each file whose path may stand in a script. Whether a call
    /// fails that is made behind this one is not said any more.
    pub fn held(&mut self, alloc: Global) -> Result<Vec<u8>, AllocError> {
        match self.all() {
            Ok(files) => {
                let mut text = Vec::new(alloc);
                let put = put_files(alloc, &mut text, files.as_slice());
                drop(files);
                match put {
                    Ok(()) => Ok(text),
                    Err(e) => {
                        drop(text);
                        Err(e)
                    }
                }
            }
            Err(e) => Err(e),
        }
    }
}

impl Files for TestFolder {
    ghost faults = { λ f. (calls_of f.memory).failed };

    ghost held = { λ f. if f.tells then Some (held_of f.memory) else None };

    fn load_all(&mut self) -> Result<Vec<Loaded>, FilesError> {
        match self.begin_call() {
            Ok(()) => self.memory.load_all(),
            Err(_) => Err(FilesError::NoMemory),
        }
    }

    fn read(&mut self, path: &str) -> Result<Octets, FilesError> {
        match self.begin_call() {
            Ok(()) => self.memory.read(path),
            Err(_) => Err(FilesError::NoMemory),
        }
    }

    fn write(&mut self, path: &str, bytes: &[u8]) -> Result<(), FilesError> {
        match self.begin_call() {
            Ok(()) => self.memory.write(path, bytes),
            Err(_) => Err(FilesError::NoMemory),
        }
    }

    fn remove(&mut self, path: &str) -> Result<(), FilesError> {
        match self.begin_call() {
            Ok(()) => self.memory.remove(path),
            Err(_) => Err(FilesError::NoMemory),
        }
    }
}

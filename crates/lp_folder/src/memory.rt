//! Files in memory, whose calls fail as they are told.
ghost use Rattle.std.specs.Prelude.{◌≡◌, ◌≤◌, ◌||◌, ℕ, List, Some, None, IfOk, OnErr, OnOk, if◌then◌else◌, not, is_some};
ghost use Rattle.std.specs.Option.{option_map};
ghost use Rattle.std.specs.Str.{bytes_eq};
ghost use Rattle.lp_io.specs.Counts.{Counts, one_more};
ghost use Rattle.lp_io.specs.Memory.{after_call, after_failure, next_is_listed};
ghost use Rattle.lp_folder.specs.Held.{ArePaths, Held, HoldsAll, HoldsBut, HoldsWith, is_failed};
ghost use Rattle.lp_folder.specs.Memory.{calls_of, counted, held_of};

use crate::outside::{Files, FilesError, Loaded};
use lp_events::octets::Octets;
use lp_tree::path::FilePath;
use lp_words::path::is_path;
use std::alloc::{AllocError, Global};
use std::collections::BTreeMap;

/// Files in memory. They tell what they hold.
#[derive(Drop)]
pub struct MemFiles {
    alloc: Global,
    files: BTreeMap<String, Vec<u8>>,
    fail: Vec<u64>,
    calls: u64,
    faults: u64,
}

// A copy of a file.
fn copy_of(alloc: Global, path: &str, bytes: &[u8]) -> Result<Loaded, AllocError>
    ensures path { IfOk result (λ file. file.path ≡ path.now) }
    ensures bytes { IfOk result (λ file. file.bytes ≡ bytes.now) }
{
    let bytes = Octets::from_slice(alloc, bytes)?;
    let path = FilePath::from_str(alloc, path)?;
    Ok(Loaded { path, bytes })
}

impl MemFiles {
    /// No files; the calls of `Files` with the numbers in `fail`, from 1, fail. Takes no memory.
    pub fn new(alloc: Global, fail: Vec<u64>) -> MemFiles
        ensures calls { calls_of result ≡ record { listed = fail.items; made = 0; failed = 0 } }
        ensures none { (q : List ℕ) → held_of result q ≡ None }
    {
        MemFiles {
            alloc,
            files: BTreeMap::new(alloc),
            fail,
            calls: 0,
            faults: 0,
        }
    }

    /// Puts a file in, whether it is there or not. This is no call of `Files`. Where memory is wanting nothing changes.
    pub fn put(&mut self, path: &str, bytes: &[u8]) -> Result<(), AllocError>
        ensures ok { OnOk result ((q : List ℕ) → held_of self.new q ≡ (if bytes_eq path.now q then Some bytes.now else held_of self.old q)) }
        ensures err { OnErr result ((q : List ℕ) → held_of self.new q ≡ held_of self.old q) }
        ensures calls { calls_of self.new ≡ calls_of self.old }
    {
        let content = Vec::from_slice(self.alloc, bytes)?;
        let own = String::from_str(self.alloc, path)?;
        match self.files.insert(own, content) {
            Ok(_) => Ok(()),
            Err(_) => Err(AllocError),
        }
    }

    // Takes a file out, if it is there.
    fn take(&mut self, path: &str)
        ensures files { (q : List ℕ) → held_of self.new q ≡ (if bytes_eq path.now q then None else held_of self.old q) }
        ensures calls { calls_of self.new ≡ calls_of self.old }
    {
        self.files.remove(path);
    }

    /// The bytes of a file. This is no call of `Files`. Takes no memory.
    pub fn get(&self, path: &str) -> Option<&[u8]>
        ensures { option_map (λ bytes. bytes.now) result ≡ held_of self.now path.now }
    {
        match self.files.get(path) {
            Some(bytes) => Some(bytes.as_slice()),
            None => None,
        }
    }

    /// How many calls of `Files` failed; the count stands still at `u64::MAX`.
    pub fn faults(&self) -> u64
        ensures { result ≡ (calls_of self.now).failed }
    {
        self.faults
    }

    // Counts one more call, and answers whether it fails by the list. If so it counts as failed.
    fn next_fails(&mut self) -> bool
        ensures value { result ≡ next_is_listed (calls_of self.old) }
        ensures after { calls_of self.new ≡ (if result then after_failure (calls_of self.old) else after_call (calls_of self.old)) }
        ensures no_fall { (calls_of self.old).failed ≤ (calls_of self.new).failed }
        ensures files { self.new.files ≡ self.old.files }
    {
        self.calls = self.calls.saturating_add(1);
        let fails = self.fail.contains(&self.calls);
        if fails {
            self.faults = self.faults.saturating_add(1);
        }
        fails
    }

    // Counts the call that was counted last as failed.
    fn fail(&mut self)
        ensures after { calls_of self.new ≡ record (calls_of self.old) { failed = one_more (calls_of self.old).failed } }
        ensures no_fall { (calls_of self.old).failed ≤ (calls_of self.new).failed }
        ensures files { self.new.files ≡ self.old.files }
    {
        self.faults = self.faults.saturating_add(1);
    }

    // Copies of all files whose paths are paths of a script, by rising path.
    fn all(&self) -> Result<Vec<Loaded>, AllocError>
        ensures all { IfOk result (λ files. HoldsAll files.items (Some (held_of self.now))) }
        ensures paths { IfOk result (λ files. ArePaths files.items) }
    {
        let mut files = Vec::new(self.alloc);
        for (path, bytes) in self.files.iter() {
            if is_path(path.as_str().as_bytes()) {
                files.push(copy_of(self.alloc, path.as_str(), bytes.as_slice())?)?;
            }
        }
        Ok(files)
    }
}

impl Files for MemFiles {
    ghost faults = { λ f. (calls_of f).failed };

    ghost held = { λ f. Some (held_of f) };

    /// All files whose paths are paths of a script. It fails exactly where the number of this call is listed.
    fn load_all(&mut self) -> Result<Vec<Loaded>, FilesError>
        ensures all { IfOk result (λ files. HoldsAll files.items (Some (held_of self.old))) }
        ensures paths { IfOk result (λ files. ArePaths files.items) }
        ensures kept { held_of self.new ≡ held_of self.old }
        ensures fails { is_failed result ≡ next_is_listed (calls_of self.old) }
        ensures calls { calls_of self.new ≡ counted (is_failed result) (calls_of self.old) }
        ensures faults { Counts (is_failed result) (calls_of self.old).failed (calls_of self.new).failed }
        ensures no_fall { (calls_of self.old).failed ≤ (calls_of self.new).failed }
    {
        if self.next_fails() {
            return Err(FilesError::Failed);
        }
        match self.all() {
            Ok(files) => Ok(files),
            Err(_) => Err(FilesError::NoMemory),
        }
    }

    /// The bytes of a file. It fails exactly where the number of this call is listed, or there is no such file.
    fn read(&mut self, path: &str) -> Result<Octets, FilesError>
        ensures bytes { IfOk result (λ bytes. held_of self.old path.now ≡ Some bytes) }
        ensures kept { held_of self.new ≡ held_of self.old }
        ensures fails { is_failed result ≡ (next_is_listed (calls_of self.old) || not (is_some (held_of self.old path.now))) }
        ensures calls { calls_of self.new ≡ counted (is_failed result) (calls_of self.old) }
        ensures faults { Counts (is_failed result) (calls_of self.old).failed (calls_of self.new).failed }
        ensures no_fall { (calls_of self.old).failed ≤ (calls_of self.new).failed }
    {
        if self.next_fails() {
            return Err(FilesError::Failed);
        }
        match self.files.get(path) {
            Some(bytes) => match Octets::from_slice(self.alloc, bytes.as_slice()) {
                Ok(bytes) => Ok(bytes),
                Err(_) => Err(FilesError::NoMemory),
            },
            None => {
                self.fail();
                Err(FilesError::Failed)
            }
        }
    }

    /// Writes a file. It fails exactly where the number of this call is listed; then, and where memory is wanting, the files are as they were.
    fn write(&mut self, path: &str, bytes: &[u8]) -> Result<(), FilesError>
        ensures ok { OnOk result (HoldsWith path.now (Some bytes.now) (Some (held_of self.old)) (Some (held_of self.new))) }
        ensures err { OnErr result ((q : List ℕ) → held_of self.new q ≡ held_of self.old q) }
        ensures fails { is_failed result ≡ next_is_listed (calls_of self.old) }
        ensures calls { calls_of self.new ≡ counted (is_failed result) (calls_of self.old) }
        ensures faults { Counts (is_failed result) (calls_of self.old).failed (calls_of self.new).failed }
        ensures no_fall { (calls_of self.old).failed ≤ (calls_of self.new).failed }
    {
        if self.next_fails() {
            return Err(FilesError::Failed);
        }
        match self.put(path, bytes) {
            Ok(()) => Ok(()),
            Err(_) => Err(FilesError::NoMemory),
        }
    }

    /// Removes a file, if it is there. It fails exactly where the number of this call is listed; then the files are as they were.
    fn remove(&mut self, path: &str) -> Result<(), FilesError>
        ensures ok { OnOk result (HoldsWith path.now None (Some (held_of self.old)) (Some (held_of self.new))) }
        ensures err { OnErr result ((q : List ℕ) → held_of self.new q ≡ held_of self.old q) }
        ensures fails { is_failed result ≡ next_is_listed (calls_of self.old) }
        ensures calls { calls_of self.new ≡ counted (is_failed result) (calls_of self.old) }
        ensures faults { Counts (is_failed result) (calls_of self.old).failed (calls_of self.new).failed }
        ensures no_fall { (calls_of self.old).failed ≤ (calls_of self.new).failed }
    {
        if self.next_fails() {
            return Err(FilesError::Failed);
        }
        self.take(path);
        Ok(())
    }
}

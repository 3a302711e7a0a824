//! The store of files.
ghost use Rattle.std.specs.Prelude.{◌≡◌, ◌++◌, IfOk, List, None, OnErr, OnOk, Some, [], is_some, map, string_bytes, ℕ, if◌then◌else◌};
ghost use Rattle.std.specs.Str.{bytes_eq};
ghost use Rattle.std.specs.Option.{option_map, unwrap_or};
ghost use Rattle.lp_files.specs.Paths.{IsRising, with_path, without_path};
ghost use Rattle.lp_files.specs.Store.{IsSame, IsWith, bytes_at, changed_in, file_at};

use crate::paths::Paths;
use std::alloc::{AllocError, Global};
use std::collections::BTreeMap;

/// Files by their paths, and the paths that were written or removed since someone last told that
/// they are kept.
#[derive(Drop)]
pub struct Store {
    alloc: Global,
    files: BTreeMap<String, Vec<u8>>,
    changed: Paths,
}

// Takes a path out again, if it was put in now.
fn take_back(changed: &mut Paths, path: &str, fresh: bool)
    ensures { changed.new ≡ (if fresh then without_path path.now changed.old else changed.old) }
{
    if fresh {
        changed.remove(path);
    }
}

// Bytes go behind those of a file, and whether it is there is told. Where memory is wanting it stays as it was.
fn extend_file(
    files: &mut BTreeMap<String, Vec<u8>>,
    path: &str,
    bytes: &[u8],
) -> Result<bool, AllocError>
    ensures there { IfOk result (λ b. b ≡ is_some (bytes_at files.old path.now)) }
    ensures extended { OnOk result ((q : List ℕ) → bytes_at files.new q ≡ (if bytes_eq path.now q then option_map (λ bs. bs ++ bytes.now) (bytes_at files.old q) else bytes_at files.old q)) }
    ensures same { OnErr result ((q : List ℕ) → bytes_at files.new q ≡ bytes_at files.old q) }
{
    match files.get_mut(path) {
        Some(content) => match content.extend_from_slice(bytes) {
            Ok(()) => Ok(true),
            Err(e) => Err(e),
        },
        None => Ok(false),
    }
}

impl Store {
    /// No files. Takes no memory.
    pub fn new(alloc: Global) -> Store
        ensures files { (q : List ℕ) → file_at result q ≡ None }
        ensures changed { changed_in result ≡ [] }
    {
        Store {
            alloc,
            files: BTreeMap::new(alloc),
            changed: Paths::new(alloc),
        }
    }

    /// The bytes of a file. Takes no memory, and time by the logarithm of how many files there are.
    pub fn read(&self, path: &str) -> Option<&[u8]>
        ensures { option_map (λ b. b.now) result ≡ file_at self.now path.now }
    {
        match self.files.get(path) {
            Some(bytes) => Some(bytes.as_slice()),
            None => None,
        }
    }

    /// The bytes of a file whose path is spelled by these bytes; there is none where they are no text.
    /// Takes no memory.
    pub fn read_bytes(&self, path: &[u8]) -> Option<&[u8]>
        ensures { option_map (λ b. b.now) result ≡ file_at self.now path.now }
    {
        match std::str::from_utf8(path) {
            Ok(path) => self.read(path),
            Err(_) => None,
        }
    }

    /// Writes a file, whether it was there or not, and puts its path on the changed list.
    pub fn write(&mut self, path: &str, bytes: &[u8]) -> Result<(), AllocError>
        ensures files { OnOk result (IsWith self.old self.new path.now (Some bytes.now)) }
        ensures changed { OnOk result (changed_in self.new ≡ with_path path.now (changed_in self.old)) }
        ensures err { OnErr result (IsSame self.old self.new) }
    {
        let alloc = self.alloc;
        let content = Vec::from_slice(alloc, bytes)?;
        let own = String::from_str(alloc, path)?;
        let fresh = self.changed.add(alloc, path)?;
        match self.files.insert(own, content) {
            Ok(_) => Ok(()),
            Err(_) => {
                take_back(&mut self.changed, path, fresh);
                Err(AllocError)
            }
        }
    }

    /// Puts bytes behind those of a file, which is made where it is not there, and puts its path on the changed list. Takes time for
    /// what is added: the bytes that are there are moved only when their room is used up, which then doubles.
    pub fn append(&mut self, path: &str, bytes: &[u8]) -> Result<(), AllocError>
        ensures files { OnOk result (IsWith self.old self.new path.now (Some (unwrap_or (file_at self.old path.now) [] ++ bytes.now))) }
        ensures changed { OnOk result (changed_in self.new ≡ with_path path.now (changed_in self.old)) }
        ensures err { OnErr result (IsSame self.old self.new) }
    {
        if self.read(path).is_none() {
            return self.write(path, bytes);
        }
        let fresh = self.changed.add(self.alloc, path)?;
        match extend_file(&mut self.files, path, bytes) {
            Ok(_) => Ok(()),
            Err(e) => {
                take_back(&mut self.changed, path, fresh);
                Err(e)
            }
        }
    }

    /// Removes a file, puts its path on the changed list, and tells whether it was there.
    /// Where there was none nothing changes.
    pub fn remove(&mut self, path: &str) -> Result<bool, AllocError>
        ensures found { IfOk result (λ b. b ≡ is_some (file_at self.old path.now)) }
        ensures files { OnOk result (IsWith self.old self.new path.now None) }
        ensures changed { OnOk result (changed_in self.new ≡ (if is_some (file_at self.old path.now) then with_path path.now (changed_in self.old) else changed_in self.old)) }
        ensures err { OnErr result (IsSame self.old self.new) }
    {
        if self.read(path).is_none() {
            return Ok(false);
        }
        self.changed.add(self.alloc, path)?;
        self.files.remove(path);
        Ok(true)
    }

    /// The changed list: the paths that were written or removed and not told as written since, in
    /// rising order. Takes no memory.
    pub fn changed(&self) -> &[String]
        ensures paths { map string_bytes result.now ≡ changed_in self.now }
        ensures rising { IsRising (changed_in self.now) }
    {
        self.changed.as_slice()
    }

    /// Takes a path off the changed list, as one that is kept outside as it is here. Takes no memory.
    pub fn written(&mut self, path: &str)
        ensures files { (q : List ℕ) → file_at self.new q ≡ file_at self.old q }
        ensures changed { changed_in self.new ≡ without_path path.now (changed_in self.old) }
    {
        self.changed.remove(path);
    }
}

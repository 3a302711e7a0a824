//! The paths of all files of a folder.
use crate::found::name_below;
use lp_files::paths::Paths;
use lp_words::path::is_path;
use std::alloc::{AllocError, Global};
use std::fs::DirEntry;
use std::io::ErrorKind;
use std::rt::Files as FileSystem;
use std::{fs, io};

/// What is known of a folder so far: the paths of its files in any order, and the folders in it that are still to be looked through, each
/// by its path.
#[derive(Drop)]
struct Listing {
    alloc: Global,
    paths: Vec<String>,
    folders: Vec<String>,
}

impl Listing {
    // Takes an entry of a folder in. What no path names is left out, and so are links and whatever is no file.
    fn take<R: FileSystem>(&mut self, folder: &str, entry: &DirEntry<R>) -> io::Result<()> {
        let path = name_below(self.alloc, folder, "/", entry.file_name())?;
        if !is_path(path.as_bytes()) {
            return Ok(());
        }
        let found = entry.metadata()?;
        if found.is_dir() {
            self.folders.push(path)?;
        } else if found.is_file() {
            self.paths.push(path)?;
        }
        Ok(())
    }

    // Takes all of one folder in.
    fn take_all<R: FileSystem + AllocGlobal + Clone + Drop>(
        &mut self,
        rt: &R,
        root: &str,
        folder: &str,
    ) -> io::Result<()> {
        let name = name_below(self.alloc, root, folder, "/")?;
        for entry in fs::read_dir(rt, name.as_str())? {
            match entry {
                Ok(entry) => self.take(folder, &entry)?,
                // a name that is no text
                Err(e) if e.kind() == ErrorKind::InvalidFilename => {}
                Err(e) => return Err(e),
            }
        }
        Ok(())
    }
}

// Looks through a folder and all folders in it.
fn walk<R: FileSystem + AllocGlobal + Clone + Drop>(
    rt: &R,
    root: &str,
    listing: &mut Listing,
) -> io::Result<()> {
    listing.take_all(rt, root, "")?;
    for _ in 0..u64::MAX {
        match listing.folders.pop() {
            Some(folder) => listing.take_all(rt, root, folder.as_str())?,
            None => return Ok(()),
        }
    }
    Err(io::Error::from(ErrorKind::Other))
}

// These paths in order. They are sorted first, so that each then goes to the end.
fn in_order(alloc: Global, mut paths: Vec<String>) -> Result<Paths, AllocError> {
    paths.sort()?;
    let mut ordered = Paths::new(alloc);
    for path in paths.as_slice() {
        ordered.add(alloc, path.as_str())?;
    }
    Ok(ordered)
}

/// The paths of all files in a folder and the folders in it, of those whose paths are paths of a script. Takes time for n files by
/// n times the logarithm of n.
pub(crate) fn list_all<R: FileSystem + AllocGlobal + Clone + Drop>(
    rt: &R,
    root: &str,
) -> io::Result<Paths> {
    let alloc = rt.alloc();
    let mut listing = Listing {
        alloc,
        paths: Vec::new(alloc),
        folders: Vec::new(alloc),
    };
    walk(rt, root, &mut listing)?;
    Ok(in_order(alloc, listing.paths)?)
}

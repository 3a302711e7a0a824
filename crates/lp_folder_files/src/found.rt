//! Names of the system below a folder, and what stands there.
use std::alloc::{AllocError, Global};
use std::io::ErrorKind;
use std::rt::Files as FileSystem;
use std::{fs, io};

/// What stands at a name, where links are not followed.
#[derive(Debug, Clone, Copy, PartialEq, Eq)]
pub(crate) enum Found {
    Nothing,
    Folder,
    File,
    /// A link, a device, or something else that no file of a mudlib is.
    Other,
}

/// The name of a path below a folder, and an end behind it.
pub(crate) fn name_below(
    alloc: Global,
    root: &str,
    path: &str,
    end: &str,
) -> Result<String, AllocError> {
    let mut name = String::from_str(alloc, root)?;
    name.push_str(path)?;
    name.push_str(end)?;
    Ok(name)
}

/// What stands at a name.
pub(crate) fn found_at<R: FileSystem>(rt: &R, name: &str) -> io::Result<Found> {
    match fs::symlink_metadata(rt, name) {
        Ok(found) if found.is_dir() => Ok(Found::Folder),
        Ok(found) if found.is_file() => Ok(Found::File),
        Ok(_) => Ok(Found::Other),
        Err(e) if e.kind() == ErrorKind::NotFound => Ok(Found::Nothing),
        Err(e) => Err(e),
    }
}

// Whether a folder is there. Where it is wanted and missing it is made.
fn step<R: FileSystem>(rt: &R, name: &str, makes: bool) -> io::Result<bool> {
    match found_at(rt, name)? {
        Found::Folder => Ok(true),
        Found::Nothing if makes => {
            fs::create_dir(rt, name)?;
            Ok(true)
        }
        Found::Nothing => Ok(false),
        Found::File | Found::Other => Err(io::Error::from(ErrorKind::NotADirectory)),
    }
}

/// Whether all folders above a path are there. Where they are wanted, missing ones are made. A link among them is refused, so that no path
/// leads out of the root.
pub(crate) fn has_way<R: FileSystem>(
    rt: &R,
    alloc: Global,
    root: &str,
    path: &str,
    makes: bool,
) -> io::Result<bool> {
    for end in 1..path.len() {
        if let Some((above, rest)) = path.split_at_checked(end) {
            if rest.starts_with('/') {
                let name = name_below(alloc, root, above, "")?;
                if !step(rt, name.as_str(), makes)? {
                    return Ok(false);
                }
            }
        }
    }
    Ok(true)
}

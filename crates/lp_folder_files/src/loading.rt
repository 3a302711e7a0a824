//! The files of a list of paths.
ghost use Rattle.std.specs.Prelude.{◌≡◌, IfOk};
ghost use Rattle.lp_folder.specs.Held.{ArePaths};

use crate::found::name_below;
use lp_events::octets::Octets;
use lp_files::paths::Paths;
use lp_folder::outside::Loaded;
use lp_tree::path::FilePath;
use lp_words::path::is_path;
use std::io::ErrorKind;
use std::rt::Files as FileSystem;
use std::{fs, io};

// One file.
fn load_one<R: FileSystem + AllocGlobal>(rt: &R, root: &str, path: &str) -> io::Result<Loaded>
    ensures { IfOk result (λ file. file.path ≡ path.now) }
{
    let own = FilePath::from_str(rt.alloc(), path)?;
    let name = name_below(rt.alloc(), root, path, "")?;
    let bytes = fs::read(rt, name.as_str())?;
    Ok(Loaded {
        path: own,
        bytes: Octets::from_vec(bytes),
    })
}

/// The files at these paths, in their order.
#[tactic(auto, using(crate::proofs::Loads::all_append, crate::proofs::Loads::paths_append))]
pub(crate) fn load_each<R: FileSystem + AllocGlobal>(
    rt: &R,
    root: &str,
    paths: &Paths,
) -> io::Result<Vec<Loaded>>
    ensures { IfOk result (λ files. ArePaths files.items) }
{
    let mut files = Vec::new(rt.alloc());
    for path in paths.as_slice() {
        if !is_path(path.as_bytes()) {
            return Err(io::Error::from(ErrorKind::InvalidFilename));
        }
        files.push(load_one(rt, root, path.as_str())?)?;
    }
    Ok(files)
}

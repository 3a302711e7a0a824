//! Changed files are written outside.
ghost use Rattle.std.specs.Prelude.{◌≡◌, ℕ, List, ◌<◌, IfOk, OnErr, OnOk, length, string_bytes};
ghost use Rattle.lp_files.specs.Paths.{IsAt, IsRising};
ghost use Rattle.lp_files.specs.Store.{changed_in, file_at};
ghost use Rattle.lp_core.specs.Turning.{Origin, Turn};
ghost use Rattle.lp_flush.specs.Flushing.{Flushes, IsCutShort, StopsAt, TriesOne, changed_behind};

use lp_core::driver::Core;
use lp_files::store::Store;
use lp_folder::outside::{Files, FilesError};
use std::alloc::{AllocError, Global};

/// How a try to write a file ended.
#[derive(Debug, Clone, Copy, PartialEq, Eq)]
pub enum Written {
    /// It is outside as it is in the store, and no longer on the list of changes.
    Kept,
    /// The files failed.
    Failed,
    /// There was no memory.
    NoMemory,
}

// A copy of the path at a place of the changed list.
fn path_at(alloc: Global, store: &Store, i: usize) -> Result<String, AllocError>
    requires { i < length (changed_in store.now) }
    ensures path { IfOk result (λ path. IsAt (string_bytes path) (changed_in store.now) i) }
    ensures rising { IsRising (changed_in store.now) }
{
    String::from_str(alloc, store.changed()[i].as_str())
}

// How many paths are on the changed list.
fn count_of(store: &Store) -> usize
    ensures { result ≡ length (changed_in store.now) }
{
    store.changed().len()
}

// Writes or removes a file outside as it is in the store.
fn write_out<F: Files>(store: &Store, files: &mut F, path: &str) -> Written
    ensures { TriesOne result path.now (file_at store.now path.now) (F.held files.old) (F.held files.new) (F.faults files.old) (F.faults files.new) }
{
    let done = match store.read(path) {
        Some(bytes) => files.write(path, bytes),
        None => files.remove(path),
    };
    match done {
        Ok(()) => Written::Kept,
        Err(FilesError::Failed) => Written::Failed,
        Err(FilesError::NoMemory) => Written::NoMemory,
    }
}

// Tries to write one file; a file that is kept is on the changed list no more.
fn write_one<W, C: Core<W>, F: Files>(core: &mut C, files: &mut F, path: &str) -> Written
    ensures goes { (swap : W) → C.goes core.old swap → C.goes core.new swap }
    ensures ran { (swap : W) (origin : Origin) (turns : List Turn) → C.ran core.old swap origin turns → C.ran core.new swap origin turns }
    ensures files { (q : List ℕ) → file_at (C.stored core.new) q ≡ file_at (C.stored core.old) q }
    ensures changed { changed_in (C.stored core.new) ≡ changed_behind result path.now (changed_in (C.stored core.old)) }
    ensures tries { TriesOne result path.now (file_at (C.stored core.old) path.now) (F.held files.old) (F.held files.new) (F.faults files.old) (F.faults files.new) }
{
    let done = write_out(core.store(), files, path);
    match done {
        Written::Kept => core.written(path),
        Written::Failed => {}
        Written::NoMemory => {}
    }
    done
}

/// Tries to write each changed file once, by rising path. One whose try failed stays on the list of changes; that is no error.
///
/// # Errors
/// Want of memory, and then the paths from some one on were not tried.
pub fn write_changed<W, C: Core<W>, F: Files>(
    alloc: Global,
    core: &mut C,
    files: &mut F,
) -> Result<(), AllocError>
    ensures goes { (swap : W) → C.goes core.old swap → C.goes core.new swap }
    ensures ran { (swap : W) (origin : Origin) (turns : List Turn) → C.ran core.old swap origin turns → C.ran core.new swap origin turns }
    ensures files { (q : List ℕ) → file_at (C.stored core.new) q ≡ file_at (C.stored core.old) q }
    ensures flushes { OnOk result (Flushes (file_at (C.stored core.old)) (F.held files.old) (F.faults files.old) (changed_in (C.stored core.old)) (changed_in (C.stored core.new)) (F.held files.new) (F.faults files.new)) }
    ensures cut { OnErr result (IsCutShort (file_at (C.stored core.old)) (F.held files.old) (F.faults files.old) (changed_in (C.stored core.old)) (changed_in (C.stored core.new)) (F.held files.new) (F.faults files.new)) }
{
    let mut stays = 0;
    let tries = count_of(core.store());
    for _ in 0..tries {
        let path = path_at(alloc, core.store(), stays)?;
        match write_one(core, files, path.as_str()) {
            Written::Kept => {}
            Written::Failed => stays += 1,
            Written::NoMemory => return Err(AllocError),
        }
    }
    Ok(())
}

/// Tries to write the first changed file, until that fails or none stays: the path of that failure, if there is one.
///
/// # Errors
/// Want of memory, and then the paths from some one on were not tried.
pub fn write_last<W, C: Core<W>, F: Files>(
    alloc: Global,
    core: &mut C,
    files: &mut F,
) -> Result<Option<String>, AllocError>
    ensures goes { (swap : W) → C.goes core.old swap → C.goes core.new swap }
    ensures ran { (swap : W) (origin : Origin) (turns : List Turn) → C.ran core.old swap origin turns → C.ran core.new swap origin turns }
    ensures files { (q : List ℕ) → file_at (C.stored core.new) q ≡ file_at (C.stored core.old) q }
    ensures stops { IfOk result (λ failed. StopsAt failed (file_at (C.stored core.old)) (F.held files.old) (F.faults files.old) (changed_in (C.stored core.old)) (changed_in (C.stored core.new)) (F.held files.new) (F.faults files.new)) }
    ensures cut { OnErr result (IsCutShort (file_at (C.stored core.old)) (F.held files.old) (F.faults files.old) (changed_in (C.stored core.old)) (changed_in (C.stored core.new)) (F.held files.new) (F.faults files.new)) }
{
    let tries = count_of(core.store());
    for _ in 0..tries {
        let path = path_at(alloc, core.store(), 0)?;
        match write_one(core, files, path.as_str()) {
            Written::Kept => {}
            Written::Failed => return Ok(Some(path)),
            Written::NoMemory => return Err(AllocError),
        }
    }
    Ok(None)
}

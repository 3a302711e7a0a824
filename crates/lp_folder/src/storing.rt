//! Files that were loaded, as a store.
ghost use Rattle.std.specs.Prelude.{◌≡◌, ℕ, List, Some, None, IfOk, OnOk, if◌then◌else◌};
ghost use Rattle.std.specs.Str.{bytes_eq};
ghost use Rattle.lp_files.specs.Store.{file_at};
ghost use Rattle.lp_folder.specs.Held.{first_of, loaded_at};

use crate::outside::Loaded;
use lp_files::store::Store;
use std::alloc::{AllocError, Global};

// Puts a file in, as one that is kept outside as it is here; the first one of a path counts.
fn put(store: &mut Store, file: &Loaded) -> Result<(), AllocError>
    ensures { OnOk result ((q : List ℕ) → file_at store.new q ≡ first_of (file_at store.old q) (if bytes_eq file.now.path q then Some file.now.bytes else None)) }
{
    let path = file.path.as_str();
    if store.read(path).is_some() {
        return Ok(());
    }
    store.write(path, file.bytes.as_slice())?;
    store.written(path);
    Ok(())
}

/// A store of these files, none of which is on its changed list; the first one of a path counts. Takes memory for their bytes.
pub fn store_of(alloc: Global, files: &[Loaded]) -> Result<Store, AllocError>
    ensures { IfOk result (λ store. (q : List ℕ) → file_at store q ≡ loaded_at files.now q) }
{
    let mut store = Store::new(alloc);
    for file in files {
        match put(&mut store, file) {
            Ok(()) => {}
            Err(fault) => {
                drop(store);
                return Err(fault);
            }
        }
    }
    Ok(store)
}

//! The longest file that is expanded, which no script is long enough to show.
use lp_files::store::Store;
use lp_preproc::compiled::expand;
use lp_preproc::fault::PreFault;
use lp_tree::fault::FaultKind;
use std::alloc::{AllocError, Global};
use std::test::Fail;

// A text of 1048576 times 16 blanks, and another text.
fn blanks(alloc: Global, behind: &str) -> Result<String, AllocError> {
    let mut text = String::new(alloc);
    for _ in 0..1048576 {
        text.push_str("                ")?;
    }
    text.push_str(behind)?;
    Ok(text)
}

// A file of those, and one that includes it in its second line.
fn store_of(alloc: Global, behind: &str) -> Result<Store, Fail> {
    let text = blanks(alloc, behind)?;
    let mut store = Store::new(alloc);
    store.write("/long.c", text.as_bytes())?;
    store.write("/short.c", b"1\n#include \"long.c\"")?;
    Ok(store)
}

// Whether a file has too many tokens in this line, or no fault where none is given.
fn is_told(alloc: Global, path: &str, behind: &str, line: Option<u32>) -> Result<bool, Fail> {
    let store = store_of(alloc, behind)?;
    match expand(alloc, &store, path) {
        Ok(_) => Ok(line.is_none()),
        Err(PreFault::NoMemory) => Ok(false),
        Err(PreFault::At(fault)) => match fault.kind {
            FaultKind::TooManyTokens => Ok(line == Some(fault.line)),
            _ => Ok(false),
        },
    }
}

/// Files, what stands behind their blanks, and the line of the fault.
const ROWS: [(&str, &str, Option<u32>); 4] = [
    ("/long.c", "", None),
    ("/long.c", " ", Some(0)),
    ("/short.c", "", None),
    ("/short.c", " ", Some(2)),
];

#[test]
fn files(rt: HostRuntime) -> Result<(), Fail> {
    for (path, behind, line) in ROWS {
        assert!(rt; is_told(rt.alloc(), path, behind, line)?, "{path}");
    }
    Ok(())
}

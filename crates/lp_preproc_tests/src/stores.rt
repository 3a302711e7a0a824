//! Tests of the store.
use lp_files::store::Store;
use std::alloc::Global;
use std::test::Fail;

/// A store of these files.
fn store_of(alloc: Global, files: &[(&str, &str)]) -> Result<Store, Fail> {
    let mut store = Store::new(alloc);
    for (path, text) in files {
        store.write(path, text.as_bytes())?;
    }
    Ok(store)
}

#[test]
fn store(rt: HostRuntime) -> Result<(), Fail> {
    let mut store = store_of(rt.alloc(), &[("/b", "1"), ("/a/c", "2"), ("/b", "33")])?;
    assert_eq!(rt; store.read("/b"), Some(b"33".as_slice()));
    assert_eq!(rt; store.read_bytes(b"/a/c"), Some(b"2".as_slice()));
    assert!(rt; store.read("/a").is_none() && store.read_bytes(b"\xff").is_none());
    let changed = store.changed();
    assert_eq!(rt; changed.len(), 2);
    assert_eq!(rt; changed[0].as_str(), "/a/c");
    assert_eq!(rt; changed[1].as_str(), "/b");
    store.written("/b");
    assert_eq!(rt; store.changed().len(), 1);
    assert!(rt; !store.remove("/none")?);
    assert_eq!(rt; store.changed().len(), 1);
    assert!(rt; store.remove("/b")?);
    assert!(rt; store.read("/b").is_none());
    assert_eq!(rt; store.changed().len(), 2);
    Ok(())
}

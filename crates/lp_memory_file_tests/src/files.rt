use lp_asking::truth::Truthful;
use lp_memory_file::MemoryFile;
use lp_swapfile::{Failed, SwapFile};
use std::test::Fail;

// A write may begin at the end or before it, and reach behind it; a read may not.
#[test]
fn a_file_in_memory_grows_and_gives_what_was_written(rt: HostRuntime) -> Result<(), Fail> {
    let mut file = MemoryFile::new(rt.alloc());
    let mut into = *b"....";
    assert_eq!(rt; file.read_at(0, &mut into), Err(Failed));
    assert_eq!(rt; file.write_at(0, b"abcdef"), Ok(()));
    assert_eq!(rt; file.write_at(4, b"WXYZ"), Ok(()));
    assert_eq!(rt; file.write_at(9, b"x"), Err(Failed));
    assert_eq!(rt; file.write_at(u64::MAX, b"x"), Err(Failed));
    assert_eq!(rt; file.write_at(8, b"!"), Ok(()));
    assert_eq!(rt; file.read_at(2, &mut into), Ok(()));
    assert_eq!(rt; into, *b"cdWX");
    assert_eq!(rt; file.read_at(5, &mut into), Ok(()));
    assert_eq!(rt; into, *b"XYZ!");
    assert_eq!(rt; file.read_at(6, &mut into), Err(Failed));
    assert_eq!(rt; file.read_at(u64::MAX, &mut into), Err(Failed));
    assert!(rt; file.tells() && file.tells_truth());
    Ok(())
}

use lp_folder::outside::{Files, Loaded};
use lp_folder_files::FolderFiles;
use std::os::unix::fs::symlink;
use std::test::Fail;
use std::{env, fs, io, process};

// Two files are written, and a name that is no path is refused.
fn writes<F: Files>(files: &mut F) -> bool {
    files
        .write("/room/square.c", b"int x;\n".as_slice())
        .is_ok()
        && files.write("/a.c", b"".as_slice()).is_ok()
        && files.write("/x~", b"".as_slice()).is_err()
}

// Whether these are the two files, and no others.
fn are_both(files: &[Loaded]) -> bool {
    match files {
        [first, second] => {
            first.path.as_str() == "/a.c"
                && second.path.as_str() == "/room/square.c"
                && second.bytes.as_slice() == b"int x;\n".as_slice()
        }
        _ => false,
    }
}

// Both are loaded, and what is a link is neither loaded nor read.
fn loads<F: Files>(files: &mut F) -> bool {
    let loaded = match files.load_all() {
        Ok(all) => are_both(all.as_slice()),
        Err(_) => false,
    };
    loaded && files.read("/link.c").is_err()
}

// A file is removed, and once more.
fn removes<F: Files>(files: &mut F) -> bool {
    files.remove("/a.c").is_ok() && files.remove("/a.c").is_ok() && files.read("/a.c").is_err()
}

// Goes over a folder that is made for it.
fn goes(rt: &HostRuntime, name: &str) -> io::Result<bool> {
    fs::create_dir_all(rt, name)?;
    let mut files = FolderFiles::open(rt.clone()?, name)?;
    let written = writes(&mut files);
    let link = format!(in rt.alloc(); "{name}/link.c")?;
    symlink(rt, "room/square.c", link.as_str())?;
    Ok(written && loads(&mut files) && removes(&mut files))
}

#[test]
fn a_folder(rt: HostRuntime) -> Result<(), Fail> {
    let above = env::temp_dir(&rt)?;
    let number = process::id(rt.process());
    let name = format!(in rt.alloc(); "{}/lp_adapters_tests-{number}", above.as_str())?;
    drop(above);
    let gone = goes(&rt, name.as_str());
    fs::remove_dir_all(&rt, name.as_str())?;
    assert!(rt; matches!(gone, Ok(true)));
    Ok(())
}

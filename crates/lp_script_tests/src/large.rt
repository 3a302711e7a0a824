//! Inputs and outputs of many bytes.
use lp_io::{MemSink, MemSource, Octets};
use lp_script::{Reader, ScriptFault};
use lp_workload::write_workload;
use std::alloc::{AllocError, Global};
use std::test::Fail;

/// How the item behind the head of an input is refused, if it is.
fn refusal(alloc: Global, bytes: Vec<u8>) -> Option<ScriptFault> {
    let mut input = MemSource::new(Octets::from_vec(bytes), Vec::new(alloc));
    let mut reader = Reader::new(alloc);
    if reader.next(&mut input).is_err() {
        return None;
    }
    match reader.next(&mut input) {
        Ok(_) => None,
        Err(fault) => Some(fault),
    }
}

/// An input of so many bytes, of which a head and a file that is larger are the first.
fn input(alloc: Global, len: usize) -> Result<Vec<u8>, AllocError> {
    let mut bytes = b"mudscript 1 0 0\nfile /a 99999999999\n".to_vec(alloc)?;
    bytes.resize(len, b'x')?;
    Ok(bytes)
}

// A file that is not whole within the bytes that a script may have, while the input goes on past them, or ends there.
#[test]
fn too_large_input(rt: HostRuntime) -> Result<(), Fail> {
    let bytes = input(rt.alloc(), 67108865)?;
    assert_eq!(rt; refusal(rt.alloc(), bytes), Some(ScriptFault::TooLarge));
    let bytes = input(rt.alloc(), 67108864)?;
    assert_eq!(rt;
        refusal(rt.alloc(), bytes),
        Some(ScriptFault::BadScript { at: 16 })
    );
    Ok(())
}

// The largest workload has so many bytes.
#[test]
fn largest_workload(rt: HostRuntime) -> Result<(), Fail> {
    let mut out = MemSink::new(rt.alloc(), Vec::new(rt.alloc()), 65536);
    assert!(rt; write_workload(rt.alloc(), &mut out, 200000, 7).is_ok());
    assert_eq!(rt; out.as_slice().len(), 2_664_349);
    Ok(())
}

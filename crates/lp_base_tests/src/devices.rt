use lp_io::*;
use std::alloc::{AllocError, Global};
use std::io::{Error, ErrorKind, Read, Write};
use std::test::Fail;

// A device that fails at every call.
#[derive(Drop)]
struct Broken;

impl Read for Broken {
    fn read(&mut self, _buf: &mut [u8]) -> std::io::Result<usize> {
        Err(Error::from(ErrorKind::BrokenPipe))
    }
}

impl Write for Broken {
    fn write(&mut self, _buf: &[u8]) -> std::io::Result<usize> {
        Err(Error::from(ErrorKind::BrokenPipe))
    }

    fn flush(&mut self) -> std::io::Result<()> {
        Err(Error::from(ErrorKind::BrokenPipe))
    }
}

fn octets(alloc: Global, bytes: &[u8]) -> Result<Octets, AllocError> {
    Ok(Octets::from_vec(Vec::from_slice(alloc, bytes)?))
}

// Whether octets keep their bytes, and are the same as others only where these are.
fn keep_bytes(alloc: Global) -> Result<bool, AllocError> {
    let some = octets(alloc, b"abc")?;
    let others = octets(alloc, b"abd")?;
    Ok(
        some.as_slice() == b"abc".as_slice()
            && some == some
            && some != others
            && some.into_vec().as_slice() == b"abc".as_slice(),
    )
}

// A source of these bytes, whose call with a number fails.
fn source(alloc: Global, bytes: &[u8], fail: u64) -> Result<MemSource, AllocError> {
    let bytes = octets(alloc, bytes)?;
    Ok(MemSource::new(bytes, Vec::from_slice(alloc, &[fail])?))
}

// How many bytes a read of three gives, if it does not fail, and what stands there then: what is behind the bytes given is kept.
static READS: [(Option<usize>, [u8; 3]); 5] = [
    (Some(3), *b"abc"),
    (None, *b"abc"),
    (Some(3), *b"def"),
    (Some(2), *b"ghf"),
    (Some(0), *b"ghf"),
];

// Whether a read gives so many bytes, or fails, and leaves these.
fn reads<S: Source>(source: &mut S, into: &mut [u8; 3], count: Option<usize>, held: &[u8]) -> bool {
    let answer = match source.read(into) {
        Ok(n) => Some(n),
        Err(Failed) => None,
    };
    answer == count && into.as_slice() == held
}

fn gives(source: &mut MemSource) -> bool {
    let mut into = *b"...";
    for i in 0..READS.len() {
        if !reads(source, &mut into, READS[i].0, READS[i].1.as_slice()) {
            return false;
        }
    }
    source.calls() == 5 && source.faults() == 1
}

// Eight bytes by threes, where the second call fails.
fn gives_its_bytes(alloc: Global) -> Result<bool, AllocError> {
    let mut source = source(alloc, b"abcdefgh", 2)?;
    let found = gives(&mut source);
    drop(source);
    Ok(found)
}

// The calls that fail, the most that a write takes, the piece, the fault, what was taken.
type Row = (
    &'static [u64],
    usize,
    &'static str,
    Option<PutFault>,
    &'static str,
);

static PIECES: [Row; 6] = [
    (&[], 1, "Hello\n", None, "Hello\n"),
    (&[], 64, "Hello\n", None, "Hello\n"),
    (&[], 0, "Hello\n", Some(PutFault::ZeroTaken), ""),
    (&[], 0, "", None, ""),
    (&[1], 64, "Hello\n", Some(PutFault::Failed), ""),
    (&[3, 4], 2, "Hello\n", Some(PutFault::Failed), "Hell"),
];

// Whether a piece is written whole or cut, as a row says.
fn is_written(alloc: Global, row: &Row) -> Result<bool, AllocError> {
    let failing = Vec::from_slice(alloc, row.0)?;
    let mut sink = MemSink::new(alloc, failing, row.1);
    let fault = put_all(&mut sink, row.2.as_bytes()).err();
    let is_taken = sink.as_slice() == row.4.as_bytes();
    drop(sink);
    Ok(is_taken && fault == row.3)
}

fn writes<S: Sink>(sink: &mut S, bytes: &[u8]) -> bool {
    match sink.write(bytes) {
        Ok(n) => n == bytes.len(),
        Err(Failed) => false,
    }
}

fn numbers(sink: &mut MemSink) -> bool {
    writes(sink, b"abc")
        && sink.flush().is_err()
        && sink.flush().is_ok()
        && writes(sink, b"de")
        && sink.as_slice() == b"abcde".as_slice()
        && sink.calls() == 4
        && sink.faults() == 1
}

// Whether writes and flushes are numbered together.
fn are_numbered(alloc: Global) -> Result<bool, AllocError> {
    let failing = Vec::from_slice(alloc, &[2])?;
    let mut sink = MemSink::new(alloc, failing, 64);
    let found = numbers(&mut sink);
    drop(sink);
    Ok(found)
}

fn are_quiet() -> bool {
    let mut into = *b"abc";
    reads(&mut QuietSource, &mut into, Some(0), b"abc")
        && writes(&mut QuietSink, b"abc")
        && QuietSink.flush().is_ok()
}

// Whether a source over a reader gives its bytes, and fails where that does.
fn reads_over() -> bool {
    let mut into = *b"...";
    let mut source = StdSource::new(b"abcd".as_slice());
    reads(&mut source, &mut into, Some(3), b"abc")
        && reads(&mut source, &mut into, Some(1), b"dbc")
        && reads(&mut source, &mut into, Some(0), b"dbc")
        && reads(&mut StdSource::new(Broken), &mut into, None, b"dbc")
}

fn writes_into(room: &mut [u8]) -> bool {
    let mut sink = StdSink::new(room);
    put_all(&mut sink, b"abc").is_ok()
        && sink.flush().is_ok()
        && put_all(&mut sink, b"def") == Err(PutFault::ZeroTaken)
}

fn is_broken() -> bool {
    let mut sink = StdSink::new(Broken);
    put_all(&mut sink, b"abc") == Err(PutFault::Failed) && sink.flush().is_err()
}

// Whether a sink over a writer into a slice takes nothing once the slice is full, and fails where a writer does.
fn writes_over() -> bool {
    let mut room = *b".....";
    writes_into(room.as_mut_slice()) && room == *b"abcde" && is_broken()
}

#[test]
fn devices_hold(rt: HostRuntime) -> Result<(), Fail> {
    let alloc = rt.alloc();
    assert!(rt; keep_bytes(alloc)?);
    assert!(rt; gives_its_bytes(alloc)?);
    for i in 0..PIECES.len() {
        assert!(rt; is_written(alloc, &PIECES[i])?, "{i}");
    }
    assert!(rt; are_numbered(alloc)?);
    assert!(rt; are_quiet());
    assert!(rt; reads_over());
    assert!(rt; writes_over());
    Ok(())
}

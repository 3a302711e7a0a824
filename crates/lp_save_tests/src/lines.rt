//! Lines of telnet streams.
use lp_telnet::Telnet;
use std::alloc::{AllocError, Global};
use std::test::Fail;

/// Streams, with the lines that end in them, each with a `|` behind it.
static STREAMS: [(&[u8], &[u8]); 22] = [
    (b"", b""),
    (b"lo", b""),
    (b"look\r\n", b"look|"),
    (b"look\n", b"look|"),
    (b"look\r\0n", b"look|"),
    (b"look\rat\r", b"look|at|"),
    (b"\r\n\r\n", b"||"),
    (b"\n\r", b"||"),
    (b"\r\0\n", b"||"),
    (b"\r\r\n\n", b"|||"),
    (b"a\0b\n", b"ab|"),
    (b"lo\xff\xfd\x01ok\r\n", b"look|"),
    (b"a\xff\xffb\n", b"a\xffb|"),
    (b"a\xff\xfb\nb\n", b"ab|"),
    (b"a\xff\xfc\xffb\n", b"ab|"),
    (b"a\xff\xfe\xff\xfb\xffb\n", b"a\xfb|"),
    (b"a\xff\xf1b\n", b"ab|"),
    (b"a\xff\nb\n", b"ab|"),
    (b"a\xff\xfa\x18\n\xff\xff\xf0\n\xff\xf0b\n", b"ab|"),
    (b"a\xff\xfa\xff\xfb\xff\xff\xff\xf0b\n", b"ab|"),
    (b"a\r\xff\xf1\nb\n", b"a|b|"),
    (b"a\r\xff\xffb\n", b"a|\xffb|"),
];

// What the pieces give behind what was given before.
fn fed(telnet: &mut Telnet, piece: &[u8], given: &mut Vec<u8>) -> Result<(), Fail> {
    for line in &telnet.feed(piece)? {
        given.extend_from_slice(line.as_slice())?;
        given.push(b'|')?;
    }
    Ok(())
}

// What a stream gives in two pieces.
fn cut_at(alloc: Global, stream: &[u8], at: usize) -> Result<Vec<u8>, Fail> {
    let mut telnet = Telnet::new(alloc);
    let mut given = Vec::new(alloc);
    let (front, back) = stream.split_at(at.min(stream.len()));
    fed(&mut telnet, front, &mut given)?;
    fed(&mut telnet, back, &mut given)?;
    Ok(given)
}

// What a stream gives byte by byte.
fn cut_everywhere(alloc: Global, stream: &[u8]) -> Result<Vec<u8>, Fail> {
    let mut telnet = Telnet::new(alloc);
    let mut given = Vec::new(alloc);
    for byte in stream {
        fed(&mut telnet, &[*byte], &mut given)?;
    }
    Ok(given)
}

// Whether a stream gives this byte by byte.
fn gives_everywhere(alloc: Global, stream: &[u8], want: &[u8]) -> Result<bool, Fail> {
    let got = cut_everywhere(alloc, stream)?;
    Ok(got.as_slice() == want)
}

// Whether it does in two pieces.
fn gives_at(alloc: Global, stream: &[u8], want: &[u8], at: usize) -> Result<bool, Fail> {
    let got = cut_at(alloc, stream, at)?;
    Ok(got.as_slice() == want)
}

// Whether it does however it is cut in two.
fn gives(alloc: Global, stream: &[u8], want: &[u8]) -> Result<bool, Fail> {
    for at in 0..=stream.len().min(1000) {
        if !gives_at(alloc, stream, want, at)? {
            return Ok(false);
        }
    }
    gives_everywhere(alloc, stream, want)
}

// A byte behind a 255, what stands behind both in a line of `a` and `b`, and what the line has in their place.
static COMMANDS: [(u8, &[u8], &[u8]); 21] = [
    (0, b"", b""),
    (1, b"", b""),
    (10, b"", b""),
    (13, b"", b""),
    (97, b"", b""),
    (240, b"", b""),
    (241, b"", b""),
    (242, b"", b""),
    (243, b"", b""),
    (244, b"", b""),
    (245, b"", b""),
    (246, b"", b""),
    (247, b"", b""),
    (248, b"", b""),
    (249, b"", b""),
    (250, &[13, 255, 255, 240, 255, 250, 255, 240], b""),
    (251, b"\n", b""),
    (252, b"\n", b""),
    (253, b"\n", b""),
    (254, b"\n", b""),
    (255, b"", b"\xff"),
];

// Whether a stream of a line for each of them gives these lines, however it is cut.
fn gives_commands(alloc: Global) -> Result<bool, Fail> {
    let mut stream = Vec::new(alloc);
    let mut want = Vec::new(alloc);
    for (command, behind, given) in &COMMANDS {
        stream.extend_from_slice(&[b'a', 255, *command])?;
        stream.extend_from_slice(behind)?;
        stream.extend_from_slice(b"b\r\n")?;
        want.push(b'a')?;
        want.extend_from_slice(given)?;
        want.extend_from_slice(b"b|")?;
    }
    gives(alloc, stream.as_slice(), want.as_slice())
}

#[test]
fn streams_give_their_lines(rt: HostRuntime) -> Result<(), Fail> {
    for i in 0..STREAMS.len() {
        assert!(rt; gives(rt.alloc(), STREAMS[i].0, STREAMS[i].1)?, "{i}");
    }
    assert!(rt; gives_commands(rt.alloc())?);
    Ok(())
}

// A line of so many bytes, and a short one.
fn long(alloc: Global, len: usize) -> Result<Vec<u8>, AllocError> {
    let mut stream = Vec::new(alloc);
    stream.resize(len, b'x')?;
    stream.extend_from_slice(b"\nok\n")?;
    Ok(stream)
}

// Whether so many bytes of a long line are kept, where the stream is cut.
fn keeps(alloc: Global, len: usize, at: usize, want: usize) -> Result<bool, Fail> {
    let stream = long(alloc, len)?;
    let got = cut_at(alloc, stream.as_slice(), at)?;
    Ok(got.len() == want.saturating_add(4) && &got[want.min(got.len())..] == b"|ok|".as_slice())
}

// The length of a line, and how many bytes of it are kept, in one piece and in two.
static LENGTHS: [(usize, usize); 4] = [(4095, 4095), (4096, 4096), (4097, 4096), (9000, 4096)];

#[test]
fn long_lines_are_cut_off(rt: HostRuntime) -> Result<(), Fail> {
    for i in 0..LENGTHS.len() {
        let (len, want) = LENGTHS[i];
        for at in [0, 1, 4096, len] {
            assert!(rt; keeps(rt.alloc(), len, at, want)?, "{len} {at}");
        }
    }
    Ok(())
}

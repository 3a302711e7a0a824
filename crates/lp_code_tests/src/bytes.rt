//! A record that was spelled by hand.
use lp_code::program::{FunRow, RawProgram};
use lp_encoding::{DecodeFault, decode, encode};
use lp_instr::instr::Instr;
use lp_values::id::ProgId;
use std::alloc::{AllocError, Global};
use std::test::Fail;

static RECORD: [u8; 82] = [
    // two instructions: an integer, and a return
    2, 0, 0, 0, 1, 0, 0, 0, 1, 0, 0, 0, 0, 0, 0, 0, 36, 0, 0, 0,
    // no texts, no switches
    0, 0, 0, 0, 0, 0, 0, 0,
    // one function `f` without parameters and locals
    1, 0, 0, 0, 1, 0, 0, 0, 102, 0, 0, 0, 0, 0, 0, 0,
    // the path `/a`, no parents, one part, no slots, no variables
    2, 0, 0, 0, 47, 97, 0, 0, 0, 0, 1, 0, 0, 0, 2, 0, 0, 0, 0, 0, 0, 0, 0, 0, 0, 0, 0, 0, 0, 0,
    // no pragmas: three flags and weak types
    0, 0, 0, 0,
    // one operand at most
    1, 0, 0, 0,
];

/// Whether there is one function, and it has this name.
fn is_named(funs: &[FunRow], name: &str) -> bool {
    match funs {
        [fun] => fun.name.as_str() == name,
        _ => false,
    }
}

/// Whether there is one part, of this version.
fn is_part(parts: &[ProgId], version: u64) -> bool {
    match parts {
        [part] => part.0 == version,
        _ => false,
    }
}

/// The record with another byte at a place.
fn with_byte(place: usize, value: u8) -> [u8; 82] {
    let mut bytes = RECORD;
    if place < 82 {
        bytes[place] = value;
    }
    bytes
}

/// Whether bytes are no record.
fn is_none(alloc: Global, bytes: &[u8]) -> bool {
    matches!(decode(alloc, bytes), Err(DecodeFault::NoRecord))
}

/// Whether bytes are no record, or the encoding of what they are.
fn is_faithful(alloc: Global, bytes: &[u8]) -> Result<bool, AllocError> {
    match decode(alloc, bytes) {
        Ok(program) => {
            let again = encode(alloc, &program);
            drop(program);
            Ok(again?.as_slice() == bytes)
        }
        Err(DecodeFault::NoRecord) => Ok(true),
        Err(DecodeFault::NoMemory) => Err(AllocError),
    }
}

/// Whether a program is the one that was spelled.
fn is_spelled(raw: &RawProgram, instrs: &[Instr]) -> bool {
    let code = raw.instrs.as_slice() == instrs && is_named(raw.funs.as_slice(), "f");
    let tables = raw.tables.path.as_str() == "/a" && is_part(raw.tables.parts.as_slice(), 2);
    code && tables && raw.max_height == 1
}

/// Whether bytes are the encoding of the program that was spelled.
fn are_of(alloc: Global, bytes: &[u8], instrs: &[Instr]) -> Result<bool, AllocError> {
    match decode(alloc, bytes) {
        Ok(program) => Ok(is_spelled(program.raw(), instrs)),
        Err(DecodeFault::NoRecord) => Ok(false),
        Err(DecodeFault::NoMemory) => Err(AllocError),
    }
}

/// Whether bytes with one behind them are no record.
fn is_none_with_more(alloc: Global, bytes: &[u8]) -> Result<bool, AllocError> {
    let mut more = Vec::from_slice(alloc, bytes)?;
    more.push(0)?;
    Ok(is_none(alloc, &more))
}

/// Whether each front of the record is no record.
fn are_fronts_none(alloc: Global) -> bool {
    for n in 0..82 {
        if !is_none(alloc, &RECORD[..n]) {
            return false;
        }
    }
    true
}

/// Whether each other byte at a place gives no record, or the encoding of what it is.
fn is_faithful_at(alloc: Global, place: usize) -> Result<bool, AllocError> {
    for value in 0..256u16 {
        if !is_faithful(alloc, &with_byte(place, value as u8))? {
            return Ok(false);
        }
    }
    Ok(true)
}

/// A place, the byte that is put there, whether that gives no record, and what stands there.
static CHANGED: [(usize, u8, bool, &str); 10] = [
    (16, 0, true, "no instruction has the number 0"),
    (16, 37, false, "the last instruction, in place of a return"),
    (16, 38, true, "no instruction has the number 38"),
    (36, 255, true, "a name that is no text"),
    (74, 1, false, "a flag"),
    (74, 2, true, "no flag"),
    (77, 2, false, "strict types"),
    (77, 3, true, "no way to check types"),
    (78, 0, true, "an operand more than the stack may hold"),
    (3, 255, true, "more instructions than there are bytes"),
];

#[test]
fn records(rt: HostRuntime) -> Result<(), Fail> {
    let alloc = rt.alloc();
    assert!(rt; are_of(alloc, &RECORD, &[Instr::PushInt(1), Instr::Return])?);
    assert!(rt; is_none_with_more(alloc, &RECORD)?);
    assert!(rt; are_fronts_none(alloc));
    for place in 0..82 {
        assert!(rt; is_faithful_at(alloc, place)?, "{place}");
    }
    for i in 0..CHANGED.len() {
        let (place, value, none, why) = CHANGED[i];
        assert!(rt; is_none(alloc, &with_byte(place, value)) == none, "{why}");
    }
    Ok(())
}

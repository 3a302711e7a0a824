//! Bytes as they can be read, for who looks for what is wrong with a case.
use std::alloc::{AllocError, Global};

/// How many bytes are shown at most, and how many of them stand before the first that differs.
const SHOWN: usize = 2000;

const BEFORE: usize = 400;

/// The place of the first byte in which two differ, or the end of the first.
fn difference(one: &[u8], other: &[u8]) -> usize {
    for at in 0..one.len() {
        if one.get(at).copied() != other.get(at).copied() {
            return at;
        }
    }
    one.len()
}

/// Adds a byte: a letter or a sign as it is, a line feed with the start of a line, and each other one by its number.
fn put(alloc: Global, text: &mut String, byte: u8) -> Result<(), AllocError> {
    if byte == b'\n' {
        return text.push_str("\\n\n    ");
    }
    if byte == b' ' || byte.is_ascii_graphic() {
        return text.push(byte as char);
    }
    let number = format!(in alloc; "\\x{byte:02x}")?;
    text.push_str(number.as_str())
}

/// Bytes from one place on.
fn from(alloc: Global, bytes: &[u8], begin: usize) -> Result<String, AllocError> {
    let mut text = String::new(alloc);
    if begin > 0 {
        text.push_str("..")?;
    }
    for byte in bytes.iter().skip(begin).take(SHOWN) {
        put(alloc, &mut text, *byte)?;
    }
    if bytes.len().saturating_sub(begin) > SHOWN {
        text.push_str("..")?;
    }
    Ok(text)
}

/// Bytes that are wanted and bytes that are given, from a little before the first in which they differ.
pub fn pair(alloc: Global, wanted: &[u8], given: &[u8]) -> Result<(String, String), AllocError> {
    let begin = difference(wanted, given).saturating_sub(BEFORE);
    let first = from(alloc, wanted, begin)?;
    Ok((first, from(alloc, given, begin)?))
}

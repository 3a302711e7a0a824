//! Counted bytes, and the line end behind them.
ghost use Rattle.std.specs.Prelude.{◌≡◌, length, take_while};
ghost use Rattle.lp_events.specs.Script.{is_line_byte};

use crate::line::line_ends;
use crate::reason::Reason;

// Where the first byte stands that no line holds, or how many bytes there are.
fn line_len(bytes: &[u8]) -> usize
    ensures { result ≡ length (take_while is_line_byte bytes.now) }
{
    bytes
        .iter()
        .take_while(|b| **b != 0 && **b != 10 && **b != 13)
        .count()
}

/// What is wrong with the bytes of a line.
pub(crate) fn check_line(count: u64, bytes: &[u8]) -> Result<(), Reason> {
    let len = line_len(bytes);
    match bytes.get(len) {
        None => Ok(()),
        Some(b'\n') => Err(Reason::LineEndWithin(count, len as u64)),
        Some(_) => Err(Reason::ByteWithin(len as u64)),
    }
}

/// What is wrong with the end of so many bytes, of which the first stands in this line, counted from 1.
pub(crate) fn check_end(count: u64, line: u64, bytes: &[u8]) -> Result<(), Reason> {
    let len = bytes.len() as u64;
    if len < count {
        return Err(Reason::BytesEnd(count, len));
    }
    if len == count {
        return Err(Reason::LineEndMissing);
    }
    let (counted, rest) = bytes.split_at(count as usize);
    if rest[0] != b'\n' {
        let last = line.saturating_add(line_ends(counted) as u64);
        return Err(Reason::NoLineEnd(count, last));
    }
    Ok(())
}

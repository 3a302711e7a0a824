//! A line of a player: a text message, and its bytes in a telnet stream.
ghost use Rattle.std.specs.Prelude.{◌≡◌, ◌≤◌, IfOk, length};
ghost use Rattle.lp_door.specs.Doors.{is_dropped as dropped, line_of as line_of_message, wire_of as wire_of_line};

use lp_events::octets::Octets;
use lp_telnet::telnet::MAX_LINE;
use std::alloc::{AllocError, Global};

/// The most bytes of a line.
const MOST: usize = MAX_LINE;

// Whether a byte ends a line of a telnet stream, or is one that no line has.
fn is_dropped(byte: u8) -> bool
    ensures { result ≡ dropped byte }
{
    byte == 0 || byte == 10 || byte == 13
}

/// The line that a text message is, by its bytes: without the bytes 0, 10 and 13, and of what is left the first 4096. Takes time in
/// proportion to the bytes up to the last that is kept.
pub fn line_of(alloc: Global, message: &[u8]) -> Result<Octets, AllocError>
    ensures line { IfOk result (λ l. l ≡ line_of_message message.now) }
    ensures len { IfOk result (λ l. length l ≤ 4096) }
{
    let mut line = Vec::new(alloc);
    for byte in message {
        if line.len() == MOST {
            return Ok(Octets::from_vec(line));
        }
        if !is_dropped(*byte) {
            line.push(*byte)?;
        }
    }
    Ok(Octets::from_vec(line))
}

/// The bytes that a line has in a telnet stream: its own, and 13 10. Takes time in proportion to them.
pub fn wire_of(alloc: Global, line: &[u8]) -> Result<Octets, AllocError>
    ensures { IfOk result (λ bytes. bytes ≡ wire_of_line line.now) }
{
    let mut bytes = line.to_vec(alloc)?;
    bytes.extend_from_slice(&[13, 10])?;
    Ok(Octets::from_vec(bytes))
}

//! Lines, and pieces of so many bytes.
ghost use Rattle.std.specs.Prelude.{◌<◌, IfSome, length};

/// The bytes up to the next line feed, and those behind it. None where no line ends.
pub fn line(bytes: &[u8]) -> Option<(&[u8], &[u8])>
    ensures shorter { IfSome result (λ p. length p.1.now < length bytes.now) }
{
    for end in 0..bytes.len() {
        if bytes[end] == b'\n' {
            return Some((bytes.get(..end)?, bytes.get(end + 1..)?));
        }
    }
    None
}

/// So many bytes, and those behind the line feed that follows them. None where there are fewer, or none follows.
pub fn piece(bytes: &[u8], len: usize) -> Option<(&[u8], &[u8])>
    ensures shorter { IfSome result (λ p. length p.1.now < length bytes.now) }
{
    let found = bytes.get(..len)?;
    if *bytes.get(len)? != b'\n' {
        return None;
    }
    Some((found, bytes.get(len.checked_add(1)?..)?))
}

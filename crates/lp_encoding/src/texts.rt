//! Texts.
ghost use Rattle.std.specs.Prelude.{◌≡◌, ◌++◌, IfOk, OnOk, encode_utf8_all, string_bytes};
ghost use Rattle.lp_encoding.specs.Forms.{GivesBy, code_points, string_at, text};

use crate::coded::Coded;
use crate::fault::DecodeFault;
use crate::reader::Reader;
use lp_code::name::Name;
use lp_tree::path::FilePath;
use lp_values::text::Text;
use std::alloc::{AllocError, Global};

/// Adds the spelling of a text.
fn put_str(alloc: Global, value: &str, out: &mut Vec<u8>) -> Result<(), AllocError>
    ensures fits { OnOk result (text.Fits value.now) }
    ensures spelled { OnOk result (out.new.items ≡ out.old.items ++ text.spelled value.now) }
{
    let Ok(count) = u32::try_from(value.len()) else {
        return Err(AllocError);
    };
    count.put(alloc, out)?;
    out.extend_from_slice(value.as_bytes())?;
    Ok(())
}

/// Takes the bytes of a text, which are as many as the number before them says.
fn take_bytes<'a>(alloc: Global, reader: &mut Reader<'a>) -> Result<&'a [u8], DecodeFault>
    ensures { GivesBy (λ s. s.now) result reader.new (string_at reader.old) }
{
    let count = u32::take(alloc, reader)?;
    match reader.front(count as usize) {
        Some(front) => Ok(front),
        None => Err(DecodeFault::NoRecord),
    }
}

/// Takes a text.
fn take_str<'a>(alloc: Global, reader: &mut Reader<'a>) -> Result<&'a str, DecodeFault>
    ensures { GivesBy (λ s. s.now) result reader.new (text.read reader.old) }
{
    let bytes = take_bytes(alloc, reader)?;
    match std::str::from_utf8(bytes) {
        Ok(value) => Ok(value),
        Err(_) => Err(DecodeFault::NoRecord),
    }
}

/// The bytes of code points.
fn encoded(alloc: Global, chars: &[char]) -> Result<String, AllocError>
    ensures { IfOk result (λ s. string_bytes s ≡ encode_utf8_all chars.now) }
{
    chars.iter().copied().collect(alloc)
}

impl Coded for Name {
    ghost form = { text };

    fn put(&self, alloc: Global, out: &mut Vec<u8>) -> Result<(), AllocError> {
        put_str(alloc, self.as_str(), out)
    }

    fn take(alloc: Global, reader: &mut Reader) -> Result<Name, DecodeFault> {
        let value = take_str(alloc, reader)?;
        Ok(Name::from_str(alloc, value)?)
    }
}

impl Coded for FilePath {
    ghost form = { text };

    fn put(&self, alloc: Global, out: &mut Vec<u8>) -> Result<(), AllocError> {
        put_str(alloc, self.as_str(), out)
    }

    fn take(alloc: Global, reader: &mut Reader) -> Result<FilePath, DecodeFault> {
        let value = take_str(alloc, reader)?;
        Ok(FilePath::from_str(alloc, value)?)
    }
}

impl Coded for Text {
    ghost form = { code_points };

    fn put(&self, alloc: Global, out: &mut Vec<u8>) -> Result<(), AllocError> {
        let value = encoded(alloc, self.as_slice())?;
        put_str(alloc, value.as_str(), out)
    }

    fn take(alloc: Global, reader: &mut Reader) -> Result<Text, DecodeFault> {
        let value = take_str(alloc, reader)?;
        Ok(Text::from_str(alloc, value)?)
    }
}

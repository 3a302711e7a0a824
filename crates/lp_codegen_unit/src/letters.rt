//! Names of functions as programs have them.
ghost use Rattle.std.specs.Prelude.{◌≡◌, IfOk, IsAscii, encode_utf8_all, string_bytes};

use lp_code::name::Name;
use lp_tree::chars::Chars;
use std::alloc::{AllocError, Global};

fn text_of(alloc: Global, letters: &[char]) -> Result<String, AllocError>
    ensures { IfOk result (λ t. string_bytes t ≡ encode_utf8_all letters.now) }
{
    let mut text = String::new(alloc);
    for letter in letters {
        text.push(*letter)?;
    }
    Ok(text)
}

/// A name in bytes. One of letters of ASCII is its letters.
pub(crate) fn name_of(alloc: Global, letters: &Chars) -> Result<Name, AllocError>
    ensures { IfOk result (λ n. IsAscii letters.now → n ≡ letters.now) }
{
    Ok(Name::from_string(text_of(alloc, letters.as_slice())?))
}

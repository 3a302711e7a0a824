//! Names of functions as texts of LPC.
ghost use Rattle.std.specs.Prelude.{◌≡◌, ◌≤◌, IfOk, IfSome, IsAscii, IsTrue, None, false, length, string_bytes, take};

use lp_values::text::Text;
use std::alloc::{AllocError, Global};

/// Letters as bytes at the front of a buffer, if all are of ASCII.
pub fn spell(letters: &[char], into: &mut [u8]) -> bool
    requires room { length letters.now ≤ length into.old }
    ensures room { length into.new ≡ length into.old }
    ensures name { IsTrue result → take (length letters.now) into.new ≡ letters.now }
    ensures none { result ≡ false → IsAscii letters.now → ⊥ }
{
    for i in 0..letters.len() {
        let code = letters[i] as u32;
        if code > 127 {
            return false;
        }
        into[i] = code as u8;
    }
    true
}

/// Letters as a text of the program, if all are of ASCII: they are its bytes then.
fn ascii_of(alloc: Global, letters: &[char]) -> Result<Option<String>, AllocError>
    ensures name { IfOk result (λ o. IfSome o (λ s. string_bytes s ≡ letters.now)) }
    ensures none { IfOk result (λ o. o ≡ None → IsAscii letters.now → ⊥) }
{
    let mut text = String::new(alloc);
    for letter in letters {
        if !letter.is_ascii() {
            return Ok(None);
        }
        text.push(*letter)?;
    }
    Ok(Some(text))
}

/// The name that a text is, if it is of ASCII.
pub fn name_of(alloc: Global, text: &Text) -> Result<Option<String>, AllocError>
    ensures name { IfOk result (λ o. IfSome o (λ s. string_bytes s ≡ text.now)) }
    ensures none { IfOk result (λ o. o ≡ None → IsAscii text.now → ⊥) }
{
    ascii_of(alloc, text.as_slice())
}

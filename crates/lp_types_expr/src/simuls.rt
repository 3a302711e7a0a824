//! Names of simul efuns.
ghost use Rattle.std.specs.Prelude.{◌≡◌, IfSome, string_bytes};
ghost use Rattle.std.specs.List.{list_any};
ghost use Rattle.lp_instr.specs.EfunList.{is_name};

use lp_code::name::Name;
use lp_code::names::Names2;
use std::alloc::Global;

// The bytes of a name, each of which is a letter. There are none where a letter is no byte, or where there is no memory.
fn bytes_of(alloc: Global, name: &[char]) -> Option<Vec<u8>>
    ensures { IfSome result (λ v. v.items ≡ name.now) }
{
    let Ok(mut bytes) = Vec::with_capacity(alloc, name.len()) else {
        return None;
    };
    for letter in name {
        let code = *letter as u32;
        if code > 255 {
            return None;
        }
        if bytes.push(code as u8).is_err() {
            return None;
        }
    }
    Some(bytes)
}

// The text with the bytes of a name. There is none where they are no text, or where there is no memory.
fn text_of(alloc: Global, name: &[char]) -> Option<String>
    ensures { IfSome result (λ t. string_bytes t ≡ name.now) }
{
    match bytes_of(alloc, name) {
        None => None,
        Some(bytes) => String::from_utf8(bytes).ok(),
    }
}

// Whether a name has these bytes.
fn is_name(name: &[char], bytes: &[u8]) -> bool
    ensures { result ≡ is_name name.now bytes.now }
{
    if bytes.len() != name.len() {
        return false;
    }
    for i in 0..bytes.len() {
        if bytes[i] as u32 != name[i] as u32 {
            return false;
        }
    }
    true
}

// Whether a name is in a list, which is gone through. Takes no memory.
fn is_listed(simuls: &[Name], name: &[char]) -> bool
    ensures { result ≡ list_any (is_name name.now) simuls.now }
{
    simuls
        .iter()
        .any(|simul| is_name(name, simul.as_str().as_bytes()))
}

/// Whether a name is that of a simul efun, in time in proportion to the letters of the name, however many simul efuns there
/// are. Takes memory for the letters, and gives it back. Where there is none, or where the letters are not the bytes of a
/// text, the simul efuns are gone through one by one, so that the answer is exact all the same. The names of a source are of
/// ASCII letters, which always are the bytes of a text.
pub(crate) fn has(alloc: Global, simuls: &Names2, name: &[char]) -> bool
    ensures { result ≡ list_any (is_name name.now) simuls.now }
{
    match text_of(alloc, name) {
        Some(text) => simuls.has(text.as_str()),
        None => is_listed(simuls.as_slice(), name),
    }
}

//! Names and modifiers as tables have them.
ghost use Rattle.std.specs.Prelude.{◌≡◌, ◌≤◌, IfOk, IsAscii, encode_utf8_all, string_bytes};
ghost use Rattle.lp_layout.specs.Layout.{bit_of, bits, digit, has_word};

use lp_code::name::Name;
use lp_tree::chars::Chars;
use lp_tree::keyword::Modifier;
use std::alloc::{AllocError, Global};

fn text_of(alloc: Global, letters: &[char]) -> Result<String, AllocError>
    ensures { IfOk result (λ t. string_bytes t ≡ encode_utf8_all letters.now) }
{
    let mut text = String::new(alloc);
    for letter in letters {
        text.push(*letter)?;
    }
    Ok(text)
}

/// A name as tables have it.
pub(crate) fn name_of(alloc: Global, letters: &Chars) -> Result<Name, AllocError>
    ensures { IfOk result (λ n. IsAscii letters.now → n ≡ letters.now) }
{
    Ok(Name::from_string(text_of(alloc, letters.as_slice())?))
}

// The bit of a modifier.
fn bit_of(word: Modifier) -> u8
    ensures { result ≡ bit_of word }
{
    match word {
        Modifier::Private => 0,
        Modifier::Protected => 1,
        Modifier::Public => 2,
        Modifier::Static => 3,
        Modifier::Nosave => 4,
        Modifier::Nomask => 5,
        Modifier::Varargs => 6,
    }
}

fn has_word(bit: u8, mods: &[Modifier]) -> bool
    ensures { result ≡ has_word bit mods.now }
{
    mods.iter().any(|word| bit_of(*word) == bit)
}

// 1 where a modifier with the bit stands there.
fn digit(bit: u8, mods: &[Modifier]) -> u16
    ensures is { result ≡ digit (has_word bit mods.now) }
    ensures small { result ≤ 1 }
{
    if has_word(bit, mods) { 1 } else { 0 }
}

/// Modifiers as a number.
pub(crate) fn bits(mods: &[Modifier]) -> u16
    ensures { result ≡ bits mods.now }
{
    let high = digit(4, mods) + 2 * (digit(5, mods) + 2 * digit(6, mods));
    let middle = digit(2, mods) + 2 * (digit(3, mods) + 2 * high);
    digit(0, mods) + 2 * (digit(1, mods) + 2 * middle)
}

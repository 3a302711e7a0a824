//! The text of an error as a line shows it.
ghost use Rattle.std.specs.Prelude.{◌≡◌, ◌++◌, IfOk, OnOk, map, string_bytes};
ghost use Rattle.std.specs.Str.{encode_utf8_all};
ghost use Rattle.lp_verdicts.specs.Verdicts.{shown, shown_point};

use lp_io::Octets;
use std::alloc::{AllocError, Global};

// A code point of an error's text as a line shows it.
fn point_shown(point: char) -> char
    ensures { result ≡ shown_point point }
{
    if point < ' ' { '?' } else { point }
}

// Puts the code points of a text as a line shows them behind others.
fn put_shown(text: &mut String, points: &[char]) -> Result<(), AllocError>
    ensures { OnOk result (string_bytes text.new ≡ string_bytes text.old ++ encode_utf8_all (shown points.now)) }
{
    for point in points {
        text.push(point_shown(*point))?;
    }
    Ok(())
}

/// The text of an error as a line shows it, in UTF-8: with `?` for each code point below 32.
pub fn shown_text(alloc: Global, points: &[char]) -> Result<Octets, AllocError>
    ensures { IfOk result (λ t. t ≡ encode_utf8_all (shown points.now)) }
{
    let mut text = String::new(alloc);
    put_shown(&mut text, points)?;
    Ok(Octets::from_vec(text.into_bytes()))
}

//! `sprintf`.
ghost use Rattle.std.specs.Prelude.{All};
ghost use Rattle.lp_cells.specs.Cells.{IsClosed, IsThere};
ghost use Rattle.lp_format.specs.Answers.{Gives};
ghost use Rattle.lp_format.specs.Forms.{pieces};
ghost use Rattle.lp_format.specs.Formatted.{formatted};
ghost use Rattle.lp_format.specs.Laws.{IsPassed, IsTold};
ghost use Rattle.lp_format.specs.Spelled.{spelled};

use crate::fault::FormatFault;
use crate::form::{first_piece, piece_len};
use crate::names::Names;
use crate::out::Out;
use crate::write::write_piece;
use lp_cells::cells::Cells;
use lp_text::form::rest_of;
use lp_values::text::Text;
use lp_values::value::{Living, Value};
use std::alloc::Global;

/// The text that a form makes of its arguments. Surplus arguments are ignored.
///
/// A directive is `%[-][0][width][.precision]c`. Width and precision are numbers up to 9999, or `*`
/// for the next argument. The letter c is one of these:
///
/// - `s`: a text, and of it the first code points, as many as the precision says.
/// - `d`, `i`: an integer in decimal. `o`, `x`, `X`: an integer from 0 up in base 8 or 16.
/// - `c`: the code point with a number. `%`: a `%`, without an argument.
/// - `O`: any value. Integers are in decimal, texts between quotes with `\"`, `\\` and `\n`, objects
///   by name, arrays as `({ a, b })`, mappings as `([ k: v, k: v ])`. A cell inside itself, or deeper
///   than 20, is `<...>`.
///
/// The text of a directive is filled up to its width with spaces in front, or with `-` behind it; a
/// number with `0` and without `-` is filled with zeros behind its sign. A precision counts for `%s`
/// alone.
///
/// The pieces of the form are taken from left to right, and the first fault counts:
///
/// - `BadFormat`: a `%` begins no directive. That is found before its arguments are looked at.
/// - `TooFewArgs`: an argument is missing.
/// - `BadArg`: an argument reads as no value that its directive takes; a width or a precision is an
///   integer from 0 to 9999.
/// - `TooLong`: with this piece the text has more than 100000 code points.
/// - `NoMemory` may come at any time.
pub fn sprintf<L: Living + Names>(
    alloc: Global,
    form: &[char],
    args: &[Value],
    cells: &Cells,
    names: &L,
) -> Result<Text, FormatFault>
    requires closed { IsClosed cells.now }
    requires there { All (IsThere cells.now) args.now }
    ensures { Gives result (formatted (L.live names.now) (spelled (L.live names.now) (L.name names.now) cells.now) args.now (pieces form.now)) }
{
    let mut out = Out::new(alloc);
    let mut at = 0;
    let mut used = 0;
    while at < form.len() {
        let rest = rest_of(form, at);
        write_piece(
            &mut out,
            first_piece(rest),
            at as u64,
            args,
            &mut used,
            cells,
            names,
        )?;
        at += piece_len(rest);
    }
    Ok(out.into_text()?)
}

/// Law: a text is the texts of all pieces, one after another; and a fault is that of the first piece
/// that has one, or with which the text is too long.
pub fn law_whole()
    ensures { IsTold }
{}

/// Law: what follows a directive in a form is what follows its letter.
pub fn law_passed()
    ensures { IsPassed }
{}

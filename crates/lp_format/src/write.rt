//! What directives write.
ghost use Rattle.std.specs.Prelude.{◌≡◌, ◌≤◌, ◌<◌, ◌++◌, ◌+◌, All, MatchResult, None, Some, IfOk, OnOk, length, take, drop, slice_get};
ghost use Rattle.lp_cells.specs.Cells.{IsClosed, IsThere};
ghost use Rattle.lp_values.specs.Read.{as_read as read};
ghost use Rattle.lp_format.specs.Answers.{Appends, Becomes};
ghost use Rattle.lp_format.specs.Conversions.{based_written, code_point_of as code_point_at, code_point_written, conversion_uses, count_uses, cut as cut_to, digits_in, decimal_written, int_of, measure_of, measured as measured_of, text_of, text_written, value_written, written};
ghost use Rattle.lp_format.specs.Fill.{fill_place as fill_place_of, filled, filler as filler_of, has_zeros as has_zeros_of, is_number as is_number_of, missing as missing_of};
ghost use Rattle.lp_format.specs.Formatted.{directive_text, piece_text, uses};
ghost use Rattle.lp_format.specs.Spelled.{spelled};

use crate::fault::FormatFault;
use crate::form::{Base, Conversion, Count, Directive, Piece, mark_len};
use crate::names::Names;
use crate::out::Out;
use crate::spell::{write_int, write_spelled};
use lp_cells::cells::Cells;
use lp_text::form::rest_of;
use lp_values::text::code_points;
use lp_values::value::{Living, Value, as_read};
use std::alloc::{AllocError, Global};

/// Appends the text of a piece that stands at this place of the form.
pub(crate) fn write_piece<L: Living + Names>(
    out: &mut Out,
    piece: Piece,
    at: u64,
    args: &[Value],
    used: &mut usize,
    cells: &Cells,
    names: &L,
) -> Result<(), FormatFault>
    requires closed { IsClosed cells.now }
    requires there { All (IsThere cells.now) args.now }
    ensures text { Appends result out.old out.new (piece_text (L.live names.now) (spelled (L.live names.now) (L.name names.now) cells.now) args.now used.old at piece) }
    ensures used { OnOk result (used.new ≡ used.old + uses piece) }
{
    match piece {
        Piece::Plain(c) => out.push(c),
        Piece::Made(d) => write_directive(out, d, args, used, cells, names),
        Piece::Bad => Err(FormatFault::BadFormat { at }),
    }
}

/// Appends the text of a directive.
fn write_directive<L: Living + Names>(
    out: &mut Out,
    d: Directive,
    args: &[Value],
    used: &mut usize,
    cells: &Cells,
    names: &L,
) -> Result<(), FormatFault>
    requires closed { IsClosed cells.now }
    requires there { All (IsThere cells.now) args.now }
    ensures text { Appends result out.old out.new (directive_text (L.live names.now) (spelled (L.live names.now) (L.name names.now) cells.now) args.now used.old d) }
    ensures used { OnOk result (used.new ≡ used.old + (count_uses d.width + count_uses d.precision + conversion_uses d.conversion)) }
{
    let width = measured(d.width, args, used, names)?;
    let precision = measured(d.precision, args, used, names)?;
    let start = out.len();
    write_conversion(out, d.conversion, precision, args, used, cells, names)?;
    fill(out, start, d, width)
}

/// A width or a precision, whose argument, if it is one, is the next.
fn measured<L: Living>(
    count: Count,
    args: &[Value],
    used: &mut usize,
    live: &L,
) -> Result<Option<u64>, FormatFault>
    ensures value { result ≡ measured_of (L.live live.now) args.now used.old count }
    ensures used { OnOk result (used.new ≡ used.old + count_uses count) }
{
    match count {
        Count::Argument => {
            let v = argument(args, used)?;
            measure(integer(v, live), *used as u64 + 1)
        }
        Count::Given(n) => Ok(Some(n)),
        _ => Ok(None),
    }
}

/// The next argument.
fn argument<'a>(args: &'a [Value], used: &mut usize) -> Result<&'a Value, FormatFault>
    ensures value { MatchResult result (λ v. slice_get args.now used.old ≡ Some v.now) (λ e. (e ≡ FormatFault.TooFewArgs) × (slice_get args.now used.old ≡ None)) }
    ensures used { OnOk result (used.new ≡ used.old + 1) }
    ensures within { OnOk result (used.old < length args.now) }
{
    match args.get(*used) {
        Some(v) => {
            *used += 1;
            Ok(v)
        }
        None => Err(FormatFault::TooFewArgs),
    }
}

/// The integer that a value reads as.
fn integer<L: Living>(v: &Value, live: &L) -> Option<i64>
    ensures { result ≡ int_of (read (L.live live.now) v.now) }
{
    match as_read(v, live) {
        Some(Value::Int(n)) => Some(*n),
        Some(_) => None,
        None => Some(0),
    }
}

/// An argument as a width or a precision.
fn measure(value: Option<i64>, n: u64) -> Result<Option<u64>, FormatFault>
    ensures { result ≡ measure_of n value }
{
    match value {
        Some(x) if x >= 0 && x <= 9999 => Ok(Some(x as u64)),
        _ => Err(FormatFault::BadArg { n }),
    }
}

/// Appends what a conversion writes.
fn write_conversion<L: Living + Names>(
    out: &mut Out,
    conversion: Conversion,
    precision: Option<u64>,
    args: &[Value],
    used: &mut usize,
    cells: &Cells,
    names: &L,
) -> Result<(), FormatFault>
    requires closed { IsClosed cells.now }
    requires there { All (IsThere cells.now) args.now }
    ensures text { Appends result out.old out.new (written (L.live names.now) (spelled (L.live names.now) (L.name names.now) cells.now) args.now used.old precision conversion) }
    ensures used { OnOk result (used.new ≡ used.old + conversion_uses conversion) }
{
    if conversion == Conversion::Percent {
        return out.push('%');
    }
    let v = argument(args, used)?;
    write_value(
        out,
        conversion,
        precision,
        v,
        *used as u64 + 1,
        cells,
        names,
    )
}

/// Appends what a conversion writes of its argument, whose number is n.
fn write_value<L: Living + Names>(
    out: &mut Out,
    conversion: Conversion,
    precision: Option<u64>,
    v: &Value,
    n: u64,
    cells: &Cells,
    names: &L,
) -> Result<(), FormatFault>
    requires closed { IsClosed cells.now }
    requires there { IsThere cells.now v.now }
    ensures { Appends result out.old out.new (value_written (L.live names.now) (spelled (L.live names.now) (L.name names.now) cells.now) n precision conversion v.now) }
{
    match conversion {
        Conversion::Text => write_text(out, v, precision, n, names),
        Conversion::Decimal => write_decimal(out, integer(v, names), n),
        Conversion::Based(base) => write_based(out, integer(v, names), base, n),
        Conversion::CodePoint => write_code_point(out, integer(v, names), n),
        Conversion::Any => write_spelled(out, v, cells, names),
        Conversion::Percent => out.push('%'),
    }
}

/// Appends a text, cut to its precision.
fn write_text<L: Living>(
    out: &mut Out,
    v: &Value,
    precision: Option<u64>,
    n: u64,
    live: &L,
) -> Result<(), FormatFault>
    ensures { Appends result out.old out.new (text_written n precision (text_of (read (L.live live.now) v.now))) }
{
    match as_read(v, live) {
        Some(Value::Str(s)) => out.push_all(cut(s.as_slice(), precision)),
        _ => Err(FormatFault::BadArg { n }),
    }
}

/// The first code points, as many as a precision says.
fn cut(s: &[char], precision: Option<u64>) -> &[char]
    ensures { result.now ≡ cut_to precision s.now }
{
    match precision {
        Some(n) if (n as usize) < s.len() => &s[..n as usize],
        _ => s,
    }
}

/// Appends an integer in decimal.
fn write_decimal(out: &mut Out, value: Option<i64>, n: u64) -> Result<(), FormatFault>
    ensures { Appends result out.old out.new (decimal_written n value) }
{
    match value {
        Some(x) => write_int(out, x),
        None => Err(FormatFault::BadArg { n }),
    }
}

/// Appends an integer from 0 up in another base.
fn write_based(out: &mut Out, value: Option<i64>, base: Base, n: u64) -> Result<(), FormatFault>
    ensures { Appends result out.old out.new (based_written n base value) }
{
    match value {
        Some(x) if x >= 0 => {
            let digits = digits_of(out.alloc(), base, x as u64)?;
            out.push_all(digits.as_slice())
        }
        _ => Err(FormatFault::BadArg { n }),
    }
}

/// The digits of a number in another base.
fn digits_of(alloc: Global, base: Base, n: u64) -> Result<Vec<char>, AllocError>
    ensures { IfOk result (λ v. v.items ≡ digits_in base n) }
{
    let text = in_base(alloc, base, n)?;
    code_points(alloc, text.as_str())
}

/// A number in another base.
fn in_base(alloc: Global, base: Base, n: u64) -> Result<String, AllocError>
    ensures { IfOk result (λ s. s.bytes.items ≡ digits_in base n) }
{
    match base {
        Base::Octal => format!(in alloc; "{n:o}"),
        Base::SmallHex => format!(in alloc; "{n:x}"),
        Base::LargeHex => format!(in alloc; "{n:X}"),
    }
}

/// Appends the code point with a number.
fn write_code_point(out: &mut Out, value: Option<i64>, n: u64) -> Result<(), FormatFault>
    ensures { Appends result out.old out.new (code_point_written n (code_point_at value)) }
{
    match code_point(value) {
        Some(c) => out.push(c),
        None => Err(FormatFault::BadArg { n }),
    }
}

/// The code point with a number.
fn code_point(value: Option<i64>) -> Option<char>
    ensures { result ≡ code_point_at value }
{
    match value {
        Some(x) if x >= 0 && x <= 0x10FFFF => char::from_u32(x as u32),
        _ => None,
    }
}

/// Fills what was appended from a place on up to a width.
fn fill(out: &mut Out, start: usize, d: Directive, width: Option<u64>) -> Result<(), FormatFault>
    requires { start ≤ length out.old }
    ensures { Becomes result out.new (take start out.old ++ filled d width (drop start out.old)) }
{
    let text = rest_of(out.as_slice(), start);
    let n = missing(width, text);
    let place = start + fill_place(d, text);
    out.put_in(place, n, filler(d))
}

/// How many code points are missing.
fn missing(width: Option<u64>, text: &[char]) -> usize
    ensures { result ≡ missing_of width text.now }
{
    match width {
        Some(width) => (width as usize).saturating_sub(text.len()),
        None => 0,
    }
}

/// Where the fill goes.
fn fill_place(d: Directive, text: &[char]) -> usize
    ensures value { result ≡ fill_place_of d text.now }
    ensures within { result ≤ length text.now }
{
    if has_zeros(d) {
        mark_len(text, '-')
    } else if d.left {
        text.len()
    } else {
        0
    }
}

/// Zeros or spaces.
fn filler(d: Directive) -> char
    ensures { result ≡ filler_of d }
{
    if has_zeros(d) { '0' } else { ' ' }
}

/// Whether the fill is zeros.
fn has_zeros(d: Directive) -> bool
    ensures { result ≡ has_zeros_of d }
{
    d.zeros && !d.left && is_number(d.conversion)
}

/// Whether a conversion writes a number.
fn is_number(conversion: Conversion) -> bool
    ensures { result ≡ is_number_of conversion }
{
    matches!(conversion, Conversion::Decimal | Conversion::Based(_))
}

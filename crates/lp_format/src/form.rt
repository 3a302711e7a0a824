//! The pieces of a form.
ghost use Rattle.std.specs.Prelude.{◌≡◌, ◌<◌, ◌≤◌, ◌+◌, length};
ghost use Rattle.lp_format.specs.Forms.{behind_left as behind_left_of, behind_marks as behind_marks_of, behind_precision as behind_precision_of, behind_width as behind_width_of, conversion as conversion_named, count as count_of, count_len as count_length, digits_count, directive as directive_of, is_wrong as wrong, limited as limited_to, mark_len as mark_length, marked as marked_as, marked_len as marked_length, needed as needed_as, piece as piece_of, piece_len as piece_length, precision as precision_of, precision_len as precision_length};

use lp_text::form::{point, rest_of};
use lp_text::scan::{digit_count, magnitude};

/// The greatest width and precision, in code points.
const WIDEST: u64 = 9999;

/// A width or a precision.
#[derive(Clone, Copy, Debug, PartialEq, Eq)]
pub(crate) enum Count {
    /// None.
    Absent,
    /// A number up to 9999.
    Given(u64),
    /// `*`: the next argument.
    Argument,
    /// A number above 9999, or none where one is needed.
    Wrong,
}

/// What a directive does with its argument.
#[derive(Clone, Copy, Debug, PartialEq, Eq)]
pub(crate) enum Conversion {
    /// `%s`: a text.
    Text,
    /// `%d` and `%i`: an integer.
    Decimal,
    /// `%o`, `%x` and `%X`: an integer from 0 up, in another base.
    Based(Base),
    /// `%c`: a code point.
    CodePoint,
    /// `%O`: any value.
    Any,
    /// `%%`: a `%`, without an argument.
    Percent,
}

/// A base other than 10.
#[derive(Clone, Copy, Debug, PartialEq, Eq)]
pub(crate) enum Base {
    /// Base 8.
    Octal,
    /// Base 16 with small letters.
    SmallHex,
    /// Base 16 with capitals.
    LargeHex,
}

/// A directive.
#[derive(Clone, Copy, Debug, PartialEq, Eq)]
pub(crate) struct Directive {
    /// Whether the fill goes behind the text.
    pub(crate) left: bool,
    /// Whether the fill of a number is zeros.
    pub(crate) zeros: bool,
    /// How many code points there are at least.
    pub(crate) width: Count,
    /// How many code points of a text there are at most.
    pub(crate) precision: Count,
    /// What becomes of the argument.
    pub(crate) conversion: Conversion,
}

/// A piece of a form.
#[derive(Clone, Copy, Debug, PartialEq, Eq)]
pub(crate) enum Piece {
    /// A `%` that begins no directive.
    Bad,
    /// A directive.
    Made(Directive),
    /// A code point that stands for itself.
    Plain(char),
}

/// The piece that a form begins with.
pub(crate) fn first_piece(form: &[char]) -> Piece
    ensures { result ≡ piece_of form.now }
{
    let first = point(form, 0);
    if first == '%' {
        marked(rest_of(form, 1))
    } else {
        Piece::Plain(first)
    }
}

/// How many code points the piece has that a form begins with.
pub(crate) fn piece_len(form: &[char]) -> usize
    requires { 0 < length form.now }
    ensures value { result ≡ piece_length form.now }
    ensures some { 0 < result }
    ensures within { result ≤ length form.now + 2 }
{
    if point(form, 0) == '%' {
        marked_len(rest_of(form, 1))
    } else {
        1
    }
}

/// The directive of what follows a `%`.
#[tactic(auto, unfolding(crate::specs::Forms::marked))]
fn marked(form: &[char]) -> Piece
    ensures { result ≡ marked_as form.now }
{
    let marks = behind_left(form);
    let width = behind_marks(form);
    let dot = behind_width(form);
    made(
        point(form, 0) == '-',
        point(marks, 0) == '0',
        count_at(width),
        precision(dot),
        point(behind_precision(form), 0),
    )
}

/// How many code points a directive has, of what follows its `%`.
#[tactic(auto, unfolding(crate::specs::Forms::marked_len))]
fn marked_len(form: &[char]) -> usize
    ensures value { result ≡ marked_length form.now }
    ensures some { 0 < result }
    ensures within { result ≤ length form.now + 2 }
{
    let marks = mark_len(form, '-') + mark_len(behind_left(form), '0');
    let width = count_len(behind_marks(form));
    marks + width + precision_len(behind_width(form)) + 2
}

/// What follows a `-` that may stand here.
fn behind_left(form: &[char]) -> &[char]
    ensures { result.now ≡ behind_left_of form.now }
{
    rest_of(form, mark_len(form, '-'))
}

/// What follows the marks.
fn behind_marks(form: &[char]) -> &[char]
    ensures { result.now ≡ behind_marks_of form.now }
{
    let marks = behind_left(form);
    rest_of(marks, mark_len(marks, '0'))
}

/// What follows the width.
fn behind_width(form: &[char]) -> &[char]
    ensures { result.now ≡ behind_width_of form.now }
{
    let width = behind_marks(form);
    rest_of(width, count_len(width))
}

/// What follows the precision.
fn behind_precision(form: &[char]) -> &[char]
    ensures { result.now ≡ behind_precision_of form.now }
{
    let dot = behind_width(form);
    rest_of(dot, precision_len(dot))
}

/// How many code points a mark has that may stand here.
pub(crate) fn mark_len(form: &[char], mark: char) -> usize
    requires { 0 < mark }
    ensures value { result ≡ mark_length mark form.now }
    ensures within { result ≤ length form.now }
{
    if !form.is_empty() && point(form, 0) == mark {
        1
    } else {
        0
    }
}

/// How many code points a number has that may stand here.
fn count_len(form: &[char]) -> usize
    ensures value { result ≡ count_length form.now }
    ensures within { result ≤ length form.now }
{
    if !form.is_empty() && point(form, 0) == '*' {
        1
    } else {
        digit_count(form)
    }
}

/// How many code points a precision has that may stand here.
fn precision_len(form: &[char]) -> usize
    ensures value { result ≡ precision_length form.now }
    ensures within { result ≤ length form.now }
{
    if !form.is_empty() && point(form, 0) == '.' {
        1 + count_len(rest_of(form, 1))
    } else {
        0
    }
}

/// A number that may stand here.
fn count_at(form: &[char]) -> Count
    ensures { result ≡ count_of form.now }
{
    if point(form, 0) == '*' {
        return Count::Argument;
    }
    digits(&form[..digit_count(form)])
}

/// The number that digits write.
fn digits(digits: &[char]) -> Count
    ensures { result ≡ digits_count digits.now }
{
    if digits.is_empty() {
        return Count::Absent;
    }
    match magnitude(digits) {
        Some(n) => limited(n),
        None => Count::Wrong,
    }
}

/// A number up to 9999.
fn limited(n: u64) -> Count
    ensures { result ≡ limited_to n }
{
    if n > WIDEST {
        return Count::Wrong;
    }
    Count::Given(n)
}

/// A precision that may stand here.
fn precision(form: &[char]) -> Count
    ensures { result ≡ precision_of form.now }
{
    if point(form, 0) == '.' {
        needed(count_at(rest_of(form, 1)))
    } else {
        Count::Absent
    }
}

/// A number that may not be missing.
fn needed(count: Count) -> Count
    ensures { result ≡ needed_as count }
{
    match count {
        Count::Absent => Count::Wrong,
        other => other,
    }
}

/// The directive of its parts.
fn made(left: bool, zeros: bool, width: Count, precision: Count, letter: char) -> Piece
    ensures { result ≡ directive_of left zeros width precision letter }
{
    if is_wrong(width) || is_wrong(precision) {
        return Piece::Bad;
    }
    match conversion_of(letter) {
        Some(conversion) => Piece::Made(Directive {
            left,
            zeros,
            width,
            precision,
            conversion,
        }),
        None => Piece::Bad,
    }
}

fn is_wrong(count: Count) -> bool
    ensures { result ≡ wrong count }
{
    match count {
        Count::Wrong => true,
        _ => false,
    }
}

/// What a letter stands for.
fn conversion_of(letter: char) -> Option<Conversion>
    ensures { result ≡ conversion_named letter }
{
    match letter {
        '%' => Some(Conversion::Percent),
        's' => Some(Conversion::Text),
        'd' | 'i' => Some(Conversion::Decimal),
        'o' => Some(Conversion::Based(Base::Octal)),
        'x' => Some(Conversion::Based(Base::SmallHex)),
        'X' => Some(Conversion::Based(Base::LargeHex)),
        'c' => Some(Conversion::CodePoint),
        'O' => Some(Conversion::Any),
        _ => None,
    }
}

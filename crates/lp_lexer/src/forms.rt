//! The forms of tokens.
ghost use Rattle.std.specs.Prelude.{◌≡◌, ◌+◌, ◌*◌, ◌<◌, ◌≤◌, IfOk, min};
ghost use Rattle.std.specs.Char.{digit_value};
ghost use Rattle.lp_lexer.specs.Source.{code_at, past, front, skipped};
ghost use Rattle.lp_lexer.specs.Forms.{is_letter as letter, is_digit as digit, is_word as word, base_of as base_letter, base_at as base_here, escaped as plain_escape, escape, letter_at as letter_here, name, number, text, literal, mark, read, integer, number_after};
ghost use Rattle.lp_lexer.specs.Steps.{IsRead, IsTextStep, too_large};

use crate::cursor::Cursor;
use crate::marks::longest_mark;
use crate::sign::Letter;
use lp_tree::chars::Chars;
use lp_tree::token::{LexKind, TokenKind};
use std::alloc::{AllocError, Global};

/// The greatest integer of a source.
const GREATEST: u64 = 9223372036854775807;

/// A letter that begins a name.
pub(crate) fn is_letter(c: char) -> bool
    ensures { result ≡ letter c }
{
    'a' <= c && c <= 'z' || 'A' <= c && c <= 'Z' || c == '_'
}

/// The value of a digit in any base up to 36, or else 36.
fn digit_of(c: char) -> u32
    ensures value { result ≡ digit_value c }
    ensures bound { result ≤ 36 }
{
    c.to_digit(36).unwrap_or(36)
}

/// A digit of a base.
fn is_digit(base: u32, c: char) -> bool
    ensures { result ≡ digit base c }
{
    digit_of(c) < base
}

/// What a name goes on with.
fn is_word(c: char) -> bool
    ensures { result ≡ word c }
{
    is_letter(c) || is_digit(10, c)
}

/// Reads a name.
fn read_name(alloc: Global, cursor: &mut Cursor) -> Result<TokenKind, AllocError>
    ensures { IfOk result (λ k. IsRead (name cursor.old) k cursor.new) }
{
    let mut letters = Vec::new(alloc);
    'letters: while is_word(cursor.code()) {
        letters.push(cursor.code())?;
        cursor.pass();
    }
    Ok(TokenKind::Name(Chars::from_vec(alloc, letters)?))
}

/// A number with one more digit of a base, or a number that is too large.
fn with_digit(value: u64, base: u32, digit: u32) -> u64
    requires low { 2 ≤ base }
    requires high { base ≤ 16 }
    requires is_digit { digit < base }
    requires value { value ≤ too_large }
    ensures { result ≡ min (value * base + digit) too_large }
{
    let base = u64::from(base);
    let digit = u64::from(digit);
    if value <= (GREATEST - digit) / base {
        value * base + digit
    } else {
        GREATEST + 1
    }
}

/// The integer of a value.
fn integer_of(value: u64) -> TokenKind
    ensures { result ≡ integer value }
{
    if value <= GREATEST {
        TokenKind::Int(value as i64)
    } else {
        TokenKind::Bad(LexKind::NumberTooLarge)
    }
}

/// Reads the digits of an integer.
fn read_digits(cursor: &mut Cursor, base: u32) -> TokenKind
    requires low { 2 ≤ base }
    requires high { base ≤ 16 }
    ensures kind { result ≡ integer (number_after base 0 (front (digit base) cursor.old.left)) }
    ensures after { cursor.new ≡ past (digit base) cursor.old.behind cursor.old.left }
{
    let mut value = 0;
    'digits: while is_digit(base, cursor.code()) {
        value = with_digit(value, base, digit_of(cursor.code()));
        cursor.pass();
    }
    integer_of(value)
}

/// The base that a letter behind a 0 stands for.
fn base_of(c: char) -> u32
    ensures value { result ≡ base_letter c }
    ensures low { 2 ≤ result }
    ensures high { result ≤ 16 }
{
    match c {
        'x' => 16,
        'o' => 8,
        'b' => 2,
        _ => 10,
    }
}

/// The base of the integer that begins here.
fn base_at(cursor: &Cursor) -> u32
    ensures value { result ≡ base_here cursor.now.left }
    ensures low { 2 ≤ result }
    ensures high { result ≤ 16 }
{
    if cursor.code() != '0' {
        return 10;
    }
    let (_zero, letter, digit) = cursor.codes();
    let base = base_of(letter);
    if is_digit(base, digit) { base } else { 10 }
}

/// Reads an integer.
fn read_number(cursor: &mut Cursor) -> TokenKind
    ensures { IsRead (number cursor.old) result cursor.new }
{
    let base = base_at(cursor);
    if base != 10 {
        cursor.skip(2);
    }
    read_digits(cursor, base)
}

/// The character that a backslash and a character stand for.
fn escaped(c: char) -> char
    ensures { result ≡ plain_escape c }
{
    match c {
        'n' => '\n',
        't' => '\t',
        'r' => '\r',
        'a' => '\u{7}',
        'b' => '\u{8}',
        'e' => '\u{1b}',
        _ => c,
    }
}

/// The letter of a backslash, by the three characters behind it.
fn escape_of(c: char, h: char, k: char) -> Letter
    ensures { result ≡ escape c h k }
{
    if c == '\n' {
        Letter {
            code: '\\',
            size: 1,
        }
    } else if c == 'x' && is_digit(16, h) && is_digit(16, k) {
        let value = digit_of(h) * 16 + digit_of(k);
        Letter {
            code: char::from(value as u8),
            size: 4,
        }
    } else {
        Letter {
            code: escaped(c),
            size: 2,
        }
    }
}

/// The letter of a text that begins here.
fn letter_at(cursor: &Cursor) -> Letter
    ensures { result ≡ letter_here cursor.now.left }
{
    let code = cursor.code();
    if code != '\\' {
        return Letter { code, size: 1 };
    }
    let mut behind = cursor.copy();
    behind.pass();
    let (c, h, k) = behind.codes();
    escape_of(c, h, k)
}

/// What comes next in a text.
enum TextStep {
    Letter(char),
    Close,
    LineEnd,
}

/// Reads what comes next in a text.
fn text_step(cursor: &mut Cursor) -> TextStep
    ensures { IsTextStep cursor.old result cursor.new }
{
    match cursor.peek() {
        None => TextStep::LineEnd,
        Some(sign) => match sign.code {
            '"' => {
                cursor.pass();
                TextStep::Close
            }
            '\n' => TextStep::LineEnd,
            _ => {
                let letter = letter_at(cursor);
                cursor.skip(letter.size);
                TextStep::Letter(letter.code)
            }
        },
    }
}

/// Reads a text.
fn read_text(alloc: Global, cursor: &mut Cursor) -> Result<TokenKind, AllocError>
    ensures { IfOk result (λ k. IsRead (text cursor.old) k cursor.new) }
{
    cursor.pass();
    let mut letters = Vec::new(alloc);
    'letters: loop {
        match text_step(cursor) {
            TextStep::Letter(code) => letters.push(code)?,
            TextStep::Close => return Ok(TokenKind::Text(Chars::from_vec(alloc, letters)?)),
            TextStep::LineEnd => return Ok(TokenKind::Bad(LexKind::OpenString)),
        }
    }
}

/// Reads a character literal, or the quote alone.
fn read_literal(cursor: &mut Cursor) -> TokenKind
    ensures { IsRead (literal cursor.old) result cursor.new }
{
    cursor.pass();
    let code = cursor.code();
    if code == '\'' || code == '\n' {
        return TokenKind::Bad(LexKind::BadChar);
    }
    let letter = letter_at(cursor);
    let mut close = cursor.copy();
    close.skip(letter.size);
    if close.code() != '\'' {
        return TokenKind::Bad(LexKind::BadChar);
    }
    close.pass();
    *cursor = close;
    TokenKind::Int(i64::from(u32::from(letter.code)))
}

/// Reads a mark, or a character that begins no token.
fn read_mark(cursor: &mut Cursor) -> TokenKind
    ensures { IsRead (mark cursor.old) result cursor.new }
{
    let (a, b, c) = cursor.codes();
    match longest_mark(a, b, c) {
        Some((mark, size)) => {
            cursor.skip(size);
            TokenKind::Mark(mark)
        }
        None => {
            cursor.pass();
            TokenKind::Bad(LexKind::BadChar)
        }
    }
}

/// Reads the token that begins here.
pub(crate) fn read_token(alloc: Global, cursor: &mut Cursor) -> Result<TokenKind, AllocError>
    ensures { IfOk result (λ k. IsRead (read cursor.old) k cursor.new) }
{
    let c = cursor.code();
    if is_letter(c) {
        read_name(alloc, cursor)
    } else if is_digit(10, c) {
        Ok(read_number(cursor))
    } else if c == '"' {
        read_text(alloc, cursor)
    } else if c == '\'' {
        Ok(read_literal(cursor))
    } else {
        Ok(read_mark(cursor))
    }
}

//! The marks and how they are spelled.
ghost use Rattle.std.specs.Prelude.{◌≡◌, option_map};
ghost use Rattle.lp_lexer.specs.Marks.{one, twice, with_equals, two, twice_with_equals, three, longest, Fit, fit_of};

use lp_tree::operator::{AssignOp, BinOp, Step};
use lp_tree::token::Mark;

/// A mark of one character.
fn mark_of_one(a: char) -> Option<Mark>
    ensures { result ≡ one a }
{
    Some(match a {
        '(' => Mark::OpenParen,
        ')' => Mark::CloseParen,
        '{' => Mark::OpenBrace,
        '}' => Mark::CloseBrace,
        '[' => Mark::OpenBracket,
        ']' => Mark::CloseBracket,
        ',' => Mark::Comma,
        ';' => Mark::Semicolon,
        ':' => Mark::Colon,
        '.' => Mark::Dot,
        '?' => Mark::Question,
        '#' => Mark::Hash,
        '!' => Mark::Not,
        '~' => Mark::Flip,
        '+' => Mark::Binary(BinOp::Add),
        '-' => Mark::Binary(BinOp::Sub),
        '*' => Mark::Binary(BinOp::Mul),
        '/' => Mark::Binary(BinOp::Div),
        '%' => Mark::Binary(BinOp::Rem),
        '&' => Mark::Binary(BinOp::And),
        '|' => Mark::Binary(BinOp::Or),
        '^' => Mark::Binary(BinOp::Xor),
        '<' => Mark::Binary(BinOp::Lt),
        '>' => Mark::Binary(BinOp::Gt),
        '=' => Mark::Assign(AssignOp::Set),
        _ => return None,
    })
}

/// A mark of one character twice.
fn mark_of_twice(a: char) -> Option<Mark>
    ensures { result ≡ twice a }
{
    match a {
        ':' => Some(Mark::ColonColon),
        '.' => Some(Mark::DotDot),
        '<' => Some(Mark::Binary(BinOp::Shl)),
        '>' => Some(Mark::Binary(BinOp::Shr)),
        '=' => Some(Mark::Binary(BinOp::Eq)),
        '&' => Some(Mark::AndThen),
        '|' => Some(Mark::OrElse),
        '+' => Some(Mark::Step(Step::Up)),
        '-' => Some(Mark::Step(Step::Down)),
        _ => None,
    }
}

/// A mark of a character and `=`.
fn mark_with_equals(a: char) -> Option<Mark>
    ensures { result ≡ with_equals a }
{
    match a {
        '<' => Some(Mark::Binary(BinOp::Le)),
        '>' => Some(Mark::Binary(BinOp::Ge)),
        '!' => Some(Mark::Binary(BinOp::Ne)),
        '+' => Some(Mark::Assign(AssignOp::Add)),
        '-' => Some(Mark::Assign(AssignOp::Sub)),
        '*' => Some(Mark::Assign(AssignOp::Mul)),
        '/' => Some(Mark::Assign(AssignOp::Div)),
        '%' => Some(Mark::Assign(AssignOp::Rem)),
        '&' => Some(Mark::Assign(AssignOp::And)),
        '|' => Some(Mark::Assign(AssignOp::Or)),
        '^' => Some(Mark::Assign(AssignOp::Xor)),
        _ => None,
    }
}

/// A mark of two characters.
fn mark_of_two(a: char, b: char) -> Option<Mark>
    ensures { result ≡ two a b }
{
    if a == b {
        mark_of_twice(a)
    } else if b == '=' {
        mark_with_equals(a)
    } else if a == '-' && b == '>' {
        Some(Mark::Arrow)
    } else {
        None
    }
}

/// A mark of three characters: one twice, and `=`.
fn mark_of_three(a: char, b: char, c: char) -> Option<Mark>
    ensures { result ≡ three a b c }
{
    if a != b || c != '=' {
        return None;
    }
    match a {
        '<' => Some(Mark::Assign(AssignOp::Shl)),
        '>' => Some(Mark::Assign(AssignOp::Shr)),
        '&' => Some(Mark::Assign(AssignOp::AndThen)),
        '|' => Some(Mark::Assign(AssignOp::OrElse)),
        _ => None,
    }
}

/// The longest mark that three characters begin with, and how many of them it has.
pub(crate) fn longest_mark(a: char, b: char, c: char) -> Option<(Mark, u32)>
    ensures { option_map fit_of result ≡ longest a b c }
{
    if let Some(mark) = mark_of_three(a, b, c) {
        return Some((mark, 3));
    }
    if let Some(mark) = mark_of_two(a, b) {
        return Some((mark, 2));
    }
    match mark_of_one(a) {
        Some(mark) => Some((mark, 1)),
        None => None,
    }
}

//! The walk over a source.
ghost use Rattle.std.specs.Prelude.{◌≡◌, ◌≤◌, IfOk, false};
ghost use Rattle.lp_lexer.specs.Source.{most_bytes, past, width};
ghost use Rattle.lp_lexer.specs.Lexis.{begin_of, is_blank as blank, comment, stays_on_line, past_token};
ghost use Rattle.lp_lexer.specs.Walks.{place_of, IsStep, IsWalk, IsCommentOf};

use crate::characters::Characters;
use crate::cursor::Cursor;
use crate::forms::read_token;
use crate::sign::Sign;
use lp_tree::token::Token;
use std::alloc::{AllocError, Global};

/// A space, a tab or a newline.
fn is_blank(c: char) -> bool
    ensures { result ≡ blank c }
{
    c == ' ' || c == '\t' || c == '\n'
}

/// Reads up to the line's end.
fn skip_line(cursor: &mut Cursor)
    ensures { cursor.new ≡ past stays_on_line cursor.old.behind cursor.old.left }
{
    'line: while let Some(sign) = cursor.peek() {
        if sign.code == '\n' {
            return;
        }
        cursor.pass();
    }
}

/// Reads the inside of a comment and its end, and says whether it goes over a line's end.
fn skip_comment(cursor: &mut Cursor) -> Option<bool>
    ensures { IsCommentOf (comment false cursor.old.left) result cursor.new }
{
    let mut crosses = false;
    'inside: while let Some(sign) = cursor.peek() {
        cursor.pass();
        if sign.code == '*' && cursor.code() == '/' {
            cursor.pass();
            return Some(crosses);
        }
        crosses = crosses || sign.code == '\n';
    }
    None
}

/// A place in a source, with the tokens before it.
#[derive(Drop)]
struct Lexer<'a> {
    cursor: Cursor<'a>,
    /// Whether no token of this line was read yet.
    fresh: bool,
    tokens: Vec<Token>,
}

/// A step of the walk.
enum Step {
    /// The lexer went on.
    Went,
    /// The source is at its end.
    End,
    /// A comment begins here that has no end.
    Open(u32),
}

/// Reads the token that begins with a sign.
fn take_token(alloc: Global, lexer: &mut Lexer, sign: Sign) -> Result<(), AllocError>
    ensures { IfOk result (λ _. place_of lexer.new ≡ past_token (place_of lexer.old) sign) }
{
    let kind = read_token(alloc, &mut lexer.cursor)?;
    lexer.tokens.push(Token {
        kind,
        line: sign.line,
        at: sign.at,
        len: lexer.cursor.behind().saturating_sub(sign.at),
        first: lexer.fresh,
    })?;
    lexer.fresh = false;
    Ok(())
}

/// Goes on behind a blank, a comment or a token.
fn go_on(alloc: Global, lexer: &mut Lexer) -> Result<Step, AllocError>
    ensures { IfOk result (λ s. IsStep (place_of lexer.old) s (place_of lexer.new)) }
{
    let Some(sign) = lexer.cursor.peek() else {
        return Ok(Step::End);
    };
    if is_blank(sign.code) {
        lexer.cursor.pass();
        lexer.fresh = lexer.fresh || sign.code == '\n';
        return Ok(Step::Went);
    }
    if sign.code == '/' {
        let (_, second, _) = lexer.cursor.codes();
        if second == '/' {
            skip_line(&mut lexer.cursor);
            return Ok(Step::Went);
        }
        if second == '*' {
            lexer.cursor.skip(2);
            return match skip_comment(&mut lexer.cursor) {
                Some(crosses) => {
                    lexer.fresh = lexer.fresh || crosses;
                    Ok(Step::Went)
                }
                None => Ok(Step::Open(sign.at)),
            };
        }
    }
    take_token(alloc, lexer, sign)?;
    Ok(Step::Went)
}

/// Where a walk ends.
pub(crate) enum Walk {
    /// At the end of the source, with its tokens.
    Whole(Vec<Token>),
    /// At a comment without end.
    Open(u32),
}

/// Walks over the characters of a source.
pub(crate) fn walk_over(alloc: Global, characters: Characters) -> Result<Walk, AllocError>
    requires { width characters ≤ most_bytes }
    ensures { IfOk result (IsWalk (begin_of characters.entry)) }
{
    let mut lexer = Lexer {
        cursor: Cursor::start(characters),
        fresh: true,
        tokens: Vec::new(alloc),
    };
    'steps: loop {
        match go_on(alloc, &mut lexer)? {
            Step::Went => {}
            Step::End => return Ok(Walk::Whole(lexer.tokens)),
            Step::Open(at) => return Ok(Walk::Open(at)),
        }
    }
}

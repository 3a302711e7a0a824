//! What a token is to a machine of statements.
ghost use Rattle.std.specs.Prelude.{◌≡◌};
ghost use Rattle.lp_parser_stmt.specs.Machine.{class, mark_class as class_of_mark, mark_in, word_class as class_of_word};

use lp_tree::keyword::{Base, Keyword};
use lp_tree::seen::Sort;
use lp_tree::token::Mark;

/// What a token begins where a statement may begin.
#[derive(Clone, Copy, Debug, PartialEq, Eq)]
pub enum Class {
    /// `{`
    BraceOpens,
    /// `}`
    BraceCloses,
    /// `;`
    SemicolonEnds,
    /// `)`
    ParenCloses,
    /// Any token of which no other variant speaks: an expression, if anything.
    ExpressionBegins,
    /// A declaration.
    TypeBegins(Base),
    /// A reserved word that begins no expression.
    WordBegins(Keyword),
}

fn mark_class(mark: Mark) -> Class
    ensures { result ≡ class_of_mark mark }
{
    match mark {
        Mark::OpenBrace => Class::BraceOpens,
        Mark::CloseBrace => Class::BraceCloses,
        Mark::Semicolon => Class::SemicolonEnds,
        Mark::CloseParen => Class::ParenCloses,
        _ => Class::ExpressionBegins,
    }
}

fn word_class(word: Keyword) -> Class
    ensures { result ≡ class_of_word word }
{
    match word {
        Keyword::Base(base) => Class::TypeBegins(base),
        Keyword::Catch | Keyword::Sscanf => Class::ExpressionBegins,
        other => Class::WordBegins(other),
    }
}

/// What a token begins.
pub fn class_of(sort: &Sort) -> Class
    ensures { result ≡ class sort.now }
{
    match sort {
        Sort::Mark(mark) => mark_class(*mark),
        Sort::Reserved(word) => word_class(*word),
        _ => Class::ExpressionBegins,
    }
}

/// The mark that a token is.
pub fn mark_of(sort: &Sort) -> Option<Mark>
    ensures { result ≡ mark_in sort.now }
{
    match sort {
        Sort::Mark(mark) => Some(*mark),
        _ => None,
    }
}

//! The directives that change the table of macros, and pragmas.
ghost use Rattle.std.specs.Prelude.{◌≡◌, IfOk, Some, [], drop};
ghost use Rattle.std.specs.Option.{option_copied};
ghost use Rattle.lp_preproc.specs.Directives.{AreParameters, IsParameter, IsParameterStep, define, define_name, defined, definition, directive_of, kinds, more_parameters, one_name, other_of, parameters, said, step_by, undefine, with_named, with_parameters, with_pragma, with_pragmas};
ghost use Rattle.lp_preproc.specs.State.{State};
ghost use Rattle.lp_preproc.specs.Steps.{Does};
ghost use Rattle.lp_preproc.specs.Tables.{macros_in};
ghost use Rattle.lp_preproc.specs.Uses.{is_close, is_comma, is_open, name_of};
ghost use Rattle.lp_preproc.specs.Macros.{macro_of, plain};

use crate::bytes::is_directly_behind;
use crate::directive::Directive;
use crate::macros::{Body, Kinds, Macro};
use crate::params::{Distinct, Params};
use crate::result::same_name;
use crate::same::same_macro;
use crate::stop::Stop;
use crate::table::Table;
use crate::word::copy_kind;
use lp_tree::chars::Chars;
use lp_tree::fault::FaultKind;
use lp_tree::pragma::{Pragmas, TypeMode};
use lp_tree::token::{Mark, Token, TokenKind};
use std::alloc::{AllocError, Global};

/// The name that a token is.
pub fn name_part(kind: &TokenKind) -> Option<&Chars>
    ensures { option_copied result ≡ name_of kind.now }
{
    match kind {
        TokenKind::Name(name) => Some(name),
        _ => None,
    }
}

// The first directives of these letters.
fn conditional_of(name: &[char]) -> Option<Directive>
    ensures { result ≡ directive_of name.now }
{
    if same_name(name, &['i', 'f']) {
        return Some(Directive::If);
    }
    if same_name(name, &['i', 'f', 'd', 'e', 'f']) {
        return Some(Directive::Ifdef);
    }
    if same_name(name, &['i', 'f', 'n', 'd', 'e', 'f']) {
        return Some(Directive::Ifndef);
    }
    if same_name(name, &['e', 'l', 'i', 'f']) {
        return Some(Directive::Elif);
    }
    if same_name(name, &['e', 'l', 's', 'e']) {
        return Some(Directive::Else);
    }
    if same_name(name, &['e', 'n', 'd', 'i', 'f']) {
        return Some(Directive::Endif);
    }
    other_of(name)
}

// The other directives of these letters.
fn other_of(name: &[char]) -> Option<Directive>
    ensures { result ≡ other_of name.now }
{
    if same_name(name, &['i', 'n', 'c', 'l', 'u', 'd', 'e']) {
        return Some(Directive::Include);
    }
    if same_name(name, &['d', 'e', 'f', 'i', 'n', 'e']) {
        return Some(Directive::Define);
    }
    if same_name(name, &['u', 'n', 'd', 'e', 'f']) {
        return Some(Directive::Undef);
    }
    if same_name(name, &['e', 'r', 'r', 'o', 'r']) {
        return Some(Directive::Error);
    }
    if same_name(name, &['p', 'r', 'a', 'g', 'm', 'a']) {
        return Some(Directive::Pragma);
    }
    None
}

/// What the words behind a `#` say.
pub fn said(words: &[Token]) -> Option<Directive>
    ensures { result ≡ said words.now }
{
    if words.len() == 0 {
        return None;
    }
    match name_part(&words[0].kind) {
        Some(name) => conditional_of(name.as_slice()),
        None => None,
    }
}

/// The one name of a line.
pub fn one_name(words: &[Token]) -> Option<&Chars>
    ensures { option_copied result ≡ one_name words.now }
{
    match words {
        [only] => name_part(&only.kind),
        _ => None,
    }
}

/// `#undef`
pub fn undefine(table: &mut Table, words: &[Token], line: u32) -> Result<(), Stop>
    ensures { (s : State) → Does (undefine (record s { macros = (macros_in table.old) }) (one_name words.now) line) result (record s { macros = (macros_in table.new) }) }
{
    let Some(name) = one_name(words) else {
        return Err(Stop::At(FaultKind::BadDirective, line));
    };
    table.remove(name.as_slice());
    Ok(())
}

/// The tokens of some words.
pub fn kinds(alloc: Global, words: &[Token]) -> Result<Kinds, AllocError>
    ensures { IfOk result (λ k. k ≡ kinds words.now) }
{
    let mut all = Vec::new(alloc);
    'words: for word in words {
        all.push(copy_kind(&word.kind)?)?;
    }
    Kinds::from_vec(alloc, all)
}

// The pragmas with one more.
fn with_pragma(pragmas: Pragmas, name: &[char]) -> Pragmas
    ensures { result ≡ with_pragma pragmas name.now }
{
    let mut all = pragmas;
    if same_name(name, &['n', 'o', '_', 'c', 'l', 'o', 'n', 'e']) {
        all.no_clone = true;
        return all;
    }
    if same_name(name, &['n', 'o', '_', 'i', 'n', 'h', 'e', 'r', 'i', 't']) {
        all.no_inherit = true;
        return all;
    }
    if same_name(name, &['n', 'o', '_', 's', 'h', 'a', 'd', 'o', 'w']) {
        all.no_shadow = true;
        return all;
    }
    if same_name(name, &['w', 'e', 'a', 'k', '_', 't', 'y', 'p', 'e', 's']) {
        all.types = TypeMode::Weak;
        return all;
    }
    if same_name(
        name,
        &['s', 't', 'r', 'o', 'n', 'g', '_', 't', 'y', 'p', 'e', 's'],
    ) {
        all.types = TypeMode::Strong;
        return all;
    }
    if same_name(
        name,
        &['s', 't', 'r', 'i', 'c', 't', '_', 't', 'y', 'p', 'e', 's'],
    ) {
        all.types = TypeMode::Strict;
        return all;
    }
    all
}

// The pragmas with one more, if the token is a name.
fn with_named(pragmas: Pragmas, kind: &TokenKind) -> Pragmas
    ensures { result ≡ with_named pragmas (name_of kind.now) }
{
    match kind {
        TokenKind::Name(name) => with_pragma(pragmas, name.as_slice()),
        _ => pragmas,
    }
}

/// The pragmas with those of a line.
pub fn with_pragmas(pragmas: Pragmas, words: &[Token]) -> Pragmas
    ensures { result ≡ with_pragmas pragmas words.now }
{
    let mut all = pragmas;
    'words: for word in words {
        all = with_named(all, &word.kind);
    }
    all
}

// A macro without parameters, of these words.
fn plain(alloc: Global, words: &[Token]) -> Result<Macro, AllocError>
    ensures { IfOk result (λ m. m ≡ plain (Body.Tokens (kinds words.now))) }
{
    Ok(Macro {
        params: None,
        body: Body::Tokens(kinds(alloc, words)?),
    })
}

// Whether a token is a `(`.
fn is_open(kind: &TokenKind) -> bool
    ensures { result ≡ is_open kind.now }
{
    matches!(kind, TokenKind::Mark(Mark::OpenParen))
}

// Whether a token is a `)`.
fn is_close(kind: &TokenKind) -> bool
    ensures { result ≡ is_close kind.now }
{
    matches!(kind, TokenKind::Mark(Mark::CloseParen))
}

// Whether a token is a comma.
fn is_comma(kind: &TokenKind) -> bool
    ensures { result ≡ is_comma kind.now }
{
    matches!(kind, TokenKind::Mark(Mark::Comma))
}

// A name is one more parameter, unless it is one; what is no name is none.
fn add_parameter(alloc: Global, names: &mut Distinct, kind: &TokenKind) -> Result<bool, AllocError>
    ensures { IfOk result (IsParameter names.old (name_of kind.now) names.new) }
{
    match name_part(kind) {
        Some(name) => names.add(alloc, name),
        None => Ok(false),
    }
}

/// What a parameter and what stands behind it come to.
#[derive(Clone, Copy, Debug, PartialEq, Eq)]
pub enum ParameterStep {
    /// It is the last one.
    Ends,
    /// Another follows.
    GoesOn,
    /// They are no parameters.
    Bad,
}

// What stands behind a parameter.
fn step_by(kind: &TokenKind) -> ParameterStep
    ensures { result ≡ step_by kind.now }
{
    if is_close(kind) {
        return ParameterStep::Ends;
    }
    if is_comma(kind) {
        return ParameterStep::GoesOn;
    }
    ParameterStep::Bad
}

// A parameter, and what stands behind it.
fn take_parameter(
    alloc: Global,
    names: &mut Distinct,
    t: &Token,
    u: &Token,
) -> Result<ParameterStep, AllocError>
    ensures { IfOk result (IsParameterStep names.old t.now u.now names.new) }
{
    if add_parameter(alloc, names, &t.kind)? {
        Ok(step_by(&u.kind))
    } else {
        Ok(ParameterStep::Bad)
    }
}

// The parameters that begin here, and the place behind their `)`.
fn more_parameters(alloc: Global, words: &[Token]) -> Result<Option<(Distinct, usize)>, AllocError>
    ensures { IfOk result (AreParameters words.now (more_parameters [] words.now)) }
{
    let mut names = Distinct::new(alloc);
    let mut i = 0;
    'names: while words.len().saturating_sub(i) > 1 {
        match take_parameter(alloc, &mut names, &words[i], &words[i + 1])? {
            ParameterStep::Ends => return Ok(Some((names, i + 2))),
            ParameterStep::GoesOn => i += 2,
            ParameterStep::Bad => return Ok(None),
        }
    }
    Ok(None)
}

// The parameters behind a `(`, and the place behind their `)`.
fn parameters(alloc: Global, words: &[Token]) -> Result<Option<(Distinct, usize)>, AllocError>
    ensures { IfOk result (AreParameters words.now (parameters words.now)) }
{
    if words.len() == 0 {
        return Ok(None);
    }
    if is_close(&words[0].kind) {
        return Ok(Some((Distinct::new(alloc), 1)));
    }
    more_parameters(alloc, words)
}

// The tokens from a place on.
fn after(words: &[Token], from: usize) -> &[Token]
    ensures { result.now ≡ drop from words.now }
{
    let first = from.min(words.len());
    &words[first..]
}

// A macro with parameters, of the words behind the `(`.
fn with_parameters(alloc: Global, words: &[Token]) -> Result<Option<Macro>, AllocError>
    ensures { IfOk result (λ m. m ≡ with_parameters (parameters words.now)) }
{
    let Some((names, from)) = parameters(alloc, words)? else {
        return Ok(None);
    };
    Ok(Some(Macro {
        params: Some(Params::from_names(alloc, names)?),
        body: Body::Tokens(kinds(alloc, after(words, from))?),
    }))
}

// The macro that is defined, if its parameters are right.
fn definition(
    alloc: Global,
    bytes: &[u8],
    name: &Token,
    words: &[Token],
) -> Result<Option<Macro>, AllocError>
    ensures { IfOk result (λ m. m ≡ definition bytes.now name.now words.now) }
{
    if words.len() == 0 {
        return Ok(Some(plain(alloc, words)?));
    }
    if is_open(&words[0].kind) {
        if is_directly_behind(alloc, bytes, name, &words[0])? {
            return with_parameters(alloc, &words[1..]);
        }
    }
    Ok(Some(plain(alloc, words)?))
}

// A name is defined; one that is a macro already only as it is.
fn define_as(
    alloc: Global,
    table: &mut Table,
    name: &[char],
    meaning: Macro,
    line: u32,
) -> Result<(), Stop>
    ensures { (s : State) → Does (defined (record s { macros = (macros_in table.old) }) name.now meaning line (macro_of name.now (macros_in table.old))) result (record s { macros = (macros_in table.new) }) }
{
    match table.find(name) {
        Some(old) => {
            if same_macro(old, &meaning) {
                Ok(())
            } else {
                Err(Stop::At(FaultKind::BadDirective, line))
            }
        }
        None => {
            table.put(alloc, name, meaning)?;
            Ok(())
        }
    }
}

// A name is defined by these words.
fn define_name(
    alloc: Global,
    table: &mut Table,
    bytes: &[u8],
    token: &Token,
    rest: &[Token],
    line: u32,
) -> Result<(), Stop>
    ensures { (s : State) → Does (define_name (record s { macros = (macros_in table.old) }) (name_of token.now.kind) (definition bytes.now token.now rest.now) line) result (record s { macros = (macros_in table.new) }) }
{
    let Some(name) = name_part(&token.kind) else {
        return Err(Stop::At(FaultKind::BadDirective, line));
    };
    let Some(meaning) = definition(alloc, bytes, token, rest)? else {
        return Err(Stop::At(FaultKind::BadDirective, line));
    };
    define_as(alloc, table, name.as_slice(), meaning, line)
}

/// `#define`
pub fn define(
    alloc: Global,
    table: &mut Table,
    bytes: &[u8],
    words: &[Token],
    line: u32,
) -> Result<(), Stop>
    ensures { (s : State) → Does (define (record s { macros = (macros_in table.old) }) bytes.now words.now line) result (record s { macros = (macros_in table.new) }) }
{
    if words.len() == 0 {
        return Err(Stop::At(FaultKind::BadDirective, line));
    }
    define_name(alloc, table, bytes, &words[0], &words[1..], line)
}

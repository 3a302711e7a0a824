//! What a macro use puts in.
ghost use Rattle.std.specs.Prelude.{◌≡◌, ◌++◌, ◌∷◌, [], ◌≤◌, ◌<◌, ◌^◌, ℕ, IfOk, OnOk, List, Option, Some, None, map, length, slice_get};
ghost use Rattle.std.specs.Option.{option_copied, option_map};
ghost use Rattle.std.specs.Cmp.Lexicographic.{pointwise};
ghost use Rattle.lp_preproc.specs.Macros.{same_name};
ghost use Rattle.lp_preproc.specs.Uses.{argument_at, argument_of, filled, hidden_in, name_of, put, put_back, put_argument, put_words, result_words, tokens_of};
ghost use Rattle.lp_preproc.specs.State.{Setting};
ghost use Rattle.lp_preproc.specs.Macros.{Table};
ghost use Rattle.lp_preproc.specs.Steps.{Does, IsCount, IsOf, IsWithin, Standing, state_of};
ghost use Rattle.lp_preproc.specs.declared.word.Word.{Word as AnyWord};
ghost use Rattle.lp_tree.specs.declared.token.TokenKind.{TokenKind as AnyKind};

use crate::macros::{Body, Kinds};
use crate::names::Names;
use crate::params::Params;
use crate::place::Place;
use crate::reader::{MOST_PUT_IN, Reader, put_back};
use crate::row::Row;
use crate::state::Use;
use crate::stop::Stop;
use crate::word::{Word, copy_kind};
use lp_tree::fault::FaultKind;
use lp_tree::token::TokenKind;
use std::alloc::{AllocError, Global};

/// Whether two names, or two texts, are one.
pub fn same_name(a: &[char], b: &[char]) -> bool
    ensures { result ≡ same_name a.now b.now }
{
    a == b
}

/// The names that are no macros in the result of a use.
pub fn hidden_in(alloc: Global, word: &Word) -> Result<Names, AllocError>
    ensures { IfOk result (λ r. r ≡ hidden_in word.now (name_of word.now.kind)) }
{
    match &word.kind {
        TokenKind::Name(name) => word.hidden.with(alloc, name),
        _ => word.hidden.copy(),
    }
}

// The argument at a place.
fn argument_in<'a>(args: &'a [Row<Word>], i: usize) -> Option<&'a Row<Word>>
    ensures { option_copied result ≡ slice_get args.now i }
{
    if i < args.len() { Some(&args[i]) } else { None }
}

// The argument of a parameter.
fn argument_of<'a>(name: &[char], params: &Params, args: &'a [Row<Word>]) -> Option<&'a Row<Word>>
    ensures { option_copied result ≡ argument_of name.now params.now args.now }
{
    match params.place(name) {
        Some(i) => argument_in(args, i),
        None => None,
    }
}

// The argument that stands for a token of a body.
fn argument_at<'a>(
    kind: &TokenKind,
    params: &Params,
    args: &'a [Row<Word>],
) -> Option<&'a Row<Word>>
    ensures { option_copied result ≡ argument_at kind.now params.now args.now }
{
    match kind {
        TokenKind::Name(name) => argument_of(name.as_slice(), params, args),
        _ => None,
    }
}

/// A token of a body, put in.
fn put(word: &Word, depth: u32, hidden: &Names, kind: &TokenKind) -> Result<Word, AllocError>
    ensures { IfOk result (λ w. w ≡ put word.now depth hidden.now kind.now) }
{
    Ok(Word {
        kind: copy_kind(kind)?,
        line: word.line,
        hidden: hidden.copy()?,
        depth,
    })
}

/// A word of an argument, put in.
fn put_argument(
    alloc: Global,
    word: &Word,
    depth: u32,
    hidden: &Names,
    arg: &Word,
) -> Result<Word, AllocError>
    ensures { IfOk result (λ w. w ≡ put_argument word.now depth hidden.now arg.now) }
{
    Ok(Word {
        kind: copy_kind(&arg.kind)?,
        line: word.line,
        hidden: hidden.with_all(alloc, &arg.hidden)?,
        depth: arg.depth.max(depth),
    })
}

/// Puts in the words of an argument.
fn put_row(
    alloc: Global,
    out: &mut Row<Word>,
    word: &Word,
    depth: u32,
    hidden: &Names,
    arg: &[Word],
) -> Result<(), AllocError>
    ensures { OnOk result (out.new ≡ out.old ++ map (put_argument word.now depth hidden.now) arg.now) }
{
    'words: for a in arg {
        out.push(put_argument(alloc, word, depth, hidden, a)?)?;
    }
    Ok(())
}

/// Puts in the argument of a parameter, or else a token of the body.
fn put_words(
    alloc: Global,
    out: &mut Row<Word>,
    word: &Word,
    depth: u32,
    hidden: &Names,
    arg: Option<&Row<Word>>,
    kind: &TokenKind,
) -> Result<(), AllocError>
    ensures { OnOk result (out.new ≡ out.old ++ put_words word.now depth hidden.now (option_copied arg.entry) kind.now) }
{
    match arg {
        Some(arg) => put_row(alloc, out, word, depth, hidden, arg.as_slice()),
        None => {
            let single = put(word, depth, hidden, kind)?;
            out.push(single)
        }
    }
}

/// The body of a macro, the expanded arguments in the places of the parameters.
fn filled(
    alloc: Global,
    word: &Word,
    depth: u32,
    hidden: &Names,
    params: &Params,
    args: &[Row<Word>],
    kinds: &[TokenKind],
) -> Result<Row<Word>, AllocError>
    ensures { IfOk result (λ r. r ≡ filled word.now depth hidden.now params.now args.now kinds.now) }
{
    let mut out = Row::new(alloc);
    'kinds: for kind in kinds {
        let arg = argument_at(kind, params, args);
        put_words(alloc, &mut out, word, depth, hidden, arg, kind)?;
    }
    Ok(out)
}

/// The tokens of a body that is one token.
fn single(alloc: Global, kind: TokenKind) -> Result<Kinds, AllocError>
    ensures { IfOk result (λ k. k ≡ kind ∷ []) }
{
    let mut kinds = Vec::new(alloc);
    kinds.push(kind)?;
    Kinds::from_vec(alloc, kinds)
}

/// The tokens of a body, for a use.
fn tokens_of(alloc: Global, place: &Place, word: &Word, body: &Body) -> Result<Kinds, AllocError>
    ensures { IfOk result (λ ks. (c : Setting) → IsOf place.now c → ks ≡ tokens_of c word.now body.now) }
{
    match body {
        Body::Tokens(kinds) => kinds.copy(),
        Body::File => single(alloc, TokenKind::Text(place.path().copy()?)),
        Body::Line => single(alloc, TokenKind::Int(word.line as i64)),
        Body::Folder => single(alloc, TokenKind::Text(place.folder().copy()?)),
    }
}

// How many words an argument has, or else one token of the body.
fn words_count(arg: Option<&Row<Word>>) -> usize
    ensures count { (w : AnyWord) (d : ℕ) (hidden : List (List ℕ)) (k : AnyKind) → result ≡ length (put_words w d hidden (option_copied arg.entry) k) }
    ensures small { result < 2 ^ 63 }
{
    match arg {
        Some(arg) => arg.len(),
        None => 1,
    }
}

// How many words a body is with its arguments, unless there are more than so many.
fn filled_count(
    params: &Params,
    args: &[Row<Word>],
    kinds: &[TokenKind],
    room: usize,
) -> Option<usize>
    requires { room ≤ 1000000 }
    ensures { (w : AnyWord) (d : ℕ) (hidden : List (List ℕ)) → IsCount room result (length (filled w d hidden params.now args.now kinds.now)) }
{
    let mut count = 0;
    'kinds: for kind in kinds {
        let more = words_count(argument_at(kind, params, args));
        if more > room - count {
            return None;
        }
        count += more;
    }
    Some(count)
}

// What a use puts in at a depth, unless it is more than so many words.
fn result_of(
    alloc: Global,
    place: &Place,
    usage: &Use,
    depth: u32,
    args: &[Row<Word>],
    room: usize,
) -> Result<Option<Row<Word>>, AllocError>
    requires { room ≤ 1000000 }
    ensures { IfOk result (λ r. (c : Setting) → IsOf place.now c → IsWithin room r (result_words c usage.now depth args.now)) }
{
    let kinds = tokens_of(alloc, place, &usage.word, &usage.body)?;
    if filled_count(&usage.params, args, kinds.as_slice(), room).is_none() {
        return Ok(None);
    }
    let hidden = hidden_in(alloc, &usage.word)?;
    let words = filled(
        alloc,
        &usage.word,
        depth,
        &hidden,
        &usage.params,
        args,
        kinds.as_slice(),
    )?;
    Ok(Some(words))
}

/// Puts in the result of a use at a depth.
pub fn put_result(
    alloc: Global,
    place: &Place,
    reader: &mut Reader,
    usage: &Use,
    depth: u32,
    args: &[Row<Word>],
) -> Result<(), Stop>
    ensures { (c : Setting) → IsOf place.now c → (ms : Table) (k : Standing) → Does (put_back (state_of reader.old ms k) usage.now.word (result_words c usage.now depth args.now)) result (state_of reader.new ms k) }
{
    let room = MOST_PUT_IN.saturating_sub(reader.put_in) as usize;
    match result_of(alloc, place, usage, depth, args, room)? {
        Some(words) => put_back(reader, &usage.word, words),
        None => Err(Stop::At(FaultKind::TooManyTokens, usage.word.line)),
    }
}

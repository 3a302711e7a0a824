//! Conditions of `#if` and `#elif`.
ghost use Rattle.std.specs.Prelude.{◌≡◌, Bool, IfOk, map};
ghost use Rattle.lp_preproc.specs.Directives.{in_condition, tested};
ghost use Rattle.lp_preproc.specs.State.{Next, Setting, State};
ghost use Rattle.lp_preproc.specs.Steps.{Branches, IsDecided, IsOf, Standing, state_of};
ghost use Rattle.lp_preproc.specs.Tables.{macros_in};

use crate::list::expand_list;
use crate::names::Names;
use crate::place::Place;
use crate::reader::Reader;
use crate::row::Row;
use crate::state::Purpose;
use crate::stop::Stop;
use crate::table::Table;
use crate::value::value_of;
use crate::word::{Word, copy_kind};
use lp_tree::fault::FaultKind;
use lp_tree::token::Token;
use std::alloc::{AllocError, Global};

// A token of a condition, on the line of its directive.
fn in_condition(token: &Token, line: u32) -> Result<Word, AllocError>
    ensures { IfOk result (λ w. w ≡ in_condition line token.now) }
{
    Ok(Word {
        kind: copy_kind(&token.kind)?,
        line,
        hidden: Names::none(),
        depth: 0,
    })
}

// The words of a condition.
fn condition_words(alloc: Global, rest: &[Token], line: u32) -> Result<Row<Word>, AllocError>
    ensures { IfOk result (λ r. r ≡ map (in_condition line) rest.now) }
{
    let mut words = Row::new(alloc);
    'tokens: for token in rest {
        words.push(in_condition(token, line)?)?;
    }
    Ok(words)
}

// Whether the condition of some words holds.
fn decided(alloc: Global, words: &[Word], line: u32) -> Result<bool, Stop>
    ensures { IsDecided words.now line result }
{
    match value_of(alloc, words)? {
        Some(value) => Ok(value != 0),
        None => Err(Stop::At(FaultKind::BadDirective, line)),
    }
}

/// Whether a condition holds, after its words were expanded by themselves.
pub fn holds(
    alloc: Global,
    place: &Place,
    table: &Table,
    reader: &mut Reader,
    rest: &[Token],
    line: u32,
) -> Result<bool, Stop>
    ensures { (c : Setting) → IsOf place.now c → (k : Standing) (f : State → Bool → Next)
        → Branches c (tested (state_of reader.old (macros_in table.now) k) rest.now line f) result (λ b. f (state_of reader.new (macros_in table.now) k) b) }
{
    let words = condition_words(alloc, rest, line)?;
    match expand_list(
        alloc,
        place,
        table,
        Purpose::Condition,
        0,
        words,
        reader.put_in,
    ) {
        Ok((out, put_in)) => {
            reader.put_in = put_in;
            decided(alloc, out.as_slice(), line)
        }
        Err(stop) => Err(stop),
    }
}

//! Where an item begins.
ghost use Rattle.std.specs.Prelude.{◌≡◌, ◌++◌, ◌∷◌, [], IfOk};
ghost use Rattle.lp_parser_stmt.specs.Machine.{AtOne};
ghost use Rattle.lp_parser.specs.Machine.{Before as Items, Typed as TypedState, at_top as top_read, end_inherit as inherit_ended, inherits as inherit_begun, modified as modified_read, need_path as path_needed, word_at_top as word_begun, word_modified as word_behind};
ghost use Rattle.lp_parser.specs.Moves.{Goes, Moves, state_of};
ghost use Rattle.lp_parser.specs.View.{before_of};

use crate::before::{Before, Phase};
use crate::focus::{Focus, Head, Typed};
use lp_parser_stmt::names::Names;
use lp_tree::chars::Chars;
use lp_tree::keyword::{Base, Keyword, Modifier};
use lp_tree::seen::Sort;
use lp_tree::token::Mark;
use lp_tree::unit::Item;
use std::alloc::{AllocError, Global};

// `inherit`, where one may come.
fn inherits(before: &Before, line: u32) -> Option<Focus>
    ensures { Goes (inherit_begun (before_of before.now).phase (before_of before.now) line) (before_of before.now) result }
{
    match before.phase {
        Phase::Inherits => Some(Focus::NeedPath(line)),
        Phase::Definitions => None,
    }
}

// The names behind a type word.
fn typed(alloc: Global, line: u32, mods: Vec<Modifier>, base: Base) -> Focus
    ensures { (b : Items) → state_of result b ≡ TypedState b line mods.items base (AtOne []) }
{
    Focus::Typed(Typed { line, mods, base }, Names::new(alloc))
}

// The modifiers that were read, and one more.
fn with_modifier(mods: Vec<Modifier>, modifier: Modifier) -> Result<Vec<Modifier>, AllocError>
    ensures { IfOk result (λ ms. ms.items ≡ mods.items ++ modifier ∷ []) }
{
    let mut mods = mods;
    mods.push(modifier)?;
    Ok(mods)
}

// A reserved word begins an item.
fn word_at_top(
    alloc: Global,
    before: &Before,
    line: u32,
    word: Keyword,
) -> Result<Option<Focus>, AllocError>
    ensures { Moves (word_begun word line (before_of before.now)) (before_of before.now) result }
{
    match word {
        Keyword::Modifier(modifier) => {
            let mods = with_modifier(Vec::new(alloc), modifier)?;
            Ok(Some(Focus::Modified(line, mods)))
        }
        Keyword::Base(base) => Ok(Some(typed(alloc, line, Vec::new(alloc), base))),
        Keyword::Inherit => Ok(inherits(before, line)),
        _ => Ok(None),
    }
}

/// A token that begins an item.
pub fn at_top(
    alloc: Global,
    before: &Before,
    line: u32,
    sort: Sort,
) -> Result<Option<Focus>, AllocError>
    ensures { Moves (top_read sort line (before_of before.now)) (before_of before.now) result }
{
    match sort {
        Sort::Reserved(word) => word_at_top(alloc, before, line, word),
        Sort::Name(name) => Ok(Some(Focus::NeedOpen(Head {
            line,
            mods: Vec::new(alloc),
            type_name: None,
            name,
        }))),
        _ => Ok(None),
    }
}

/// The path of an `inherit`.
pub fn need_path(line: u32, sort: Sort) -> Option<Focus>
    ensures { (b : Items) → Goes (path_needed sort b line) b result }
{
    match sort {
        Sort::Text(path) => Some(Focus::EndInherit(line, path)),
        _ => None,
    }
}

/// The semicolon behind the path of an `inherit`.
pub fn end_inherit(
    before: &mut Before,
    line: u32,
    path: Chars,
    sort: Sort,
) -> Result<Option<Focus>, AllocError>
    ensures { Moves (inherit_ended sort (before_of before.old) line path) (before_of before.new) result }
{
    match sort {
        Sort::Mark(Mark::Semicolon) => {
            before.push(Item::Inherit { line, path })?;
            Ok(Some(Focus::Top))
        }
        _ => Ok(None),
    }
}

// A reserved word behind modifiers.
fn word_modified(
    alloc: Global,
    line: u32,
    mods: Vec<Modifier>,
    word: Keyword,
) -> Result<Option<Focus>, AllocError>
    ensures { (b : Items) → Moves (word_behind word b line mods.items) b result }
{
    match word {
        Keyword::Modifier(modifier) => {
            Ok(Some(Focus::Modified(line, with_modifier(mods, modifier)?)))
        }
        Keyword::Base(base) => Ok(Some(typed(alloc, line, mods, base))),
        _ => Ok(None),
    }
}

/// A token behind modifiers.
pub fn modified(
    alloc: Global,
    line: u32,
    mods: Vec<Modifier>,
    sort: Sort,
) -> Result<Option<Focus>, AllocError>
    ensures { (b : Items) → Moves (modified_read sort b line mods.items) b result }
{
    match sort {
        Sort::Reserved(word) => word_modified(alloc, line, mods, word),
        Sort::Name(name) => Ok(Some(Focus::NeedOpen(Head {
            line,
            mods,
            type_name: None,
            name,
        }))),
        _ => Ok(None),
    }
}

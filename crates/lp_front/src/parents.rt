//! The files that a unit inherits.
ghost use Rattle.std.specs.Prelude.{◌≡◌, ◌++◌, ◌∷◌, [], IfOk, OnOk, length, map, string_bytes};
ghost use Rattle.std.specs.Str.{encode_utf8_all};
ghost use Rattle.lp_front.specs.Names.{end_behind as end, file_of as file_named, parents_in, slash_before as slash};
ghost use Rattle.lp_tree.specs.UnitView.{item_of};
ghost use Rattle.lp_layout.specs.Layout.{inherits};

use lp_tree::path::FilePath;
use lp_tree::unit::Item;
use std::alloc::{AllocError, Global};

/// An `inherit`.
#[derive(Debug, Drop)]
pub struct Parent {
    /// Its line.
    pub line: u32,
    /// The file that it means.
    pub file: FilePath,
}

// Puts letters behind a text.
fn put_letters(text: &mut String, letters: &[char]) -> Result<(), AllocError>
    ensures { OnOk result (string_bytes text.new ≡ string_bytes text.old ++ encode_utf8_all letters.now) }
{
    for letter in letters {
        text.push(*letter)?;
    }
    Ok(())
}

// What stands before a name that has no leading `/`.
fn slash_before(name: &[char]) -> &'static str
    ensures { result.now ≡ slash name.now }
{
    match name.first() {
        Some('/') => "",
        _ => "/",
    }
}

// What stands behind a name that has no trailing `.c`.
fn end_behind(name: &[char]) -> &'static str
    ensures { result.now ≡ end name.now }
{
    if name.ends_with(&['.', 'c']) {
        ""
    } else {
        ".c"
    }
}

/// The file of a name, as an `inherit` gives it: with a leading `/` and a trailing `.c`, each once.
pub fn file_of(alloc: Global, name: &[char]) -> Result<FilePath, AllocError>
    ensures { IfOk result (λ p. p ≡ file_named name.now) }
{
    let mut path = String::new(alloc);
    path.push_str(slash_before(name))?;
    put_letters(&mut path, name)?;
    path.push_str(end_behind(name))?;
    Ok(FilePath::from_string(path))
}

// Puts an item's parent behind others, if it is an `inherit`.
fn add_parent(alloc: Global, all: &mut Vec<Parent>, item: &Item) -> Result<(), AllocError>
    ensures { OnOk result (all.new.items ≡ all.old.items ++ parents_in (item_of item.now ∷ [])) }
{
    match item {
        Item::Inherit { line, path } => {
            let file = file_of(alloc, path.as_slice())?;
            all.push(Parent { line: *line, file })?;
            Ok(())
        }
        _ => Ok(()),
    }
}

/// The parents of a unit with these items, one for each `inherit`, in their order.
pub fn parents_of(alloc: Global, items: &[Item]) -> Result<Vec<Parent>, AllocError>
    ensures parents { IfOk result (λ v. v.items ≡ parents_in (map item_of items.now)) }
    ensures count { IfOk result (λ v. length v.items ≡ inherits (map item_of items.now)) }
{
    let mut all = Vec::new(alloc);
    for item in items {
        add_parent(alloc, &mut all, item)?;
    }
    Ok(all)
}

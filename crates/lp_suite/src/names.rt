//! Which functions are tests.
ghost use Rattle.std.specs.Prelude.{◌≡◌, ◌∷◌, ◌++◌, [], IfOk, OnOk, length, map, nat_eq, string_bytes};
ghost use Rattle.std.specs.Str.{encode_utf8_all};
ghost use Rattle.lp_language.specs.Resolve.{is_private, is_private_word};
ghost use Rattle.lp_suite.specs.Suite.{is_test, is_test_name, tests_in};
ghost use Rattle.lp_suite.specs.declared.suite.Entry.{Entry as E};
ghost use Rattle.lp_tree.specs.UnitView.{item_of};

use crate::suite::Entry;
use lp_code::name::Name;
use lp_tree::keyword::Modifier;
use lp_tree::path::FilePath;
use lp_tree::unit::{Item, Param};
use std::alloc::{AllocError, Global};

// Puts letters behind a text.
fn put_letters(text: &mut String, letters: &[char]) -> Result<(), AllocError>
    ensures { OnOk result (string_bytes text.new ≡ string_bytes text.old ++ encode_utf8_all letters.now) }
{
    for letter in letters {
        text.push(*letter)?;
    }
    Ok(())
}

// The name that these letters spell.
fn name_of(alloc: Global, letters: &[char]) -> Result<Name, AllocError>
    ensures { IfOk result (λ n. n ≡ encode_utf8_all letters.now) }
{
    let mut text = String::new(alloc);
    put_letters(&mut text, letters)?;
    Ok(Name::from_string(text))
}

// Whether a modifier is `private`.
fn is_private_one(one: &Modifier) -> bool
    ensures { result ≡ is_private_word one.now }
{
    matches!(one, Modifier::Private)
}

// Whether a function has the modifier `private`.
fn is_private_function(mods: &[Modifier]) -> bool
    ensures { result ≡ is_private mods.now }
{
    mods.iter().any(|one| is_private_one(one))
}

// Whether a name begins as those of tests do.
fn begins_as_test(name: &[char]) -> bool
    ensures { result ≡ is_test_name name.now }
{
    name.starts_with(&['t', 'e', 's', 't', '_'])
}

// Whether a function is a test.
fn is_test_function(mods: &[Modifier], name: &[char], params: &[Param]) -> bool
    ensures { result ≡ is_test mods.now name.now params.now }
{
    begins_as_test(name) && params.len() == 0 && !is_private_function(mods)
}

// Puts a test behind others.
fn add_test(
    alloc: Global,
    entries: &mut Vec<Entry>,
    path: &str,
    name: &[char],
) -> Result<(), AllocError>
    ensures { OnOk result (entries.new.items ≡ entries.old.items ++ E.Test path.now (encode_utf8_all name.now) ∷ []) }
{
    let path = FilePath::from_str(alloc, path)?;
    let fun = name_of(alloc, name)?;
    entries.push(Entry::Test(path, fun))?;
    Ok(())
}

// Puts an item's test behind others, if it is one.
fn add_item(
    alloc: Global,
    entries: &mut Vec<Entry>,
    path: &str,
    item: &Item,
) -> Result<(), AllocError>
    ensures { OnOk result (entries.new.items ≡ entries.old.items ++ tests_in path.now (item_of item.now ∷ [])) }
{
    match item {
        Item::Fun {
            mods,
            name,
            params,
            ..
        } => {
            if is_test_function(mods.as_slice(), name.as_slice(), params.as_slice()) {
                return add_test(alloc, entries, path, name.as_slice());
            }
            Ok(())
        }
        _ => Ok(()),
    }
}

/// Puts the tests that a unit with these items declares behind others, in their order.
pub(crate) fn add_items(
    alloc: Global,
    entries: &mut Vec<Entry>,
    path: &str,
    items: &[Item],
) -> Result<(), AllocError>
    ensures { OnOk result (entries.new.items ≡ entries.old.items ++ tests_in path.now (map item_of items.now)) }
{
    for item in items {
        add_item(alloc, entries, path, item)?;
    }
    Ok(())
}

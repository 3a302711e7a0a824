//! Names of blueprints and of clones.
ghost use Rattle.std.specs.Prelude.{◌≡◌, ◌≤◌, ◌++◌, IfOk, codes, length};
ghost use Rattle.std.specs.List.{position_or_len};
ghost use Rattle.std.specs.Fmt.{decimal};
ghost use Rattle.std.specs.Str.{chars};
ghost use Rattle.std.specs.String.{string_bytes};
ghost use Rattle.lp_meaning.specs.WorldSteps.{is_clone_name, is_hash, load_name};

use lp_values::decimal::spelling;
use lp_values::text::code_points;
use std::alloc::{AllocError, Global};

/// Whether a `#` stands in a name, as in those of clones alone.
pub(crate) fn is_clone_name(name: &str) -> bool
    ensures { result ≡ is_clone_name (chars name.now) }
{
    let mut rest = name.chars();
    while let Some(c) = rest.next() {
        if c == '#' {
            return true;
        }
    }
    false
}

/// Characters as a text of the program.
fn text_of(alloc: Global, all: &[char]) -> Result<String, AllocError>
    ensures { IfOk result (λ s. all.now ≡ chars (string_bytes s)) }
{
    let mut s = String::new(alloc);
    for c in all {
        s.push(*c)?;
    }
    Ok(s)
}

/// How many characters of a name stand before its `#`: all of them where it has none.
fn load_len(name: &[char]) -> usize
    ensures value { result ≡ position_or_len is_hash name.now }
    ensures within { result ≤ length name.now }
{
    let mut n = 0;
    while n < name.len() && name[n] != '#' {
        n += 1;
    }
    n
}

/// The name of the blueprint of an object with this name: what stands before the `#`.
pub(crate) fn load_name(alloc: Global, mut all: Vec<char>) -> Result<String, AllocError>
    ensures { IfOk result (λ s. chars (string_bytes s) ≡ load_name all.items) }
{
    let n = load_len(all.as_slice());
    all.truncate(n);
    text_of(alloc, all.as_slice())
}

/// The characters of the name of a clone with a number.
fn clone_chars(alloc: Global, name: &str, number: u64) -> Result<Vec<char>, AllocError>
    ensures { IfOk result (λ v. v.items ≡ chars name.now ++ codes "#" ++ decimal number) }
{
    let mut all = code_points(alloc, name)?;
    all.push('#')?;
    let digits = spelling(alloc, number)?;
    all.extend_from_slice(digits.as_slice())?;
    Ok(all)
}

/// The name of a clone with a number.
pub(crate) fn clone_name(alloc: Global, name: &str, number: u64) -> Result<String, AllocError>
    ensures { IfOk result (λ s. chars (string_bytes s) ≡ chars name.now ++ codes "#" ++ decimal number) }
{
    let all = clone_chars(alloc, name, number)?;
    text_of(alloc, all.as_slice())
}

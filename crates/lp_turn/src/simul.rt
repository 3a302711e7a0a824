//! The names of simul-efun objects.
ghost use Rattle.std.specs.Prelude.{◌≡◌, ◌∷◌, [], IfOk, List, drop, length, map, ◌-◌, codes, take, if◌then◌else◌};
ghost use Rattle.std.specs.Str.{chars};
ghost use Rattle.std.specs.String.{string_bytes};
ghost use Rattle.lp_instr.specs.EfunList.{is_name};
ghost use Rattle.lp_language.specs.Resolve.{without_c};
ghost use Rattle.lp_meaning.specs.WorldSteps.{as_name, is_clone_name, with_slash};

use lp_efuns::names::ends_in_c;
use std::alloc::{AllocError, Global};

/// Whether a path begins with a `/`.
fn has_slash(path: &[char]) -> bool
    ensures { with_slash path.now ≡ (if result then path.now else 47 ∷ path.now) }
{
    match path {
        [c, ..] => *c == '/',
        [] => false,
    }
}

/// A path with a `/` before it.
fn with_slash(alloc: Global, path: &[char]) -> Result<Vec<char>, AllocError>
    ensures { IfOk result (λ v. v.items ≡ with_slash path.now) }
{
    let mut all = Vec::with_capacity(alloc, path.len() + 1)?;
    if !has_slash(path) {
        all.push('/')?;
    }
    all.extend_from_slice(path)?;
    Ok(all)
}

/// Takes a `.c` from the end of a path.
fn cut_c(path: &mut Vec<char>)
    ensures { path.new.items ≡ without_c path.old.items }
{
    if ends_in_c(path.as_slice()) {
        let n = path.len();
        path.truncate(n - 2);
    }
}

/// Characters as a text of the program.
pub(crate) fn string_of(alloc: Global, all: &[char]) -> Result<String, AllocError>
    ensures { IfOk result (λ s. all.now ≡ chars (string_bytes s)) }
{
    let mut s = String::new(alloc);
    for c in all {
        s.push(*c)?;
    }
    Ok(s)
}

/// The name that a text means: with a `/` before it, and without `.c` at its end.
pub(crate) fn as_name(alloc: Global, text: &[char]) -> Result<Vec<char>, AllocError>
    ensures { IfOk result (λ v. v.items ≡ as_name text.now) }
{
    let mut all = with_slash(alloc, text)?;
    cut_c(&mut all);
    Ok(all)
}

/// Whether a name has a `#`, as those of clones alone have.
pub(crate) fn is_clone_name(name: &[char]) -> bool
    ensures { result ≡ is_clone_name name.now }
{
    name.contains(&'#')
}

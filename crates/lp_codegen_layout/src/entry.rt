//! Names with numbers.
ghost use Rattle.std.specs.Prelude.{◌≡◌, IfOk};
ghost use Rattle.lp_codegen_layout.specs.Laid.{names_in, numbers_in};

use lp_codegen_expr::index::Index;
use lp_tree::chars::Chars;
use std::alloc::{AllocError, Global};

/// A name and a number.
#[derive(Drop)]
pub struct Entry {
    /// The name.
    pub name: Chars,
    /// The number.
    pub number: usize,
}

/// The names of some entries, to be found by a map.
pub fn names_of(alloc: Global, entries: &[Entry]) -> Result<Index, AllocError>
    ensures { IfOk result (λ i. i ≡ names_in entries.now) }
{
    let mut names = Vec::new(alloc);
    for entry in entries {
        names.push(entry.name.copy()?)?;
    }
    Index::from_vec(alloc, names)
}

/// The numbers of some entries.
pub fn numbers_of(alloc: Global, entries: &[Entry]) -> Result<Vec<usize>, AllocError>
    ensures { IfOk result (λ v. v.items ≡ numbers_in entries.now) }
{
    let mut numbers = Vec::new(alloc);
    for entry in entries {
        numbers.push(entry.number)?;
    }
    Ok(numbers)
}

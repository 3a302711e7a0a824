//! Names of tables, as sources have them.
ghost use Rattle.std.specs.Prelude.{◌≡◌, IfOk};
ghost use Rattle.lp_codegen_layout.specs.Laid.{row_names};

use lp_code::name::Name;
use lp_code::tables::Slot;
use lp_codegen_expr::index::Index;
use lp_tree::chars::Chars;
use std::alloc::{AllocError, Global};

// The code points of bytes: each byte is one.
fn chars_of(alloc: Global, bytes: &[u8]) -> Result<Vec<char>, AllocError>
    ensures { IfOk result (λ v. v.items ≡ bytes.now) }
{
    let mut chars = Vec::new(alloc);
    for byte in bytes {
        chars.push(*byte as char)?;
    }
    Ok(chars)
}

/// A name or an end of a path in bytes, as one in code points: each byte is one.
pub fn letters(alloc: Global, bytes: &[u8]) -> Result<Chars, AllocError>
    ensures { IfOk result (λ t. t ≡ bytes.now) }
{
    Chars::from_vec(alloc, chars_of(alloc, bytes)?)
}

/// The names of some rows, to be found by a map.
pub fn names_of_rows(alloc: Global, rows: &[Slot]) -> Result<Index, AllocError>
    ensures { IfOk result (λ i. i ≡ row_names rows.now) }
{
    let mut names = Vec::new(alloc);
    for row in rows {
        names.push(letters(alloc, row.name.as_str().as_bytes())?)?;
    }
    Index::from_vec(alloc, names)
}

/// Some names, to be found by a map.
pub fn names_of_names(alloc: Global, all: &[Name]) -> Result<Index, AllocError>
    ensures { IfOk result (λ i. i ≡ all.now) }
{
    let mut names = Vec::new(alloc);
    for name in all {
        names.push(letters(alloc, name.as_str().as_bytes())?)?;
    }
    Index::from_vec(alloc, names)
}

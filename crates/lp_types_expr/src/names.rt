//! Maps by names.
ghost use Rattle.std.specs.Prelude.{◌≡◌, List, None, OnErr, OnOk, Some, ℕ, if◌then◌else◌, IfOk};
ghost use Rattle.lp_instr.specs.EfunList.{is_name};
ghost use Rattle.lp_types_expr.specs.NameMaps.{named};
ghost use Rattle.lp_types_expr.specs.Signatures.{or_else};

use std::alloc::{AllocError, Global};
use std::collections::HashMap;

/// Puts a value at a name, in place of what was there.
pub fn put<V: Drop>(
    alloc: Global,
    map: &mut HashMap<Vec<char>, V>,
    name: &[char],
    value: V,
) -> Result<(), AllocError>
    ensures ok { OnOk result ((w : List ℕ) → named map.new w ≡ or_else (if is_name w name.now then Some value else None) (named map.old w)) }
    ensures err { OnErr result ((w : List ℕ) → named map.new w ≡ named map.old w) }
{
    map.insert(name.to_vec(alloc)?, value)?;
    Ok(())
}

// The code points of bytes: each byte is one.
fn chars_of(alloc: Global, bytes: &[u8]) -> Result<Vec<char>, AllocError>
    ensures { IfOk result (λ v. v.items ≡ bytes.now) }
{
    let mut chars = Vec::new(alloc);
    for byte in bytes {
        chars.push(*byte as char)?;
    }
    Ok(chars)
}

/// The code points of a name in bytes: each byte is one.
pub fn letters(alloc: Global, name: &str) -> Result<Vec<char>, AllocError>
    ensures { IfOk result (λ v. v.items ≡ name.now) }
{
    chars_of(alloc, name.as_bytes())
}

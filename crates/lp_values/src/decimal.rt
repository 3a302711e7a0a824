//! Numbers as text.
ghost use Rattle.std.specs.Prelude.{◌≡◌, IfOk};
ghost use Rattle.std.specs.Fmt.{decimal, signed_decimal};

use crate::text::code_points;
use std::alloc::{AllocError, Global};

/// The decimal spelling of an integer, with a `-` where it is negative.
pub fn signed_spelling(alloc: Global, n: i64) -> Result<Vec<char>, AllocError>
    ensures { IfOk result (λ v. v.items ≡ signed_decimal n) }
{
    let text = n.to_string(alloc)?;
    code_points(alloc, text.as_str())
}

/// The decimal spelling of a number.
pub fn spelling(alloc: Global, n: u64) -> Result<Vec<char>, AllocError>
    ensures { IfOk result (λ v. v.items ≡ decimal n) }
{
    let text = n.to_string(alloc)?;
    code_points(alloc, text.as_str())
}

//! Which versions are needed, as marks at their numbers.
ghost use Rattle.std.specs.Prelude.{◌≡◌, ◌+◌, ◌<◌, ◌^◌, ◌-◌, cond, false, replicate, IfOk};
ghost use Rattle.lp_keeping.specs.Marks.{count, is_marked, with_mark, with_marks};

use lp_values::id::ProgId;
use std::alloc::{AllocError, Global};

/// So many marks, none of which is set.
pub(crate) fn unmarked(alloc: Global, len: usize) -> Result<Vec<bool>, AllocError>
    ensures { IfOk result (λ marks. marks.items ≡ replicate len false) }
{
    Vec::from_elem(alloc, false, len)
}

/// Whether a number is marked. Takes no memory.
pub(crate) fn is_marked(marks: &[bool], n: usize) -> bool
    ensures { result ≡ is_marked marks.now n }
{
    n < marks.len() && marks[n]
}

/// A version is needed.
pub(crate) fn mark(marks: &mut [bool], p: ProgId)
    ensures { marks.new ≡ with_mark marks.old p }
{
    let n = p.0 as usize;
    if n < marks.len() {
        marks[n] = true;
    }
}

/// Each of some versions is needed.
pub(crate) fn mark_all(marks: &mut [bool], versions: &[ProgId])
    ensures { marks.new ≡ with_marks marks.old versions.now }
{
    for p in versions {
        mark(marks, *p);
    }
}

/// One more, if something is so.
fn counted(count: usize, is_so: bool) -> usize
    requires { count < 2 ^ 64 - 1 }
    ensures { result ≡ count + cond is_so 1 0 }
{
    if is_so { count + 1 } else { count }
}

/// How many marks are set.
pub(crate) fn count_marks(marks: &[bool]) -> usize
    ensures { result ≡ count marks.now }
{
    let mut count = 0;
    for b in marks {
        count = counted(count, *b);
    }
    count
}

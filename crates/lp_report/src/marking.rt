//! Versions are marked as needed.
ghost use Rattle.std.specs.Prelude.{◌≡◌, false, replicate, IfOk};
ghost use Rattle.std.specs.Option.{option_copied};
ghost use Rattle.lp_report.specs.Needed.{is_marked, live_versions, parents_in, version_if_live, with_mark, with_marks};

use lp_values::id::{ObjId, ProgId};
use lp_world::objects::{Object, ObjectTable};
use lp_world::versions::Version;
use std::alloc::{AllocError, Global};

/// So many marks, none of which is set.
pub(crate) fn unmarked(alloc: Global, len: usize) -> Result<Vec<bool>, AllocError>
    ensures { IfOk result (λ marks. marks.items ≡ replicate len false) }
{
    Vec::from_elem(alloc, false, len)
}

/// Whether a number is marked. Takes no memory.
pub(crate) fn is_marked(marks: &[bool], n: usize) -> bool
    ensures { result ≡ is_marked marks.now n }
{
    n < marks.len() && marks[n]
}

/// A version is needed.
fn mark(marks: &mut [bool], p: ProgId)
    ensures { marks.new ≡ with_mark marks.old p }
{
    let n = p.0 as usize;
    if n < marks.len() {
        marks[n] = true;
    }
}

/// Each of some versions is needed.
fn mark_all(marks: &mut [bool], versions: &[ProgId])
    ensures { marks.new ≡ with_marks marks.old versions.now }
{
    for p in versions {
        mark(marks, *p);
    }
}

/// The parents of a version are needed.
pub(crate) fn mark_parents(marks: &mut [bool], version: Option<&Version>)
    ensures { marks.new ≡ with_marks marks.old (parents_in (option_copied version.entry)) }
{
    match version {
        Some(v) => mark_all(marks, v.outline.parents.as_slice()),
        None => {}
    }
}

/// The version of an object is needed, if it is live.
fn mark_if_live(marks: &mut [bool], object: Option<&Object>)
    ensures { marks.new ≡ with_marks marks.old (version_if_live (option_copied object.entry)) }
{
    if let Some(o) = object {
        if o.is_live {
            mark(marks, o.program);
        }
    }
}

/// The versions of the live objects are needed.
pub(crate) fn mark_live(objects: &ObjectTable, marks: &mut [bool])
    ensures { marks.new ≡ with_marks marks.old (live_versions objects.now) }
{
    for n in 0..objects.len() {
        mark_if_live(marks, objects.get(ObjId(n as u64)));
    }
}

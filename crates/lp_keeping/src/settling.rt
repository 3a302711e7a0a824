//! What needed versions name is needed too.
ghost use Rattle.std.specs.Prelude.{◌≡◌, Some, length};
ghost use Rattle.std.specs.Option.{option_copied};
ghost use Rattle.lp_world.specs.Rows.{row_at};
ghost use Rattle.lp_keeping.specs.Marks.{with_marks};
ghost use Rattle.lp_keeping.specs.Needs.{AreSettled, all_named, named_by, parts_named, version_of, versions_of, with_named};

use crate::marks::{count_marks, is_marked, mark, mark_all};
use lp_values::id::{ObjId, ProgId};
use lp_world::objects::{Object, ObjectTable};
use lp_world::versions::{ProgramState, Version, VersionTable};

/// The version of an object is needed, if there is one.
fn need_of_object(object: Option<&Object>, marks: &mut [bool])
    ensures { marks.new ≡ with_marks marks.old (version_of (option_copied object.entry)) }
{
    if let Some(o) = object {
        mark(marks, o.program);
    }
}

/// The objects that are there need their versions, live or not.
pub(crate) fn need_all(objects: &ObjectTable, marks: &mut [bool])
    ensures { marks.new ≡ with_marks marks.old (versions_of objects.now) }
{
    for n in 0..objects.len() {
        need_of_object(objects.get(ObjId(n as u64)), marks);
    }
}

/// The parts of a program are needed while it is in memory.
fn need_parts(state: &ProgramState, marks: &mut [bool])
    ensures { marks.new ≡ with_marks marks.old (parts_named state.now) }
{
    match state {
        ProgramState::Resident(program) => mark_all(marks, program.raw().tables.parts.as_slice()),
        ProgramState::Swapped(_) => {}
    }
}

/// What a version names is needed.
fn need_of_version(version: &Version, marks: &mut [bool])
    ensures { marks.new ≡ with_marks marks.old (named_by (Some version.now)) }
{
    mark_all(marks, version.outline.parents.as_slice());
    need_parts(&version.state, marks);
}

/// The same of one that may be there.
fn need_of_row(version: Option<&Version>, marks: &mut [bool])
    ensures { marks.new ≡ with_marks marks.old (named_by (option_copied version.entry)) }
{
    match version {
        Some(v) => need_of_version(v, marks),
        None => {}
    }
}

/// What the version with a number names is needed, if it is.
fn need_named(versions: &VersionTable, n: usize, marks: &mut [bool])
    ensures { marks.new ≡ with_named versions.now n marks.old }
{
    if is_marked(marks, n) {
        need_of_row(versions.get(ProgId(n as u64)), marks);
    }
}

/// What the needed versions name is needed. They are taken by falling numbers, so that those that name lower ones are done at once.
fn need_all_named(versions: &VersionTable, marks: &mut [bool])
    ensures { marks.new ≡ all_named versions.now (length versions.now) marks.old }
{
    let mut n = versions.len();
    'versions: while n > 0 {
        n -= 1;
        need_named(versions, n, marks);
    }
}

/// The same again, until no more are found: each needed version has what it names.
pub(crate) fn settle(versions: &VersionTable, marks: &mut [bool])
    ensures { AreSettled versions.now marks.old marks.new }
{
    'passes: loop {
        let before = count_marks(marks);
        need_all_named(versions, marks);
        if count_marks(marks) == before {
            return;
        }
    }
}

//! To which function each instruction belongs.
ghost use Rattle.std.specs.Prelude.{◌≡◌, ◌<◌, ◌-◌, IfOk, length, slice_index_or, slice_set};
ghost use Rattle.lp_code.specs.Owners.{first_of};
ghost use Rattle.lp_verify.specs.Marks.{MarksBegins, MarksOwners};

use lp_code::program::FunRow;
use std::alloc::{AllocError, Global};

/// A function begins at a place, if that is inside.
fn mark(marks: &mut Vec<usize>, at: usize, number: usize)
    ensures { marks.new.items ≡ slice_set marks.old.items at number }
{
    if at < marks.len() {
        marks[at] = number;
    }
}

/// Which function begins at each place, counted from 1; 0 where none does.
fn begins(alloc: Global, places: usize, rows: &[FunRow]) -> Result<Vec<usize>, AllocError>
    ensures { IfOk result (λ r. MarksBegins places rows.now r.items) }
{
    let mut marks = vec![in alloc; 0usize; places]?;
    for i in 0..rows.len() {
        mark(&mut marks, rows[i].from as usize, i + 1);
    }
    Ok(marks)
}

/// Where no function begins the one before goes on.
fn spread(marks: &mut Vec<usize>, at: usize)
    requires above { 0 < at }
    requires inside { at < length marks.old.items }
    ensures { marks.new.items ≡ slice_set marks.old.items at (first_of (slice_index_or marks.old.items at 0) (slice_index_or marks.old.items (at - 1) 0)) }
{
    let before = marks[at - 1];
    if marks[at] == 0 {
        marks[at] = before;
    }
}

/// The function of each instruction, counted from 1.
pub(crate) fn owners(
    alloc: Global,
    places: usize,
    rows: &[FunRow],
) -> Result<Vec<usize>, AllocError>
    ensures { IfOk result (λ r. MarksOwners places rows.now r.items) }
{
    let mut marks = begins(alloc, places, rows)?;
    for at in 1..marks.len() {
        spread(&mut marks, at);
    }
    Ok(marks)
}

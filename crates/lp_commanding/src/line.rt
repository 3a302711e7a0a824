//! The parts of a line.
ghost use Rattle.std.specs.Prelude.{◌≡◌, ◌≤◌, IfOk, length};
ghost use Rattle.std.specs.List.{prefix_len};
ghost use Rattle.lp_actions.specs.Actions.{argument_in, verb_of};
ghost use Rattle.lp_commanding.specs.Lines.{is_typed};

use lp_values::text::Text;
use std::alloc::{AllocError, Global};

/// Whether a letter may be of a verb: it is no space.
fn is_typed(c: char) -> bool
    ensures { result ≡ is_typed c }
{
    c != ' '
}

/// How many letters of a line are of its verb.
fn verb_len(line: &[char]) -> usize
    ensures within { result ≤ length line.now }
    ensures verb { result ≡ prefix_len is_typed line.now }
{
    let mut n = 0;
    while n < line.len() && is_typed(line[n]) {
        n += 1;
    }
    n
}

/// The verb of a line: what stands before its first space, or all of it. Costs the length of the verb.
pub fn verb_of(line: &[char]) -> &[char]
    ensures { result.now ≡ verb_of line.now }
{
    &line[..verb_len(line)]
}

/// The argument of a line: what stands behind its first space, if it has one.
///
/// # Errors
/// Where memory runs out.
pub fn argument_of(alloc: Global, line: &[char]) -> Result<Option<Text>, AllocError>
    ensures { IfOk result (λ a. a ≡ argument_in line.now) }
{
    let n = verb_len(line);
    if n == line.len() {
        return Ok(None);
    }
    Ok(Some(Text::from_slice(alloc, &line[n + 1..])?))
}

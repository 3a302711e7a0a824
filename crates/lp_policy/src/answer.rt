//! What the master says of a path.
ghost use Rattle.std.specs.Prelude.{◌≡◌};
ghost use Rattle.lp_values.specs.Read.{as_read};
ghost use Rattle.lp_policy.specs.Answers.{answer_of, answered};

use lp_values::text::Text;
use lp_values::value::{Living, Value, as_read};

/// What the master says of a path.
#[derive(Debug, Drop)]
pub enum Answer<'a> {
    /// The path may not be used.
    Denied,
    /// The path may be used.
    Given,
    /// Another path is to be used in its place.
    Named(&'a Text),
}

/// What a value means that the master answers of a path, as it is read: the integer 0 denies the
/// path, and so does an object that was destructed, since it reads as 0. A text names the path to
/// use; that it is one has yet to be seen. Every other value gives the path. Takes no memory.
pub fn read_answer<'a, L: Living>(v: &'a Value, live: &L) -> Answer<'a>
    ensures { answered result ≡ answer_of (as_read (L.live live.now) v.now) }
{
    match as_read(v, live) {
        None | Some(Value::Int(0)) => Answer::Denied,
        Some(Value::Str(path)) => Answer::Named(path),
        Some(_) => Answer::Given,
    }
}

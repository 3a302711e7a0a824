//! Which texts are paths.
ghost use Rattle.std.specs.Prelude.{Decides};
ghost use Rattle.lp_events.specs.Script.{IsPath};

use lp_words::path::{is_path, tests_are_exact};

/// Whether a text is a path: one or more parts with a `/` before each, at most 256 bytes in all. A
/// part has one or more ASCII letters, digits, `_`, `-` or `.`, and is neither `.` nor `..`.
/// Takes no memory.
pub fn path_ok(path: &str) -> bool
    ensures { Decides result (IsPath path.now) }
{
    tests_are_exact(b"".as_slice(), path.as_bytes());
    is_path(path.as_bytes())
}

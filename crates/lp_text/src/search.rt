//! Searching in texts.
ghost use Rattle.std.specs.Prelude.{◌≡◌};
ghost use Rattle.lp_text.specs.Texts.{place};

use lp_search::two_way::first_place;

/// The first place of `t` in `s` that is at least `from`, counted from 0, if there is one. An empty
/// text stands at each place up to the end. It takes no memory, and time in proportion to both
/// lengths whatever the texts hold.
pub fn find(s: &[char], t: &[char], from: u64) -> Option<u64>
    ensures { result ≡ place t.now s.now from }
{
    if from > s.len() as u64 {
        return None;
    }
    if t.is_empty() {
        return Some(from);
    }
    match first_place(s, t, from as usize) {
        Some(i) => Some(i as u64),
        None => None,
    }
}

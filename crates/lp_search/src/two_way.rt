//! The Two-Way search of Crochemore and Perrin: time in proportion to both lengths, whatever they hold, and no
//! memory. Adapted from the search of bytes of the Rust crate `memchr` 2.8.3 (Unlicense).
//!
//! The needle is cut at a critical place, and what follows the cut is compared first. A mismatch there moves the
//! needle behind what matched; a mismatch before the cut moves it by the needle's period, or where that is long by
//! a number that is at most the period and at least half of the needle.
ghost use Rattle.std.specs.Prelude.{◌≡◌, ◌≢◌, ◌↔◌, ◌⊎◌, ℕ, ◌+◌, ◌*◌, ◌<◌, ◌≤◌, length, slice_index, IsTrue};
ghost use Rattle.lp_search.specs.Places.{IsFirst, Nowhere, Stands};
ghost use Rattle.lp_search.specs.Critical.{IsSuffixAt, IsCutPlace};
ghost use Rattle.lp_search.specs.Cuts.{Precedes, IsCut};

/// How far the needle moves where all behind the cut matched and it does not stand here.
#[derive(Clone, Copy)]
pub(crate) enum Shift {
    /// The needle's period: after such a move the rest of what matched is known.
    Small(usize),
    /// A number no greater than its period, for a needle with a long period.
    Large(usize),
}

/// The two orders of code points by which a needle has a greatest suffix.
#[derive(Clone, Copy)]
pub(crate) enum SuffixKind {
    /// The least code point counts as the greatest.
    Minimal,
    /// The greatest one does.
    Maximal,
}

#[derive(Clone, Copy)]
enum SuffixOrdering {
    Accept,
    Skip,
    Push,
}

impl SuffixKind {
    fn cmp(self, current: char, candidate: char) -> SuffixOrdering
        ensures accept { (result ≡ SuffixOrdering.Accept) → Precedes self current candidate }
        ensures skip { (result ≡ SuffixOrdering.Skip) → Precedes self candidate current }
        ensures push { (result ≡ SuffixOrdering.Push) → current ≡ candidate }
    {
        match self {
            SuffixKind::Minimal if candidate < current => SuffixOrdering::Accept,
            SuffixKind::Minimal if candidate > current => SuffixOrdering::Skip,
            SuffixKind::Minimal => SuffixOrdering::Push,
            SuffixKind::Maximal if candidate > current => SuffixOrdering::Accept,
            SuffixKind::Maximal if candidate < current => SuffixOrdering::Skip,
            SuffixKind::Maximal => SuffixOrdering::Push,
        }
    }
}

/// Where a suffix begins, and its least period.
#[derive(Clone, Copy)]
struct Suffix {
    pos: usize,
    period: usize,
}

/// The first place of `needle` in `hay` that is at least `from`, counted from 0, if there is one. In time of both
/// lengths, whatever they hold, and without memory.
pub fn first_place(hay: &[char], needle: &[char], from: usize) -> Option<usize>
    requires some { 0 < length needle.now }
    requires start { from ≤ length hay.now }
    ensures { IsFirst (Stands needle.now hay.now) from (length hay.now + 1) result }
{
    if hay.len() - from < needle.len() {
        return None;
    }
    match next_start(hay, needle, from, hay.len() - needle.len() + 1) {
        Some(first) => place_from(hay, needle, first),
        None => None,
    }
}

/// The first place of `needle` in `hay` that is at least `from`. A needle that stands at `from` is found before it
/// is cut, so that short needles which stand at once cost little.
fn place_from(hay: &[char], needle: &[char], from: usize) -> Option<usize>
    requires some { 0 < length needle.now }
    requires fits { from + length needle.now ≤ length hay.now }
    ensures { IsFirst (Stands needle.now hay.now) from (length hay.now + 1) result }
{
    if matches_between(hay, needle, from, 0, needle.len()) {
        return Some(from);
    }
    match cut(needle) {
        (critical, Shift::Small(period)) => find_small(hay, from, needle, critical, period),
        (critical, Shift::Large(shift)) => find_large(hay, from, needle, critical, shift),
    }
}

/// The first place of a needle whose period is long.
fn find_large(
    hay: &[char],
    from: usize,
    needle: &[char],
    critical: usize,
    shift: usize,
) -> Option<usize>
    requires cut { IsCut (slice_index needle.now) (length needle.now) critical (Shift.Large shift) }
    requires some { 0 < length needle.now }
    requires start { from ≤ length hay.now }
    ensures { IsFirst (Stands needle.now hay.now) from (length hay.now + 1) result }
{
    let m = needle.len();
    let mut pos = from;
    while m <= hay.len() - pos {
        pos = next_start(hay, needle, pos, hay.len() - m + 1)?;
        let i = matched_to(hay, needle, pos, critical);
        if i < m {
            pos += i - critical + 1;
            continue;
        }
        if matches_between(hay, needle, pos, 0, critical) {
            return Some(pos);
        }
        pos += shift;
    }
    None
}

/// The first place of a needle whose period is short. `known` of its first code points are known to stand at `pos`.
fn find_small(
    hay: &[char],
    from: usize,
    needle: &[char],
    critical: usize,
    period: usize,
) -> Option<usize>
    requires cut { IsCut (slice_index needle.now) (length needle.now) critical (Shift.Small period) }
    requires some { 0 < length needle.now }
    requires start { from ≤ length hay.now }
    ensures { IsFirst (Stands needle.now hay.now) from (length hay.now + 1) result }
{
    let m = needle.len();
    let (mut pos, mut known) = (from, 0);
    while m <= hay.len() - pos {
        let next = next_start(hay, needle, pos, hay.len() - m + 1)?;
        known = known_at(known, pos, next);
        pos = next;
        let i = matched_to(hay, needle, pos, critical.max(known));
        if i < m {
            pos += i - critical + 1;
            known = 0;
            continue;
        }
        if matches_between(hay, needle, pos, known, critical) {
            return Some(pos);
        }
        pos += period;
        known = m - period;
    }
    None
}

/// What stays known of the needle's first code points, where the search moved from `pos` to `next`.
#[inline(always)]
fn known_at(known: usize, pos: usize, next: usize) -> usize
    ensures { (result ≡ 0) ⊎ ((next ≡ pos) × (result ≡ known)) }
{
    if next == pos { known } else { 0 }
}

/// The first place of the needle's first code point from `from` on and before `to`.
#[inline(always)]
fn next_start(hay: &[char], needle: &[char], from: usize, to: usize) -> Option<usize>
    requires some { 0 < length needle.now }
    requires within { to ≤ length hay.now }
    ensures { IsFirst (λ k. slice_index hay.now k ≡ slice_index needle.now 0) from to result }
{
    next_with(hay, seen(needle, 0), from, to)
}

/// How many code points are looked at in one step where the wanted one is rare.
const GROUP: usize = 32;

/// Whether a group lacks a code point.
fn lacks(hay: &[char], c: char, at: usize) -> bool
    requires { at + 32 ≤ length hay.now }
    ensures { IsTrue result → Nowhere (λ k. slice_index hay.now k ≡ c) at (at + 32) }
{
    !hay[at..at + GROUP].contains(&c)
}

/// The first place of a code point from `from` on and before `to`.
#[inline(always)]
fn next_with(hay: &[char], c: char, from: usize, to: usize) -> Option<usize>
    requires { to ≤ length hay.now }
    ensures { IsFirst (λ k. slice_index hay.now k ≡ c) from to result }
{
    let mut at = from;
    while at < to {
        if hay[at] == c {
            return Some(at);
        }
        at += 1;
        if GROUP <= to - at && lacks(hay, c, at) {
            at += GROUP;
        }
    }
    None
}

/// The code point at a place.
#[inline(always)]
fn seen(xs: &[char], k: usize) -> char
    requires { k < length xs.now }
    ensures { result ≡ slice_index xs.now k }
{
    xs[k]
}

/// The greatest suffix by an order, and its period.
fn greatest_suffix(needle: &[char], kind: SuffixKind) -> Suffix
    requires { 0 < length needle.now }
    ensures { IsSuffixAt (Precedes kind) (slice_index needle.now) (length needle.now) result.pos result.period }
{
    let m = needle.len();
    let (mut pos, mut period) = (0, 1);
    let (mut candidate, mut offset) = (1, 0);
    while candidate + offset < m {
        let current = seen(needle, pos + offset);
        let other = seen(needle, candidate + offset);
        match kind.cmp(current, other) {
            SuffixOrdering::Accept => {
                pos = candidate;
                period = 1;
                candidate += 1;
                offset = 0;
            }
            SuffixOrdering::Skip => {
                candidate += offset + 1;
                offset = 0;
                period = candidate - pos;
            }
            SuffixOrdering::Push => {
                if offset + 1 == period {
                    candidate += period;
                    offset = 0;
                } else {
                    offset += 1;
                }
            }
        }
    }
    Suffix { pos, period }
}

/// Whether each code point before the cut equals the one `period` places later.
fn repeats_before(needle: &[char], critical: usize, period: usize) -> bool
    requires { critical + period ≤ length needle.now }
    ensures { IsTrue result ↔ ((k : ℕ) → k < critical → slice_index needle.now k ≡ slice_index needle.now (k + period)) }
{
    for k in 0..critical {
        if needle[k] != needle[k + period] {
            return false;
        }
    }
    true
}

/// Where to cut a needle: at the later of its greatest suffixes by the two orders.
fn cut(needle: &[char]) -> (usize, Shift)
    requires { 0 < length needle.now }
    ensures { IsCut (slice_index needle.now) (length needle.now) result.0 result.1 }
{
    let least = greatest_suffix(needle, SuffixKind::Minimal);
    let most = greatest_suffix(needle, SuffixKind::Maximal);
    if least.pos > most.pos {
        cut_at(needle, least.pos, least.period)
    } else {
        cut_at(needle, most.pos, most.period)
    }
}

/// How far a mismatch before the cut moves the search.
fn cut_at(needle: &[char], critical: usize, period: usize) -> (usize, Shift)
    requires { IsCutPlace (slice_index needle.now) (length needle.now) critical period }
    ensures { IsCut (slice_index needle.now) (length needle.now) result.0 result.1 }
{
    let m = needle.len();
    let large = critical.max(m - critical);
    if critical * 2 >= m {
        return (critical, Shift::Large(large));
    }
    if !repeats_before(needle, critical, period) {
        return (critical, Shift::Large(large));
    }
    (critical, Shift::Small(period))
}

/// The first place from `start` on at which the needle, set at `pos`, differs from the text, or the needle's length.
#[inline(always)]
fn matched_to(hay: &[char], needle: &[char], pos: usize, start: usize) -> usize
    requires fits { pos + length needle.now ≤ length hay.now }
    requires from { start ≤ length needle.now }
    ensures low { start ≤ result }
    ensures high { result ≤ length needle.now }
    ensures same { (k : ℕ) → start ≤ k → k < result → slice_index needle.now k ≡ slice_index hay.now (pos + k) }
    ensures differs { result < length needle.now → slice_index needle.now result ≢ slice_index hay.now (pos + result) }
{
    let m = needle.len();
    let mut i = start;
    while i < m && needle[i] == hay[pos + i] {
        i += 1;
    }
    i
}

/// Whether the code points from `low` up to `high` of the needle stand at `pos`, read from `high` down.
#[inline(always)]
fn matches_between(hay: &[char], needle: &[char], pos: usize, low: usize, high: usize) -> bool
    requires fits { pos + length needle.now ≤ length hay.now }
    requires top { high ≤ length needle.now }
    ensures { IsTrue result ↔ ((k : ℕ) → low ≤ k → k < high → slice_index needle.now k ≡ slice_index hay.now (pos + k)) }
{
    let mut j = high;
    while low < j {
        j -= 1;
        if needle[j] != hay[pos + j] {
            return false;
        }
    }
    true
}

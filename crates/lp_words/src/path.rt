//! Paths and names of objects.
ghost use Rattle.std.specs.Prelude.{Decides, ◌≡◌, replicate, if◌then◌else◌, not, ◌==◌, ◌&&◌};
ghost use Rattle.lp_events.specs.Script.{is_part_byte as part_byte, IsPath, IsObjectName};
ghost use Rattle.lp_words.specs.declared.path.Progress.TheVariants.{Start, Part, Refused};
ghost use Rattle.lp_words.specs.Paths.{step as step_of, read, is_done as is_done_of, is_path as path_test, may_go_on as may_go_on_of, stem as stem_of, filled, is_above as above, begins_path as path_begins, is_digit as digit, is_numeral as numeral_test, ends_in_c as source_end, is_object_path as object_path, is_clone as clone_test, is_name as name_test, begins_with_parts as parts_begin, begins_name as name_begins, BeginsPath, BeginsName};
ghost use Rattle.std.specs.List.{list_all, prefix_len};

/// How far the bytes so far have come in a path.
#[derive(Debug, Clone, Copy)]
pub enum Progress {
    /// Nothing was read.
    Start,
    /// The last byte is a `/`.
    Slash,
    /// The last part is `.` so far.
    Dot,
    /// The last part is `..` so far.
    Dots,
    /// The last part is whole as it is.
    Part,
    /// No path begins so.
    Refused,
}

fn is_part_byte(c: u8) -> bool
    ensures { result ≡ part_byte c }
{
    97 <= c && c <= 122
        || 65 <= c && c <= 90
        || 48 <= c && c <= 57
        || c == b'_'
        || c == b'-'
        || c == b'.'
}

fn part_step(c: u8) -> Progress
    ensures { result ≡ (if part_byte c then Part else Refused) }
{
    if is_part_byte(c) {
        Progress::Part
    } else {
        Progress::Refused
    }
}

fn step(progress: Progress, c: u8) -> Progress
    ensures { result ≡ step_of progress c }
{
    match progress {
        Progress::Start if c == b'/' => Progress::Slash,
        Progress::Slash if c == b'.' => Progress::Dot,
        Progress::Dot if c == b'.' => Progress::Dots,
        Progress::Part if c == b'/' => Progress::Slash,
        Progress::Start | Progress::Refused => Progress::Refused,
        _ => part_step(c),
    }
}

// How far a whole word comes.
fn progress_after(word: &[u8]) -> Progress
    ensures { result ≡ read Start word.now }
{
    let mut progress = Progress::Start;
    for c in word {
        progress = step(progress, *c);
    }
    progress
}

fn is_done(progress: Progress) -> bool
    ensures { result ≡ is_done_of progress }
{
    matches!(progress, Progress::Part)
}

/// Whether a word is a path: parts with a `/` before each, none empty, `.` or `..`, at most 256
/// bytes.
#[tactic(auto, unfolding(crate::specs::Paths::is_path))]
pub fn is_path(word: &[u8]) -> bool
    ensures { result ≡ path_test word.now }
{
    word.len() <= 256 && is_done(progress_after(word))
}

fn may_go_on(progress: Progress) -> bool
    ensures { result ≡ may_go_on_of progress }
{
    match progress {
        Progress::Start | Progress::Refused => false,
        Progress::Slash | Progress::Dot | Progress::Dots | Progress::Part => true,
    }
}

// A word from its first `/` on.
fn stem(word: &[u8]) -> &[u8]
    ensures { result.now ≡ stem_of word.now }
{
    if word.is_empty() {
        b"/".as_slice()
    } else {
        word
    }
}

// Whether a word filled up with `z` is a path. It is not built.
fn is_filled_path(word: &[u8]) -> bool
    ensures { result ≡ path_test (filled word.now) }
{
    let stem = stem(word);
    let progress = progress_after(stem);
    if stem.len() < 256 {
        may_go_on(progress)
    } else {
        stem.len() == 256 && is_done(progress)
    }
}

/// Whether a path stands above the last one, by its bytes.
pub fn is_above(last: &[u8], path: &[u8]) -> bool
    ensures { result ≡ above last.now path.now }
{
    last.cmp(&path).is_lt()
}

// Whether as many `z` stand above the last path.
fn is_filling_above(last: &[u8], room: usize) -> bool
    ensures { result ≡ above last.now (replicate room 122) }
{
    let mut room = room;
    for c in last {
        if room == 0 {
            return false;
        }
        if *c != b'z' {
            return *c < b'z';
        }
        room -= 1;
    }
    room > 0
}

// Whether a word filled up with `z` stands above the last path.
fn is_filled_above(last: &[u8], word: &[u8]) -> bool
    ensures { result ≡ above last.now (filled word.now) }
{
    let stem = stem(word);
    match last.strip_prefix(stem) {
        Some(rest) => is_filling_above(rest, 256_usize.saturating_sub(stem.len())),
        None => is_above(last, stem),
    }
}

/// Whether some path above the last one begins with a word.
#[tactic(auto, unfolding(crate::specs::Paths::begins_path))]
pub fn begins_path(last: &[u8], word: &[u8]) -> bool
    ensures { result ≡ path_begins last.now word.now }
{
    is_filled_path(word) && is_filled_above(last, word)
}

fn is_digit(c: u8) -> bool
    ensures { result ≡ digit c }
{
    48 <= c && c <= 57
}

fn are_digits(word: &[u8]) -> bool
    ensures { result ≡ list_all digit word.now }
{
    word.iter().all(|c| is_digit(*c))
}

// A number in decimal, without a leading zero, of any size.
fn is_numeral(word: &[u8]) -> bool
    ensures { result ≡ numeral_test word.now }
{
    match word.split_first() {
        None => false,
        Some((first, rest)) => {
            if *first == b'0' {
                rest.is_empty()
            } else {
                are_digits(word)
            }
        }
    }
}

fn ends_in_c(word: &[u8]) -> bool
    ensures { result ≡ source_end word.now }
{
    word.ends_with(b".c".as_slice())
}

fn is_object_path(word: &[u8]) -> bool
    ensures { result ≡ object_path word.now }
{
    is_path(word) && !ends_in_c(word)
}

// How many bytes stand before the first `#`.
fn path_len(word: &[u8]) -> usize
    ensures { result ≡ prefix_len (λ c. not (c == 35)) word.now }
{
    word.iter().take_while(|c| **c != b'#').count()
}

// What stands from a `#` on, if anything does.
fn is_clone(tail: &[u8]) -> bool
    ensures { result ≡ clone_test tail.now }
{
    match tail.split_first() {
        None => true,
        Some((_, number)) => is_numeral(number),
    }
}

fn is_name_of(path: &[u8], tail: &[u8]) -> bool
    ensures { result ≡ (object_path path.now && clone_test tail.now) }
{
    is_object_path(path) && is_clone(tail)
}

/// Whether a word is the name of an object: a path that does not end with `.c`, and for a clone a
/// `#` and a number without a leading zero.
pub fn is_name(word: &[u8]) -> bool
    ensures { result ≡ name_test word.now }
{
    let (path, tail) = word.split_at(path_len(word));
    is_name_of(path, tail)
}

// Whether a word filled up with `z` ends with `.c`.
fn ends_filled_in_c(word: &[u8]) -> bool
    ensures { result ≡ source_end (filled word.now) }
{
    let stem = stem(word);
    if stem.len() < 256 {
        return false;
    }
    ends_in_c(stem)
}

fn is_filled_object_path(word: &[u8]) -> bool
    ensures { result ≡ object_path (filled word.now) }
{
    is_filled_path(word) && !ends_filled_in_c(word)
}

fn begins_with_parts(path: &[u8], tail: &[u8]) -> bool
    ensures { result ≡ parts_begin path.now tail.now }
{
    match tail.split_first() {
        None => is_filled_object_path(path),
        Some((_, number)) => { is_object_path(path) && (number.is_empty() || is_numeral(number)) }
    }
}

/// Whether some name of an object begins with a word.
pub fn begins_name(word: &[u8]) -> bool
    ensures { result ≡ name_begins word.now }
{
    let (path, tail) = word.split_at(path_len(word));
    begins_with_parts(path, tail)
}

/// Each test says true exactly where what it tests is so: of a path, of the front of a path above
/// the last one, of the name of an object, and of the front of one. Does nothing.
pub fn tests_are_exact(last: &[u8], word: &[u8])
    ensures path { Decides (path_test word.now) (IsPath word.now) }
    ensures path_front { Decides (path_begins last.now word.now) (BeginsPath last.now word.now) }
    ensures name { Decides (name_test word.now) (IsObjectName word.now) }
    ensures name_front { Decides (name_begins word.now) (BeginsName word.now) }
{}

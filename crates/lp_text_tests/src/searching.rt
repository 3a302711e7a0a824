use lp_text::pieces::explode;
use lp_text::search::find;
use lp_values::text::{Text, code_points};
use std::alloc::{AllocError, Global};
use std::test::Fail;

const DIGITS: &str = "0123456789012345678901234567890123456789012345678901234567890123456789xyz";

/// A text, another one, a place, and the first place of the other in the text from there on.
type Row = (&'static str, &'static str, u64, Option<u64>);

static ROWS: [Row; 23] = [
    // Short periods.
    ("aaaabaaaaa", "aaaaa", 0, Some(5)),
    ("aaaabaaaa", "aaaaa", 0, None),
    ("ababacababab", "ababab", 0, Some(6)),
    ("abaabaabaabaaba", "abaabaaba", 1, Some(3)),
    ("abcabcabdabcabcabcabd", "abcabcabcabd", 0, Some(9)),
    // Long periods.
    ("aaaaaaaaaaaab", "aaab", 0, Some(9)),
    ("aaaaaaaaaaaaa", "aaab", 0, None),
    ("baaaaaaaabaaa", "baaaab", 0, None),
    ("xabcxabdxabe", "xabe", 0, Some(8)),
    ("xabcxabdxabe", "abd", 3, Some(5)),
    // First points that are rare.
    (DIGITS, "x", 0, Some(70)),
    (DIGITS, "xyz", 0, Some(70)),
    (DIGITS, "z", 71, Some(72)),
    (DIGITS, "xz", 0, None),
    (DIGITS, "ä", 0, None),
    (DIGITS, "9x", 0, Some(69)),
    ("aäaäb", "äa", 0, Some(1)),
    ("aäaäb", "äb", 0, Some(3)),
    ("aäaäb", "ä", 2, Some(3)),
    ("aäaäb", "äbc", 0, None),
    ("aäaäb", "a", 3, None),
    ("aäaäb", "", 5, Some(5)),
    ("aäaäb", "", 6, None),
];

fn is_found(alloc: Global, row: Row) -> Result<bool, AllocError> {
    let hay = code_points(alloc, row.0)?;
    let needle = code_points(alloc, row.1)?;
    Ok(find(hay.as_slice(), needle.as_slice(), row.2) == row.3)
}

/// So many code points, `ä` and `b` in turn.
fn turns(alloc: Global, n: u32) -> Result<Vec<char>, AllocError> {
    let mut all = Vec::new(alloc);
    for i in 0..n {
        all.push(if i % 2 == 0 { 'ä' } else { 'b' })?;
    }
    Ok(all)
}

/// Whether the piece at a place is this.
fn is_piece(pieces: &[Text], at: usize, piece: &[char]) -> bool {
    match pieces.get(at) {
        Some(text) => text.as_slice() == piece,
        None => false,
    }
}

/// Whether a text is taken apart into each of its many code points.
fn has_singles(alloc: Global) -> Result<bool, Fail> {
    let s = turns(alloc, 1200)?;
    let pieces = explode(alloc, s.as_slice(), &[])?;
    Ok(
        pieces.len() == 1200
            && is_piece(pieces.as_slice(), 0, &['ä'])
            && is_piece(pieces.as_slice(), 1, &['b'])
            && is_piece(pieces.as_slice(), 1199, &['b']),
    )
}

/// Whether the piece behind the last separator is empty.
fn has_empty_piece(alloc: Global) -> Result<bool, Fail> {
    let s = turns(alloc, 4)?;
    let pieces = explode(alloc, s.as_slice(), &['b'])?;
    Ok(
        pieces.len() == 3
            && is_piece(pieces.as_slice(), 1, &['ä'])
            && is_piece(pieces.as_slice(), 2, &[]),
    )
}

#[test]
fn texts_are_found(rt: HostRuntime) -> Result<(), Fail> {
    let alloc = rt.alloc();
    for i in 0..ROWS.len() {
        assert!(rt; is_found(alloc, ROWS[i])?, "{i}");
    }
    assert!(rt; has_singles(alloc)?);
    assert!(rt; has_empty_piece(alloc)?);
    Ok(())
}

//! Which words are paths and names, and which begin one.
use lp_words::path::{begins_name, begins_path, is_above, is_name, is_path};

/// A word, and whether it is a path, begins one, is a name and begins one.
static WORDS: [(&str, bool, bool, bool, bool); 20] = [
    ("", false, true, false, true),
    ("/", false, true, false, true),
    ("a", false, false, false, false),
    ("/a", true, true, true, true),
    ("/a/", false, true, false, true),
    ("/a//b", false, false, false, false),
    ("/a/.", false, true, false, true),
    ("/a/..", false, true, false, true),
    ("/a/../b", false, false, false, false),
    ("/a..b", true, true, true, true),
    ("/a b", false, false, false, false),
    ("/secure/master", true, true, true, true),
    ("/secure/master.c", true, true, false, true),
    ("/a#", false, false, false, true),
    ("/a#0", false, false, true, true),
    ("/a#1", false, false, true, true),
    ("/a#10", false, false, true, true),
    ("/a#01", false, false, false, false),
    ("/a.c", true, true, false, true),
    ("/a.c#1", false, false, false, false),
];

/// Whether a word is told as it must be.
fn is_told(row: (&str, bool, bool, bool, bool)) -> bool {
    let (word, path, path_front, name, name_front) = row;
    let bytes = word.as_bytes();
    is_path(bytes) == path
        && begins_path(b"".as_slice(), bytes) == path_front
        && is_name(bytes) == name
        && begins_name(bytes) == name_front
}

/// The last byte but one and the last of 256, and whether they are a path, begin one, are a name and begin one.
static ENDS: [(u8, u8, bool, bool, bool, bool); 4] = [
    (b'x', b'x', true, true, true, true),
    (b'x', b'/', false, false, false, false),
    (b'.', b'c', true, true, false, false),
    (b'/', b'.', false, false, false, false),
];

/// Whether a word of 256 bytes is told as it must be, and that one more is none.
fn is_longest(row: (u8, u8, bool, bool, bool, bool)) -> bool {
    let (first, second, path, path_front, name, name_front) = row;
    let mut word = [b'x'; 257];
    word[0] = b'/';
    word[254] = first;
    word[255] = second;
    let longest = &word[..256];
    is_path(longest) == path
        && begins_path(b"".as_slice(), longest) == path_front
        && is_name(longest) == name
        && begins_name(longest) == name_front
        && !is_path(&word)
        && !begins_path(b"".as_slice(), &word)
}

/// The last path, a word, whether it stands above, and whether a path above begins with it.
static ORDERS: [(&str, &str, bool, bool); 7] = [
    ("", "/a", true, true),
    ("/a", "/a", false, true),
    ("/b", "/a", false, false),
    ("/b", "/", false, true),
    ("/a/b", "/a", false, true),
    ("/azz", "/a", false, true),
    ("/b", "/bb", true, true),
];

/// Whether a word stands to a last path as it must.
fn is_ordered(row: (&str, &str, bool, bool)) -> bool {
    let (last, word, above, front) = row;
    is_above(last.as_bytes(), word.as_bytes()) == above
        && begins_path(last.as_bytes(), word.as_bytes()) == front
}

#[test]
fn words_of_scripts(rt: HostRuntime) {
    for i in 0..WORDS.len() {
        let row = WORDS[i];
        assert!(rt; is_told(row), "{}", row.0);
    }
    for i in 0..ENDS.len() {
        let row = ENDS[i];
        assert!(rt; is_longest(row), "{} {}", row.0, row.1);
    }
    for i in 0..ORDERS.len() {
        let row = ORDERS[i];
        assert!(rt; is_ordered(row), "{} {}", row.0, row.1);
    }
    // No path stands above the greatest.
    let mut greatest = [b'z'; 256];
    greatest[0] = b'/';
    assert!(rt; !begins_path(&greatest, b"/".as_slice()));
}

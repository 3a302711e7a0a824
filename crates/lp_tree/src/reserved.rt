//! Which names are reserved.
ghost use Rattle.std.specs.Prelude.{◌≡◌, bytes_eq};
ghost use Rattle.lp_tree.specs.Keywords.{modifier_of, base_of, other_of, keyword_of, AreReserved};

use crate::keyword::{Base, Keyword, Modifier};

// Whether a name has these letters.
fn is_word(name: &[char], letters: &[char]) -> bool
    ensures { result ≡ bytes_eq name.now letters.now }
{
    name == letters
}

// The modifier of these letters.
fn modifier_word(name: &[char]) -> Option<Modifier>
    ensures { result ≡ modifier_of name.now }
{
    if is_word(name, &['p', 'r', 'i', 'v', 'a', 't', 'e']) {
        return Some(Modifier::Private);
    }
    if is_word(name, &['p', 'r', 'o', 't', 'e', 'c', 't', 'e', 'd']) {
        return Some(Modifier::Protected);
    }
    if is_word(name, &['p', 'u', 'b', 'l', 'i', 'c']) {
        return Some(Modifier::Public);
    }
    if is_word(name, &['s', 't', 'a', 't', 'i', 'c']) {
        return Some(Modifier::Static);
    }
    if is_word(name, &['n', 'o', 's', 'a', 'v', 'e']) {
        return Some(Modifier::Nosave);
    }
    if is_word(name, &['n', 'o', 'm', 'a', 's', 'k']) {
        return Some(Modifier::Nomask);
    }
    if is_word(name, &['v', 'a', 'r', 'a', 'r', 'g', 's']) {
        return Some(Modifier::Varargs);
    }
    None
}

// The base type of these letters.
fn base_word(name: &[char]) -> Option<Base>
    ensures { result ≡ base_of name.now }
{
    if is_word(name, &['i', 'n', 't']) {
        return Some(Base::Int);
    }
    if is_word(name, &['s', 't', 'a', 't', 'u', 's']) {
        return Some(Base::Status);
    }
    if is_word(name, &['s', 't', 'r', 'i', 'n', 'g']) {
        return Some(Base::String);
    }
    if is_word(name, &['o', 'b', 'j', 'e', 'c', 't']) {
        return Some(Base::Object);
    }
    if is_word(name, &['m', 'a', 'p', 'p', 'i', 'n', 'g']) {
        return Some(Base::Mapping);
    }
    if is_word(name, &['m', 'i', 'x', 'e', 'd']) {
        return Some(Base::Mixed);
    }
    if is_word(name, &['v', 'o', 'i', 'd']) {
        return Some(Base::Void);
    }
    None
}

// The reserved word of these letters that is neither.
fn other_word(name: &[char]) -> Option<Keyword>
    ensures { result ≡ other_of name.now }
{
    if is_word(name, &['i', 'n', 'h', 'e', 'r', 'i', 't']) {
        return Some(Keyword::Inherit);
    }
    if is_word(name, &['i', 'f']) {
        return Some(Keyword::If);
    }
    if is_word(name, &['e', 'l', 's', 'e']) {
        return Some(Keyword::Else);
    }
    if is_word(name, &['w', 'h', 'i', 'l', 'e']) {
        return Some(Keyword::While);
    }
    if is_word(name, &['d', 'o']) {
        return Some(Keyword::Do);
    }
    if is_word(name, &['f', 'o', 'r']) {
        return Some(Keyword::For);
    }
    if is_word(name, &['f', 'o', 'r', 'e', 'a', 'c', 'h']) {
        return Some(Keyword::Foreach);
    }
    if is_word(name, &['s', 'w', 'i', 't', 'c', 'h']) {
        return Some(Keyword::Switch);
    }
    if is_word(name, &['c', 'a', 's', 'e']) {
        return Some(Keyword::Case);
    }
    if is_word(name, &['d', 'e', 'f', 'a', 'u', 'l', 't']) {
        return Some(Keyword::Default);
    }
    if is_word(name, &['b', 'r', 'e', 'a', 'k']) {
        return Some(Keyword::Break);
    }
    if is_word(name, &['c', 'o', 'n', 't', 'i', 'n', 'u', 'e']) {
        return Some(Keyword::Continue);
    }
    if is_word(name, &['r', 'e', 't', 'u', 'r', 'n']) {
        return Some(Keyword::Return);
    }
    if is_word(name, &['c', 'a', 't', 'c', 'h']) {
        return Some(Keyword::Catch);
    }
    if is_word(name, &['s', 's', 'c', 'a', 'n', 'f']) {
        return Some(Keyword::Sscanf);
    }
    None
}

/// The reserved word of these letters, or None where a name may have them.
pub fn keyword(name: &[char]) -> Option<Keyword>
    ensures { result ≡ keyword_of name.now }
{
    if let Some(found) = modifier_word(name) {
        return Some(Keyword::Modifier(found));
    }
    if let Some(found) = base_word(name) {
        return Some(Keyword::Base(found));
    }
    other_word(name)
}

/// The law of reserved words: each is found by its letters, and by no others.
pub fn reserved_words()
    ensures { AreReserved }
{}

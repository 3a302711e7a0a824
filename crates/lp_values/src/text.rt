//! Texts of LPC.
ghost use Rattle.std.specs.Prelude.{◌≡◌, ◌+◌, ◌≤◌, IfOk, List, length, nat_eq, slice_index};
ghost use Rattle.std.specs.Cmp;
ghost use Rattle.std.specs.Cmp.Lexicographic.{bytes_decides, nat_list_eq_equiv, pointwise};
ghost use Rattle.std.specs.Hash as fed;
ghost use Rattle.std.specs.Str.{chars};
ghost use Rattle.std.specs.List.{fold};
ghost use Rattle.lp_values.specs.Hashed.{four, fours, text_input};

use std::alloc::{AllocError, Global};
use std::hash::{Hash, Hasher};
use std::marker::Model;
use std::rc::Rc;

/// A text: a list of code points. Copies share their memory, and an item is found in constant time.
#[derive(Debug, Drop)]
pub struct Text {
    chars: Rc<Vec<char>>,
}

impl Model for Text {
    ghost use Rattle.std.specs.Prelude.{List, ℕ};

    ghost Value = { List ℕ };

    ghost view = { λ t. t.chars.value.items };
}

/// The code points of a text of the program.
#[tactic(auto, using(std::proofs::lemmas::Str::chars_from_encodes))]
pub fn code_points(alloc: Global, text: &str) -> Result<Vec<char>, AllocError>
    ensures { IfOk result (λ v. v.items ≡ chars text.now) }
{
    text.chars().collect(alloc)
}

impl Text {
    /// The text of these code points.
    pub fn from_vec(alloc: Global, chars: Vec<char>) -> Result<Text, AllocError>
        ensures { IfOk result (λ t. t ≡ chars.items) }
    {
        Ok(Text {
            chars: Rc::new(alloc, chars)?,
        })
    }

    /// The text of these code points.
    pub fn from_slice(alloc: Global, chars: &[char]) -> Result<Text, AllocError>
        ensures { IfOk result (λ t. t ≡ chars.now) }
    {
        Text::from_vec(alloc, Vec::from_slice(alloc, chars)?)
    }

    /// The text of the code points of `text`.
    pub fn from_str(alloc: Global, text: &str) -> Result<Text, AllocError>
        ensures { IfOk result (λ t. t ≡ chars text.now) }
    {
        Text::from_vec(alloc, code_points(alloc, text)?)
    }

    /// The code points.
    pub fn as_slice(&self) -> &[char]
        ensures { result.now ≡ self.now }
    {
        self.chars.as_slice()
    }

    /// The same text, in the same memory.
    pub fn copy(&self) -> Result<Text, AllocError>
        ensures { IfOk result (λ t. t ≡ self.now) }
    {
        Ok(Text {
            chars: self.chars.clone()?,
        })
    }
}

impl PartialEq for Text {
    ghost eq = { λ a b. pointwise nat_eq a b };

    ghost laws = { Cmp.partial_equiv_from_equiv nat_list_eq_equiv };

    fn eq(&self, other: &Text) -> bool {
        self.as_slice() == other.as_slice()
    }
}

impl Eq for Text {
    ghost laws = { nat_list_eq_equiv };
}

impl Hash for Text {
    ghost hash_input = { λ s. text_input s };

    ghost respects_eq = { (fed.same_Alike text_input bytes_decides).fed };

    fn hash<H: Hasher>(&self, state: &mut H) {
        let chars = self.as_slice();
        state.write_usize(chars.len());
        feed(chars, state);
    }
}

/// Feeds code points to a hasher, four in one write: a hasher works as long on one as on four.
fn feed<H: Hasher>(chars: &[char], state: &mut H)
    ensures { state.new ≡ fold H.write state.old (fours chars.now) }
{
    let mut at = 0;
    while 4 <= chars.len() - at {
        state.write_u128(four_at(chars, at));
        at += 4;
    }
    feed_last(&chars[at..], state);
}

/// Four code points in one number.
fn four_at(chars: &[char], at: usize) -> u128
    requires { at + 4 ≤ length chars.now }
    ensures { result ≡ four (slice_index chars.now at) (slice_index chars.now (at + 1)) (slice_index chars.now (at + 2)) (slice_index chars.now (at + 3)) }
{
    let low = chars[at] as u64 + chars[at + 1] as u64 * 4294967296;
    let high = chars[at + 2] as u64 + chars[at + 3] as u64 * 4294967296;
    low as u128 + high as u128 * 18446744073709551616
}

/// Feeds the last code points, fewer than four, to a hasher.
fn feed_last<H: Hasher>(chars: &[char], state: &mut H)
    requires { length chars.now ≤ 3 }
    ensures { state.new ≡ fold H.write state.old (fours chars.now) }
{
    Hash::hash_slice(chars, state);
}

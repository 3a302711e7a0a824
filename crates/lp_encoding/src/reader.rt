//! Bytes that are read from the front.
ghost use Rattle.std.specs.Prelude.{◌≡◌, ◌<◌, ◌≤◌, IfSome, IfNone, length, take, drop};

use std::marker::Model;

/// The bytes that are not read yet.
#[derive(Drop)]
pub struct Reader<'a> {
    rest: &'a [u8],
}

impl<'a> Model for Reader<'a> {
    ghost use Rattle.std.specs.Prelude.{List, ℕ};

    ghost Value = { List ℕ };

    ghost view = { λ r. r.rest.now };
}

impl<'a> Reader<'a> {
    /// A reader of bytes.
    pub fn new(bytes: &'a [u8]) -> Reader<'a>
        ensures { result ≡ bytes.now }
    {
        Reader { rest: bytes }
    }

    /// How many bytes are left.
    pub fn left(&self) -> usize
        ensures { result ≡ length self.now }
    {
        self.rest.len()
    }

    /// The next so many bytes, or None where there are fewer.
    pub fn front(&mut self, count: usize) -> Option<&'a [u8]>
        ensures front { IfSome result (λ s. s.now ≡ take count self.old) }
        ensures behind { IfSome result (λ s. self.new ≡ drop count self.old) }
        ensures enough { IfSome result (λ s. count ≤ length self.old) }
        ensures short { IfNone result (length self.old < count) }
    {
        if self.rest.len() < count {
            return None;
        }
        let (front, rest) = self.rest.split_at(count);
        self.rest = rest;
        Some(front)
    }
}

//! Bytes, and names made of them.
ghost use Rattle.std.specs.Prelude.{◌≡◌, IfOk, string_bytes};

use std::alloc::{AllocError, Global};
use std::marker::Model;

/// A list of bytes.
#[derive(Debug, Drop)]
pub struct Octets {
    bytes: Vec<u8>,
}

impl Model for Octets {
    ghost use Rattle.std.specs.Prelude.{List, ℕ};

    ghost Value = { List ℕ };

    ghost view = { λ o. o.bytes.items };
}

impl Octets {
    /// The bytes of a vector. Takes no memory.
    pub fn from_vec(bytes: Vec<u8>) -> Octets
        ensures { result ≡ bytes.items }
    {
        Octets { bytes }
    }

    /// The vector of the bytes. Takes no memory.
    pub fn into_vec(self) -> Vec<u8>
        ensures { result.items ≡ self }
    {
        self.bytes
    }

    /// A copy of a slice.
    pub fn from_slice(alloc: Global, bytes: &[u8]) -> Result<Octets, AllocError>
        ensures { IfOk result (λ o. o ≡ bytes.now) }
    {
        Ok(Octets {
            bytes: bytes.to_vec(alloc)?,
        })
    }

    /// The bytes.
    pub fn as_slice(&self) -> &[u8]
        ensures { result.now ≡ self.now }
    {
        self.bytes.as_slice()
    }
}

/// The name of an object, as its bytes: a path without `.c`, and `#N` for a clone.
#[derive(Debug, Drop)]
pub struct ObjectName {
    text: String,
}

impl Model for ObjectName {
    ghost use Rattle.std.specs.Prelude.{List, ℕ, string_bytes};

    ghost Value = { List ℕ };

    ghost view = { λ n. string_bytes n.text };
}

impl ObjectName {
    /// The name that a text spells. Takes no memory.
    pub fn from_string(text: String) -> ObjectName
        ensures { result ≡ string_bytes text }
    {
        ObjectName { text }
    }

    /// The name as text.
    pub fn as_str(&self) -> &str
        ensures { result.now ≡ self.now }
    {
        self.text.as_str()
    }
}

//! What is kept of bytes that went out.

/// Where bytes went out: their place in the swap file, how many they are, and their SHA-256 digest.
#[derive(Debug, PartialEq, Eq, Drop)]
pub struct Ticket {
    pub place: u64,
    pub len: u64,
    pub digest: [u8; 32],
}

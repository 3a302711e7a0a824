//! The connections that are not gone.
ghost use Rattle.std.specs.Prelude.{◌≡◌, ℕ, true, ◌<◌, ◌^◌, [], ◌∷◌, ◌++◌, ◌==◌, not, filter, OnOk, OnErr, IsTrue};
ghost use Rattle.lp_script.specs.Reading.{number_named, is_one_of, begins_one_of, is_empty as is_empty_lem};

use crate::number::{begins_number, is_numeral, value};
use std::alloc::{AllocError, Global};
use std::marker::Model;

/// The numbers of the connections that are not gone, in order.
#[derive(Debug, Drop)]
pub struct Connections {
    numbers: Vec<u32>,
}

impl Model for Connections {
    ghost use Rattle.std.specs.Prelude.{List, ℕ};

    ghost Value = { List ℕ };

    ghost view = { λ c. c.numbers.items };
}

// Is a number found among these, where they rise? Scripts number their connections so.
fn is_found(k: u128, numbers: &[u32]) -> bool
    ensures { IsTrue result → is_one_of numbers.now k ≡ true }
{
    if k > u128::from(u32::MAX) {
        return false;
    }
    match numbers.binary_search(&(k as u32)) {
        Ok(i) => k == u128::from(numbers[i]),
        Err(_) => false,
    }
}

// Is a number among these? One that is not found makes a line that fits no script, so a reader looks at
// all of them once at most.
fn is_among(k: u128, numbers: &[u32]) -> bool
    ensures value { result ≡ is_one_of numbers.now k }
    ensures small { (n : ℕ) → is_one_of numbers.now n ≡ true → n < 2 ^ 32 }
{
    is_found(k, numbers) || numbers.iter().any(|n| k == u128::from(*n))
}

// Leaves out a number.
fn leave_out(numbers: &mut Vec<u32>, k: u32)
    ensures { numbers.new.items ≡ filter (λ j. not (j == k)) numbers.old.items }
{
    let mut kept = 0;
    for i in 0..numbers.len() {
        let n = numbers[i];
        if n != k {
            numbers[kept] = n;
            kept += 1;
        }
    }
    numbers.truncate(kept);
}

impl Connections {
    pub fn new(alloc: Global) -> Connections
        ensures { result ≡ [] }
    {
        Connections {
            numbers: Vec::new(alloc),
        }
    }

    pub fn is_empty(&self) -> bool
        ensures { result ≡ is_empty_lem self.now }
    {
        match self.numbers.as_slice() {
            [] => true,
            [_, ..] => false,
        }
    }

    // Is this connection not gone?
    fn contains(&self, k: u128) -> bool
        ensures value { result ≡ is_one_of self.now k }
        ensures small { (n : ℕ) → is_one_of self.now n ≡ true → n < 2 ^ 32 }
    {
        is_among(k, self.numbers.as_slice())
    }

    /// The connection that a word names, if it is not gone.
    pub fn named(&self, word: &[u8]) -> Option<u32>
        ensures { result ≡ number_named (is_one_of self.now) word.now }
    {
        if !is_numeral(word) {
            return None;
        }
        let n = value(word);
        if self.contains(n) {
            Some(n as u32)
        } else {
            None
        }
    }

    /// May this word become the number of a connection that is not gone?
    pub fn begins(&self, word: &[u8]) -> bool
        ensures { result ≡ begins_one_of self.now word.now }
    {
        self.numbers.iter().any(|n| begins_number(*n, word))
    }

    /// One more. Where memory is wanting nothing changes.
    pub fn open(&mut self, k: u32) -> Result<(), AllocError>
        ensures ok { OnOk result (self.new ≡ self.old ++ k ∷ []) }
        ensures err { OnErr result (self.new ≡ self.old) }
    {
        self.numbers.push(k)?;
        Ok(())
    }

    /// This one is gone.
    pub fn close(&mut self, k: u32)
        ensures { self.new ≡ filter (λ j. not (j == k)) self.old }
    {
        leave_out(&mut self.numbers, k);
    }
}

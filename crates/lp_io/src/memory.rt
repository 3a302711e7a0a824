//! A source and a sink in memory, whose calls fail as they are told.
ghost use Rattle.std.specs.Prelude.{◌≡◌, ℕ, ◌<◌, ◌≤◌, ◌++◌, [], true, false, length, take, drop, min, Some, IfOk, OnOk, OnErr, IsTrue, IsErr, if◌then◌else◌};
ghost use Rattle.std.specs.Result.{is_err};
ghost use Rattle.lp_io.specs.Counts.{Counts};
ghost use Rattle.lp_io.specs.Memory.{after_call, after_failure, next_is_listed};
ghost use Rattle.lp_io.specs.Told.{after_adding, before_giving, took_none, IsAtEnd, IsPassedOn};

use crate::bytes::Octets;
use crate::calls::CallList;
use crate::outside::{Failed, Sink, Source};
use std::alloc::Global;
use std::marker::Model;

/// A source of bytes in memory. It tells what is left.
#[derive(Debug, Drop)]
pub struct MemSource {
    content: Octets,
    at: usize,
    calls: CallList,
}

impl Model for MemSource {
    ghost use Rattle.std.specs.Prelude.{◌≤◌, drop, length};
    ghost use Rattle.lp_io.specs.Memory.{Reading};

    ghost Value = { Reading };

    ghost view = { λ s. record { left = drop s.at s.content; calls = s.calls } };

    ghost invariant = { λ s. s.at ≤ length s.content };
}

impl MemSource {
    /// A source of these bytes, whose calls with the numbers in `fail`, from 1, fail. It takes no
    /// memory.
    pub fn new(bytes: Octets, fail: Vec<u64>) -> MemSource
        ensures { result ≡ record { left = bytes; calls = record { listed = fail.items; made = 0; failed = 0 } } }
    {
        MemSource {
            content: bytes,
            at: 0,
            calls: CallList::new(fail),
        }
    }

    /// How many reads were made, those that failed too; the count stands still at `u64::MAX`.
    pub fn calls(&self) -> u64
        ensures { result ≡ self.now.calls.made }
    {
        self.calls.made()
    }

    /// How many reads failed; the count stands still at `u64::MAX`.
    pub fn faults(&self) -> u64
        ensures { result ≡ self.now.calls.failed }
    {
        self.calls.failed()
    }
}

// Copies as many bytes as both have room for to the front of `into`, and returns how many.
fn copy_front(from: &[u8], into: &mut [u8]) -> usize
    ensures count { result ≡ min (length into.old) (length from.now) }
    ensures bytes { into.new ≡ take result from.now ++ drop result into.old }
{
    let n = into.len().min(from.len());
    into[..n].copy_from_slice(&from[..n]);
    n
}

impl Source for MemSource {
    ghost faults = { λ s. s.calls.failed };

    ghost remaining = { λ s. Some s.left };

    /// Gives as many bytes as fit, and leaves the rest of `into` as it was. It fails exactly where
    /// the number of this call is listed.
    fn read(&mut self, into: &mut [u8]) -> Result<usize, Failed>
        ensures within { IfOk result (λ n. n ≤ length into.new) }
        ensures given { IfOk result (λ n. Some self.old.left ≡ before_giving (take n into.new) (Some self.new.left)) }
        ensures end { IfOk result (λ n. n ≡ 0 → 0 < length into.new → IsAtEnd (Some self.new.left)) }
        ensures kept { OnErr result (Some self.new.left ≡ Some self.old.left) }
        ensures faults { Counts (is_err result) self.old.calls.failed self.new.calls.failed }
        ensures no_fall { self.old.calls.failed ≤ self.new.calls.failed }
        ensures fails { is_err result ≡ next_is_listed self.old.calls }
        ensures count { IfOk result (λ n. n ≡ min (length into.old) (length self.old.left)) }
        ensures bytes { IfOk result (λ n. into.new ≡ take n self.old.left ++ drop n into.old) }
        ensures calls { self.new.calls ≡ (if is_err result then after_failure self.old.calls else after_call self.old.calls) }
    {
        if self.calls.next_fails() {
            return Err(Failed);
        }
        let n = copy_front(&self.content.as_slice()[self.at..], into);
        self.at += n;
        Ok(n)
    }
}

/// A sink in memory. It tells what it took.
#[derive(Debug, Drop)]
pub struct MemSink {
    content: Vec<u8>,
    passed: bool,
    most: usize,
    calls: CallList,
    zeros: u64,
}

impl Model for MemSink {
    ghost use Rattle.lp_io.specs.Memory.{Writing};

    ghost Value = { Writing };

    ghost view = { λ s. record { bytes = s.content.items; passed = s.passed; most = s.most; calls = s.calls; zeros = s.zeros } };
}

impl MemSink {
    /// An empty sink. Its calls with the numbers in `fail` fail, where writes and flushes are
    /// numbered together from 1, and each write takes `take` bytes at most. It takes no memory.
    pub fn new(alloc: Global, fail: Vec<u64>, take: usize) -> MemSink
        ensures { result ≡ record { bytes = []; passed = true; most = take; calls = record { listed = fail.items; made = 0; failed = 0 }; zeros = 0 } }
    {
        MemSink {
            content: Vec::new(alloc),
            passed: true,
            most: take,
            calls: CallList::new(fail),
            zeros: 0,
        }
    }

    /// The bytes that were taken.
    pub fn as_slice(&self) -> &[u8]
        ensures { result.now ≡ self.now.bytes }
    {
        self.content.as_slice()
    }

    /// How many calls were made, those that failed too; the count stands still at `u64::MAX`.
    pub fn calls(&self) -> u64
        ensures { result ≡ self.now.calls.made }
    {
        self.calls.made()
    }

    /// How many calls failed; the count stands still at `u64::MAX`.
    pub fn faults(&self) -> u64
        ensures { result ≡ self.now.calls.failed }
    {
        self.calls.failed()
    }
}

impl Sink for MemSink {
    ghost faults = { λ s. s.calls.failed };

    ghost zeros = { λ s. s.zeros };

    ghost written = { λ s. Some s.bytes };

    ghost passed = { λ s. Some s.passed };

    /// Takes the whole piece, or the most that it takes at once. It fails where the number of this
    /// call is listed, and where there is no memory for the bytes.
    fn write(&mut self, piece: &[u8]) -> Result<usize, Failed>
        ensures within { IfOk result (λ n. n ≤ length piece.now) }
        ensures taken { IfOk result (λ n. Some self.new.bytes ≡ after_adding (Some self.old.bytes) (take n piece.now)) }
        ensures kept { OnErr result (Some self.new.bytes ≡ Some self.old.bytes) }
        ensures faults { Counts (is_err result) self.old.calls.failed self.new.calls.failed }
        ensures no_fall { self.old.calls.failed ≤ self.new.calls.failed }
        ensures zeros { Counts (took_none piece.now result) self.old.zeros self.new.zeros }
        ensures zeros_no_fall { self.old.zeros ≤ self.new.zeros }
        ensures fails { IsTrue (next_is_listed self.old.calls) → IsErr result }
        ensures count { IfOk result (λ n. n ≡ min self.old.most (length piece.now)) }
        ensures held { OnOk result (self.new.passed ≡ false) }
        ensures held_still { OnErr result (self.new.passed ≡ self.old.passed) }
        ensures calls { self.new.calls ≡ (if is_err result then after_failure self.old.calls else after_call self.old.calls) }
        ensures most { self.new.most ≡ self.old.most }
    {
        if self.calls.next_fails() {
            return Err(Failed);
        }
        let n = self.most.min(piece.len());
        if self.content.extend_from_slice(&piece[..n]).is_err() {
            self.calls.fail();
            return Err(Failed);
        }
        if n == 0 && !piece.is_empty() {
            self.zeros = self.zeros.saturating_add(1);
        }
        self.passed = false;
        Ok(n)
    }

    /// Fails exactly where the number of this call is listed.
    fn flush(&mut self) -> Result<(), Failed>
        ensures kept { Some self.new.bytes ≡ Some self.old.bytes }
        ensures faults { Counts (is_err result) self.old.calls.failed self.new.calls.failed }
        ensures no_fall { self.old.calls.failed ≤ self.new.calls.failed }
        ensures zeros { self.new.zeros ≡ self.old.zeros }
        ensures passed { OnOk result (IsPassedOn (Some self.new.passed)) }
        ensures fails { is_err result ≡ next_is_listed self.old.calls }
        ensures calls { self.new.calls ≡ (if is_err result then after_failure self.old.calls else after_call self.old.calls) }
        ensures most { self.new.most ≡ self.old.most }
    {
        if self.calls.next_fails() {
            return Err(Failed);
        }
        self.passed = true;
        Ok(())
    }
}

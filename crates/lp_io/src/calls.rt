//! The calls of a form in memory, and which of them fail.
ghost use Rattle.std.specs.Prelude.{◌≡◌, ◌≤◌, if◌then◌else◌};
ghost use Rattle.lp_io.specs.Counts.{one_more};
ghost use Rattle.lp_io.specs.Memory.{after_call, after_failure, next_is_listed};

use std::marker::Model;

/// Counts calls and failures, and knows by their numbers, from 1, the calls that fail.
#[derive(Debug, Drop)]
pub(crate) struct CallList {
    listed: Vec<u64>,
    made: u64,
    failed: u64,
}

impl Model for CallList {
    ghost use Rattle.lp_io.specs.Memory.{Calls};

    ghost Value = { Calls };

    ghost view = { λ c. record { listed = c.listed.items; made = c.made; failed = c.failed } };
}

impl CallList {
    /// No call was made; those with these numbers will fail.
    pub(crate) fn new(listed: Vec<u64>) -> CallList
        ensures { result ≡ record { listed = listed.items; made = 0; failed = 0 } }
    {
        CallList {
            listed,
            made: 0,
            failed: 0,
        }
    }

    /// Counts one more call, and answers whether it fails by the list. If so it counts as failed.
    pub(crate) fn next_fails(&mut self) -> bool
        ensures value { result ≡ next_is_listed self.old }
        ensures after { self.new ≡ (if result then after_failure self.old else after_call self.old) }
        ensures no_fall { self.old.failed ≤ self.new.failed }
    {
        self.made = self.made.saturating_add(1);
        let fails = self.listed.contains(&self.made);
        if fails {
            self.failed = self.failed.saturating_add(1);
        }
        fails
    }

    /// Counts the call that was counted last as failed.
    pub(crate) fn fail(&mut self)
        ensures after { self.new ≡ record self.old { failed = one_more self.old.failed } }
        ensures no_fall { self.old.failed ≤ self.new.failed }
    {
        self.failed = self.failed.saturating_add(1);
    }

    /// How many calls were made; the count stands still at `u64::MAX`.
    pub(crate) fn made(&self) -> u64
        ensures { result ≡ self.now.made }
    {
        self.made
    }

    /// How many calls failed; the count stands still at `u64::MAX`.
    pub(crate) fn failed(&self) -> u64
        ensures { result ≡ self.now.failed }
    {
        self.failed
    }
}

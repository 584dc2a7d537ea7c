ghost use Rattle.std.specs.Prelude.{◌≡◌, ◌++◌, length, take, drop, Some, ◌↔◌, min, IsErr, IsOkAnd, IfOk, OnErr};
ghost use Rattle.std.specs.Io.{ReadsAtMost};
ghost use Rattle.std.specs.Io.KnownBytes.{ReadConsumes};
ghost use Rattle.enq_base.specs.Causes.{HasCause};
ghost use Rattle.io_edge.specs.Memory.{IsNextListed, after_read, after_failed_read};

use crate::source::{Source, give};
use enq_base::{Failed, NoMemory};
use std::marker::Model;

/// A source over bytes in memory. Its calls are counted from 1, and those whose number is listed fail.
#[derive(Debug, Drop)]
pub struct MemSource {
    bytes: Vec<u8>,
    at: usize,
    fails: Vec<u64>,
    calls: u64,
    faults: u64,
}

impl Model for MemSource {
    ghost use Rattle.std.specs.Prelude.{◌≤◌, drop, vec_len};
    ghost use Rattle.io_edge.specs.Memory.{SourceView};

    ghost Value = { SourceView };

    ghost view = { λ s. record {
      left = drop s.at s.bytes.items;
      fails = s.fails.items;
      calls = s.calls;
      faults = s.faults;
    } };

    ghost invariant = { λ s. s.at ≤ vec_len s.bytes };
}

impl MemSource {
    /// A source of these bytes, in which the calls of these numbers fail. It takes no memory.
    pub fn new(bytes: Vec<u8>, fails: Vec<u64>) -> Result<MemSource, NoMemory>
        ensures { IsOkAnd result
            (λ s. s ≡ record { left = bytes.items; fails = fails.items; calls = 0; faults = 0 }) }
    {
        Ok(MemSource {
            bytes,
            at: 0,
            fails,
            calls: 0,
            faults: 0,
        })
    }
}

impl Source for MemSource {
    ghost use Rattle.std.specs.Prelude.{Some};

    ghost left = { λ s. Some s.left };

    ghost faults = { λ s. s.faults };

    fn read(&mut self, into: &mut [u8]) -> Result<usize, Failed>
        // As every source.
        ensures bound { ReadsAtMost result into.new }
        ensures bytes { ReadConsumes (Some self.old.left) (Some self.new.left) result into.new }
        ensures cause { HasCause self.old.faults self.new.faults result }

        ensures listed { IsErr result ↔ IsNextListed self.old.fails self.old.calls }
        ensures failed { OnErr result (self.new ≡ after_failed_read self.old) }
        ensures unwritten { OnErr result (into.new ≡ into.old) }

        ensures count { IfOk result (λ n. n ≡ min (length self.old.left) (length into.old)) }
        ensures given { IfOk result (λ n. into.new ≡ take n self.old.left ++ drop n into.old) }
        ensures rest { IfOk result (λ n. self.new ≡ after_read self.old n) }
    {
        self.calls = self.calls.saturating_add(1);
        if self.fails.contains(&self.calls) {
            self.faults = self.faults.saturating_add(1);
            return Err(Failed);
        }
        Ok(give(self.bytes.as_slice(), &mut self.at, into))
    }
}

/// A source over bytes in memory that never fails.
#[derive(Debug, Drop)]
pub struct SureSource {
    bytes: Vec<u8>,
    at: usize,
}

impl Model for SureSource {
    ghost use Rattle.std.specs.Prelude.{◌≤◌, ℕ, List, drop, vec_len};

    // The bytes that are left.
    ghost Value = { List ℕ };

    ghost view = { λ s. drop s.at s.bytes.items };

    ghost invariant = { λ s. s.at ≤ vec_len s.bytes };
}

impl SureSource {
    /// A source of these bytes. It takes no memory.
    pub fn new(bytes: Vec<u8>) -> Result<SureSource, NoMemory>
        ensures { IsOkAnd result (λ s. s ≡ bytes.items) }
    {
        Ok(SureSource { bytes, at: 0 })
    }
}

impl Source for SureSource {
    ghost use Rattle.std.specs.Prelude.{Some};

    ghost left = { λ s. Some s };

    ghost faults = { λ _. 0 };

    fn read(&mut self, into: &mut [u8]) -> Result<usize, Failed>
        // As every source.
        ensures bound { ReadsAtMost result into.new }
        ensures bytes { ReadConsumes (Some self.old) (Some self.new) result into.new }
        ensures cause { HasCause 0 0 result }

        ensures count { IsOkAnd result (λ n. n ≡ min (length self.old) (length into.old)) }
        ensures given { IfOk result (λ n. into.new ≡ take n self.old ++ drop n into.old) }
        ensures rest { IfOk result (λ n. self.new ≡ drop n self.old) }
    {
        Ok(give(self.bytes.as_slice(), &mut self.at, into))
    }
}

ghost use Rattle.std.specs.Prelude.{◌≡◌, ◌≤◌, ◌<◌, [], length, Some, IsErr, IsOkAnd, IfOk, OnOk, OnErr};
ghost use Rattle.enq_base.specs.Causes.{HasCause};
ghost use Rattle.io_edge.specs.Known.{Writes};
ghost use Rattle.io_edge.specs.Memory.{IsNextListed, FailsWrite, after_write};

use crate::sink::Sink;
use enq_base::{Failed, NoMemory};
use std::alloc::Global;
use std::marker::Model;

/// A sink in memory. Its calls are counted from 1, and those whose number is listed fail.
/// A write that finds no memory fails too, and is counted as refused.
#[derive(Debug, Drop)]
pub struct MemSink {
    bytes: Vec<u8>,
    fails: Vec<u64>,
    calls: u64,
    faults: u64,
    refused: u64,
}

impl Model for MemSink {
    ghost use Rattle.io_edge.specs.Memory.{SinkView};

    ghost Value = { SinkView };

    ghost view = { λ s. record {
      written = s.bytes.items;
      fails = s.fails.items;
      calls = s.calls;
      faults = s.faults;
      refused = s.refused;
    } };
}

impl MemSink {
    /// An empty sink, in which the calls of these numbers fail. It takes no memory; its writes do.
    pub fn new(alloc: Global, fails: Vec<u64>) -> Result<MemSink, NoMemory>
        ensures { IsOkAnd result
            (λ s. s ≡ record { written = []; fails = fails.items; calls = 0; faults = 0; refused = 0 }) }
    {
        Ok(MemSink {
            bytes: Vec::new(alloc),
            fails,
            calls: 0,
            faults: 0,
            refused: 0,
        })
    }

    /// The bytes that were written.
    pub fn bytes(&self) -> &[u8]
        ensures { result.now ≡ self.now.written }
    {
        self.bytes.as_slice()
    }

    /// How many writes found no memory.
    pub fn refused(&self) -> u64
        ensures { result ≡ self.now.refused }
    {
        self.refused
    }
}

impl Sink for MemSink {
    ghost use Rattle.std.specs.Prelude.{Some};

    ghost written = { λ s. Some s.written };

    ghost faults = { λ s. s.faults };

    fn write(&mut self, from: &[u8]) -> Result<usize, Failed>
        requires { 0 < length from.now }
        // As every sink.
        ensures bound { IfOk result (λ n. (1 ≤ n) × (n ≤ length from.now)) }
        ensures bytes { Writes (Some self.old.written) (Some self.new.written) result from.now }
        ensures cause { HasCause self.old.faults self.new.faults result }

        ensures listed { IsNextListed self.old.fails self.old.calls → IsErr result }
        ensures failed { OnErr result (FailsWrite self.old self.new) }
        ensures count { IfOk result (λ n. n ≡ length from.now) }
        ensures written { OnOk result (self.new ≡ after_write self.old from.now) }
    {
        self.calls = self.calls.saturating_add(1);
        if self.fails.contains(&self.calls) {
            self.faults = self.faults.saturating_add(1);
            return Err(Failed);
        }
        if self.bytes.extend_from_slice(from).is_err() {
            self.refused = self.refused.saturating_add(1);
            self.faults = self.faults.saturating_add(1);
            return Err(Failed);
        }
        Ok(from.len())
    }
}

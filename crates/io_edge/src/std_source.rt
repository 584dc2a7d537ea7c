ghost use Rattle.std.specs.Prelude.{◌≡◌, ◌≢◌, ◌<◌, [], length, min, Ok, OnOk, OnErr};
ghost use Rattle.std.specs.Io.{ReadsAtMost};
ghost use Rattle.std.specs.Io.KnownBytes.{ReadConsumes, Keeps, IsAtEnd, prepend_known};
ghost use Rattle.enq_base.specs.Causes.{HasCause};
ghost use Rattle.enq_base.specs.Causes.{one_more};

use crate::source::{Source, give};
use enq_base::Failed;
use std::io::Read;
use std::marker::Model;

const PIECE: usize = 4096;

/// A source over a reader of std, which is read a piece of at most 4,096 bytes at a time.
/// Each error of the reader counts as a fault.
#[derive(Debug, Drop)]
pub struct StdSource<R> {
    reader: R,
    buffer: [u8; PIECE],
    // The bytes from `start` to `end` were read ahead.
    start: usize,
    end: usize,
    faults: u64,
}

impl<R> Model for StdSource<R> {
    ghost use Rattle.std.specs.Prelude.{◌≤◌, take, drop};
    ghost use Rattle.io_edge.specs.Standard.{ReaderView};

    ghost Value = { ReaderView R };

    ghost view = { λ s. record {
      reader = s.reader;
      ahead = drop s.start (take s.end s.buffer);
      faults = s.faults;
    } };

    ghost invariant = { λ s. (s.start ≤ s.end) × (s.end ≤ 4096) };
}

impl<R> StdSource<R> {
    /// A source over this reader. Nothing is read yet.
    pub fn new(reader: R) -> StdSource<R>
        ensures reader { result.reader ≡ reader }
        ensures ahead { result.ahead ≡ [] }
        ensures faults { result.faults ≡ 0 }
    {
        StdSource {
            reader,
            buffer: [0; PIECE],
            start: 0,
            end: 0,
            faults: 0,
        }
    }
}

impl<R: Read> Source for StdSource<R> {
    ghost use Rattle.std.specs.Io.KnownBytes.{prepend_known};

    ghost left = { λ s. prepend_known s.ahead (R.remaining s.reader) };

    ghost faults = { λ s. s.faults };

    fn read(&mut self, into: &mut [u8]) -> Result<usize, Failed>
        requires { 0 < length into.old }
        // As every source.
        ensures bound { ReadsAtMost result into.new }
        ensures bytes { ReadConsumes
            (prepend_known self.old.ahead (R.remaining self.old.reader))
            (prepend_known self.new.ahead (R.remaining self.new.reader)) result into.new }
        ensures cause { HasCause self.old.faults self.new.faults result }

        // What was read ahead is given first, and the reader is left alone.
        ensures ready { self.old.ahead ≢ []
            → result ≡ Ok (min (length self.old.ahead) (length into.old)) }
        ensures untouched { self.old.ahead ≢ [] → self.new.reader ≡ self.old.reader }

        ensures counted { OnErr result (self.new.faults ≡ one_more self.old.faults) }
        ensures unwritten { OnErr result (into.new ≡ into.old) }
    {
        self.read_ahead()?;
        Ok(give(&self.buffer[..self.end], &mut self.start, into))
    }
}

impl<R: Read> StdSource<R> {
    /// Reads the next piece, where nothing is left of the last one.
    fn read_ahead(&mut self) -> Result<(), Failed>
        ensures bytes { Keeps
            (prepend_known self.old.ahead (R.remaining self.old.reader))
            (prepend_known self.new.ahead (R.remaining self.new.reader)) }
        ensures end { OnOk result (self.new.ahead ≡ [] → IsAtEnd (R.remaining self.new.reader)) }
        ensures cause { HasCause self.old.faults self.new.faults result }
        ensures ready { self.old.ahead ≢ [] → result ≡ Ok tt }
        ensures stays { self.old.ahead ≢ [] → self.new ≡ self.old }
        ensures counted { OnErr result (self.new.faults ≡ one_more self.old.faults) }
    {
        if self.start < self.end {
            return Ok(());
        }
        self.start = 0;
        self.end = 0;
        match self.reader.read(&mut self.buffer) {
            Ok(count) => {
                self.end = count;
                Ok(())
            }
            Err(_) => {
                self.faults = self.faults.saturating_add(1);
                Err(Failed)
            }
        }
    }
}

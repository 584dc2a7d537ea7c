ghost use Rattle.std.specs.Prelude.{◌≡◌, ◌<◌, ◌≤◌, length, IfOk, OnErr};
ghost use Rattle.enq_base.specs.Causes.{HasCause};
ghost use Rattle.enq_base.specs.Causes.{one_more};
ghost use Rattle.io_edge.specs.Known.{Writes};

use crate::sink::Sink;
use enq_base::Failed;
use std::io::Write;
use std::marker::Model;

/// A sink over a writer of std. It holds no bytes back: each write goes to the writer at once and is
/// flushed, so that what was written stands outside before more is read. A writer that takes nothing
/// counts as a fault, as does each error of its `write` and its `flush`. Where the flush fails, the
/// writer has taken the bytes.
#[derive(Debug, Drop)]
pub struct StdSink<W> {
    writer: W,
    faults: u64,
}

impl<W> Model for StdSink<W> {
    ghost use Rattle.io_edge.specs.Standard.{WriterView};

    ghost Value = { WriterView W };

    ghost view = { λ s. record { writer = s.writer; faults = s.faults } };
}

impl<W> StdSink<W> {
    /// A sink over this writer. Nothing is written yet.
    pub fn new(writer: W) -> StdSink<W>
        ensures writer { result.writer ≡ writer }
        ensures faults { result.faults ≡ 0 }
    {
        StdSink { writer, faults: 0 }
    }
}

impl<W: Write> Sink for StdSink<W> {
    ghost written = { λ s. W.contents s.writer };

    ghost faults = { λ s. s.faults };

    fn write(&mut self, from: &[u8]) -> Result<usize, Failed>
        requires { 0 < length from.now }
        // As every sink.
        ensures bound { IfOk result (λ n. (1 ≤ n) × (n ≤ length from.now)) }
        ensures bytes { Writes (W.contents self.old.writer) (W.contents self.new.writer)
            result from.now }
        ensures cause { HasCause self.old.faults self.new.faults result }

        ensures counted { OnErr result (self.new.faults ≡ one_more self.old.faults) }
    {
        let taken = self.writer.write(from).unwrap_or(0);
        if taken == 0 || self.writer.flush().is_err() {
            self.faults = self.faults.saturating_add(1);
            return Err(Failed);
        }
        Ok(taken)
    }
}

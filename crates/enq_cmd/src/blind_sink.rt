ghost use Rattle.std.specs.Prelude.{◌≡◌, ◌<◌, ◌≤◌, length, None, IfOk, IsOkAnd};
ghost use Rattle.enq_base.specs.Causes.{HasCause};
ghost use Rattle.io_edge.specs.Known.{Writes};

use enq_base::Failed;
use io_edge::Sink;

/// A sink that takes all bytes and keeps none of them. It never fails.
#[derive(Clone, Copy, Debug)]
pub(crate) struct BlindSink;

impl Sink for BlindSink {
    ghost use Rattle.std.specs.Prelude.{None};

    ghost written = { λ _. None };

    ghost faults = { λ _. 0 };

    fn write(&mut self, from: &[u8]) -> Result<usize, Failed>
        requires { 0 < length from.now }
        // As every sink.
        ensures bound { IfOk result (λ n. (1 ≤ n) × (n ≤ length from.now)) }
        ensures bytes { Writes None None result from.now }
        ensures cause { HasCause 0 0 result }

        ensures count { IsOkAnd result (λ n. n ≡ length from.now) }
    {
        Ok(from.len())
    }
}

ghost use Rattle.std.specs.Prelude.{◌≡◌, ◌≢◌};
ghost use Rattle.enq_base.specs.Causes.{Rose};
ghost use Rattle.enq_cmd.specs.Writing.{WritesText};
ghost use Rattle.load_gen.specs.Script.{script_of};

use io_edge::{Sink, put_all};
use load_gen::script_of;
use script_runner::Why;
use std::alloc::Global;

/// Writes the script of so many units. The whole text is made before any of it is written.
pub(crate) fn write_script<T: Sink>(alloc: Global, units: u32, sink: &mut T) -> Why
    ensures written { WritesText (T.written sink.old) (T.written sink.new) (T.faults sink.old) (T.faults sink.new)
        (script_of units) result }
    ensures full { result ≢ Why.LogFull }
    ensures sink_fault { result ≡ Why.SinkFault → Rose (T.faults sink.old) (T.faults sink.new) }
{
    let Ok(text) = script_of(alloc, units) else {
        return Why::NoMemory;
    };
    match put_all(sink, text.as_slice()) {
        Ok(()) => Why::Done,
        Err(_) => Why::SinkFault,
    }
}

ghost use Rattle.std.specs.Prelude.{◌≡◌, ◌≤◌, List};
ghost use Rattle.std.specs.List.{list_any};
ghost use Rattle.actor_threads.specs.declared.actor.Deed.{Deed};
ghost use Rattle.order_laws.specs.Behind.{wants};
ghost use Rattle.script_actors.specs.declared.line.NumberedLine.{NumberedLine};
ghost use Rattle.thread_runner.specs.Writing.{IsWritten, found_full};

use crate::answers::say_all;
use actor_threads::Deed;
use bk_disk::Disk;
use enq_base::Refusal;
use hall::Hall;
use hall_model::{PastEntry, Reply};
use io_edge::Sink;
use keeper_api::Keeper;
use lock_entry::LockStore;
use replica_link::Link;
use run_report::write_report;
use script_actors::NumberedLine;
use script_runner::{Why, end_of};
use std::alloc::Global;

/// Writes what threads have done with the lines: the history, what the lines were answered beside it, and the monitors.
/// Where memory was wanting in a call, the history alone. It says what the run comes to.
pub fn write_run<W: Sink, T: LockStore, K: Keeper, D: Disk, L: Link>(
    alloc: Global,
    sink: &mut W,
    lines: &[NumberedLine],
    hall: &Hall<T, K, D, L>,
    deeds: Vec<Deed>,
) -> Why
    ensures written { IsWritten lines.now hall.now.state deeds.items (W.written sink.old) (W.written sink.new)
        (W.faults sink.old) (W.faults sink.new) result }
    ensures later { W.faults sink.old ≤ W.faults sink.new }
{
    let is_full = found_full(deeds.as_slice());
    if had_no_memory(hall.past()) {
        return write_history(alloc, sink, hall);
    }
    match say_all(alloc, lines, deeds) {
        Ok(said) => match write_report(alloc, sink, lines, hall, said.as_slice()) {
            Ok(()) if is_full => Why::LogFull,
            Ok(()) => end_of(hall.condition(), hall.past()),
            Err(why) => why,
        },
        Err(_) => write_history(alloc, sink, hall),
    }
}

/// Whether some call found the history full.
fn found_full(deeds: &[Deed]) -> bool
    ensures { result ≡ found_full deeds.now }
{
    deeds.iter().any(|deed| deed.full_at.is_some())
}

/// Whether memory was wanting in some call.
fn had_no_memory(past: &[PastEntry]) -> bool
    ensures { result ≡ list_any wants past.now }
{
    past.iter().any(wants)
}

/// Whether memory was wanting in this call.
fn wants(call: &PastEntry) -> bool
    ensures { result ≡ wants call.now }
{
    matches!(call.reply, Reply::Refused(Refusal::NoMemory))
}

/// Writes the history alone, where memory was wanting.
fn write_history<W: Sink, T: LockStore, K: Keeper, D: Disk, L: Link>(
    alloc: Global,
    sink: &mut W,
    hall: &Hall<T, K, D, L>,
) -> Why
    ensures written { (lines : List NumberedLine) (deeds : List Deed) → IsWritten lines hall.now.state deeds
        (W.written sink.old) (W.written sink.new) (W.faults sink.old) (W.faults sink.new) result }
    ensures later { W.faults sink.old ≤ W.faults sink.new }
{
    match write_report(alloc, sink, &[], hall, &[]) {
        Ok(()) => Why::NoMemory,
        Err(why) => why,
    }
}

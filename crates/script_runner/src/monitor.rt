ghost use Rattle.std.specs.Prelude.{◌≡◌, ◌≤◌, IfOk};
ghost use Rattle.script_runner.specs.Lines.{line_kind};
ghost use Rattle.script_runner.specs.Shown.{audit_shown, monitor_text};
ghost use Rattle.script_runner.specs.Turns.{IsShown};

use crate::runner::Why;
use bk_disk::Disk;
use enq_base::NoMemory;
use hall::Hall;
use io_edge::{Sink, put_all};
use keeper_api::Keeper;
use lock_entry::LockStore;
use monitors::{Bytes, ServerView, audit, sm12, sm13, snro};
use replica_link::Link;
use script_lang::ScriptLine;
use std::alloc::Global;

/// A monitor: SM12 shows the lock table, SM13 the update records, SNRO the number ranges, AUDIT the counts.
#[derive(Clone, Copy, Debug, PartialEq, Eq)]
pub enum Monitor {
    Sm12,
    Sm13,
    Snro,
    Audit,
}

/// How a line is answered.
#[derive(Clone, Copy, Debug, PartialEq, Eq)]
pub enum LineKind {
    /// Not at all: it is empty, or a comment.
    Blank,
    /// By what a monitor shows.
    Shown(Monitor),
    /// By a reply.
    Replied,
}

pub fn line_kind(line: &ScriptLine) -> LineKind
    ensures { result ≡ line_kind line.now }
{
    match line {
        ScriptLine::Blank => LineKind::Blank,
        ScriptLine::Sm12 => LineKind::Shown(Monitor::Sm12),
        ScriptLine::Sm13 => LineKind::Shown(Monitor::Sm13),
        ScriptLine::Snro => LineKind::Shown(Monitor::Snro),
        ScriptLine::Audit => LineKind::Shown(Monitor::Audit),
        _ => LineKind::Replied,
    }
}

/// Writes what a monitor shows. The whole text is made before any of it is written.
pub fn show<W: Sink, T: LockStore, K: Keeper, D: Disk, L: Link>(
    alloc: Global,
    number: u32,
    monitor: Monitor,
    hall: &Hall<T, K, D, L>,
    sink: &mut W,
) -> Result<(), Why>
    ensures shown { IsShown (W.written sink.old) (W.written sink.new) (W.faults sink.old) (W.faults sink.new)
        (monitor_text number monitor hall.now.state) result }
    ensures later { W.faults sink.old ≤ W.faults sink.new }
{
    let Ok(text) = text_of(alloc, number, monitor, hall) else {
        return Err(Why::NoMemory);
    };
    match put_all(sink, text.as_slice()) {
        Ok(()) => Ok(()),
        Err(_) => Err(Why::SinkFault),
    }
}

/// Writes the audit of a hall, as the answer of the line of this number.
pub fn write_audit<W: Sink, T: LockStore, K: Keeper, D: Disk, L: Link>(
    alloc: Global,
    number: u32,
    hall: &Hall<T, K, D, L>,
    sink: &mut W,
) -> Result<(), Why>
    ensures shown { IsShown (W.written sink.old) (W.written sink.new) (W.faults sink.old) (W.faults sink.new)
        (audit_shown number hall.now.state) result }
    ensures later { W.faults sink.old ≤ W.faults sink.new }
{
    show(alloc, number, Monitor::Audit, hall, sink)
}

fn text_of<T: LockStore, K: Keeper, D: Disk, L: Link>(
    alloc: Global,
    number: u32,
    monitor: Monitor,
    hall: &Hall<T, K, D, L>,
) -> Result<Bytes, NoMemory>
    ensures { IfOk result (λ text. text ≡ monitor_text number monitor hall.now.state) }
{
    match monitor {
        Monitor::Sm12 => locks_text(alloc, number, hall),
        Monitor::Sm13 => {
            let units = hall.units(alloc)?;
            sm13(alloc, number, hall.condition(), units.as_slice())
        }
        Monitor::Snro => {
            let ranges = hall.ranges(alloc)?;
            snro(alloc, number, hall.condition(), ranges.as_slice())
        }
        Monitor::Audit => counts_text(alloc, number, hall),
    }
}

fn locks_text<T: LockStore, K: Keeper, D: Disk, L: Link>(
    alloc: Global,
    number: u32,
    hall: &Hall<T, K, D, L>,
) -> Result<Bytes, NoMemory>
    ensures { IfOk result (λ text. text ≡ monitor_text number Monitor.Sm12 hall.now.state) }
{
    let view = ServerView {
        condition: hall.condition(),
        attached: hall.attached(),
        limit: hall.max_locks(),
    };
    let entries = hall.entries(alloc)?;
    sm12(alloc, number, &view, entries.as_slice())
}

fn counts_text<T: LockStore, K: Keeper, D: Disk, L: Link>(
    alloc: Global,
    number: u32,
    hall: &Hall<T, K, D, L>,
) -> Result<Bytes, NoMemory>
    ensures { IfOk result (λ text. text ≡ monitor_text number Monitor.Audit hall.now.state) }
{
    let condition = hall.condition();
    let units = hall.units(alloc)?;
    let marks = hall.marks();
    let numbers = hall.numbers();
    audit(alloc, number, condition, units.as_slice(), marks, numbers)
}

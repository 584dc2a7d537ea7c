ghost use Rattle.std.specs.Prelude.{◌≡◌, ◌≤◌, List, [], false, true, None, IsTrue, IfOk, IfErr, MatchResult, replicate, vec_capacity};
ghost use Rattle.enq_server.specs.Recovery.{AreKnown, locking};
ghost use Rattle.enq_server.specs.Server.{IsRecovered, recovered};
ghost use Rattle.hall.specs.Faults.{CountsFileFault, IsFileFault, IsRangesFault, LeavesFile, file_fault, hall_fault};
ghost use Rattle.ledger_steps.specs.Intervals.{in_row_order};
ghost use Rattle.ledger_steps.specs.Levels.{IsLevelFault};
ghost use Rattle.number_ranges.specs.declared.interval.Interval.{Interval};
ghost use Rattle.update_records.specs.Ledger.{Levels};
ghost use Rattle.lock_entry.specs.Table.{IsTable};

use bk_disk::Disk;
use enq_base::{Bad, NoMemory, UnitKey};
use enq_server::{EnqServer, OpenFault};
use hall_calls::{HISTORY_LIMIT, Limits};
use hall_model::PastEntry;
use ledger_steps::LevelFault;
use lock_entry::{LockStore, UnitLocks};
use posting::BooksFault;
use replica_link::Link;
use std::alloc::Global;

const WORKERS: usize = 256;

/// Why a hall can't be opened.
#[derive(Clone, Copy, Debug, PartialEq, Eq)]
pub enum HallFault {
    /// The store failed.
    Store,
    /// The disk of the backup file failed.
    Backup,
    /// The store or the backup file isn't good, which shows at this place.
    Bad(Bad),
    /// The store's start number is the last that there is.
    NoStart,
    /// The stored interval in this row of the intervals, counted from 1 in the order of their keys, isn't one of the
    /// landscape: no interval has its name, or it has another first number or another buffering, or a level past the
    /// end.
    Interval { row: u64 },
    NoMemory,
}

/// The tables of a hall before its first call, with room for its whole history.
#[derive(Drop)]
pub(crate) struct Tables {
    pub(crate) orders: Vec<Option<UnitKey>>,
    pub(crate) past: Vec<PastEntry>,
}

/// What a hall begins with: its tables, and how many locks and marks there may be.
#[derive(Drop)]
pub(crate) struct Beginning {
    pub(crate) tables: Tables,
    pub(crate) limits: Limits,
}

impl Tables {
    /// No orders and no calls.
    pub(crate) fn empty(alloc: Global) -> Result<Tables, NoMemory>
        ensures orders { IfOk result (λ tables. tables.orders.items ≡ replicate 256 None) }
        ensures past { IfOk result (λ tables. tables.past.items ≡ []) }
        ensures room { IfOk result (λ tables. 262144 ≤ vec_capacity tables.past) }
    {
        Ok(Tables {
            orders: no_orders(alloc)?,
            past: Vec::with_capacity(alloc, HISTORY_LIMIT)?,
        })
    }
}

/// No worker has an order.
fn no_orders(alloc: Global) -> Result<Vec<Option<UnitKey>>, NoMemory>
    ensures { IfOk result (λ orders. orders.items ≡ replicate 256 None) }
{
    Ok(Vec::from_elem(alloc, None, WORKERS)?)
}

/// Why the books weren't opened.
pub(crate) fn fault_of(fault: BooksFault) -> HallFault
    ensures { result ≡ hall_fault fault }
{
    match fault {
        BooksFault::StoreFault => HallFault::Store,
        BooksFault::BadStore { table, row } => HallFault::Bad(Bad::Store { table, row }),
        BooksFault::NoStart => HallFault::NoStart,
        BooksFault::NoMemory => HallFault::NoMemory,
    }
}

/// Why the levels of the store weren't taken over.
pub(crate) fn ranges_fault_of(fault: LevelFault) -> HallFault
    ensures { (intervals : List Interval) (levels : Levels) → IsLevelFault intervals (in_row_order levels) fault
        → IsRangesFault intervals levels result }
{
    match fault {
        LevelFault::Unfit { row } => HallFault::Interval { row },
    }
}

/// The lock server of a start, which takes the locks of these units over from the backup file: they are the first
/// locks, and lists of other units go. At most `max_locks` locks may come to stand, or as many as were taken over. An
/// error gives disk and link back.
pub(crate) fn first_locks<T: LockStore, D: Disk, L: Link>(
    alloc: Global,
    max_locks: u32,
    disk: D,
    link: L,
    units: &[UnitLocks],
) -> Result<EnqServer<T, D, L>, (HallFault, D, L)>
    ensures stands { IfOk result (λ locks. locks.stands ≡ true) }
    ensures locks { IfOk result (λ locks. locks.table ≡ recovered max_locks units.now) }
    ensures good { IfOk result (λ locks. IsTable locks.table) }
    ensures file { IsTrue D.tells
        → IfOk result (λ locks. IsRecovered D.reads D.may_leave (D.reads disk) units.now locks.file) }
    ensures usable { IfOk result (λ locks. locks.file.failed ≡ false) }
    ensures known { IfOk result (λ locks. AreKnown locks.file.units (locking units.now)) }
    ensures detached { IfOk result (λ locks. locks.replica.attached ≡ false) }
    ensures link { MatchResult result (λ locks. locks.replica.link ≡ link) (λ e. e.2 ≡ link) }
    ensures counts { IfOk result (λ locks. D.faults locks.file.disk ≡ D.faults disk) }
    ensures fault { IfErr result (λ e. IsFileFault D.tells (D.reads disk) units.now e.0) }
    // What is left of the file then.
    ensures images { IsTrue D.tells
        → IfErr result (λ e. LeavesFile units.now e.0 (D.may_leave disk) (D.may_leave e.1)) }
    ensures cause { IfErr result (λ e. CountsFileFault e.0 (D.faults disk) (D.faults e.1)) }
{
    match EnqServer::open(alloc, disk, link, max_locks, units) {
        Ok(locks) => Ok(locks),
        Err((fault, disk, link)) => Err((file_fault_of(fault), disk, link)),
    }
}

/// Why the backup file wasn't opened.
fn file_fault_of(fault: OpenFault) -> HallFault
    ensures { result ≡ file_fault fault }
{
    match fault {
        OpenFault::Failed => HallFault::Backup,
        OpenFault::Bad(place) => HallFault::Bad(Bad::Backup(place)),
        OpenFault::NoMemory => HallFault::NoMemory,
    }
}

ghost use Rattle.std.specs.Prelude.{◌≡◌, IsTrue, IfOk, IfErr, OnOk};
ghost use Rattle.bk_disk.specs.Disk.{AddsNone, FitsDisk, Follows, Only};
ghost use Rattle.gate_log.specs.Causes.{HasLogCause};
ghost use Rattle.keeper_wal.specs.Journal.{Stands, IsBad, IsShort, IsLong, SameRows, new_journal};
ghost use Rattle.keeper_wal.specs.Opening.{OnBad, HasJournalCause, IsOpened};

use crate::fault::JournalFault;
use crate::journal::{Found, read_journal};
use bk_disk::Disk;
use gate_log::{LogFault, make_new, read_all};
use row_tree::RowTree;
use std::alloc::Global;

/// Reads a journal, and makes it anew where it is of at most 9 bytes.
pub fn open_journal<D: Disk>(alloc: Global, disk: &mut D) -> Result<Found, JournalFault>
    ensures found { IsTrue D.tells → IfOk result (λ found. Stands (D.reads disk.old) found.rows.rows) }
    ensures at_rest { IsTrue D.tells
        → IfOk result (λ found. IsOpened (D.reads disk.new) (D.may_leave disk.new) found.gate found.rows.rows) }
    ensures anew { IsTrue D.tells → IsShort (D.reads disk.old) → IfOk result (λ _. D.reads disk.new ≡ new_journal) }
    ensures stays { IsTrue D.tells → IsLong (D.reads disk.old)
        → IfOk result (λ _. D.reads disk.new ≡ D.reads disk.old) }
    // Where it stands for nothing the bytes stay.
    ensures bad { IsTrue D.tells
        → IfErr result (OnBad (λ at. IsBad (D.reads disk.old) at × (D.reads disk.new ≡ D.reads disk.old))) }
    // Each image stands for the rows of an image from before the call.
    ensures images { IsTrue D.tells → Follows SameRows (D.may_leave disk.old) (D.may_leave disk.new) }
    ensures cause { HasJournalCause (D.faults disk.old) (D.faults disk.new) result }
{
    let bytes = read_file(alloc, disk)?;
    let text = bytes.as_slice();
    if text.len() <= 9 {
        make_new(disk, b"ENQWAL01\0")?;
        return Ok(Found {
            rows: RowTree::new(alloc),
            gate: 8,
        });
    }
    read_journal(alloc, text)
}

/// Reads a file once all of it is on the disk.
fn read_file<D: Disk>(alloc: Global, disk: &mut D) -> Result<Vec<u8>, LogFault>
    ensures value { IsTrue D.tells → IfOk result (λ bytes. bytes.items ≡ D.reads disk.old) }
    ensures same { IsTrue D.tells → OnOk result (D.reads disk.new ≡ D.reads disk.old) }
    ensures fits { IsTrue D.tells → OnOk result (FitsDisk (D.reads disk.new)) }
    ensures durable { IsTrue D.tells → OnOk result (Only (D.reads disk.new) (D.may_leave disk.new)) }
    ensures left { IsTrue D.tells → AddsNone (D.may_leave disk.old) (D.may_leave disk.new) }
    ensures cause { HasLogCause (D.faults disk.old) (D.faults disk.new) result }
{
    disk.sync()?;
    read_all(alloc, disk)
}

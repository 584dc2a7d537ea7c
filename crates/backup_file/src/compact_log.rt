ghost use Rattle.std.specs.Prelude.{◌≡◌, ℕ, List, IsTrue, IfOk, IfSome, IfNone, IsErrOf};
ghost use Rattle.bk_disk.specs.Disk.{AddsNone, Only};
ghost use Rattle.backup_file.specs.Backup.{HasWriteCause, UnlessFailed};
ghost use Rattle.backup_file.specs.Plans.{IsCompacted, IsDone, IsPlan, MayBeCarried, OnNoMemory};
ghost use Rattle.backup_file.specs.File.{IsVersion2, Stands};
ghost use Rattle.backup_file.specs.declared.handed.Handed.{Handed};

use crate::compacting::rewrite;
use crate::fault::WriteFault;
use crate::plan::{Plan, plan_of};
use bk_disk::Disk;
use enq_base::Failed;
use gate_log::read_all;
use std::alloc::Global;

/// Writes the log in force of a file anew, and answers where its closed gate stands then. Nothing is done where it has
/// one hand of each list and no other record, or is of the last generation. It takes its memory before any write.
pub fn compact_log<D: Disk>(alloc: Global, disk: &mut D) -> Result<Option<u64>, WriteFault>
    ensures done { IsTrue D.tells → (l : List Handed) → IsVersion2 (D.reads disk.old) l
        → Only (D.reads disk.old) (D.may_leave disk.old)
        → IfOk result (IsCompacted (D.reads disk.old) (D.reads disk.new) (D.may_leave disk.new) l) }
    ensures needed { IsTrue D.tells → IfOk result
        (λ r. IfSome r (λ _. (l : List Handed) → IsDone (D.reads disk.old) l → ⊥)) }
    ensures no_memory { IsTrue D.tells → OnNoMemory result
        ((D.reads disk.new ≡ D.reads disk.old) × AddsNone (D.may_leave disk.old) (D.may_leave disk.new)) }
    // Whatever a crash leaves stands for the same lists.
    ensures images { IsTrue D.tells → (l : List Handed) → IsVersion2 (D.reads disk.old) l
        → Only (D.reads disk.old) (D.may_leave disk.old) → (c : List ℕ) → D.may_leave disk.new c → Stands c l }
    ensures cause { HasWriteCause (D.faults disk.old) (D.faults disk.new) result }
{
    match read_plan(alloc, disk) {
        Ok(Some(plan)) => carry_out(disk, plan),
        Ok(None) => Ok(None),
        Err(fault) => Err(fault),
    }
}

/// Reads a file, and how its log in force is written anew.
fn read_plan<D: Disk>(alloc: Global, disk: &mut D) -> Result<Option<Plan>, WriteFault>
    ensures some { IsTrue D.tells → IfOk result (λ p. IfSome p (IsPlan (D.reads disk.old))) }
    ensures carried { IfOk result (λ p. IfSome p MayBeCarried) }
    ensures none { IsTrue D.tells → IfOk result
        (λ p. IfNone p ((l : List Handed) → IsVersion2 (D.reads disk.old) l → IsDone (D.reads disk.old) l)) }
    ensures same { IsTrue D.tells → UnlessFailed result (D.reads disk.new ≡ D.reads disk.old) }
    ensures left { IsTrue D.tells → AddsNone (D.may_leave disk.old) (D.may_leave disk.new) }
    ensures cause { HasWriteCause (D.faults disk.old) (D.faults disk.new) result }
{
    let bytes = match read_all(alloc, disk) {
        Ok(bytes) => bytes,
        Err(fault) => return Err(WriteFault::from(fault)),
    };
    match plan_of(alloc, bytes.as_slice()) {
        Ok(planned) => Ok(planned),
        Err(_none) => Err(WriteFault::NoMemory),
    }
}

/// Does what was planned, and answers where the closed gate stands then.
fn carry_out<D: Disk>(disk: &mut D, plan: Plan) -> Result<Option<u64>, WriteFault>
    requires { MayBeCarried plan }
    ensures done { IsTrue D.tells → (is : IsPlan (D.reads disk.old) plan)
        → Only (D.reads disk.old) (D.may_leave disk.old)
        → IfOk result (IsCompacted (D.reads disk.old) (D.reads disk.new) (D.may_leave disk.new) is.lists) }
    ensures images { IsTrue D.tells → (is : IsPlan (D.reads disk.old) plan)
        → Only (D.reads disk.old) (D.may_leave disk.old)
        → (c : List ℕ) → D.may_leave disk.new c → Stands c is.lists }
    ensures never { IsErrOf result WriteFault.NoMemory → ⊥ }
    ensures cause { HasWriteCause (D.faults disk.old) (D.faults disk.new) result }
{
    let Plan {
        place,
        gate,
        at,
        text,
    } = plan;
    let end = at + text.len().saturating_sub(1) as u64;
    match rewrite(disk, &place, gate, at, text.as_slice()) {
        Ok(()) => Ok(Some(end)),
        Err(Failed) => Err(WriteFault::Failed),
    }
}

ghost use Rattle.std.specs.Prelude.{◌≡◌, ℕ, List, [], ◌∷◌, ◌++◌, length, IsTrue, IfOk, OnOk};
ghost use Rattle.enq_base.specs.Causes.{HasCause};
ghost use Rattle.bk_disk.specs.Disk.{AddsNone};
ghost use Rattle.gate_log.specs.Causes.{HasLogCause, UnlessFailed};
ghost use Rattle.gate_log.specs.Gates.{IsAtRest, AreShort};

use crate::fault::LogFault;
use bk_disk::Disk;
use enq_base::Failed;
use std::alloc::Global;

const PIECE: usize = 4096;

/// All the bytes of a disk, which are read in pieces.
pub fn read_all<D: Disk>(alloc: Global, disk: &mut D) -> Result<Vec<u8>, LogFault>
    ensures value { IsTrue D.tells → IfOk result (λ v. v.items ≡ D.reads disk.old) }
    ensures same { IsTrue D.tells → OnOk result (D.reads disk.new ≡ D.reads disk.old) }
    // Where memory is wanting too.
    ensures stays { IsTrue D.tells → UnlessFailed result (D.reads disk.new ≡ D.reads disk.old) }
    ensures left { IsTrue D.tells → AddsNone (D.may_leave disk.old) (D.may_leave disk.new) }
    ensures cause { HasLogCause (D.faults disk.old) (D.faults disk.new) result }
{
    let length = disk.length()?;
    let mut bytes = Vec::new(alloc);
    let mut piece = [0; PIECE];
    while (bytes.len() as u64) < length {
        let n = disk.read_at(bytes.len() as u64, &mut piece)?;
        if n == 0 {
            break;
        }
        bytes.extend_from_slice(&piece[..n])?;
    }
    Ok(bytes)
}

/// Writes a log without records in place of what is there. The text is the name and a closed gate.
pub fn make_new<D: Disk>(disk: &mut D, text: &[u8]) -> Result<(), Failed>
    ensures made { IsTrue D.tells → (name : List ℕ) → text.now ≡ name ++ 0 ∷ []
        → OnOk result (IsAtRest (D.reads disk.new) (D.may_leave disk.new) (length name) name) }
    ensures bytes { IsTrue D.tells → OnOk result (D.reads disk.new ≡ text.now) }
    ensures short { IsTrue D.tells → AreShort (length text.now) (D.may_leave disk.old)
        → AreShort (length text.now) (D.may_leave disk.new) }
    ensures cause { HasCause (D.faults disk.old) (D.faults disk.new) result }
{
    disk.cut(0)?;
    disk.write_at(0, text)?;
    disk.sync()?;
    Ok(())
}

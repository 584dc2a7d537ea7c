ghost use Rattle.std.specs.Prelude.{◌≡◌, length, IsTrue, OnOk};
ghost use Rattle.enq_base.specs.Causes.{HasCause};
ghost use Rattle.bk_disk.specs.Disk.{written, resized, Cut, FitsDisk, Follows, Only, Torn};

use bk_disk::Disk;
use enq_base::Failed;

/// Writes these bytes at an offset, and waits until they are on the disk.
pub fn write_through<D: Disk>(disk: &mut D, at: u64, bytes: &[u8]) -> Result<(), Failed>
    ensures value { IsTrue D.tells → OnOk result (D.reads disk.new ≡ written (D.reads disk.old) at bytes.now) }
    ensures short { IsTrue D.tells → OnOk result (FitsDisk (D.reads disk.new)) }
    ensures durable { IsTrue D.tells → OnOk result (Only (D.reads disk.new) (D.may_leave disk.new)) }
    ensures left { IsTrue D.tells
        → Follows (Torn at (length bytes.now)) (D.may_leave disk.old) (D.may_leave disk.new) }
    ensures cause { HasCause (D.faults disk.old) (D.faults disk.new) result }
{
    disk.write_at(at, bytes)?;
    disk.sync()?;
    Ok(())
}

/// Cuts a file to a length, and waits until that is on the disk.
pub fn cut_through<D: Disk>(disk: &mut D, length: u64) -> Result<(), Failed>
    ensures value { IsTrue D.tells → OnOk result (D.reads disk.new ≡ resized (D.reads disk.old) length) }
    ensures short { IsTrue D.tells → OnOk result (FitsDisk (D.reads disk.new)) }
    ensures durable { IsTrue D.tells → OnOk result (Only (D.reads disk.new) (D.may_leave disk.new)) }
    ensures left { IsTrue D.tells → Follows (Cut length) (D.may_leave disk.old) (D.may_leave disk.new) }
    ensures cause { HasCause (D.faults disk.old) (D.faults disk.new) result }
{
    disk.cut(length)?;
    disk.sync()?;
    Ok(())
}

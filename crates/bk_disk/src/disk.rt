ghost use Rattle.std.specs.Prelude.{◌≡◌, ◌+◌, ◌≤◌, ℕ, Bool, List, length, IsTrue, IfOk, OnOk};
ghost use Rattle.enq_base.specs.Causes.{HasCause};
ghost use Rattle.bk_disk.specs.Disk.{written, resized, FitsDisk, Torn, Cut, Follows, AddsNone, Only, Fills};

use enq_base::Failed;

/// The most bytes that a disk may hold.
pub const MAX_LENGTH: u64 = 9_223_372_036_854_775_807;

/// Bytes that outlive the program.
///
/// Between two syncs a crash may leave any bytes in what was written and past the old end. After a call that failed
/// too, what a read gives is one of the images that a crash may leave.
pub trait Disk {
    /// Whether the disk tells what it holds. Where it doesn't, no clause speaks of its bytes.
    ghost tells: { Bool };

    /// The bytes that a read gives.
    ghost reads: { Self → List ℕ };

    /// The images that a crash may leave.
    ghost may_leave: { Self → List ℕ → Type 0 };

    /// How many calls failed, up to the count's end.
    ghost faults: { Self → ℕ };

    /// How many bytes there are.
    fn length(&mut self) -> Result<u64, Failed>
        ensures value { IsTrue tells → IfOk result (λ n. n ≡ length (reads self.old)) }
        ensures same { IsTrue tells → OnOk result (reads self.new ≡ reads self.old) }
        ensures left { IsTrue tells → AddsNone (may_leave self.old) (may_leave self.new) }
        ensures short { IsTrue tells → OnOk result (FitsDisk (reads self.new)) }
        ensures cause { HasCause (faults self.old) (faults self.new) result };

    /// Reads as many bytes as there are from an offset on, at most as many as `into` takes, and answers how many.
    fn read_at(&mut self, at: u64, into: &mut [u8]) -> Result<usize, Failed>
        ensures within { IfOk result (λ n. n ≤ length into.old) }
        ensures value { IsTrue tells → IfOk result (λ n. Fills (reads self.old) at n into.old into.new) }
        ensures same { IsTrue tells → OnOk result (reads self.new ≡ reads self.old) }
        ensures left { IsTrue tells → AddsNone (may_leave self.old) (may_leave self.new) }
        ensures short { IsTrue tells → OnOk result (FitsDisk (reads self.new)) }
        ensures cause { HasCause (faults self.old) (faults self.new) result };

    /// Writes over what is there, and past the end. A gap before the offset is filled with zeros.
    fn write_at(&mut self, at: u64, from: &[u8]) -> Result<(), Failed>
        ensures value { IsTrue tells → OnOk result (reads self.new ≡ written (reads self.old) at from.now) }
        ensures fits { IsTrue tells → OnOk result (at + length from.now ≤ MAX_LENGTH) }
        ensures left { IsTrue tells
            → Follows (Torn at (length from.now)) (may_leave self.old) (may_leave self.new) }
        ensures short { IsTrue tells → OnOk result (FitsDisk (reads self.new)) }
        ensures cause { HasCause (faults self.old) (faults self.new) result };

    /// Cuts to a length, or makes longer by zeros.
    fn cut(&mut self, length: u64) -> Result<(), Failed>
        ensures value { IsTrue tells → OnOk result (reads self.new ≡ resized (reads self.old) length) }
        ensures fits { IsTrue tells → OnOk result (length ≤ MAX_LENGTH) }
        ensures left { IsTrue tells → Follows (Cut length) (may_leave self.old) (may_leave self.new) }
        ensures short { IsTrue tells → OnOk result (FitsDisk (reads self.new)) }
        ensures cause { HasCause (faults self.old) (faults self.new) result };

    /// Waits until a crash leaves just what a read gives.
    fn sync(&mut self) -> Result<(), Failed>
        ensures durable { IsTrue tells → OnOk result (Only (reads self.new) (may_leave self.new)) }
        ensures same { IsTrue tells → OnOk result (reads self.new ≡ reads self.old) }
        ensures left { IsTrue tells → AddsNone (may_leave self.old) (may_leave self.new) }
        ensures short { IsTrue tells → OnOk result (FitsDisk (reads self.new)) }
        ensures cause { HasCause (faults self.old) (faults self.new) result };

    /// What a read gives is one of the images.
    ghost reads_left: { (disk : Self) → IsTrue tells → may_leave disk (reads disk) };
}

ghost use Rattle.std.specs.Prelude.{◌≡◌, ◌+◌, ◌-◌, ◌≤◌, length, IsTrue, IsErr, IfOk, OnOk, OnErr};
ghost use Rattle.enq_base.specs.Causes.{HasCause};
ghost use Rattle.enq_base.specs.Causes.{one_more};
ghost use Rattle.bk_disk.specs.Disk.{written, resized, FitsDisk, Torn, Cut, Follows, AddsNone, Only, Fills};
ghost use Rattle.bk_disk.specs.Stopping.{FailsStopped, all_faults};

use crate::disk::{Disk, MAX_LENGTH};
use enq_base::Failed;
use std::marker::Model;

/// A disk that stops: a call and all later ones fail.
#[derive(Drop)]
pub struct StopDisk<D> {
    disk: D,
    left: u64,
    faults: u64,
}

impl<D> Model for StopDisk<D> {
    ghost use Rattle.bk_disk.specs.Stopping.{StopView};

    ghost Value = { StopView D };

    ghost view = { λ s. record { disk = s.disk; left = s.left; faults = s.faults } };
}

impl<D> StopDisk<D> {
    /// A disk whose call `k` and all later ones fail. Calls are counted from 1.
    pub fn new(disk: D, k: u64) -> StopDisk<D>
        ensures { result ≡ record { disk = disk; left = k - 1; faults = 0 } }
    {
        StopDisk {
            disk,
            left: k.saturating_sub(1),
            faults: 0,
        }
    }

    /// The disk below.
    pub fn into_disk(self) -> D
        ensures { result ≡ self.disk }
    {
        let StopDisk {
            disk,
            left: _,
            faults: _,
        } = self;
        disk
    }

    fn goes_on(&mut self) -> Result<(), Failed>
        ensures same { self.new.disk ≡ self.old.disk }
        ensures cause { HasCause self.old.faults self.new.faults result }
        ensures stops { self.old.left ≡ 0 → IsErr result }
        ensures stopped { OnErr result ((self.old.left ≡ 0) × (self.new.faults ≡ one_more self.old.faults)) }
        ensures counts { self.new.left ≡ self.old.left - 1 }
    {
        if self.left == 0 {
            self.faults = self.faults.saturating_add(1);
            return Err(Failed);
        }
        self.left -= 1;
        Ok(())
    }
}

impl<D: Disk> Disk for StopDisk<D> {
    ghost use Rattle.bk_disk.specs.Stopping.{all_faults};

    ghost tells = { D.tells };

    ghost reads = { λ s. D.reads s.disk };

    ghost may_leave = { λ s. D.may_leave s.disk };

    ghost faults = { λ s. all_faults D.faults s };

    ghost reads_left = { λ s t. D.reads_left s.disk t };

    fn length(&mut self) -> Result<u64, Failed>
        // As every disk.
        ensures value { IsTrue D.tells → IfOk result (λ n. n ≡ length (D.reads self.old.disk)) }
        ensures same { IsTrue D.tells → OnOk result (D.reads self.new.disk ≡ D.reads self.old.disk) }
        ensures left { IsTrue D.tells → AddsNone (D.may_leave self.old.disk) (D.may_leave self.new.disk) }
        ensures short { IsTrue D.tells → OnOk result (FitsDisk (D.reads self.new.disk)) }
        ensures cause { HasCause (all_faults D.faults self.old) (all_faults D.faults self.new) result }

        ensures stops { self.old.left ≡ 0 → IsErr result }
        ensures failed { OnErr result (FailsStopped D.faults self.old self.new) }
        ensures counts { self.new.left ≡ self.old.left - 1 }
    {
        self.goes_on()?;
        self.disk.length()
    }

    fn read_at(&mut self, at: u64, into: &mut [u8]) -> Result<usize, Failed>
        // As every disk.
        ensures within { IfOk result (λ n. n ≤ length into.old) }
        ensures value { IsTrue D.tells → IfOk result (λ n. Fills (D.reads self.old.disk) at n into.old into.new) }
        ensures same { IsTrue D.tells → OnOk result (D.reads self.new.disk ≡ D.reads self.old.disk) }
        ensures left { IsTrue D.tells → AddsNone (D.may_leave self.old.disk) (D.may_leave self.new.disk) }
        ensures short { IsTrue D.tells → OnOk result (FitsDisk (D.reads self.new.disk)) }
        ensures cause { HasCause (all_faults D.faults self.old) (all_faults D.faults self.new) result }

        ensures stops { self.old.left ≡ 0 → IsErr result }
        ensures failed { OnErr result (FailsStopped D.faults self.old self.new) }
        ensures counts { self.new.left ≡ self.old.left - 1 }
    {
        self.goes_on()?;
        self.disk.read_at(at, into)
    }

    fn write_at(&mut self, at: u64, from: &[u8]) -> Result<(), Failed>
        // As every disk.
        ensures value { IsTrue D.tells
            → OnOk result (D.reads self.new.disk ≡ written (D.reads self.old.disk) at from.now) }
        ensures fits { IsTrue D.tells → OnOk result (at + length from.now ≤ MAX_LENGTH) }
        ensures left { IsTrue D.tells
            → Follows (Torn at (length from.now)) (D.may_leave self.old.disk) (D.may_leave self.new.disk) }
        ensures short { IsTrue D.tells → OnOk result (FitsDisk (D.reads self.new.disk)) }
        ensures cause { HasCause (all_faults D.faults self.old) (all_faults D.faults self.new) result }

        ensures stops { self.old.left ≡ 0 → IsErr result }
        ensures failed { OnErr result (FailsStopped D.faults self.old self.new) }
        ensures counts { self.new.left ≡ self.old.left - 1 }
    {
        self.goes_on()?;
        self.disk.write_at(at, from)
    }

    fn cut(&mut self, length: u64) -> Result<(), Failed>
        // As every disk.
        ensures value { IsTrue D.tells
            → OnOk result (D.reads self.new.disk ≡ resized (D.reads self.old.disk) length) }
        ensures fits { IsTrue D.tells → OnOk result (length ≤ MAX_LENGTH) }
        ensures left { IsTrue D.tells
            → Follows (Cut length) (D.may_leave self.old.disk) (D.may_leave self.new.disk) }
        ensures short { IsTrue D.tells → OnOk result (FitsDisk (D.reads self.new.disk)) }
        ensures cause { HasCause (all_faults D.faults self.old) (all_faults D.faults self.new) result }

        ensures stops { self.old.left ≡ 0 → IsErr result }
        ensures failed { OnErr result (FailsStopped D.faults self.old self.new) }
        ensures counts { self.new.left ≡ self.old.left - 1 }
    {
        self.goes_on()?;
        self.disk.cut(length)
    }

    fn sync(&mut self) -> Result<(), Failed>
        // As every disk.
        ensures durable { IsTrue D.tells → OnOk result (Only (D.reads self.new.disk) (D.may_leave self.new.disk)) }
        ensures same { IsTrue D.tells → OnOk result (D.reads self.new.disk ≡ D.reads self.old.disk) }
        ensures left { IsTrue D.tells → AddsNone (D.may_leave self.old.disk) (D.may_leave self.new.disk) }
        ensures short { IsTrue D.tells → OnOk result (FitsDisk (D.reads self.new.disk)) }
        ensures cause { HasCause (all_faults D.faults self.old) (all_faults D.faults self.new) result }

        ensures stops { self.old.left ≡ 0 → IsErr result }
        ensures failed { OnErr result (FailsStopped D.faults self.old self.new) }
        ensures counts { self.new.left ≡ self.old.left - 1 }
    {
        self.goes_on()?;
        self.disk.sync()
    }
}

ghost use Rattle.std.specs.Prelude.{◌≡◌, ◌≤◌, false, IfErr};
ghost use Rattle.enq_base.specs.Causes.{Rose, one_more};
ghost use Rattle.keeper_sqlite.specs.Views.{after_fault};

use enq_base::Failed;
use keeper_api::KeepFault;

/// Whether calls other than `reopen` are allowed, and how many calls have failed.
#[derive(Clone, Copy)]
pub struct Gate {
    pub is_open: bool,
    pub faults: u64,
}

impl Gate {
    pub fn new() -> Gate
        ensures { result ≡ record { is_open = false; faults = 0 } }
    {
        Gate {
            is_open: false,
            faults: 0,
        }
    }

    /// Counts a fault, after which only `reopen` is allowed.
    pub fn fail(&mut self) -> Failed
        ensures failed { self.new ≡ after_fault self.old }
        ensures later { self.old.faults ≤ self.new.faults }
        ensures rose { Rose self.old.faults self.new.faults }
    {
        self.is_open = false;
        self.faults = self.faults.saturating_add(1);
        Failed
    }

    /// Counts a fault, if it is one of the device and no want of memory.
    pub fn refused(&mut self, fault: KeepFault) -> KeepFault
        ensures same { result ≡ fault }
        ensures failed { fault ≡ KeepFault.Failed → self.new ≡ after_fault self.old }
        ensures wanting { fault ≡ KeepFault.NoMemory → self.new ≡ self.old }
        ensures later { self.old.faults ≤ self.new.faults }
        ensures rose { fault ≡ KeepFault.Failed → Rose self.old.faults self.new.faults }
    {
        if fault == KeepFault::Failed {
            self.fail();
        }
        fault
    }
}

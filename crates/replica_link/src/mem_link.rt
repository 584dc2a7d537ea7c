ghost use Rattle.std.specs.Prelude.{◌≡◌, ◌+◌, ◌-◌, ◌^◌, ◌≤◌, ◌↔◌, ◌||◌, IsTrue, IsOk, IfOk, IfErr, OnOk, Some, None, Err, nat_eq};
ghost use Rattle.enq_base.specs.Causes.{Rose};
ghost use Rattle.replica_link.specs.Memory as memory;
ghost use Rattle.replica_link.specs.declared.fault.LinkFault.TheVariants as fault;

use crate::fault::LinkFault;
use crate::link::Link;
use crate::operation::{TableOp, apply_op};
use enq_base::NoMemory;
use lock_entry::Entry;
use std::alloc::Global;
use std::marker::Model;

/// A replica in memory. It fails at the calls whose numbers, counted from 1, stand in a list, and at an operation with
/// the last of all numbers. A want of memory is a refusal.
#[derive(Debug, Drop)]
pub struct MemLink {
    list: Vec<Entry>,
    next: Option<u64>,
    fails: Vec<u64>,
    calls: u64,
    faults: u64,
    refusals: u64,
}

impl Model for MemLink {
    ghost use Rattle.replica_link.specs.Memory.{MemLinkState};

    ghost Value = { MemLinkState };

    ghost view = { λ l. record {
      list = l.list.items;
      next = l.next;
      fails = l.fails.items;
      calls = l.calls;
      faults = l.faults;
      refusals = l.refusals;
    } };
}

impl MemLink {
    /// A link to which no replica is attached. It takes no memory.
    pub fn new(alloc: Global, fails: Vec<u64>) -> Result<MemLink, NoMemory>
        ensures ok { IsOk result }
        ensures fresh { IfOk result (λ link. link ≡ memory.fresh fails.items) }
    {
        Ok(MemLink {
            list: Vec::new(alloc),
            next: None,
            fails,
            calls: 0,
            faults: 0,
            refusals: 0,
        })
    }

    /// Counts a call, and says whether it fails.
    fn fails_now(&mut self) -> bool
        ensures answer { result ≡ memory.call_fails self.old }
        ensures counted { self.new ≡ memory.called self.old }
    {
        self.calls = self.calls.saturating_add(1);
        self.fails.contains(&self.calls)
    }

    /// Allows `attach` alone.
    fn detach(&mut self)
        ensures { self.new ≡ memory.detached self.old }
    {
        self.next = None;
    }

    fn fail(&mut self) -> LinkFault
        ensures fault { result ≡ fault.Failed }
        ensures failed { self.new ≡ memory.failed self.old }
        ensures later { self.old.faults ≤ self.new.faults }
    {
        self.detach();
        self.faults = self.faults.saturating_add(1);
        LinkFault::Failed
    }

    fn refuse(&mut self) -> LinkFault
        ensures fault { result ≡ fault.NoMemory }
        ensures refused { self.new ≡ memory.refused self.old }
        ensures later { self.old.refusals ≤ self.new.refusals }
    {
        self.refusals = self.refusals.saturating_add(1);
        LinkFault::NoMemory
    }
}

impl Link for MemLink {
    ghost use Rattle.std.specs.Prelude.{Some, refl};

    ghost gives = { λ link. link.list };

    ghost applied = { λ link. Some link.list };

    ghost next = { λ link. link.next };

    ghost faults = { λ link. link.faults };

    ghost refusals = { λ link. link.refusals };

    ghost honest = { λ link. refl };

    fn attach(&mut self, alloc: Global, entries: &[Entry]) -> Result<(), LinkFault>
        ensures attached { OnOk result (self.new ≡ memory.attached entries.now (memory.called self.old)) }
        ensures fault { IfErr result (λ f. self.new ≡ memory.detached (memory.after_fault f (memory.called self.old))) }
        ensures failed { (result ≡ Err fault.Failed) ↔ IsTrue (memory.call_fails self.old) }
        ensures later { memory.IsLater self.old self.new }
    {
        if self.fails_now() {
            return Err(self.fail());
        }
        self.detach();
        match Vec::from_slice(alloc, entries) {
            Ok(list) => {
                self.list = list;
                self.next = Some(1);
                Ok(())
            }
            Err(_) => Err(self.refuse()),
        }
    }

    fn ship(&mut self, alloc: Global, seq: u64, op: &TableOp) -> Result<(), LinkFault>
        ensures shipped { OnOk result (self.new ≡ memory.shipped seq op.now (memory.called self.old)) }
        ensures fault { IfErr result (λ f. self.new ≡ memory.detached (memory.after_fault f (memory.called self.old))) }
        ensures failed { (result ≡ Err fault.Failed) ↔ IsTrue (memory.call_fails self.old || nat_eq seq (2 ^ 64 - 1)) }
        ensures later { memory.IsLater self.old self.new }
    {
        if self.fails_now() || seq == u64::MAX {
            return Err(self.fail());
        }
        self.detach();
        if apply_op(alloc, &mut self.list, op).is_err() {
            return Err(self.refuse());
        }
        self.next = Some(seq + 1);
        Ok(())
    }

    fn hand_over(&mut self, alloc: Global) -> Result<Vec<Entry>, LinkFault>
        ensures list { IfOk result (λ list. list.items ≡ self.old.list) }
        ensures unchanged { OnOk result (self.new ≡ memory.called self.old) }
        ensures fault { IfErr result (λ f. self.new ≡ memory.after_fault f (memory.called self.old)) }
        ensures failed { (result ≡ Err fault.Failed) ↔ IsTrue (memory.call_fails self.old) }
        ensures later { memory.IsLater self.old self.new }
    {
        if self.fails_now() {
            return Err(self.fail());
        }
        match Vec::from_slice(alloc, self.list.as_slice()) {
            Ok(list) => Ok(list),
            Err(_) => Err(self.refuse()),
        }
    }
}

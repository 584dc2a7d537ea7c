ghost use Rattle.std.specs.Prelude.{◌≡◌, ◌-◌, ◌^◌, ◌↔◌, IfErr, IfOk, IsTrue, OnErr, OnOk, Err, false};
ghost use Rattle.lock_entry.specs.Names.{has_distinct_names};
ghost use Rattle.lock_index.specs.Replica as replica;
ghost use Rattle.replica_link.specs.declared.fault.LinkFault.TheVariants as fault;

use crate::lists::live_entries;
use crate::replica::{apply_op, distinct_shelf};
use crate::shelf::Shelf;
use enq_base::NoMemory;
use lock_entry::Entry;
use replica_link::{Link, LinkFault, TableOp};
use std::alloc::Global;
use std::marker::Model;

/// A replica in memory, whose entries are found by their names and their owners. It fails where two entries of a
/// snapshot have one name, and at an operation with the last of all numbers. A want of memory is a refusal.
#[derive(Drop)]
pub struct IndexLink {
    shelf: Shelf,
    next: Option<u64>,
    faults: u64,
    refusals: u64,
}

impl Model for IndexLink {
    ghost use Rattle.std.specs.Prelude.{◌≡◌, true};
    ghost use Rattle.lock_entry.specs.Names.{has_distinct_names};
    ghost use Rattle.lock_index.specs.Slots.{live};
    ghost use Rattle.lock_index.specs.Replica.{IndexLinkState};

    ghost Value = { IndexLinkState };

    ghost view = { λ l. record { list = live l.shelf; next = l.next; faults = l.faults; refusals = l.refusals } };

    ghost invariant = { λ l. has_distinct_names (live l.shelf) ≡ true };
}

impl IndexLink {
    /// A link to which no replica is attached. It takes no memory.
    pub fn new(alloc: Global) -> IndexLink
        ensures { result ≡ replica.unattached }
    {
        IndexLink {
            shelf: Shelf::new(alloc),
            next: None,
            faults: 0,
            refusals: 0,
        }
    }

    /// Counts a fault. No replica is attached then.
    fn lose(&mut self, fault: LinkFault) -> LinkFault
        ensures fault { result ≡ fault }
        ensures lost { self.new ≡ replica.lost fault self.old }
        ensures later { replica.IsLater self.old self.new }
    {
        self.next = None;
        match fault {
            LinkFault::Failed => self.faults = self.faults.saturating_add(1),
            LinkFault::NoMemory => self.refusals = self.refusals.saturating_add(1),
        }
        fault
    }
}

impl Link for IndexLink {
    ghost use Rattle.std.specs.Prelude.{Some, refl};

    ghost gives = { λ link. link.list };

    ghost applied = { λ link. Some link.list };

    ghost next = { λ link. link.next };

    ghost faults = { λ link. link.faults };

    ghost refusals = { λ link. link.refusals };

    ghost honest = { λ link. refl };

    /// For each entry look-ups as those of a lock table's `ask`.
    fn attach(&mut self, alloc: Global, entries: &[Entry]) -> Result<(), LinkFault>
        ensures attached { OnOk result (self.new ≡ replica.attached entries.now self.old) }
        ensures lost { IfErr result (λ f. self.new ≡ replica.lost f self.old) }
        ensures names { OnOk result (IsTrue (has_distinct_names entries.now)) }
        ensures failed { result ≡ Err fault.Failed → has_distinct_names entries.now ≡ false }
        ensures later { replica.IsLater self.old self.new }
    {
        match distinct_shelf(alloc, entries) {
            Ok(shelf) => {
                self.shelf = shelf;
                self.next = Some(1);
                Ok(())
            }
            Err(fault) => Err(self.lose(fault)),
        }
    }

    /// It goes over the entries of one table with the same literal bytes, or over those of one owner.
    fn ship(&mut self, alloc: Global, seq: u64, op: &TableOp) -> Result<(), LinkFault>
        ensures shipped { OnOk result (self.new ≡ replica.shipped seq op.now self.old) }
        ensures lost { IfErr result (λ f. self.new ≡ replica.lost f self.old) }
        ensures failed { (result ≡ Err fault.Failed) ↔ (seq ≡ 2 ^ 64 - 1) }
        ensures later { replica.IsLater self.old self.new }
    {
        if seq == u64::MAX {
            return Err(self.lose(LinkFault::Failed));
        }
        match apply_op(alloc, &mut self.shelf, op) {
            Ok(()) => {
                self.next = Some(seq + 1);
                Ok(())
            }
            Err(NoMemory) => Err(self.lose(LinkFault::NoMemory)),
        }
    }

    /// It goes over all places.
    fn hand_over(&mut self, alloc: Global) -> Result<Vec<Entry>, LinkFault>
        ensures list { IfOk result (λ list. list.items ≡ self.old.list) }
        ensures unchanged { OnOk result (self.new ≡ self.old) }
        ensures refused { IfErr result (λ f. f ≡ fault.NoMemory) }
        ensures counted { IfErr result (λ f. self.new ≡ replica.counted f self.old) }
        ensures later { replica.IsLater self.old self.new }
    {
        match live_entries(alloc, self.shelf.slots()) {
            Ok(list) => Ok(list),
            Err(NoMemory) => {
                self.refusals = self.refusals.saturating_add(1);
                Err(LinkFault::NoMemory)
            }
        }
    }
}

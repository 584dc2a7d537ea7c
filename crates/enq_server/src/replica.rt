ghost use Rattle.std.specs.Prelude.{◌≡◌, List, true, false, IfOk, OnOk, OnErr, is_some};
ghost use Rattle.lock_entry.specs.declared.entry.Entry.{Entry};
ghost use Rattle.replica_link.specs.Linking.{HasCauses, OnFailed, UnlessFailed};
ghost use Rattle.replica_link.specs.Operations.{after_op};
ghost use Rattle.enq_server.specs.Replica.{IsAt, KeepsOn, StillFollows};

use lock_entry::Entry;
use replica_link::{Link, LinkFault, TableOp};
use std::alloc::Global;
use std::marker::Model;

/// A replica that follows the lock table, as long as no operation is lost on its way.
#[derive(Drop)]
pub struct Replica<L: Link> {
    link: L,
    alloc: Global,
    seq: u64,
    attached: bool,
}

impl<L: Link> Model for Replica<L> {
    ghost use Rattle.std.specs.Prelude.{◌≡◌, true, Some};
    ghost use Rattle.enq_server.specs.Replica.{ReplicaView};

    ghost Value = { ReplicaView L };

    ghost view = { λ f. record { link = f.link; seq = f.seq; attached = f.attached } };

    ghost invariant = { λ f. f.attached ≡ true → L.next f.link ≡ Some f.seq };
}

impl<L: Link> Replica<L> {
    /// A replica that doesn't follow yet. It takes no memory.
    pub fn new(alloc: Global, link: L) -> Replica<L>
        ensures detached { result.attached ≡ false }
        ensures link { result.link ≡ link }
    {
        Replica {
            link,
            alloc,
            seq: 1,
            attached: false,
        }
    }

    /// Whether it follows. It takes no memory.
    pub fn attached(&self) -> bool
        ensures { result ≡ self.now.attached }
    {
        self.attached
    }

    /// The allocator of what it is sent.
    pub fn alloc(&self) -> Global {
        self.alloc
    }

    /// Sends it the table, from which on it follows. After an error it doesn't.
    pub fn attach(&mut self, entries: &[Entry]) -> Result<(), LinkFault>
        ensures attached { OnOk result (self.new.attached ≡ true) }
        ensures at { IsAt L.applied self.new entries.now }
        ensures detached { OnErr result (self.new.attached ≡ false) }
        ensures told { is_some (L.applied self.new.link) ≡ is_some (L.applied self.old.link) }
        ensures causes { HasCauses L.faults L.refusals self.old.link self.new.link result }
    {
        match self.link.attach(self.alloc, entries) {
            Ok(()) => {
                self.seq = 1;
                self.attached = true;
                Ok(())
            }
            Err(fault) => {
                self.attached = false;
                Err(fault)
            }
        }
    }

    /// It follows no longer. It takes no memory.
    pub fn detach(&mut self)
        ensures detached { self.new.attached ≡ false }
        ensures link { self.new.link ≡ self.old.link }
    {
        self.attached = false;
    }

    /// Sends it a change of the table, where it follows.
    pub fn ship(&mut self, op: &TableOp)
        ensures at { (list : List Entry) → IsAt L.applied self.old list
            → IsAt L.applied self.new (after_op list op.now) }
        ensures keeps { KeepsOn L.applied L.faults L.refusals self.old self.new }
    {
        if self.attached {
            self.send(op);
        }
    }

    fn send(&mut self, op: &TableOp)
        requires { self.old.attached ≡ true }
        ensures at { (list : List Entry) → IsAt L.applied self.old list
            → IsAt L.applied self.new (after_op list op.now) }
        ensures keeps { KeepsOn L.applied L.faults L.refusals self.old self.new }
    {
        match self.link.ship(self.alloc, self.seq, op) {
            Ok(()) => self.seq = self.seq.saturating_add(1),
            Err(_) => self.attached = false,
        }
    }

    /// Asks it for its list. After `Failed` it follows no longer.
    pub fn hand_over(&mut self) -> Result<Vec<Entry>, LinkFault>
        requires { self.old.attached ≡ true }
        ensures list { IfOk result (λ list. list.items ≡ L.gives self.old.link) }
        ensures stays { UnlessFailed result (StillFollows L.gives L.applied self.old self.new) }
        ensures detached { OnFailed result (self.new.attached ≡ false) }
        ensures told { is_some (L.applied self.new.link) ≡ is_some (L.applied self.old.link) }
        ensures causes { HasCauses L.faults L.refusals self.old.link self.new.link result }
    {
        match self.link.hand_over(self.alloc) {
            Ok(list) => Ok(list),
            Err(LinkFault::Failed) => {
                self.attached = false;
                Err(LinkFault::Failed)
            }
            Err(LinkFault::NoMemory) => Err(LinkFault::NoMemory),
        }
    }

    /// The link. It takes no memory.
    pub fn into_link(self) -> L
        ensures { result ≡ self.link }
    {
        let Replica { link, .. } = self;
        link
    }
}

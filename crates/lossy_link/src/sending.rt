ghost use Rattle.std.specs.Prelude.{◌≡◌, ◌⊎◌, ◌+◌, ◌-◌, ◌<◌, ◌≤◌, ◌^◌, [], true, false, Some, IfOk, IfSome, IsSome, IsTrue, OnOk, OnErr, Err, option_map};
ghost use Rattle.enq_base.specs.Causes.{Rose};
ghost use Rattle.replica_link.specs.Linking.{HasCauses, OnFailed, UnlessFailed};
ghost use Rattle.replica_link.specs.Operations.{after_op};
ghost use Rattle.replica_link.specs.declared.fault.LinkFault.TheVariants as fault;
ghost use Rattle.lossy_link.specs.Packets.{ack_of};
ghost use Rattle.lossy_link.specs.Runs.{Follows, IsAt};
ghost use Rattle.lossy_link.specs.Wired.{wired};
ghost use Rattle.lossy_link.specs.Wiring.{IsCounted, IsElsewhere, IsLater, IsUnheard, IsUnused, RoseBy, counted, lost, next_op, told_list};

use crate::packet::Packet;
use crate::turning::send;
use crate::wire::Wire;
use enq_base::Items;
use lock_entry::Entry;
use replica_link::{Link, LinkFault, TableOp};
use std::alloc::Global;
use std::marker::Model;

/// A link to a replica over a wire that may lose packets and acknowledgements, repeat them, and bring them late.
///
/// Each snapshot begins an epoch of its own, and each operation of it is sent once the one before is acknowledged, at
/// most eight times. It keeps no packet. Its counts are of calls: a packet that was lost at first and then came raises
/// the wire's count alone.
#[derive(Drop)]
pub struct LossyLink<W: Wire> {
    wire: W,
    epoch: u32,
    seq: u64,
    attached: bool,
    faults: u64,
    refusals: u64,
}

impl<W: Wire> Model for LossyLink<W> {
    ghost use Rattle.std.specs.Prelude.{IsTrue};
    ghost use Rattle.lossy_link.specs.Wiring.{IsKnown, Sender};

    ghost Value = { Sender W };

    ghost view = { λ l. record {
      wire = l.wire;
      epoch = l.epoch;
      seq = l.seq;
      attached = l.attached;
      faults = l.faults;
      refusals = l.refusals;
    } };

    ghost invariant = { λ l. IsTrue W.tells
        → IsKnown (W.place l.wire) (W.may_bring l.wire) (W.may_answer l.wire) l.epoch l.seq l.attached };
}

impl<W: Wire> LossyLink<W> {
    /// A link over a wire over which nothing was sent yet. It takes no memory.
    pub fn new(wire: W) -> LossyLink<W>
        requires { IsTrue W.tells → IsUnused (W.place wire) (W.may_bring wire) (W.may_answer wire) }
        ensures detached { result.attached ≡ false }
        ensures wire { result.wire ≡ wire }
        ensures runs { IsTrue W.tells → IsAt W.place W.may_bring W.may_answer result (wired []) }
    {
        LossyLink {
            wire,
            epoch: 0,
            seq: 0,
            attached: false,
            faults: 0,
            refusals: 0,
        }
    }

    /// Counts what a call gave up for.
    fn count(&mut self, fault: LinkFault) -> LinkFault
        ensures fault { result ≡ fault }
        ensures counted { self.new ≡ counted fault self.old }
        ensures later { IsLater (λ l. l.faults) (λ l. l.refusals) self.old self.new }
    {
        match fault {
            LinkFault::Failed => self.faults = self.faults.saturating_add(1),
            LinkFault::NoMemory => self.refusals = self.refusals.saturating_add(1),
        }
        fault
    }

    /// Counts what a call gave up for. No replica follows then.
    fn lose(&mut self, fault: LinkFault) -> LinkFault
        ensures fault { result ≡ fault }
        ensures lost { self.new ≡ lost fault self.old }
        ensures later { IsLater (λ l. l.faults) (λ l. l.refusals) self.old self.new }
    {
        self.attached = false;
        self.count(fault)
    }

    /// Begins an epoch with a snapshot, without a count of what it gives up for.
    fn begin(&mut self, alloc: Global, entries: Items<Entry>) -> Result<(), LinkFault>
        requires { self.old.epoch < 2 ^ 32 - 1 }
        ensures list { IsTrue W.tells → OnOk result ((W.place self.new.wire).list ≡ entries) }
        ensures attached { OnOk result (self.new.attached ≡ true) }
        ensures seq { OnOk result (self.new.seq ≡ 0) }
        ensures detached { OnErr result (self.new.attached ≡ false) }
        ensures epoch { self.new.epoch ≡ self.old.epoch + 1 }
        ensures faults { self.new.faults ≡ self.old.faults }
        ensures refusals { self.new.refusals ≡ self.old.refusals }
        ensures failed { result ≡ Err fault.Failed → RoseBy 8 (W.faults self.old.wire) (W.faults self.new.wire) }
        ensures turns { W.faults self.new.wire ≤ W.faults self.old.wire + 8 }
        ensures heard { OnOk result (W.faults self.new.wire ≤ W.faults self.old.wire + 7) }
        ensures runs { IsTrue W.tells → Follows W.place W.may_bring W.may_answer self.old self.new }
        ensures causes { HasCauses W.faults W.refusals self.old.wire self.new.wire result }
    {
        let epoch = self.epoch + 1;
        let packet = Packet::Begin { epoch, entries };
        match send(&mut self.wire, alloc, &packet) {
            Ok(()) => {
                self.epoch = epoch;
                self.seq = 0;
                self.attached = true;
                Ok(())
            }
            Err(fault) => {
                self.epoch = epoch;
                self.attached = false;
                Err(fault)
            }
        }
    }

    /// Sends an operation of the epoch, without a count of what it gives up for.
    fn send_op(&mut self, alloc: Global, seq: u64, op: &TableOp) -> Result<(), LinkFault>
        requires attached { self.old.attached ≡ true }
        requires next { seq ≡ self.old.seq + 1 }
        ensures list { IsTrue W.tells
            → OnOk result ((W.place self.new.wire).list ≡ after_op (W.place self.old.wire).list op.now) }
        ensures attached { OnOk result (self.new.attached ≡ true) }
        ensures seq { OnOk result (self.new.seq ≡ seq) }
        ensures epoch { self.new.epoch ≡ self.old.epoch }
        ensures detached { OnErr result (self.new.attached ≡ false) }
        ensures faults { self.new.faults ≡ self.old.faults }
        ensures refusals { self.new.refusals ≡ self.old.refusals }
        ensures failed { result ≡ Err fault.Failed → RoseBy 8 (W.faults self.old.wire) (W.faults self.new.wire) }
        ensures turns { W.faults self.new.wire ≤ W.faults self.old.wire + 8 }
        ensures heard { OnOk result (W.faults self.new.wire ≤ W.faults self.old.wire + 7) }
        ensures runs { IsTrue W.tells → Follows W.place W.may_bring W.may_answer self.old self.new }
        ensures causes { HasCauses W.faults W.refusals self.old.wire self.new.wire result }
    {
        let packet = Packet::Op {
            epoch: self.epoch,
            seq,
            op: *op,
        };
        match send(&mut self.wire, alloc, &packet) {
            Ok(()) => {
                self.seq = seq;
                Ok(())
            }
            Err(fault) => {
                self.attached = false;
                Err(fault)
            }
        }
    }
}

impl<W: Wire> Link for LossyLink<W> {
    ghost use Rattle.lossy_link.specs.Wiring.{next_op, tells_what_it_gives, told_list};

    ghost gives = { λ link. (W.place link.wire).list };

    ghost applied = { λ link. told_list W.tells (W.place link.wire) };

    ghost next = { λ link. next_op link };

    ghost faults = { λ link. link.faults };

    ghost refusals = { λ link. link.refusals };

    ghost honest = { λ link. tells_what_it_gives W.tells (W.place link.wire) };

    fn attach(&mut self, alloc: Global, entries: &[Entry]) -> Result<(), LinkFault>
        ensures list { OnOk result (IfSome (told_list W.tells (W.place self.new.wire)) (λ list. list ≡ entries.now)) }
        ensures next { OnOk result (next_op self.new ≡ Some 1) }
        ensures epoch { OnOk result (self.new.epoch ≡ self.old.epoch + 1) }
        ensures detached { OnErr result (self.new.attached ≡ false) }
        ensures last { self.old.epoch ≡ 2 ^ 32 - 1 → result ≡ Err fault.Failed }
        ensures failed { result ≡ Err fault.Failed
            → IsUnheard W.faults self.old self.new (self.old.epoch ≡ 2 ^ 32 - 1) }
        // The wire refused, or memory for the copy of the list was wanting, and nothing was sent.
        ensures refused { result ≡ Err fault.NoMemory
            → Rose (W.refusals self.old.wire) (W.refusals self.new.wire) ⊎ (self.new ≡ lost fault.NoMemory self.old) }
        ensures turns { W.faults self.new.wire ≤ W.faults self.old.wire + 8 }
        ensures heard { OnOk result (W.faults self.new.wire ≤ W.faults self.old.wire + 7) }
        ensures later { IsLater W.faults W.refusals self.old.wire self.new.wire }
        ensures counted { IsCounted self.old self.new result }
        ensures causes { HasCauses (λ l. l.faults) (λ l. l.refusals) self.old self.new result }
        ensures runs { IsTrue W.tells → Follows W.place W.may_bring W.may_answer self.old self.new }
    {
        if self.epoch == u32::MAX {
            return Err(self.lose(LinkFault::Failed));
        }
        let Ok(entries) = Vec::from_slice(alloc, entries) else {
            return Err(self.lose(LinkFault::NoMemory));
        };
        match self.begin(alloc, Items::from_vec(entries)) {
            Ok(()) => Ok(()),
            Err(fault) => Err(self.count(fault)),
        }
    }

    fn ship(&mut self, alloc: Global, seq: u64, op: &TableOp) -> Result<(), LinkFault>
        requires { next_op self.old ≡ Some seq }
        ensures list { OnOk result (told_list W.tells (W.place self.new.wire)
            ≡ option_map (λ list. after_op list op.now) (told_list W.tells (W.place self.old.wire))) }
        ensures next { OnOk result (next_op self.new ≡ Some (seq + 1)) }
        ensures epoch { self.new.epoch ≡ self.old.epoch }
        ensures detached { OnErr result (self.new.attached ≡ false) }
        ensures last { seq ≡ 2 ^ 64 - 1 → result ≡ Err fault.Failed }
        ensures failed { result ≡ Err fault.Failed → IsUnheard W.faults self.old self.new (seq ≡ 2 ^ 64 - 1) }
        ensures refused { result ≡ Err fault.NoMemory → Rose (W.refusals self.old.wire) (W.refusals self.new.wire) }
        ensures turns { W.faults self.new.wire ≤ W.faults self.old.wire + 8 }
        ensures heard { OnOk result (W.faults self.new.wire ≤ W.faults self.old.wire + 7) }
        ensures later { IsLater W.faults W.refusals self.old.wire self.new.wire }
        ensures counted { IsCounted self.old self.new result }
        ensures causes { HasCauses (λ l. l.faults) (λ l. l.refusals) self.old self.new result }
        ensures runs { IsTrue W.tells → Follows W.place W.may_bring W.may_answer self.old self.new }
    {
        if seq == u64::MAX {
            return Err(self.lose(LinkFault::Failed));
        }
        match self.send_op(alloc, seq, op) {
            Ok(()) => Ok(()),
            Err(fault) => Err(self.count(fault)),
        }
    }

    fn hand_over(&mut self, alloc: Global) -> Result<Vec<Entry>, LinkFault>
        requires { IsSome (next_op self.old) }
        ensures list { IfOk result (λ list. list.items ≡ (W.place self.old.wire).list) }
        ensures at { OnOk result
            (ack_of (W.place self.old.wire) ≡ record { epoch = self.old.epoch; seq = self.old.seq }) }
        ensures stays { W.place self.new.wire ≡ W.place self.old.wire }
        ensures next { UnlessFailed result (next_op self.new ≡ next_op self.old) }
        ensures detached { OnFailed result (self.new.attached ≡ false) }
        ensures failed { result ≡ Err fault.Failed → IsElsewhere W.place W.faults self.old self.new }
        ensures refused { result ≡ Err fault.NoMemory → Rose (W.refusals self.old.wire) (W.refusals self.new.wire) }
        ensures quiet { UnlessFailed result (W.faults self.new.wire ≡ W.faults self.old.wire) }
        ensures later { IsLater W.faults W.refusals self.old.wire self.new.wire }
        ensures counted { IsCounted self.old self.new result }
        ensures causes { HasCauses (λ l. l.faults) (λ l. l.refusals) self.old self.new result }
        ensures runs { IsTrue W.tells → Follows W.place W.may_bring W.may_answer self.old self.new }
    {
        match self.wire.fetch(alloc) {
            Ok((ack, list)) => {
                if ack.epoch != self.epoch || ack.seq != self.seq {
                    return Err(self.lose(LinkFault::Failed));
                }
                Ok(list)
            }
            Err(LinkFault::Failed) => Err(self.lose(LinkFault::Failed)),
            Err(LinkFault::NoMemory) => Err(self.count(LinkFault::NoMemory)),
        }
    }
}

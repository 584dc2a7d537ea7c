ghost use Rattle.std.specs.Prelude.{◌≡◌, ◌⊎◌, ◌+◌, ◌≤◌, Some, Ok, IfErr, IfOk, OnErr, OnOk};
ghost use Rattle.enq_base.specs.Causes.{Rose, one_more};
ghost use Rattle.replica_link.specs.Linking.{HasCauses};
ghost use Rattle.lossy_link.specs.Memory as memory;
ghost use Rattle.lossy_link.specs.Packets.{own_ack, taken, taken_all};
ghost use Rattle.lossy_link.specs.Wiring.{IsLater, IsSent, IsUnused, heard_in};
ghost use Rattle.replica_link.specs.declared.fault.LinkFault.TheVariants as fault;

use crate::packet::{Ack, Packet};
use crate::playing::play;
use crate::replica::Replica;
use crate::wire::Wire;
use enq_base::NoMemory;
use io_edge::Fate;
use lock_entry::Entry;
use replica_link::LinkFault;
use std::alloc::Global;
use std::marker::Model;

/// A wire in memory, and the replica at its end. Its turns have the planned fates, one after the other, and those
/// behind the last one pass. It keeps the packets of planned turns alone, as no other can come once more.
#[derive(Drop)]
pub struct MemWire {
    replica: Replica,
    plan: Vec<Fate>,
    turns: u64,
    sent: Vec<Packet>,
    faults: u64,
    refusals: u64,
}

impl Model for MemWire {
    ghost use Rattle.lossy_link.specs.Memory.{MemWireState};

    ghost Value = { MemWireState };

    ghost view = { λ w. record {
      place = w.replica;
      plan = w.plan.items;
      turns = w.turns;
      sent = w.sent.items;
      faults = w.faults;
      refusals = w.refusals;
    } };
}

impl MemWire {
    /// A wire over which nothing was sent, with these fates for its first turns. It takes no memory.
    pub fn new(alloc: Global, plan: Vec<Fate>) -> MemWire
        ensures fresh { result ≡ memory.unused plan.items }
        ensures unused { IsUnused result.place (memory.may_bring result) (memory.may_answer result) }
    {
        MemWire {
            replica: Replica::new(alloc),
            plan,
            turns: 0,
            sent: Vec::new(alloc),
            faults: 0,
            refusals: 0,
        }
    }

    /// The fate of the turn that comes.
    fn fate(&self) -> Fate
        ensures { result ≡ memory.next_fate self.now }
    {
        match self.plan.get(self.turns as usize) {
            Some(fate) => *fate,
            None => Fate::Pass,
        }
    }

    /// Counts a turn, keeps its packet where its fate was planned, and tells its fate.
    fn begin_turn(&mut self, alloc: Global, packet: &Packet) -> Result<Fate, NoMemory>
        ensures fate { IfOk result (λ fate. fate ≡ memory.next_fate self.old) }
        ensures noted { OnOk result
            (self.new ≡ record self.old { turns = one_more self.old.turns; sent = memory.noted self.old packet.now }) }
        ensures wanting { OnErr result (self.new ≡ record self.old { turns = one_more self.old.turns }) }
    {
        let fate = self.fate();
        let planned = self.turns < self.plan.len() as u64;
        self.turns = self.turns.saturating_add(1);
        if planned {
            let copy = packet.copy(alloc)?;
            self.sent.push(copy)?;
        }
        Ok(fate)
    }

    /// Plays a turn of this fate.
    fn deliver(
        &mut self,
        alloc: Global,
        packet: &Packet,
        fate: Fate,
    ) -> Result<Option<Ack>, NoMemory>
        ensures answer { IfOk result
            (λ answer. answer ≡ memory.answer_in fate self.old.sent packet.now self.old.place) }
        ensures came { OnOk result
            (self.new ≡ record self.old
            { place = taken_all self.old.place (memory.coming fate self.old.sent packet.now) }) }
        ensures wanting { OnErr result
            ((self.new ≡ self.old) ⊎ (self.new ≡ record self.old { place = taken self.old.place packet.now })) }
    {
        play(&mut self.replica, alloc, self.sent.as_slice(), packet, fate)
    }

    /// Plays the turn that comes, without a count of its fault.
    fn play_turn(&mut self, alloc: Global, packet: &Packet) -> Result<Option<Ack>, NoMemory>
        ensures answer { IfOk result (λ answer. answer ≡ memory.answer_of packet.now self.old) }
        ensures played { OnOk result (self.new ≡ memory.played packet.now self.old) }
        ensures wanting { OnErr result (memory.IsCutShort packet.now self.old self.new) }
    {
        let fate = self.begin_turn(alloc, packet)?;
        self.deliver(alloc, packet, fate)
    }

    /// Counts a fault, unless this is the packet's own acknowledgement.
    fn count(&mut self, packet: &Packet, answer: &Option<Ack>)
        ensures quiet { answer.now ≡ Some (own_ack packet.now) → self.new ≡ self.old }
        ensures lost { (answer.now ≡ Some (own_ack packet.now) → ⊥) → self.new ≡ memory.faulted self.old }
        ensures once { self.new.faults ≤ self.old.faults + 1 }
        ensures stays { memory.counted_in self.old self.new.faults ≡ self.new }
        ensures later { self.old.faults ≤ self.new.faults }
    {
        if *answer != Some(packet.ack()) {
            self.faults = self.faults.saturating_add(1);
        }
    }

    /// Counts a turn for which there was no memory.
    fn refuse(&mut self) -> LinkFault
        ensures fault { result ≡ fault.NoMemory }
        ensures refused { self.new ≡ memory.refused (memory.faulted self.old) }
        ensures later { IsLater (λ w. w.faults) (λ w. w.refusals) self.old self.new }
    {
        self.faults = self.faults.saturating_add(1);
        self.refusals = self.refusals.saturating_add(1);
        LinkFault::NoMemory
    }
}

impl Wire for MemWire {
    ghost use Rattle.std.specs.Prelude.{true};
    ghost use Rattle.lossy_link.specs.Memory.{may_answer, may_bring};

    ghost place = { λ wire. wire.place };

    ghost tells = { true };

    ghost may_bring = { may_bring };

    ghost may_answer = { may_answer };

    ghost faults = { λ wire. wire.faults };

    ghost refusals = { λ wire. wire.refusals };

    fn turn(&mut self, alloc: Global, packet: &Packet) -> Result<Option<Ack>, LinkFault>
        ensures answer { IfOk result (λ answer. answer ≡ memory.answer_of packet.now self.old) }
        ensures played { OnOk result
            (self.new ≡ memory.counted_in (memory.played packet.now self.old) self.new.faults) }
        ensures wanting { IfErr result (λ f. f ≡ fault.NoMemory) }
        ensures sent { IsSent
            (λ w. w.place) memory.may_bring memory.may_answer packet.now (heard_in result) self.old self.new }
        ensures quiet { result ≡ Ok (Some (own_ack packet.now)) → self.new.faults ≡ self.old.faults }
        ensures lost { (result ≡ Ok (Some (own_ack packet.now)) → ⊥) → Rose self.old.faults self.new.faults }
        ensures once { self.new.faults ≤ self.old.faults + 1 }
        ensures causes { HasCauses (λ w. w.faults) (λ w. w.refusals) self.old self.new result }
    {
        match self.play_turn(alloc, packet) {
            Ok(answer) => {
                self.count(packet, &answer);
                Ok(answer)
            }
            Err(NoMemory) => Err(self.refuse()),
        }
    }

    fn fetch(&mut self, alloc: Global) -> Result<(Ack, Vec<Entry>), LinkFault> {
        match self.replica.list(alloc) {
            Ok(list) => Ok((self.replica.ack(), list)),
            Err(NoMemory) => {
                self.refusals = self.refusals.saturating_add(1);
                Err(LinkFault::NoMemory)
            }
        }
    }
}

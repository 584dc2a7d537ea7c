ghost use Rattle.std.specs.Prelude.{◌≡◌, ◌≤◌, IfErr, IfOk};
ghost use Rattle.replica_link.specs.declared.fault.LinkFault.TheVariants as fault;
ghost use Rattle.script_rows.specs.Handing.{HasCounted, handed};

use enq_base::NoMemory;
use lock_entry::Entry;
use replica_link::{Link, LinkFault, MemLink, TableOp};
use std::alloc::Global;

/// What a link hands over: what its replica has, or that without the last lock, with the first one once more, or from
/// its end on.
#[derive(Clone, Copy, Debug, PartialEq, Eq)]
pub(crate) enum Hands {
    All,
    Fewer,
    Twice,
    Backwards,
}

/// A replica in memory that may hand over something else than it has, and then doesn't tell its list.
#[derive(Drop)]
pub(crate) struct TestLink {
    replica: MemLink,
    hands: Hands,
    faults: u64,
    refusals: u64,
}

impl TestLink {
    /// A link to a replica that fails at the calls of these numbers.
    pub(crate) fn new(alloc: Global, fails: Vec<u64>, hands: Hands) -> Result<TestLink, NoMemory> {
        Ok(TestLink {
            replica: MemLink::new(alloc, fails)?,
            hands,
            faults: 0,
            refusals: 0,
        })
    }

    /// Counts a fault.
    fn counted(&mut self, fault: LinkFault) -> LinkFault
        ensures fault { result ≡ fault }
        ensures replica { self.new.replica ≡ self.old.replica }
        ensures hands { self.new.hands ≡ self.old.hands }
        ensures faults { self.old.faults ≤ self.new.faults }
        ensures refusals { self.old.refusals ≤ self.new.refusals }
        ensures counts { HasCounted fault self.old.faults self.new.faults self.old.refusals self.new.refusals }
    {
        match fault {
            LinkFault::Failed => self.faults = self.faults.saturating_add(1),
            LinkFault::NoMemory => self.refusals = self.refusals.saturating_add(1),
        }
        fault
    }
}

/// What is handed over of a list.
fn handed(hands: Hands, list: Vec<Entry>) -> Result<Vec<Entry>, LinkFault>
    ensures list { IfOk result (λ given. given.items ≡ handed hands list.items) }
    ensures no_fault { IfErr result (λ f. f ≡ fault.NoMemory) }
{
    let mut list = list;
    match hands {
        Hands::All => {}
        Hands::Fewer => list.truncate(list.len().saturating_sub(1)),
        Hands::Twice => {
            if let Some(first) = list.first().copied() {
                if list.push(first).is_err() {
                    return Err(LinkFault::NoMemory);
                }
            }
        }
        Hands::Backwards => list.reverse(),
    }
    Ok(list)
}

impl Link for TestLink {
    ghost use Rattle.std.specs.Prelude.{Some, refl, IfSome};
    ghost use Rattle.script_rows.specs.Handing.{handed, told, tells_what_it_gives};

    ghost gives = { λ link. handed link.hands link.replica.list };

    ghost applied = { λ link. told link.hands link.replica.list };

    ghost next = { λ link. link.replica.next };

    ghost faults = { λ link. link.faults };

    ghost refusals = { λ link. link.refusals };

    ghost honest = { λ link. tells_what_it_gives link.hands link.replica.list };

    fn attach(&mut self, alloc: Global, entries: &[Entry]) -> Result<(), LinkFault> {
        match self.replica.attach(alloc, entries) {
            Ok(()) => Ok(()),
            Err(fault) => Err(self.counted(fault)),
        }
    }

    fn ship(&mut self, alloc: Global, seq: u64, op: &TableOp) -> Result<(), LinkFault> {
        match self.replica.ship(alloc, seq, op) {
            Ok(()) => Ok(()),
            Err(fault) => Err(self.counted(fault)),
        }
    }

    fn hand_over(&mut self, alloc: Global) -> Result<Vec<Entry>, LinkFault> {
        let list = match self.replica.hand_over(alloc) {
            Ok(list) => list,
            Err(fault) => return Err(self.counted(fault)),
        };
        match handed(self.hands, list) {
            Ok(list) => Ok(list),
            Err(fault) => Err(self.counted(fault)),
        }
    }
}

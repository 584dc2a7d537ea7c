ghost use Rattle.std.specs.Prelude.{◌≡◌, ◌≤◌, ◌&&◌, [], Bool, false, is_some, length, map, true};
ghost use Rattle.enq_base.specs.declared.condition.Condition.TheVariants.{Up};
ghost use Rattle.hall_model.specs.State.{State};
ghost use Rattle.hall_model.specs.Calls.{call_of};
ghost use Rattle.hall_model.specs.History.{IsStep};
ghost use Rattle.hall_model.specs.Stocks.{MayCall};
ghost use Rattle.hall_model.specs.Views.{readings_of};
ghost use mathlib.Core.List.{IsPrefix};
ghost use Rattle.script_actors.specs.Actors.{is_full};
ghost use Rattle.script_actors.specs.Drawings.{desk_call, with_call};
ghost use Rattle.order_laws.specs.Behind.{is_post, is_up, up_after};
ghost use Rattle.order_workers.specs.Orders.{is_idle};
ghost use Rattle.turn_desks.specs.Led.{Counts, IsLed, counts_of};

use bk_disk::Disk;
use enq_base::{Condition, Readings};
use hall::Hall;
use hall_model::{Command, PastEntry};
use keeper_api::Keeper;
use lock_entry::LockStore;
use order_workers::Look;
use past_laws::{histories_end, posts_are_not_idle};
use posting::{Draft, Worked};
use replica_link::Link;
use std::alloc::Global;
use std::marker::{Brand, PhantomData};
use turn_lock::History;

/// What a hall was opened with: its first state, what its devices had counted then, and whether its store tells its
/// rows and its link the replica's list. One call of a program picks it.
pub trait Origin {
    ghost first: { State };

    ghost counts: { Counts };

    ghost told: { Bool };

    ghost linked: { Bool };
}

impl Origin for Brand {
    ghost use Rattle.std.specs.Prelude.{[], true};
    ghost use Rattle.hall_model.specs.State.{opened};
    ghost use Rattle.update_records.specs.Ledger.{no_ledger};

    ghost first = { opened 0 0 [] true true no_ledger };

    ghost counts = { record { store = 0; file = 0; link = record { faults = 0; refusals = 0 } } };

    ghost told = { true };

    ghost linked = { true };
}

/// The hall, to which calls led from the state that it was opened with.
#[derive(Drop)]
pub struct ServedHall<J: Origin, T: LockStore, K: Keeper, D: Disk, L: Link> {
    pub hall: Hall<T, K, D, L>,
    of: PhantomData<J>,
    ghost told: { is_some (K.held hall.keeper) ≡ J.told },
    ghost linked: { is_some (L.applied hall.replica.link) ≡ J.linked },
    ghost up: { is_up hall.state.condition ≡ up_after hall.state.past },
    ghost led: { ∥ IsLed J.told D.tells J.linked J.first J.counts hall.state
        (counts_of K.faults D.faults L.faults L.refusals hall.keeper hall.file.disk hall.replica.link) ∥₁ },
}

impl<J: Origin, T: LockStore, K: Keeper, D: Disk, L: Link> History for ServedHall<J, T, K, D, L> {
    type Entry = PastEntry;

    ghost past = { λ s. s.hall.state.past };
}

impl<J: Origin, T: LockStore, K: Keeper, D: Disk, L: Link> ServedHall<J, T, K, D, L> {
    /// A hall before its first call.
    pub fn new(hall: Hall<T, K, D, L>) -> ServedHall<J, T, K, D, L>
        requires first { hall.state ≡ J.first }
        requires none { hall.state.past ≡ [] }
        requires up { hall.state.condition ≡ Up }
        requires counts { counts_of K.faults D.faults L.faults L.refusals hall.keeper hall.file.disk hall.replica.link
            ≡ J.counts }
        requires told { is_some (K.held hall.keeper) ≡ J.told }
        requires linked { is_some (L.applied hall.replica.link) ≡ J.linked }
        ensures hall { result.hall ≡ hall }
    {
        ServedHall {
            hall,
            of: PhantomData,
        }
    }

    /// What is counted of the hall.
    pub fn readings(&self) -> Readings
        ensures { result ≡ readings_of self.now.hall.state }
    {
        self.hall.readings()
    }

    /// Gives the hall back, and tells what led to it.
    pub fn into_hall(self) -> Hall<T, K, D, L>
        ensures hall { result ≡ self.hall }
        ensures told { is_some (K.held result.keeper) ≡ J.told }
        ensures linked { is_some (L.applied result.replica.link) ≡ J.linked }
        ensures up { is_up result.state.condition ≡ up_after result.state.past }
        ensures led { ∥ IsLed J.told D.tells J.linked J.first J.counts result.state
            (counts_of K.faults D.faults L.faults L.refusals result.keeper result.file.disk result.replica.link) ∥₁ }
    {
        self.hall
    }
}

impl<J: Origin, T: LockStore, K: Keeper, D: Disk, L: Link> ServedHall<J, T, K, D, L> {
    /// Serves a call of this line of the script. What a V1 part came to outside is taken by a post of it, where it still
    /// holds.
    pub fn serve(
        &mut self,
        alloc: Global,
        line: u32,
        command: Command,
        worked: Option<&Worked>,
    ) -> Look
        requires may { MayCall self.old.hall.state (call_of command) }
        ensures told { map desk_call self.new.hall.state.past ≡ with_call (map desk_call self.old.hall.state.past) line
            command result.reply }
        ensures grows { IsPrefix self.old.hall.state.past self.new.hall.state.past }
        ensures up { result.is_up ≡ up_after self.new.hall.state.past }
        ensures full { is_full result.reply ≡ true → 262144 ≤ length self.new.hall.state.past }
        ensures posts { (is_post (call_of command) && is_idle result.reply) ≡ false }
        ensures length { result.past ≡ length self.new.hall.state.past }
        ensures step { IsStep self.old.hall.state self.new.hall.state line command result.reply }
    {
        histories_end();
        posts_are_not_idle();
        let reply = self.hall.serve_worked(alloc, line, command, worked);
        let is_up = is_up(self.hall.condition());
        let past = self.hall.past().len() as u64;
        Look { reply, is_up, past }
    }

    /// What the V1 part is worked from that a worker has an order for, where there is memory for it.
    pub(crate) fn draft(&self, alloc: Global, worker: u8) -> Option<Draft> {
        match self.hall.draft(alloc, worker) {
            Ok(draft) => draft,
            Err(_) => None,
        }
    }
}

fn is_up(condition: Condition) -> bool
    ensures { result ≡ is_up condition }
{
    matches!(condition, Condition::Up)
}

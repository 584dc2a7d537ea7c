ghost use Rattle.std.specs.Prelude.{◌≡◌, ◌≤◌, ◌&&◌, ◌∷◌, [], false, length, map, true};
ghost use Rattle.std.specs.List.{AllByRecursion};
ghost use mathlib.Core.List.{IsPrefix};
ghost use Rattle.gauges.specs.Boards.{latest, seen, told, IsReaderOf, IsWriterOf};
ghost use Rattle.hall_model.specs.Calls.{call_of};
ghost use Rattle.hall_model.specs.History.{IsStep};
ghost use Rattle.hall_model.specs.Stocks.{MayCall};
ghost use Rattle.hall_model.specs.Views.{readings_of};
ghost use Rattle.order_laws.specs.Behind.{is_post, up_after};
ghost use Rattle.order_workers.specs.Orders.{is_idle};
ghost use Rattle.script_actors.specs.Actors.{is_full};
ghost use Rattle.script_actors.specs.Drawings.{desk_call, with_call};
ghost use Rattle.turn_desks.specs.Watching.{HasShown, IsReaderAt, StandIn, board_of};

use crate::names::LockName;
use crate::served::{Origin, ServedHall};
use bk_disk::Disk;
use gauges::{GaugePass, GaugeWriter, Gauges};
use hall_model::{Command, PastEntry};
use keeper_api::Keeper;
use lock_entry::LockStore;
use order_workers::Look;
use posting::{Draft, Worked};
use replica_link::Link;
use std::alloc::Global;
use std::marker::PhantomData;
use turn_lock::History;

/// A served hall that shows at gauges what is counted of it: each call publishes the readings of the state that it
/// leaves, also one that leaves it as it was. Of the name the gauges alone count.
#[derive(Drop)]
pub struct ShownHall<'g, N: LockName, J: Origin, T: LockStore, K: Keeper, D: Disk, L: Link> {
    pub served: ServedHall<J, T, K, D, L>,
    gauges: &'g Gauges,
    writer: GaugeWriter,
    of: PhantomData<N>,
    ghost of_gauges: { board_of gauges.now ≡ N.board },
    ghost own: { IsWriterOf gauges.now writer },
    ghost shows: { latest writer ≡ readings_of served.hall.state },
    ghost shown: { ∥ HasShown J.first served.hall.state (told writer) ∥₁ },
}

impl<'g, N: LockName, J: Origin, T: LockStore, K: Keeper, D: Disk, L: Link> ShownHall<
    'g,
    N,
    J,
    T,
    K,
    D,
    L,
> {
    /// A hall before its first call, at gauges that show just this.
    pub fn new(
        served: ServedHall<J, T, K, D, L>,
        gauges: &'g Gauges,
        writer: GaugeWriter,
    ) -> ShownHall<'g, N, J, T, K, D, L>
        requires gauges { board_of gauges.now ≡ N.board }
        requires own { IsWriterOf gauges.now writer }
        requires first { served.hall.state ≡ J.first }
        requires none { served.hall.state.past ≡ [] }
        requires shows { latest writer ≡ readings_of served.hall.state }
        requires shown { told writer ≡ readings_of served.hall.state ∷ [] }
        ensures served { result.served ≡ served }
    {
        ShownHall {
            served,
            gauges,
            writer,
            of: PhantomData,
        }
    }

    /// Gives the hall back, where nothing more is asked of what was seen.
    pub fn into_hidden(self) -> ServedHall<J, T, K, D, L>
        ensures served { result ≡ self.entry.served }
    {
        self.served
    }

    /// Gives the hall back, ends these passes, and so learns what each of them saw: readings of its states, of which
    /// none is older than the one seen before.
    pub fn into_served(self, passes: Vec<GaugePass>) -> ServedHall<J, T, K, D, L>
        requires own { AllByRecursion (IsReaderAt N.board) passes.items }
        ensures served { result ≡ self.entry.served }
        ensures seen { ∥ AllByRecursion (λ p. HasShown J.first result.hall.state (seen p)) passes.items ∥₁ }
    {
        let ShownHall {
            served,
            gauges,
            writer,
            ..
        } = self;
        join_all(gauges, writer, passes);
        served
    }
}

impl<'g, N: LockName, J: Origin, T: LockStore, K: Keeper, D: Disk, L: Link> History
    for ShownHall<'g, N, J, T, K, D, L> {
    type Entry = PastEntry;

    ghost past = { λ s. s.served.hall.state.past };
}

impl<'g, N: LockName, J: Origin, T: LockStore, K: Keeper, D: Disk, L: Link> ShownHall<
    'g,
    N,
    J,
    T,
    K,
    D,
    L,
> {
    /// Serves a call of this line of the script.
    pub fn serve(
        &mut self,
        alloc: Global,
        line: u32,
        command: Command,
        worked: Option<&Worked>,
    ) -> Look
        requires may { MayCall self.old.served.hall.state (call_of command) }
        ensures told { map desk_call self.new.served.hall.state.past
            ≡ with_call (map desk_call self.old.served.hall.state.past) line command result.reply }
        ensures grows { IsPrefix self.old.served.hall.state.past self.new.served.hall.state.past }
        ensures up { result.is_up ≡ up_after self.new.served.hall.state.past }
        ensures full { is_full result.reply ≡ true → 262144 ≤ length self.new.served.hall.state.past }
        ensures posts { (is_post (call_of command) && is_idle result.reply) ≡ false }
        ensures length { result.past ≡ length self.new.served.hall.state.past }
        ensures step { IsStep self.old.served.hall.state self.new.served.hall.state line command result.reply }
    {
        let look = self.served.serve(alloc, line, command, worked);
        let now = self.served.readings();
        self.gauges.publish(&mut self.writer, &now);
        look
    }

    /// What the V1 part is worked from that a worker has an order for, where there is memory for it.
    pub(crate) fn draft(&self, alloc: Global, worker: u8) -> Option<Draft> {
        self.served.draft(alloc, worker)
    }
}

/// Ends all these passes.
fn join_all(gauges: &Gauges, mut writer: GaugeWriter, mut passes: Vec<GaugePass>)
    requires own { IsWriterOf gauges.now writer }
    requires readers { AllByRecursion (IsReaderOf gauges.now) passes.items }
    ensures seen { AllByRecursion (λ p. StandIn (told writer) (seen p)) passes.items }
{
    while let Some(pass) = passes.pop() {
        gauges.join(&mut writer, pass);
    }
}

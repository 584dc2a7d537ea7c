ghost use Rattle.std.specs.Prelude.{◌≡◌, ◌∷◌, ◌++◌, []};
ghost use Rattle.gauges.specs.Boards.{seen, IsReaderOf};
ghost use Rattle.turn_desks.specs.Watching.{IsReaderAt, LooksUntil, board_of};

use crate::gate::Gate;
use crate::names::LockName;
use enq_base::Readings;
use gauges::{GaugePass, Gauges};
use hall_model::Who;
use order_workers::Rest;
use std::marker::PhantomData;
use std::thread;

// How often a worker that rests looks before its last look. It yields the processor behind each of these.
const LOOKS_BEFORE_LAST: u32 = 63;

/// How a worker rests while there are no orders: it looks at the gauges, which takes no turn and keeps nobody waiting,
/// until the history is longer than it was.
#[derive(Drop)]
pub struct Glance<'a, N: LockName, G: Gate> {
    gauges: &'a Gauges,
    pub pass: GaugePass,
    gate: &'a G,
    who: Who,
    of: PhantomData<N>,
    ghost of_gauges: { board_of gauges.now ≡ N.board },
    ghost own: { IsReaderAt N.board pass },
}

impl<'a, N: LockName, G: Gate> Glance<'a, N, G> {
    /// The rests of this caller, with a pass of its own.
    pub fn new(gauges: &'a Gauges, pass: GaugePass, gate: &'a G, who: Who) -> Glance<'a, N, G>
        requires gauges { board_of gauges.now ≡ N.board }
        requires own { IsReaderOf gauges.now pass }
        ensures pass { result.pass ≡ pass }
    {
        Glance {
            gauges,
            pass,
            gate,
            who,
            of: PhantomData,
        }
    }

    /// Gives its pass back.
    pub fn into_pass(self) -> GaugePass
        ensures pass { result ≡ self.entry.pass }
        ensures own { IsReaderAt N.board result }
    {
        self.pass
    }
}

impl<'a, N: LockName, G: Gate> Rest for Glance<'a, N, G> {
    ghost rests = { λ g past h. LooksUntil past (seen g.pass) (seen h.pass) };

    fn rest(&mut self, past: u64) {
        look_until(self.gauges, &mut self.pass, self.gate, &self.who, past);
    }
}

/// Looks until the history is longer than this, at most 64 times.
fn look_until<G: Gate>(gauges: &Gauges, pass: &mut GaugePass, gate: &G, who: &Who, past: u64)
    requires own { IsReaderOf gauges.now pass.old }
    ensures own { IsReaderOf gauges.now pass.new }
    ensures looked { LooksUntil past (seen pass.old) (seen pass.new) }
{
    for _ in 0..LOOKS_BEFORE_LAST {
        let now = look(gauges, pass, gate, who);
        let is_longer = past < now.past;
        if is_longer {
            return;
        }
        thread::yield_now();
    }
    look(gauges, pass, gate, who);
}

/// One look, of which the gate is told.
fn look<G: Gate>(gauges: &Gauges, pass: &mut GaugePass, gate: &G, who: &Who) -> Readings
    requires own { IsReaderOf gauges.now pass.old }
    ensures own { IsReaderOf gauges.now pass.new }
    ensures seen { seen pass.new ≡ seen pass.old ++ result ∷ [] }
{
    let now = gauges.look(pass);
    gate.look(who, &now);
    now
}

ghost use Rattle.std.specs.Prelude.{◌≡◌, nat_lt};
ghost use Rattle.coverage.specs.Lacks as lacks;
ghost use Rattle.coverage.specs.Tallies as counting;

use crate::holding::Holding;
use crate::lack::{Want, Watch, Wish};
use crate::locks::is_cover;
use lock_entry::Asked;
use script_lang::ScriptLine;

/// A watch, with the number of locks that cover its row: of those that the session holds, and of those that its next
/// FLUSH adds. So no line looks through the locks for each watch.
#[derive(Clone, Copy)]
pub struct Tally {
    pub watch: Watch,
    pub held: usize,
    pub collected: usize,
}

impl Tally {
    /// One more line of the session, with the locks that it moved.
    pub(crate) fn turn(&mut self, line: &ScriptLine, moved: &[Asked])
        ensures { self.new ≡ counting.turned line.now moved.now self.old }
    {
        self.count(line, moved);
        self.look();
    }

    /// No number goes past that of the locks, so no sum is cut.
    fn count(&mut self, line: &ScriptLine, moved: &[Asked])
        ensures { self.new ≡ counting.counted line.now moved.now self.old }
    {
        match line {
            ScriptLine::Enq { .. } => {
                self.held = self.held.saturating_add(covering(&self.watch.wish, moved));
            }
            ScriptLine::Collect { .. } => {
                self.collected = self
                    .collected
                    .saturating_add(covering(&self.watch.wish, moved));
            }
            ScriptLine::Deq { .. } => {
                self.held = self.held.saturating_sub(covering(&self.watch.wish, moved));
            }
            ScriptLine::DeqAll { .. } => self.held = 0,
            ScriptLine::Flush { .. } => {
                self.held = self.held.saturating_add(self.collected);
                self.collected = 0;
            }
            ScriptLine::Reset { .. } => self.collected = 0,
            _ => {}
        }
    }

    fn look(&mut self)
        ensures { self.new ≡ counting.looked self.old }
    {
        self.watch.met = still_met(self.watch.wish.want, self.watch.met, self.held > 0);
    }

    /// Whether the wish is met at the COMMIT.
    pub(crate) fn is_met(&self) -> bool
        ensures { result ≡ lacks.met_at_commit self.now.watch.wish.want self.now.watch.met (nat_lt 0 self.now.held) }
    {
        match self.watch.wish.want {
            Want::Throughout => self.watch.met,
            Want::AtCommit => self.held > 0,
            Want::Never => false,
        }
    }
}

/// The tally over a watch, looked after.
pub(crate) fn tally_of(watch: &Watch, holding: &Holding) -> Tally
    ensures { result ≡ counting.tallied holding.now watch.now }
{
    let held = covering(&watch.wish, holding.held());
    Tally {
        watch: Watch {
            met: still_met(watch.wish.want, watch.met, held > 0),
            ..*watch
        },
        held,
        collected: covering(&watch.wish, holding.container()),
    }
}

fn still_met(want: Want, before: bool, now: bool) -> bool
    ensures { result ≡ lacks.still_met want before now }
{
    match want {
        Want::Throughout => before && now,
        Want::AtCommit | Want::Never => before,
    }
}

/// How many of the locks cover the row.
fn covering(wish: &Wish, locks: &[Asked]) -> usize
    ensures { result ≡ counting.covering wish.now locks.now }
{
    locks
        .iter()
        .filter(|lock| is_cover(&wish.table, wish.key.bytes(), lock))
        .count()
}

ghost use Rattle.std.specs.Prelude.{◌≡◌, ◌∷◌, ◌++◌, [], ℕ, List, Option, Some};
ghost use Rattle.number_ranges.specs.declared.interval.Interval.{Interval};
ghost use Rattle.script_actors.specs.Actors.{Given, HasDraw, MayAskIn, TakesOne, drawing, full_after};
ghost use Rattle.script_actors.specs.Drawings.{DeskEntry, Drew, IsDrawing, interval_at, with_called};

use enq_base::Name;
use hall_model::{Command, Reply, Who};

/// Where an actor makes its calls, and draws numbers of intervals with a buffer from stocks. It is seen as what it did,
/// each with its answer.
pub trait Desk {
    ghost entries: { Self → List DeskEntry };

    // The line of its last call that found the history full.
    ghost full_at: { Self → Option ℕ };

    // The intervals of the landscape.
    ghost intervals: { Self → List Interval };

    // How many numbers of an interval it may still draw.
    ghost left: { Self → Interval → ℕ };

    // The session whose desk it is.
    ghost session: { Self → List ℕ };

    /// Makes a call of this line of the script.
    fn call(&mut self, at: u32, who: &Who, command: Command) -> Reply
        requires allowed { MayAskIn (intervals self.old) (entries self.old) command }
        ensures told { entries self.new ≡ with_called (entries self.old) at command result }
        ensures full_at { full_at self.new ≡ full_after (full_at self.old) at result }
        ensures intervals { intervals self.new ≡ intervals self.old }
        ensures session { session self.new ≡ session self.old }
        ensures left { left self.new ≡ left self.old };

    /// Draws a number of an interval with a buffer for this line of the script, from its stock: without a call of the
    /// server, unless the numbers that are reserved ran out.
    fn draw(&mut self, at: u32, object: Name, nr: [u8; 2]) -> Reply
        requires one { HasDraw (intervals self.old) (left self.old) object nr }
        ensures told { (i : Interval) → interval_at (intervals self.old) object nr ≡ Some i → (g : Given)
            × (g.reply ≡ result) × IsDrawing (session self.old) i (drawing at i g)
            × (entries self.new ≡ entries self.old ++ Drew (drawing at i g) ∷ []) }
        ensures full_at { full_at self.new ≡ full_after (full_at self.old) at result }
        ensures intervals { intervals self.new ≡ intervals self.old }
        ensures session { session self.new ≡ session self.old }
        ensures left { TakesOne object nr (left self.old) (left self.new) };
}

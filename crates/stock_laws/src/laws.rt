ghost use Rattle.std.specs.Prelude.{◌≡◌, ◌≤◌, ◌+◌, ℕ, Bool, Contains, List, false, true};
ghost use Rattle.enq_base.specs.declared.unit.Num.{Num};
ghost use Rattle.enq_base.specs.declared.unit.Parts.{Parts};
ghost use Rattle.hall_model.specs.Calls.{Commits, OfSession, call_of};
ghost use Rattle.hall_model.specs.History.{IsStep};
ghost use Rattle.hall_model.specs.Kept.{IsKept};
ghost use Rattle.hall_model.specs.State.{State, opened};
ghost use Rattle.hall_model.specs.Stocks.{IsStockIn};
ghost use Rattle.hall_model.specs.declared.command.Command.{Command};
ghost use Rattle.hall_model.specs.declared.command.Command.TheVariants.{Commit, Reserve};
ghost use Rattle.hall_model.specs.declared.command.Reply.{Reply};
ghost use Rattle.hall_model.specs.declared.command.Reply.TheVariants.{Level};
ghost use Rattle.ledger_steps.specs.Drawn.{drawn_of};
ghost use Rattle.ledger_steps.specs.Levels.{AreIntervals, FitRows, intervals_of, level_in};
ghost use Rattle.ledger_steps.specs.Starts.{IsRaised};
ghost use Rattle.number_ranges.specs.Intervals.{is_buffered};
ghost use Rattle.number_ranges.specs.declared.interval.Interval.{Interval};
ghost use Rattle.store_reading.specs.Good.{IsSound};
ghost use Rattle.update_records.specs.Ledger.{Ledger};
ghost use Rattle.stock_laws.specs.Stocked.{HasReached, IsAmong, IsOfLots, IsShare, IsStocked, Lot, Respects};
ghost use Rattle.stock_laws.specs.Stocked.{answers_commit, answers_reservation, first_lot, handing, is_undone, limited};

/// A start has a lot for each interval with a buffer. Each call leaves it that draws none of its numbers by the hall,
/// and whose own stock was handed over before; of a call that was refused nothing is asked unless the store failed.
/// More tickets may be handed over at any time, and more answered up to the level.
pub fn lots_stay()
    ensures opened { (max_locks mark_limit : ℕ) (intervals : List Interval) (told link_told : Bool) (ledger : Ledger)
        (i : Interval) → AreIntervals intervals → FitRows intervals ledger.levels → IsRaised IsSound true ledger
        → Contains intervals i → is_buffered i ≡ true
        → IsStocked (opened max_locks mark_limit intervals told link_told ledger) (first_lot ledger.levels i) }
    ensures kept { (s t : State) (line : ℕ) (c : Command) (r : Reply) (b : Lot) → IsKept s → IsStocked s b
        → (is_undone r ≡ false → Respects b (call_of c)) → IsStep s t line c r → IsStocked t b }
    ensures limit { (s : State) (b : Lot) (limit : ℕ) → IsStocked s b
        → b.base + limit ≤ level_in s.stored.levels b.interval + 1 → IsStocked s (limited limit b) }
    ensures handed { (s : State) (b : Lot) (tickets : List ℕ) → IsStocked s b → IsStocked s (handing tickets b) }
    ensures more { (s : State) (b : Lot) (handed : List ℕ) → IsStocked s b
        → ((ticket : ℕ) → IsAmong ticket b.handed → IsAmong ticket handed)
        → IsStocked s (record b { handed = handed }) }
{}

/// Numbers of lots may be committed. Once the tickets are handed over the commit leaves each lot.
pub fn stocks_may_be_committed()
    ensures may { (s : State) (stock : List Num) → IsKept s → IsOfLots s stock → IsStockIn s stock }
    ensures share { (b : Lot) (stock : List Num) (share : IsShare b stock) (session : List ℕ) (parts : Parts)
        → Respects (handing share.tickets b) (OfSession session (Commits parts stock)) }
    ensures none { (b : Lot) (stock : List Num) (session : List ℕ) (parts : Parts) → drawn_of b.interval stock ≡ 0
        → Respects b (OfSession session (Commits parts stock)) }
    ensures answers { (s t : State) (line : ℕ) (session : List ℕ) (parts : Parts) (stock : List Num) (r : Reply)
        → IsStep s t line (Commit session parts stock) r → answers_commit r ≡ true }
{}

/// A reservation that is answered with a level has raised the interval's level to it, which reaches the number that was
/// asked for. All others are refused.
pub fn levels_are_reserved()
    ensures reserved { (s t : State) (line : ℕ) (session : List ℕ) (i : Interval) (upto level : ℕ) → IsKept s
        → Contains (intervals_of s.ranges) i → IsStep s t line (Reserve session i.object i.nr upto) (Level level)
        → HasReached s.stored.levels t.stored.levels i upto level }
    ensures answers { (s t : State) (line : ℕ) (session object nr : List ℕ) (upto : ℕ) (r : Reply)
        → IsStep s t line (Reserve session object nr upto) r → answers_reservation r ≡ true }
{}

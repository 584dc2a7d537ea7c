ghost use Rattle.std.specs.Prelude.{◌≡◌, ◌≤◌, ◌+◌, ◌&&◌, ℕ, Bool, false, true, not, List, [], ◌∷◌, ◌++◌, Contains, IfSome, None, Some, count_by, map};
ghost use Rattle.std.specs.FinMap.{get};
ghost use Rattle.std.specs.List.{All, filter, find, list_any, range_with_len};
ghost use Rattle.enq_base.specs.declared.unit.Num.{Num};
ghost use Rattle.lock_entry.specs.Freeing.{replace_first};
ghost use Rattle.module_effects.specs.Rows.{RowName};
ghost use Rattle.number_ranges.specs.Intervals.{IsInterval, is_buffered, with_level};
ghost use Rattle.number_ranges.specs.declared.interval.Interval.{Interval};
ghost use Rattle.ledger_steps.specs.Intervals.{MayStore, with_levels};
ghost use Rattle.ledger_steps.specs.Drawn.{AreDrawnRight, IsStock, drawn_of, handed_out, has_drawn, num_of, passed, settled_rows, stored_as};
ghost use Rattle.ledger_steps.specs.Levels.{AreIntervals, FitLevels, FitRows, first_ranges, intervals_of, level_in, present, range_at};
ghost use Rattle.ledger_steps.specs.declared.range.NumberRange.{NumberRange};
ghost use Rattle.update_records.specs.Business.{numbers_of};
ghost use Rattle.update_records.specs.Grammar.{HasDigits};
ghost use Rattle.update_records.specs.Ledger.{Ledger, Levels, LevelsAgree};

/// Where all stored rows are rows of the intervals, so is the row of each name, and an interval stays one with the
/// level that is stored.
pub fn rows_fit_by_name()
    ensures levels { (intervals : List Interval) (levels : Levels) → FitRows intervals levels
        → FitLevels intervals levels }
    ensures present { (intervals : List Interval) (levels : Levels) (i : Interval) → AreIntervals intervals
        → FitRows intervals levels
        → ((name : RowName) → IfSome (get levels name) (λ l. l.from ≤ l.level + 1)) → Contains intervals i
        → IsInterval (present levels i) }
{}

/// What sessions have drawn may be stored: the numbers of a session together with the rows that they settle, and a
/// higher level of an interval with a buffer. The numbers that memory has yet to hand out, up to the level, may be
/// those of a stock.
pub fn draws_may_be_stored()
    ensures commit { (ledger : Ledger) (ranges : List NumberRange)
        (before : List (List Num)) (nums : List Num) (after : List (List Num))
        → AreDrawnRight ranges ledger.levels (before ++ nums ∷ after) (numbers_of ledger.units ledger.marks)
        → MayStore ledger (settled_rows ledger.levels ranges nums) nums }
    ensures level { (ledger : Ledger) (intervals : List Interval) (i : Interval) (level : ℕ)
        → AreIntervals intervals → FitLevels intervals ledger.levels → Contains intervals i → is_buffered i ≡ true
        → level_in ledger.levels i ≤ level → level ≤ i.to → MayStore ledger (stored_as (with_level level i) ∷ []) [] }
    ensures stock { (ranges : List NumberRange) (levels : Levels) (draws : List (List Num)) (committed : List Num)
        (r : NumberRange) (first count : ℕ)
        → AreDrawnRight ranges levels draws committed → Contains ranges r → is_buffered r.interval ≡ true
        → r.next ≤ first → first + count ≤ level_in levels r.interval + 1
        → IsStock (intervals_of ranges) levels draws committed (map (num_of r.interval) (range_with_len first count)) }
{}

/// What sessions have drawn is right at the start, and stays so as they come, go, and give back what they drew.
pub fn draws_outlast_sessions()
    ensures start { (intervals : List Interval) (levels : Levels) (committed : List Num)
        → AreIntervals intervals → FitLevels intervals levels → LevelsAgree levels committed
        → AreDrawnRight (first_ranges levels intervals) levels [] committed }
    ensures comes { (ranges : List NumberRange) (levels : Levels) (draws : List (List Num)) (committed : List Num)
        → AreDrawnRight ranges levels draws committed → AreDrawnRight ranges levels (draws ++ [] ∷ []) committed }
    ensures goes { (ranges : List NumberRange) (levels : Levels)
        (before : List (List Num)) (own : List Num) (after : List (List Num)) (committed : List Num)
        → AreDrawnRight ranges levels (before ++ own ∷ after) committed
        → AreDrawnRight ranges levels (before ++ after) committed }
    ensures gives_back { (ranges : List NumberRange) (levels : Levels)
        (before : List (List Num)) (own : List Num) (after : List (List Num)) (committed : List Num)
        → AreDrawnRight ranges levels (before ++ own ∷ after) committed
        → AreDrawnRight ranges levels (before ++ [] ∷ after) committed }
{}

/// It stays so as a session draws one number more or has numbers of a stock, as the level of an interval with a buffer
/// rises, and as a session's numbers are committed.
pub fn draws_stay_right()
    ensures plain { (ranges : List NumberRange) (levels : Levels)
        (before : List (List Num)) (own : List Num) (after : List (List Num)) (committed : List Num) (i : Interval)
        (number : ℕ)
        → Contains (intervals_of ranges) i → is_buffered i ≡ false → list_any (has_drawn i) before ≡ false
        → list_any (has_drawn i) after ≡ false
        → number ≡ level_in levels i + drawn_of i own + 1 → number ≤ i.to
        → AreDrawnRight ranges levels (before ++ own ∷ after) committed
        → AreDrawnRight ranges levels (before ++ (own ++ num_of i number ∷ []) ∷ after) committed }
    ensures buffered { (ranges : List NumberRange) (levels : Levels)
        (before : List (List Num)) (own : List Num) (after : List (List Num)) (committed : List Num) (r : NumberRange)
        → Contains ranges r → is_buffered r.interval ≡ true → r.next ≤ level_in levels r.interval
        → AreDrawnRight ranges levels (before ++ own ∷ after) committed
        → AreDrawnRight (handed_out r.interval ranges) levels (before ++ (own ++ num_of r.interval r.next ∷ []) ∷ after)
        committed }
    ensures stock { (ranges : List NumberRange) (levels : Levels)
        (before : List (List Num)) (own : List Num) (after : List (List Num)) (committed : List Num) (stock : List Num)
        → IsStock (intervals_of ranges) levels (before ++ own ∷ after) committed stock
        → AreDrawnRight ranges levels (before ++ own ∷ after) committed
        → AreDrawnRight (passed stock ranges) levels (before ++ (own ++ stock) ∷ after) committed }
    ensures raised { (ranges : List NumberRange) (levels : Levels) (draws : List (List Num)) (committed : List Num)
        (i : Interval) (level : ℕ)
        → Contains (intervals_of ranges) i → is_buffered i ≡ true → level_in levels i ≤ level → level ≤ i.to
        → AreDrawnRight ranges levels draws committed
        → AreDrawnRight ranges (with_levels (stored_as (with_level level i) ∷ []) levels) draws committed }
    ensures committed { (ranges : List NumberRange) (levels : Levels)
        (before : List (List Num)) (nums : List Num) (after : List (List Num)) (committed : List Num)
        → AreDrawnRight ranges levels (before ++ nums ∷ after) committed
        → AreDrawnRight ranges (with_levels (settled_rows levels ranges nums) levels) (before ++ [] ∷ after)
        (committed ++ nums) }
{}

/// The same over sessions, of which the first that passes a test is changed.
pub fn draws_follow_sessions<S>()
    ensures gives_back { (draws_of : S → List Num) (test : S → Bool) (change : S → S) (sessions : List S) (x : S)
        → find test sessions ≡ Some x → (ranges : List NumberRange) (levels : Levels) (committed : List Num)
        → draws_of (change x) ≡ []
        → AreDrawnRight ranges levels (map draws_of sessions) committed
        → AreDrawnRight ranges levels (map draws_of (replace_first test (λ s. change s ∷ []) sessions)) committed }
    ensures goes { (draws_of : S → List Num) (stays : S → Bool) (sessions : List S)
        → (ranges : List NumberRange) (levels : Levels) (committed : List Num)
        → AreDrawnRight ranges levels (map draws_of sessions) committed
        → AreDrawnRight ranges levels (map draws_of (filter stays sessions)) committed }
    ensures plain { (draws_of : S → List Num) (test : S → Bool) (change : S → S) (sessions : List S) (x : S)
        → find test sessions ≡ Some x
        → (ranges : List NumberRange) (levels : Levels) (committed : List Num) (i : Interval) (number : ℕ)
        → Contains (intervals_of ranges) i → is_buffered i ≡ false
        → count_by test sessions ≤ 1 → find (λ s. not (test s) && has_drawn i (draws_of s)) sessions ≡ None
        → number ≡ level_in levels i + drawn_of i (draws_of x) + 1 → number ≤ i.to
        → draws_of (change x) ≡ draws_of x ++ num_of i number ∷ []
        → AreDrawnRight ranges levels (map draws_of sessions) committed
        → AreDrawnRight ranges levels (map draws_of (replace_first test (λ s. change s ∷ []) sessions)) committed }
    ensures buffered { (draws_of : S → List Num) (test : S → Bool) (change : S → S) (sessions : List S) (x : S)
        → find test sessions ≡ Some x
        → (ranges : List NumberRange) (levels : Levels) (committed : List Num) (r : NumberRange)
        → Contains ranges r → is_buffered r.interval ≡ true → r.next ≤ level_in levels r.interval
        → draws_of (change x) ≡ draws_of x ++ num_of r.interval r.next ∷ []
        → AreDrawnRight ranges levels (map draws_of sessions) committed
        → AreDrawnRight (handed_out r.interval ranges) levels
        (map draws_of (replace_first test (λ s. change s ∷ []) sessions)) committed }
    ensures commits { (draws_of : S → List Num) (test : S → Bool) (change : S → S) (sessions : List S) (x : S)
        → find test sessions ≡ Some x → (ranges : List NumberRange) (levels : Levels) (committed : List Num)
        → draws_of (change x) ≡ []
        → AreDrawnRight ranges levels (map draws_of sessions) committed
        → AreDrawnRight ranges (with_levels (settled_rows levels ranges (draws_of x)) levels)
        (map draws_of (replace_first test (λ s. change s ∷ []) sessions)) (committed ++ draws_of x) }
    ensures commits_stock { (draws_of : S → List Num) (test : S → Bool) (change : S → S) (sessions : List S) (x : S)
        → find test sessions ≡ Some x → (ranges : List NumberRange) (levels : Levels) (committed stock : List Num)
        → draws_of (change x) ≡ []
        → IsStock (intervals_of ranges) levels (map draws_of sessions) committed stock
        → AreDrawnRight ranges levels (map draws_of sessions) committed
        → AreDrawnRight (passed stock ranges) (with_levels (settled_rows levels ranges (draws_of x ++ stock)) levels)
        (map draws_of (replace_first test (λ s. change s ∷ []) sessions)) (committed ++ (draws_of x ++ stock)) }
    ensures may_commit { (draws_of : S → List Num) (test : S → Bool) (sessions : List S) (x : S)
        → find test sessions ≡ Some x → (ledger : Ledger) (ranges : List NumberRange)
        → AreDrawnRight ranges ledger.levels (map draws_of sessions) (numbers_of ledger.units ledger.marks)
        → MayStore ledger (settled_rows ledger.levels ranges (draws_of x)) (draws_of x) × All HasDigits (draws_of x) }
    ensures may_commit_stock { (draws_of : S → List Num) (test : S → Bool) (sessions : List S) (x : S)
        → find test sessions ≡ Some x → (ledger : Ledger) (ranges : List NumberRange) (stock : List Num)
        → IsStock (intervals_of ranges) ledger.levels (map draws_of sessions) (numbers_of ledger.units ledger.marks)
        stock
        → AreDrawnRight ranges ledger.levels (map draws_of sessions) (numbers_of ledger.units ledger.marks)
        → MayStore ledger (settled_rows ledger.levels ranges (draws_of x ++ stock)) (draws_of x ++ stock)
        × All HasDigits (draws_of x ++ stock) }
{}

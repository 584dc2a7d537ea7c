ghost use Rattle.std.specs.Prelude.{◌≡◌, ◌↔◌, ℕ, Bool, false, not, List, [], Some, None, map, length};
ghost use Rattle.enq_base.specs.declared.owner.UnitKey.{UnitKey};
ghost use Rattle.keeper_api.specs.Rows.{Rows};
ghost use Rattle.keeper_api.specs.declared.rows.Row.{Row};
ghost use Rattle.store_reading.specs.First.{first_wrong, AreRight, IsFirstWrong};
ghost use Rattle.store_reading.specs.Intervals.{committed, level_fault};
ghost use Rattle.store_reading.specs.Lawful.{IsRightRow};
ghost use Rattle.store_reading.specs.Rules.{has_second, mark_fault, marks_in, number_fault};
ghost use Rattle.store_reading.specs.Stores.{is_bare, ledger_in, rule_fault};
ghost use Rattle.store_reading.specs.declared.rules.Place.{Place};
ghost use Rattle.std.specs.List.{All, range_with_len};
ghost use Rattle.store_reading.specs.Units.{unit_fault};
ghost use Rattle.update_records.specs.Ledger.{IsLawful, IsMarkUnder};
ghost use Rattle.update_records.specs.Spelling.{IsRecord};
ghost use Rattle.update_records.specs.declared.records.Mark.{Mark};
ghost use Rattle.update_records.specs.Marks.{has_no_v2, IsLegal};
ghost use Rattle.update_records.specs.declared.records.Unit.{Unit as UnitOfWork};
ghost use Rattle.store_reading.specs.Told.{AreRead, IsFirstBadRow, SpellAll, SpellEach};
ghost use Rattle.update_records.specs.declared.stored.Record.{Record};

use update_records::rows_tell_records;

/// Rows spell one list of records at most, or have one first row outside the grammar, and never both.
pub fn stores_tell_one_answer()
    ensures records { (table : ℕ) (rows : List Row) (a b : List Record) → SpellEach table rows a
        → SpellEach table rows b → a ≡ b }
    ensures place { (rows : Rows) (s t i j : ℕ) → IsFirstBadRow rows s i → IsFirstBadRow rows t j → (s ≡ t) × (i ≡ j) }
    ensures apart { (rows : Rows) (t i : ℕ) (records : List (List Record)) → IsFirstBadRow rows t i
        → SpellAll rows records → ⊥ }
{
    rows_tell_records();
}

/// A place that a rule names is that of the first wrong record; none is named exactly where each record is right behind
/// those before it.
pub fn places_are_first()
    ensures none { (is_right : List Record → Record → Bool) (table : ℕ) (records : List Record)
        → (first_wrong is_right table [] records ≡ None) ↔ AreRight is_right [] records }
    ensures first { (is_right : List Record → Record → Bool) (table : ℕ) (records : List Record) (place : Place)
        → first_wrong is_right table [] records ≡ Some place → IsFirstWrong is_right table records place }
{}

/// Marks of which none is wrong are those that a lawful ledger may have: numbered from 1 on, of units of this start or
/// an earlier one, and legal among any units that have a V2 part where their headers tell one.
pub fn right_marks_are_lawful()
    ensures numbered { (marks : List Record) → number_fault marks ≡ None
        → map (λ (m : Mark). m.seq) (marks_in marks) ≡ range_with_len 1 (length (marks_in marks)) }
    ensures under { (start : ℕ) (headers modules steps marks locks : List Record) → All IsRecord marks
        → mark_fault start headers marks ≡ None
        → unit_fault headers modules steps marks locks ≡ None → All (IsMarkUnder start) (marks_in marks) }
    ensures legal { (start : ℕ) (headers marks : List Record) (units : List UnitOfWork)
        → ((key : UnitKey) → has_no_v2 units key ≡ not (has_second headers key))
        → mark_fault start headers marks ≡ None → IsLegal units (marks_in marks) }
{}

/// Stored intervals of which none is wrong are those of a lawful ledger.
pub fn right_levels_are_lawful()
    ensures { (headers marks levels : List Record) → All IsRecord levels → level_fault headers marks levels ≡ None
        → All (IsRightRow (committed headers marks)) levels }
{}

/// Records that break no rule spell a lawful ledger, unless there are none. It takes the keys of each table's rows to
/// rise, as those of a store do.
pub fn right_records_are_lawful()
    ensures { (records : List (List Record)) → AreRead records → is_bare records ≡ false
        → rule_fault records ≡ None → IsLawful (ledger_in records) }
{}

ghost use Rattle.std.specs.Prelude.{◌≡◌, ◌≢◌, ℕ, ◌<◌, ◌^◌, List, map};
ghost use Rattle.std.specs.List.{All, Contains};
ghost use Rattle.keeper_api.specs.Batch.{IsBatch, spot_of};
ghost use Rattle.update_records.specs.Grammar.{IsKind, IsUnit, IsUnitKey};
ghost use Rattle.update_records.specs.Places.{place_of};
ghost use Rattle.update_records.specs.RecordRows.{unit_rows};
ghost use Rattle.update_records.specs.Spelling.{IsRecord, Spells, record_row, records_of};
ghost use Rattle.keeper_api.specs.declared.rows.Change.{Change};
ghost use Rattle.update_records.specs.declared.records.Mark.{Mark};
ghost use Rattle.update_records.specs.declared.records.Unit.{Unit as UnitOfWork};
ghost use Rattle.update_records.specs.declared.stored.Record.{Record};
ghost use Rattle.update_records.specs.declared.stored.Record.TheVariants as rec;

/// A row spells one record at most, and its key tells what the record is named by.
pub fn rows_tell_records()
    ensures one { (table : ℕ) (key value : List ℕ) (r s : Record) → Spells table key value r → Spells table key value s
        → r ≡ s }
    ensures place { (r s : Record) → IsRecord r → IsRecord s → spot_of (record_row r) ≡ spot_of (record_row s)
        → place_of r ≡ place_of s }
{}

/// The rows of a unit spell its records, and a keeper may take them in one batch. No row of another unit stands in the
/// place of one of them.
pub fn units_are_records()
    ensures rows { (unit : UnitOfWork) → map record_row (records_of unit) ≡ unit_rows unit }
    ensures grammar { (unit : UnitOfWork) → IsUnit unit → All IsRecord (records_of unit) }
    ensures mark { (m : Mark) → m.seq < 2 ^ 64 → IsUnitKey m.unit → IsKind m.kind → IsRecord (rec.Mark m) }
    ensures batch { (unit : UnitOfWork) → IsUnit unit → IsBatch (unit_rows unit) }
    ensures apart { (u v : UnitOfWork) → IsUnit u → IsUnit v → u.key ≢ v.key
        → (c d : Change) → Contains (unit_rows u) c → Contains (unit_rows v) d → spot_of c ≢ spot_of d }
{}

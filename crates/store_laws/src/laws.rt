ghost use Rattle.std.specs.Prelude.{◌≡◌, ℕ, List, None};
ghost use Rattle.keeper_api.specs.Rows.{Rows};
ghost use Rattle.update_records.specs.Ledger.{IsGood};
ghost use Rattle.update_records.specs.declared.stored.Record.{Record};
ghost use Rattle.store_reading.specs.Good.{IsBadPlace};
ghost use Rattle.store_reading.specs.Stores.{store_fault};
ghost use Rattle.store_reading.specs.Told.{IsFirstBadRow, SpellAll};

/// A good store has no row outside the grammar, and its records break no rule. So where a reading names a bad place,
/// the store isn't good.
pub fn good_stores_have_no_fault()
    ensures grammar { (rows : Rows) → IsGood rows → (table row : ℕ) → IsFirstBadRow rows table row → ⊥ }
    ensures rules { (rows : Rows) (records : List (List Record)) → IsGood rows → SpellAll rows records
        → store_fault records ≡ None }
    ensures bad { (rows : Rows) (table row : ℕ) → IsBadPlace rows table row → IsGood rows → ⊥ }
{}

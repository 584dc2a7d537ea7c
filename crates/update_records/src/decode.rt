ghost use Rattle.std.specs.Prelude.{◌≡◌, false, Err, IfOk, IfErr};
ghost use Rattle.byte_fields.specs.Fields.{Gives};
ghost use Rattle.update_records.specs.Reading.{row_at};
ghost use Rattle.update_records.specs.Spelling.{Spells, takes_memory};
ghost use Rattle.byte_fields.specs.declared.fault.ReadFault.TheVariants.{Bad};
ghost use Rattle.update_records.specs.declared.stored.Record.{Record};

use crate::mark_rows::mark_at;
use crate::plain_rows::{business_at, level_at, meta_at};
use crate::step_rows::step_at;
use crate::stored::Record;
use crate::tables;
use crate::unit_rows::{header_at, lock_at, module_at};
use byte_fields::ReadFault;
use keeper_api::Row;
use std::alloc::Global;

#[tactic(auto, unfolding(crate::specs::Reading::row_at))]
fn row_at(alloc: Global, table: u8, key: &[u8], value: &[u8]) -> Result<Record, ReadFault>
    ensures gives { Gives (λ r. r) result (row_at table key.now value.now) }
    ensures memory { takes_memory table ≡ false → IfErr result (λ fault. fault ≡ Bad) }
{
    match table {
        tables::META => meta_at(key, value),
        tables::HEADERS => header_at(alloc, key, value),
        tables::MODULES => module_at(key, value),
        tables::STEPS => step_at(alloc, key, value),
        tables::MARKS => mark_at(alloc, key, value),
        tables::LEVELS => level_at(key, value),
        tables::BUSINESS => business_at(alloc, key, value),
        tables::LOCKS => lock_at(key, value),
        _ => Err(ReadFault::Bad),
    }
}

fn record_in(alloc: Global, table: u8, key: &[u8], value: &[u8]) -> Result<Record, ReadFault>
    ensures read { IfOk result (Spells table key.now value.now) }
    ensures bad { result ≡ Err Bad → (r : Record) → Spells table key.now value.now r → ⊥ }
    ensures exact { (r : Record) → Spells table key.now value.now r → IfOk result (λ read. read ≡ r) }
    ensures memory { takes_memory table ≡ false → IfErr result (λ fault. fault ≡ Bad) }
{
    row_at(alloc, table, key, value)
}

/// The record that a row of this table spells.
///
/// There is no table 8 or above. Whether the counts of a record agree with other rows is not asked.
pub fn decode_row(alloc: Global, row: &Row, table: u8) -> Result<Record, ReadFault>
    // What is read is spelled so.
    ensures read { IfOk result (Spells table row.now.key row.now.value) }
    // The row is bad only where it spells no record.
    ensures bad { result ≡ Err Bad → (r : Record) → Spells table row.now.key row.now.value r → ⊥ }
    // A record that is spelled so is what is read, unless memory runs out.
    ensures exact { (r : Record) → Spells table row.now.key row.now.value r → IfOk result (λ read. read ≡ r) }
    // Only a record with numbers or a text takes memory.
    ensures memory { takes_memory table ≡ false → IfErr result (λ fault. fault ≡ Bad) }
{
    record_in(alloc, table, row.key.as_slice(), row.value.as_slice())
}

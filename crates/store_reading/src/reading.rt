ghost use Rattle.std.specs.Prelude.{◌≡◌, ◌≤◌, ◌<◌, IfSome, IfOk, IfErr, is_some};
ghost use Rattle.keeper_api.specs.Keeping.{IsWithin, Stays};
ghost use Rattle.store_reading.specs.Faults.{reading_fault, HasReadingCause, IsReadingFault, MayBeFault, OnBad, OnFailed, UnlessFailed};
ghost use Rattle.table_reading.specs.Tables.{rows_in};
ghost use Rattle.store_reading.specs.Told.{records_in, AreRead, IsFirstBad, IsTableRead, SpellAll, SpellEach};

use crate::fault::ReadingFault;
use enq_base::Items;
use keeper_api::{KeepFault, Keeper, Row};
use std::alloc::Global;
use std::marker::Model;
use table_reading::read_table;
use update_records::{ReadFault, Record, decode_row};

/// The records of tables 0 to 7, those of each table in the order of the keys of their rows.
#[derive(Drop)]
pub struct StoredRecords {
    tables: Vec<Items<Record>>,
}

impl Model for StoredRecords {
    ghost use Rattle.std.specs.Prelude.{◌≡◌, List, length};
    ghost use Rattle.update_records.specs.declared.stored.Record.{Record};

    ghost Value = { List (List Record) };

    ghost view = { λ a. a.tables.items };

    ghost invariant = { λ a. length a.tables.items ≡ 8 };
}

impl StoredRecords {
    /// The records of a table.
    pub fn table(&self, table: u8) -> &[Record]
        requires { table < 8 }
        ensures { result.now ≡ records_in self.now table }
    {
        self.tables[table as usize].as_slice()
    }
}

fn fault_of(fault: KeepFault) -> ReadingFault
    ensures { result ≡ reading_fault fault }
{
    match fault {
        KeepFault::Failed => ReadingFault::Failed,
        KeepFault::NoMemory => ReadingFault::NoMemory,
    }
}

/// The records that rows of a table spell.
fn decode_rows(alloc: Global, table: u8, rows: &[Row]) -> Result<Vec<Record>, ReadingFault>
    ensures records { IfOk result (λ records. SpellEach table rows.now records.items) }
    ensures bad { IfErr result (λ fault. OnBad fault (λ t row. (t ≡ table) × IsFirstBad table rows.now row)) }
    ensures quiet { OnFailed result ⊥ }
{
    let mut records = Vec::new(alloc);
    for row in rows {
        match decode_row(alloc, row, table) {
            Ok(read) => records.push(read)?,
            Err(ReadFault::NoMemory) => return Err(ReadingFault::NoMemory),
            Err(ReadFault::Bad) => {
                let row = records.len() as u64 + 1;
                return Err(ReadingFault::Bad { table, row });
            }
        }
    }
    Ok(records)
}

fn records_of<K: Keeper>(
    alloc: Global,
    keeper: &mut K,
    table: u8,
) -> Result<Vec<Record>, ReadingFault>
    requires opened { K.is_open keeper.old }
    requires own { table < 8 }
    ensures records { IfOk result
        (λ records. IfSome (K.held keeper.old) (λ rows. SpellEach table (rows_in rows table) records.items)) }
    ensures read { IfOk result (λ records. IsTableRead table records.items) }
    ensures bad { IfErr result (λ fault. IfSome (K.held keeper.old)
        (λ rows. OnBad fault (λ t row. (t ≡ table) × IsFirstBad table (rows_in rows table) row))) }
    ensures untold_bad { IfErr result MayBeFault }
    ensures stays { UnlessFailed result (Stays K.held K.is_open K.has_room keeper.old keeper.new) }
    ensures told { is_some (K.held keeper.new) ≡ is_some (K.held keeper.old) }
    ensures crash { IsWithin (K.may_leave keeper.new) (K.may_leave keeper.old) }
    ensures cause { HasReadingCause (K.faults keeper.old) (K.faults keeper.new) result }
{
    let rows = match read_table(alloc, keeper, table) {
        Ok(rows) => rows,
        Err(fault) => return Err(fault_of(fault)),
    };
    decode_rows(alloc, table, rows.as_slice())
}

/// The records of all rows of tables 0 to 7, or the first row, by table and then by key, that is outside the grammar.
///
/// Rows of other tables and an empty key aren't read. After `Failed` only `reopen` is allowed.
pub fn read_records<K: Keeper>(alloc: Global, keeper: &mut K) -> Result<StoredRecords, ReadingFault>
    requires { K.is_open keeper.old }
    ensures records { IfOk result (λ records. IfSome (K.held keeper.old) (λ rows. SpellAll rows records)) }
    // Also where the keeper doesn't tell its rows.
    ensures read { IfOk result AreRead }
    ensures fault { IfErr result (λ fault. IfSome (K.held keeper.old) (λ rows. IsReadingFault rows fault)) }
    ensures untold_fault { IfErr result MayBeFault }
    ensures stays { UnlessFailed result (Stays K.held K.is_open K.has_room keeper.old keeper.new) }
    ensures told { is_some (K.held keeper.new) ≡ is_some (K.held keeper.old) }
    ensures crash { IsWithin (K.may_leave keeper.new) (K.may_leave keeper.old) }
    ensures cause { HasReadingCause (K.faults keeper.old) (K.faults keeper.new) result }
{
    let mut tables = Vec::new(alloc);
    for table in 0..8 {
        match records_of(alloc, keeper, table) {
            Ok(records) => tables.push(Items::from_vec(records))?,
            Err(fault) => return Err(fault),
        }
    }
    Ok(StoredRecords { tables })
}

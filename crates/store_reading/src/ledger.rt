ghost use Rattle.std.specs.Prelude.{◌≡◌, map, List, None, Some, IfSome, IfOk, IfErr, is_some};
ghost use Rattle.std.specs.List.{flat_map};
ghost use Rattle.keeper_api.specs.Keeping.{IsWithin, Stays};
ghost use Rattle.update_records.specs.Business.{tables_of};
ghost use Rattle.update_records.specs.Intervals.{entry_of};
ghost use Rattle.update_records.specs.Ledger.{StandFor};
ghost use Rattle.store_reading.specs.Business.{business_in};
ghost use Rattle.store_reading.specs.Faults.{HasReadingCause, MayBeFault, OnBad, OnFailed, UnlessFailed};
ghost use Rattle.store_reading.specs.Good.{IsBadPlace, IsSound, ledger_of};
ghost use Rattle.store_reading.specs.Stores.{ledger_in, level_entry, store_fault};
ghost use Rattle.store_reading.specs.Told.{AreRead, records_in};

use crate::business::business_in;
use crate::fault::ReadingFault;
use crate::reading::{StoredRecords, read_records};
use crate::store_rule::{start_in, store_fault};
use crate::units::{marks_in, units_in};
use business_rows::BusinessRows;
use enq_base::NoMemory;
use keeper_api::Keeper;
use std::alloc::Global;
use update_records::{Mark, Record, StoredInterval, Unit, tables};

/// What a good store stands for: the number of its last start, or 0, its units in the order of recording, its marks in
/// order, its intervals in the order of their rows, and its business rows.
#[derive(Drop)]
pub struct StoredLedger {
    pub start: u32,
    pub units: Vec<Unit>,
    pub marks: Vec<Mark>,
    pub levels: Vec<StoredInterval>,
    pub rows: BusinessRows,
}

fn intervals_in(alloc: Global, levels: &[Record]) -> Result<Vec<StoredInterval>, NoMemory>
    ensures { IfOk result (λ intervals. map entry_of intervals.items ≡ flat_map level_entry levels.now) }
{
    let mut intervals = Vec::new(alloc);
    for stored in levels {
        if let Record::Level {
            object,
            nr,
            from,
            to,
            level,
            buffered,
        } = stored
        {
            intervals.push(StoredInterval {
                object: *object,
                nr: *nr,
                from: *from,
                to: *to,
                level: *level,
                buffered: *buffered,
            })?;
        }
    }
    Ok(intervals)
}

/// The ledger that records spell which break no rule.
fn ledger_in(alloc: Global, records: &StoredRecords) -> Result<StoredLedger, NoMemory>
    requires read { AreRead records.now }
    requires right { store_fault records.now ≡ None }
    ensures ledger { IfOk result (λ stored. ledger_of stored ≡ ledger_in records.now) }
    ensures rows { IfOk result (λ stored. stored.rows.tables ≡ business_in (records_in records.now 6)) }
{
    Ok(StoredLedger {
        start: start_in(records.table(tables::META)),
        units: units_in(alloc, records)?,
        marks: marks_in(alloc, records)?,
        levels: intervals_in(alloc, records.table(tables::LEVELS))?,
        rows: business_in(alloc, records.table(tables::BUSINESS))?,
    })
}

/// The ledger of a good store. One that isn't good is `Bad` at its first row outside the grammar, and where there is
/// none at the first place that breaks a rule.
///
/// Each row of tables 0 to 7 is read once. After `Failed` only `reopen` is allowed.
pub fn read_ledger<K: Keeper>(alloc: Global, keeper: &mut K) -> Result<StoredLedger, ReadingFault>
    requires { K.is_open keeper.old }
    ensures ledger { IfOk result (λ stored. IfSome (K.held keeper.old) (λ rows. StandFor rows (ledger_of stored))) }
    // Also where the keeper doesn't tell its rows.
    ensures sound { IfOk result (λ stored. IsSound (ledger_of stored)) }
    ensures rows { IfOk result (λ stored. stored.rows.tables ≡ tables_of stored.units.items stored.marks.items) }
    ensures bad { IfErr result (λ fault. IfSome (K.held keeper.old) (λ rows. OnBad fault (IsBadPlace rows))) }
    ensures untold_bad { IfErr result MayBeFault }
    ensures stays { UnlessFailed result (Stays K.held K.is_open K.has_room keeper.old keeper.new) }
    ensures told { is_some (K.held keeper.new) ≡ is_some (K.held keeper.old) }
    ensures crash { IsWithin (K.may_leave keeper.new) (K.may_leave keeper.old) }
    ensures cause { HasReadingCause (K.faults keeper.old) (K.faults keeper.new) result }
{
    let records = read_records(alloc, keeper)?;
    collect(alloc, &records)
}

/// What records spell, where they break no rule.
fn collect(alloc: Global, records: &StoredRecords) -> Result<StoredLedger, ReadingFault>
    requires read { AreRead records.now }
    ensures right { IfOk result
        (λ stored. (store_fault records.now ≡ None) × (ledger_of stored ≡ ledger_in records.now)) }
    ensures rows { IfOk result (λ stored. stored.rows.tables ≡ business_in (records_in records.now 6)) }
    ensures bad { IfErr result
        (λ fault. OnBad fault (λ table row. store_fault records.now ≡ Some (record { table = table; row = row }))) }
    ensures low { IfErr result MayBeFault }
    ensures quiet { OnFailed result ⊥ }
{
    match store_fault(alloc, records) {
        Err(_) => Err(ReadingFault::NoMemory),
        Ok(Some(place)) => Err(ReadingFault::Bad {
            table: place.table,
            row: place.row,
        }),
        Ok(None) => match ledger_in(alloc, records) {
            Err(_) => Err(ReadingFault::NoMemory),
            Ok(stored) => Ok(stored),
        },
    }
}

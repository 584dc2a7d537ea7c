ghost use Rattle.std.specs.Prelude.{◌≡◌, IfOk, OnOk};
ghost use Rattle.store_reading.specs.Business.{business_in, with_business};

use business_rows::BusinessRows;
use enq_base::NoMemory;
use std::alloc::Global;
use update_records::Record;

fn add_row(alloc: Global, rows: &mut BusinessRows, stored: &Record) -> Result<(), NoMemory>
    ensures { OnOk result (rows.new.tables ≡ with_business stored.now rows.old.tables) }
{
    match stored {
        Record::Business { table, key, text } => rows.insert(table, key, text.copy(alloc)?),
        _ => Ok(()),
    }
}

/// The business rows that records tell; where one row stands twice, the first.
pub fn business_in(alloc: Global, records: &[Record]) -> Result<BusinessRows, NoMemory>
    ensures { IfOk result (λ rows. rows.tables ≡ business_in records.now) }
{
    let mut rows = BusinessRows::new(alloc);
    rows.make_room(records.len())?;
    let mut left = records.len();
    while left > 0 {
        left -= 1;
        add_row(alloc, &mut rows, &records[left])?;
    }
    Ok(rows)
}

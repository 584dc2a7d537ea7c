ghost use Rattle.std.specs.Prelude.{◌≡◌, IfOk, OnOk};
ghost use Rattle.update_records.specs.RecordRows.{business_row};
ghost use Rattle.update_records.specs.Spelling.{IsRecord};
ghost use Rattle.update_records.specs.declared.stored.Record.TheVariants as rec;

use crate::bytes::{push_bytes, push_short, put};
use crate::tables;
use enq_base::{Key, Name, NoMemory, Text};
use keeper_api::Change;
use std::alloc::Global;

/// The row of a business row with this text.
pub fn encode_business(
    alloc: Global,
    table: &Name,
    key: &Key,
    text: &Text,
) -> Result<Change, NoMemory>
    ensures row { IfOk result (λ change. change ≡ business_row (table.now, key.now) text.now) }
    ensures grammar { OnOk result (IsRecord (rec.Business table.now key.now text.now)) }
{
    let mut place = Vec::new(alloc);
    push_short(&mut place, table.bytes())?;
    push_bytes(&mut place, key.bytes())?;
    let mut value = Vec::new(alloc);
    push_bytes(&mut value, text.bytes())?;
    Ok(put(tables::BUSINESS, place, value))
}

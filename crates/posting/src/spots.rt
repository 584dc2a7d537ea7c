ghost use Rattle.std.specs.Prelude.{◌≡◌, IfOk, IfSome, is_some};
ghost use Rattle.keeper_api.specs.Keeping.{HasFaultCause, IsWithin, Stays, UnlessFailed};
ghost use Rattle.update_records.specs.RecordRows.{row_name};
ghost use Rattle.ledger_steps.specs.Posts.{row_change, row_changes, text_at, text_in};

use enq_base::{Items, Key, Name, NoMemory, Text, TextFault};
use keeper_api::{Bytes, Change, KeepFault, Keeper};
use module_effects::Spot;
use std::alloc::Global;
use update_records::{encode_business, tables};

/// The key in the store of a business row.
fn place_of(alloc: Global, table: &Name, key: &Key) -> Result<Vec<u8>, NoMemory>
    ensures { IfOk result (λ place. place.items ≡ row_name (table.now, key.now)) }
{
    let mut place = Vec::new(alloc);
    place.push(table.bytes().len() as u8)?;
    place.extend_from_slice(table.bytes())?;
    place.extend_from_slice(key.bytes())?;
    Ok(place)
}

/// The text that bytes are. Those that are none count as no row.
fn text_of(alloc: Global, bytes: &Option<Bytes>) -> Result<Option<Text>, NoMemory>
    ensures { IfOk result (λ text. text ≡ text_in bytes.now) }
{
    let Some(bytes) = bytes else {
        return Ok(None);
    };
    match Text::new(alloc, bytes.as_slice()) {
        Ok(text) => Ok(Some(text)),
        Err(TextFault::NoMemory) => Err(NoMemory),
        Err(TextFault::Length) => Ok(None),
        Err(TextFault::Byte) => Ok(None),
    }
}

/// What a business row has now. After `Failed` only `reopen` is allowed.
pub fn read_text<K: Keeper>(
    alloc: Global,
    keeper: &mut K,
    table: &Name,
    key: &Key,
) -> Result<Option<Text>, KeepFault>
    requires { K.is_open keeper.old }
    ensures text { IfOk result (λ text. IfSome (K.held keeper.old) (λ rows. text ≡ text_at rows (table.now, key.now))) }
    ensures stays { UnlessFailed result (Stays K.held K.is_open K.has_room keeper.old keeper.new) }
    ensures told { is_some (K.held keeper.new) ≡ is_some (K.held keeper.old) }
    ensures crash { IsWithin (K.may_leave keeper.new) (K.may_leave keeper.old) }
    ensures cause { HasFaultCause (K.faults keeper.old) (K.faults keeper.new) result }
{
    let place = place_of(alloc, table, key)?;
    let bytes = keeper.get(alloc, tables::BUSINESS, place.as_slice())?;
    match text_of(alloc, &bytes) {
        Ok(text) => Ok(text),
        Err(_) => Err(KeepFault::NoMemory),
    }
}

fn encode_row(alloc: Global, spot: &Spot) -> Result<Change, NoMemory>
    ensures { IfOk result (λ change. change ≡ row_change spot.now) }
{
    let Some(text) = &spot.text else {
        let key = Items::from_vec(place_of(alloc, &spot.table, &spot.key)?);
        return Ok(Change::Del {
            table: tables::BUSINESS,
            key,
        });
    };
    encode_business(alloc, &spot.table, &spot.key, text)
}

/// The changes that leave in each row what its spot has.
pub fn encode_rows(alloc: Global, spots: &[Spot]) -> Result<Vec<Change>, NoMemory>
    ensures { IfOk result (λ batch. batch.items ≡ row_changes spots.now) }
{
    let mut batch = Vec::new(alloc);
    for spot in spots {
        batch.push(encode_row(alloc, spot)?)?;
    }
    Ok(batch)
}

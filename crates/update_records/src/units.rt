ghost use Rattle.std.specs.Prelude.{◌≡◌, ◌≤◌, ◌<◌, ◌+◌, ◌^◌, ◌++◌, length, map, OnOk, IfOk, IsTrue};
ghost use Rattle.std.specs.List.{All};
ghost use Rattle.byteorder.specs.Endian.{big_bytes};
ghost use Rattle.enq_base.specs.Grammar.{is_name};
ghost use Rattle.update_records.specs.Grammar.{HasDigits, HasNames, IsEffect, IsEntryOf, IsHeldBy, IsNumber, IsUnitKey};
ghost use Rattle.keeper_api.specs.Batch.{IsBatch};
ghost use Rattle.lock_entry.specs.Names.{has_distinct_names};
ghost use Rattle.update_records.specs.Spelling.{IsRecord, record_row, records_of};
ghost use Rattle.update_records.specs.RecordRows.{header_row, lock_row, lock_rows, number_bytes, numbers_bytes, unit_rows};

use crate::bytes::{bytes_of_unit, push_bytes, push_short, push_u16, push_u32, push_u64, put};
use crate::parts::push_part;
use crate::records::Unit;
use crate::tables;
use enq_base::{Effect, Items, NoMemory, Num, UnitKey};
use keeper_api::Change;
use lock_entry::Entry;
use mode_rules::mode_number;
use std::alloc::Global;

impl Unit {
    /// An equal unit.
    pub fn copy(&self, alloc: Global) -> Result<Unit, NoMemory>
        ensures { IfOk result (λ unit. unit ≡ self.now) }
    {
        Ok(Unit {
            key: self.key,
            user: self.user,
            numbers: Items::from_vec(Vec::from_slice(alloc, self.numbers.as_slice())?),
            parts: self.parts.copy(alloc)?,
            entries: Items::from_vec(Vec::from_slice(alloc, self.entries.as_slice())?),
        })
    }
}

fn push_number(out: &mut Vec<u8>, number: &Num) -> Result<(), NoMemory>
    requires { HasDigits number.now }
    ensures bytes { OnOk result (out.new.items ≡ out.old.items ++ number_bytes number.now) }
    ensures grammar { OnOk result (IsNumber number.now) }
{
    push_short(out, number.object.bytes())?;
    push_bytes(out, &number.nr)?;
    push_u64(out, number.number)
}

/// How many numbers there are, and each of them.
pub fn push_numbers(out: &mut Vec<u8>, numbers: &[Num]) -> Result<(), NoMemory>
    requires few { length numbers.now ≤ 64 }
    requires digits { All HasDigits numbers.now }
    ensures bytes { OnOk result (out.new.items ≡ out.old.items ++ numbers_bytes numbers.now) }
    ensures grammar { OnOk result (All IsNumber numbers.now) }
{
    push_u16(out, numbers.len() as u16)?;
    for number in numbers {
        push_number(out, number)?;
    }
    Ok(())
}

fn push_count(out: &mut Vec<u8>, effects: &[Effect]) -> Result<(), NoMemory>
    requires { length effects.now ≤ 200 }
    ensures { OnOk result (out.new.items ≡ out.old.items ++ big_bytes 2 (length effects.now)) }
{
    push_u16(out, effects.len() as u16)
}

fn encode_header(alloc: Global, unit: &Unit) -> Result<Change, NoMemory>
    requires first { length unit.now.parts.v1 ≤ 200 }
    requires second { length unit.now.parts.v2 ≤ 200 }
    requires entries { length unit.now.entries < 2 ^ 32 }
    requires numbers { length unit.now.numbers ≤ 64 }
    requires digits { All HasDigits unit.now.numbers }
    ensures row { IfOk result (λ change. change ≡ header_row unit.now) }
    ensures key { OnOk result (IsUnitKey unit.now.key) }
    ensures user { OnOk result (IsTrue (is_name unit.now.user)) }
    ensures spelt { OnOk result (All IsNumber unit.now.numbers) }
{
    let place = bytes_of_unit(alloc, &unit.key)?;
    let mut value = Vec::new(alloc);
    push_short(&mut value, unit.user.bytes())?;
    push_count(&mut value, unit.parts.v1.as_slice())?;
    push_count(&mut value, unit.parts.v2.as_slice())?;
    push_u32(&mut value, unit.entries.as_slice().len() as u32)?;
    push_numbers(&mut value, unit.numbers.as_slice())?;
    Ok(put(tables::HEADERS, place, value))
}

fn encode_lock(alloc: Global, key: &UnitKey, index: u32, entry: &Entry) -> Result<Change, NoMemory>
    ensures row { IfOk result (λ change. change ≡ lock_row key.now index entry.now) }
    ensures grammar { OnOk result (HasNames entry.now) }
{
    let mut place = bytes_of_unit(alloc, key)?;
    push_u32(&mut place, index)?;
    let mut value = Vec::new(alloc);
    push_short(&mut value, entry.table.bytes())?;
    value.push(mode_number(entry.mode))?;
    push_u16(&mut value, entry.count)?;
    push_short(&mut value, entry.pattern.bytes())?;
    Ok(put(tables::LOCKS, place, value))
}

fn push_locks(
    batch: &mut Vec<Change>,
    alloc: Global,
    key: &UnitKey,
    entries: &[Entry],
) -> Result<(), NoMemory>
    requires { length entries.now < 2 ^ 32 }
    ensures rows { OnOk result (batch.new.items ≡ batch.old.items ++ lock_rows key.now 1 entries.now) }
    ensures grammar { OnOk result (All HasNames entries.now) }
{
    for (i, entry) in entries.iter().enumerate() {
        batch.push(encode_lock(alloc, key, i as u32 + 1, entry)?)?;
    }
    Ok(())
}

/// All rows of a unit but those of its marks.
///
/// The names, keys and texts of a unit are in their grammars, as their types say.
pub fn encode_unit(alloc: Global, unit: &Unit) -> Result<Vec<Change>, NoMemory>
    requires effects { length unit.now.parts.v1 + length unit.now.parts.v2 ≤ 200 }
    requires numbers { length unit.now.numbers ≤ 64 }
    requires digits { All HasDigits unit.now.numbers }
    requires entries { length unit.now.entries < 2 ^ 32 }
    requires held { All (IsHeldBy unit.now) unit.now.entries }
    requires distinct { IsTrue (has_distinct_names unit.now.entries) }
    ensures rows { IfOk result (λ batch. batch.items ≡ unit_rows unit.now) }
    ensures key { OnOk result (IsUnitKey unit.now.key) }
    ensures user { OnOk result (IsTrue (is_name unit.now.user)) }
    ensures first { OnOk result (All IsEffect unit.now.parts.v1) }
    ensures second { OnOk result (All IsEffect unit.now.parts.v2) }
    ensures drawn { OnOk result (All IsNumber unit.now.numbers) }
    ensures locks { OnOk result (All (IsEntryOf unit.now) unit.now.entries) }
    // Each of the rows spells a record of the unit.
    ensures records { IfOk result (λ batch. batch.items ≡ map record_row (records_of unit.now)) }
    ensures grammar { OnOk result (All IsRecord (records_of unit.now)) }
    ensures batch { IfOk result (λ batch. IsBatch batch.items) }
{
    let mut batch = Vec::new(alloc);
    batch.push(encode_header(alloc, unit)?)?;
    push_part(&mut batch, alloc, &unit.key, 1, unit.parts.v1.as_slice())?;
    push_part(&mut batch, alloc, &unit.key, 2, unit.parts.v2.as_slice())?;
    push_locks(&mut batch, alloc, &unit.key, unit.entries.as_slice())?;
    Ok(batch)
}

ghost use Rattle.std.specs.Prelude.{◌≡◌, ◌≤◌, ◌<◌, ◌+◌, ◌++◌, length, OnOk, IfOk, IsTrue};
ghost use Rattle.std.specs.List.{All};
ghost use Rattle.enq_base.specs.Grammar.{is_text};
ghost use Rattle.update_records.specs.Grammar.{IsEffect, IsDeed};
ghost use Rattle.update_records.specs.RecordRows.{module_row, step_row, step_rows, part_rows, operand, verb, text_bytes};

use crate::bytes::{bytes_of_unit, push_bytes, push_i64, push_short, push_u16, put};
use crate::tables;
use enq_base::{Deed, Effect, NoMemory, Text, UnitKey};
use keeper_api::Change;
use std::alloc::Global;

fn verb(deed: &Deed) -> u8
    ensures { result ≡ verb deed.now }
{
    match deed {
        Deed::Put(_) => 1,
        Deed::Ins(_) => 2,
        Deed::Del => 3,
        Deed::Add(_) => 4,
    }
}

fn push_text(out: &mut Vec<u8>, text: &Text) -> Result<(), NoMemory>
    ensures bytes { OnOk result (out.new.items ≡ out.old.items ++ text_bytes text.now) }
    ensures grammar { OnOk result (IsTrue (is_text text.now)) }
{
    let text = text.bytes();
    push_u16(out, text.len() as u16)?;
    push_bytes(out, text)
}

fn push_operand(out: &mut Vec<u8>, deed: &Deed) -> Result<(), NoMemory>
    ensures bytes { OnOk result (out.new.items ≡ out.old.items ++ operand deed.now) }
    ensures grammar { OnOk result (IsDeed deed.now) }
{
    match deed {
        Deed::Put(text) => push_text(out, text),
        Deed::Ins(text) => push_text(out, text),
        Deed::Del => Ok(()),
        Deed::Add(number) => push_i64(out, *number),
    }
}

fn encode_step(
    alloc: Global,
    key: &UnitKey,
    part: u8,
    index: u16,
    effect: &Effect,
) -> Result<Change, NoMemory>
    ensures row { IfOk result (λ change. change ≡ step_row key.now part index effect.now) }
    ensures grammar { OnOk result (IsEffect effect.now) }
{
    let mut place = bytes_of_unit(alloc, key)?;
    place.push(part)?;
    push_u16(&mut place, index)?;
    let mut value = Vec::new(alloc);
    value.push(verb(&effect.deed))?;
    push_short(&mut value, effect.table.bytes())?;
    push_short(&mut value, effect.key.bytes())?;
    push_operand(&mut value, &effect.deed)?;
    Ok(put(tables::STEPS, place, value))
}

fn push_steps(
    batch: &mut Vec<Change>,
    alloc: Global,
    key: &UnitKey,
    part: u8,
    effects: &[Effect],
) -> Result<(), NoMemory>
    requires { length effects.now ≤ 200 }
    ensures rows { OnOk result (batch.new.items ≡ batch.old.items ++ step_rows key.now part 1 effects.now) }
    ensures grammar { OnOk result (All IsEffect effects.now) }
{
    let mut index = 1;
    for effect in effects {
        batch.push(encode_step(alloc, key, part, index, effect)?)?;
        index += 1;
    }
    Ok(())
}

fn encode_module(
    alloc: Global,
    key: &UnitKey,
    part: u8,
    effects: &[Effect],
) -> Result<Change, NoMemory>
    requires { length effects.now ≤ 200 }
    ensures { IfOk result (λ change. change ≡ module_row key.now part effects.now) }
{
    let mut place = bytes_of_unit(alloc, key)?;
    place.push(part)?;
    let mut value = Vec::new(alloc);
    push_u16(&mut value, effects.len() as u16)?;
    Ok(put(tables::MODULES, place, value))
}

/// The rows of a part behind those of a batch.
pub fn push_part(
    batch: &mut Vec<Change>,
    alloc: Global,
    key: &UnitKey,
    part: u8,
    effects: &[Effect],
) -> Result<(), NoMemory>
    requires { length effects.now ≤ 200 }
    ensures rows { OnOk result (batch.new.items ≡ batch.old.items ++ part_rows key.now part effects.now) }
    ensures grammar { OnOk result (All IsEffect effects.now) }
{
    if effects.is_empty() {
        return Ok(());
    }
    batch.push(encode_module(alloc, key, part, effects)?)?;
    push_steps(batch, alloc, key, part, effects)?;
    Ok(())
}

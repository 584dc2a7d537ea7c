ghost use Rattle.std.specs.Prelude.{◌≡◌, IfOk, OnOk};
ghost use Rattle.update_records.specs.Grammar.{IsNr};
ghost use Rattle.update_records.specs.RecordRows.{flag, level_row, level_value};
ghost use Rattle.update_records.specs.Spelling.{IsRecord};
ghost use Rattle.update_records.specs.declared.stored.Record.TheVariants as rec;

use crate::bytes::{push_bytes, push_short, push_u64, put};
use crate::stored::Interval;
use crate::tables;
use enq_base::{Name, NoMemory};
use keeper_api::Change;
use std::alloc::Global;

fn flag_byte(on: bool) -> u8
    ensures { result ≡ flag on }
{
    if on { 1 } else { 0 }
}

/// The row of a stored interval, which is named by its object and two digits.
pub fn encode_level(
    alloc: Global,
    object: &Name,
    nr: [u8; 2],
    interval: &Interval,
) -> Result<Change, NoMemory>
    requires { IsNr nr }
    ensures row { IfOk result (λ change. change ≡ level_row (object.now, nr)
        (record {
          from = interval.now.from;
          to = interval.now.to;
          level = interval.now.level;
          buffered = interval.now.buffered;
        })) }
    ensures grammar { OnOk result (IsRecord
        (rec.Level object.now nr interval.now.from interval.now.to interval.now.level interval.now.buffered)) }
{
    let mut place = Vec::new(alloc);
    push_short(&mut place, object.bytes())?;
    push_bytes(&mut place, &nr)?;
    let Interval {
        from,
        to,
        level,
        buffered,
    } = *interval;
    let mut value = Vec::new(alloc);
    push_u64(&mut value, from)?;
    push_u64(&mut value, to)?;
    push_u64(&mut value, level)?;
    value.push(flag_byte(buffered))?;
    Ok(put(tables::LEVELS, place, value))
}

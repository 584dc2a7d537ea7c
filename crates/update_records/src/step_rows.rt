ghost use Rattle.std.specs.Prelude.{◌≡◌, IfErr};
ghost use Rattle.byte_fields.specs.declared.fault.ReadFault.TheVariants.{Bad};
ghost use Rattle.std.specs.Int.{w64, cast_signed};
ghost use Rattle.byte_fields.specs.Fields.{Gives};
ghost use Rattle.update_records.specs.Reading.{step_key, text_at, signed_at, deed_at, step_tail, step_at};

use crate::fields::{byte_at, key_at, name_at, part_at, text_of, unit_at};
use crate::stored::Record;
use byte_fields::{ReadFault, bytes_at, u16_at, u64_at};
use enq_base::{Deed, Effect, Text, UnitKey};
use std::alloc::Global;

#[tactic(auto, unfolding(crate::specs::Reading::step_key))]
fn step_key(bytes: &[u8]) -> Result<(UnitKey, u8, u16), ReadFault>
    ensures gives { Gives (λ x. ((x.0, x.1), x.2)) result (step_key bytes.now) }
    ensures bad { IfErr result (λ fault. fault ≡ Bad) }
{
    let (unit, rest) = unit_at(bytes)?;
    let (part, rest) = part_at(rest)?;
    let (index, rest) = u16_at(rest)?;
    if index >= 1 && rest.is_empty() {
        Ok((unit, part, index))
    } else {
        Err(ReadFault::Bad)
    }
}

/// A length in two bytes, and a text of so many bytes.
#[tactic(auto, unfolding(crate::specs::Reading::text_at))]
fn text_at(alloc: Global, bytes: &[u8]) -> Result<(Text, &[u8]), ReadFault>
    ensures { Gives (λ x. (x.0, x.1.now)) result (text_at bytes.now) }
{
    let (len, rest) = u16_at(bytes)?;
    let (text, rest) = bytes_at(rest, len as usize)?;
    let text = text_of(alloc, text)?;
    Ok((text, rest))
}

/// A number with its sign, in two's complement.
#[tactic(auto, unfolding(crate::specs::Reading::signed_at))]
fn signed_at(bytes: &[u8]) -> Result<(i64, &[u8]), ReadFault>
    ensures gives { Gives (λ x. (x.0, x.1.now)) result (signed_at bytes.now) }
    ensures bad { IfErr result (λ fault. fault ≡ Bad) }
{
    let (number, rest) = u64_at(bytes)?;
    Ok((number.cast_signed(), rest))
}

#[tactic(auto, unfolding(crate::specs::Reading::deed_at))]
fn deed_at(alloc: Global, verb: u8, bytes: &[u8]) -> Result<(Deed, &[u8]), ReadFault>
    ensures { Gives (λ x. (x.0, x.1.now)) result (deed_at verb bytes.now) }
{
    match verb {
        1 => match text_at(alloc, bytes) {
            Ok((text, rest)) => Ok((Deed::Put(text), rest)),
            Err(fault) => Err(fault),
        },
        2 => match text_at(alloc, bytes) {
            Ok((text, rest)) => Ok((Deed::Ins(text), rest)),
            Err(fault) => Err(fault),
        },
        3 => Ok((Deed::Del, bytes)),
        4 => {
            let (number, rest) = signed_at(bytes)?;
            Ok((Deed::Add(number), rest))
        }
        _ => Err(ReadFault::Bad),
    }
}

#[tactic(auto, unfolding(crate::specs::Reading::step_tail))]
fn step_tail(alloc: Global, bytes: &[u8]) -> Result<Effect, ReadFault>
    ensures { Gives (λ x. x) result (step_tail bytes.now) }
{
    let (verb, rest) = byte_at(bytes)?;
    let (table, rest) = match name_at(rest) {
        Ok(read) => read,
        Err(fault) => return Err(fault),
    };
    let (key, rest) = match key_at(rest) {
        Ok(read) => read,
        Err(fault) => return Err(fault),
    };
    match deed_at(alloc, verb, rest) {
        Ok((deed, [])) => Ok(Effect { table, key, deed }),
        Ok(_) => Err(ReadFault::Bad),
        Err(fault) => Err(fault),
    }
}

#[tactic(auto, unfolding(crate::specs::Reading::step_at))]
pub fn step_at(alloc: Global, key: &[u8], value: &[u8]) -> Result<Record, ReadFault>
    ensures { Gives (λ x. x) result (step_at key.now value.now) }
{
    let (unit, part, index) = step_key(key)?;
    let effect = step_tail(alloc, value)?;
    Ok(Record::Step {
        unit,
        part,
        index,
        effect,
    })
}

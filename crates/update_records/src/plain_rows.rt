ghost use Rattle.std.specs.Prelude.{◌≡◌, Option, Bool, IfErr};
ghost use Rattle.byte_fields.specs.declared.fault.ReadFault.TheVariants.{Bad};
ghost use Rattle.byte_fields.specs.Fields.{Gives};
ghost use Rattle.update_records.specs.Reading.{meta_key, meta_value, meta_at, flag_of, level_key, level_tail, level_at, business_key, business_at};

use crate::fields::{byte_at, name_at, nr_at, text_of};
use crate::stored::{Interval, Record};
use byte_fields::{ReadFault, u32_at, u64_at};
use enq_base::{Key, Name};
use std::alloc::Global;

#[tactic(auto, unfolding(crate::specs::Reading::meta_key))]
fn meta_key(bytes: &[u8]) -> Result<u8, ReadFault>
    ensures gives { Gives (λ x. x) result (meta_key bytes.now) }
    ensures bad { IfErr result (λ fault. fault ≡ Bad) }
{
    let (byte, rest) = byte_at(bytes)?;
    if byte == b'S' && rest.is_empty() {
        Ok(byte)
    } else {
        Err(ReadFault::Bad)
    }
}

#[tactic(auto, unfolding(crate::specs::Reading::meta_value))]
fn meta_value(bytes: &[u8]) -> Result<(u32, u64), ReadFault>
    ensures gives { Gives (λ x. x) result (meta_value bytes.now) }
    ensures bad { IfErr result (λ fault. fault ≡ Bad) }
{
    let (start, rest) = u32_at(bytes)?;
    let (marks, rest) = u64_at(rest)?;
    if rest.is_empty() {
        Ok((start, marks))
    } else {
        Err(ReadFault::Bad)
    }
}

#[tactic(auto, unfolding(crate::specs::Reading::meta_at))]
pub fn meta_at(key: &[u8], value: &[u8]) -> Result<Record, ReadFault>
    ensures gives { Gives (λ x. x) result (meta_at key.now value.now) }
    ensures bad { IfErr result (λ fault. fault ≡ Bad) }
{
    meta_key(key)?;
    let (start, marks) = meta_value(value)?;
    Ok(Record::Meta { start, marks })
}

fn flag_of(byte: u8) -> Option<bool>
    ensures { result ≡ flag_of byte }
{
    match byte {
        0 => Some(false),
        1 => Some(true),
        _ => None,
    }
}

#[tactic(auto, unfolding(crate::specs::Reading::level_key))]
fn level_key(bytes: &[u8]) -> Result<(Name, [u8; 2]), ReadFault>
    ensures gives { Gives (λ x. x) result (level_key bytes.now) }
    ensures bad { IfErr result (λ fault. fault ≡ Bad) }
{
    let (object, rest) = match name_at(bytes) {
        Ok(read) => read,
        Err(fault) => return Err(fault),
    };
    let (nr, rest) = nr_at(rest)?;
    if rest.is_empty() {
        Ok((object, nr))
    } else {
        Err(ReadFault::Bad)
    }
}

#[tactic(auto, unfolding(crate::specs::Reading::level_tail))]
fn level_tail(bytes: &[u8]) -> Result<Interval, ReadFault>
    ensures gives { Gives (λ x. (((x.from, x.to), x.level), x.buffered)) result (level_tail bytes.now) }
    ensures bad { IfErr result (λ fault. fault ≡ Bad) }
{
    let (from, rest) = u64_at(bytes)?;
    let (to, rest) = u64_at(rest)?;
    let (level, rest) = u64_at(rest)?;
    let [flag] = rest else {
        return Err(ReadFault::Bad);
    };
    match flag_of(*flag) {
        Some(buffered) => Ok(Interval {
            from,
            to,
            level,
            buffered,
        }),
        None => Err(ReadFault::Bad),
    }
}

#[tactic(auto, unfolding(crate::specs::Reading::level_at))]
pub fn level_at(key: &[u8], value: &[u8]) -> Result<Record, ReadFault>
    ensures gives { Gives (λ x. x) result (level_at key.now value.now) }
    ensures bad { IfErr result (λ fault. fault ≡ Bad) }
{
    let (object, nr) = level_key(key)?;
    let Interval {
        from,
        to,
        level,
        buffered,
    } = level_tail(value)?;
    Ok(Record::Level {
        object,
        nr,
        from,
        to,
        level,
        buffered,
    })
}

#[tactic(auto, unfolding(crate::specs::Reading::business_key))]
fn business_key(bytes: &[u8]) -> Result<(Name, Key), ReadFault>
    ensures gives { Gives (λ x. x) result (business_key bytes.now) }
    ensures bad { IfErr result (λ fault. fault ≡ Bad) }
{
    let (table, rest) = match name_at(bytes) {
        Ok(read) => read,
        Err(fault) => return Err(fault),
    };
    match Key::new(rest) {
        Some(key) => Ok((table, key)),
        None => Err(ReadFault::Bad),
    }
}

#[tactic(auto, unfolding(crate::specs::Reading::business_at))]
pub fn business_at(alloc: Global, key: &[u8], value: &[u8]) -> Result<Record, ReadFault>
    ensures { Gives (λ x. x) result (business_at key.now value.now) }
{
    let (table, key) = business_key(key)?;
    let text = text_of(alloc, value)?;
    Ok(Record::Business { table, key, text })
}

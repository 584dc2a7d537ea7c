ghost use Rattle.std.specs.Prelude.{◌≡◌, IfErr};
ghost use Rattle.byte_fields.specs.declared.fault.ReadFault.TheVariants.{Bad};
ghost use Rattle.byte_fields.specs.Fields.{Gives};
ghost use Rattle.update_records.specs.Reading.{unit_key, header_tail, header_at, module_key, module_tail, module_at, lock_key, count_at, lock_tail, lock_at};

use crate::fields::{name_at, part_at, pattern_at, unit_at};
use crate::numbers::nums_at;
use crate::stored::Record;
use byte_fields::{ReadFault, u16_at, u32_at};
use enq_base::{Items, Name, Num, Pattern, UnitKey};
use mode_rules::{Mode, mode_of};
use std::alloc::Global;

#[tactic(auto, unfolding(crate::specs::Reading::unit_key))]
fn unit_key(bytes: &[u8]) -> Result<UnitKey, ReadFault>
    ensures gives { Gives (λ x. x) result (unit_key bytes.now) }
    ensures bad { IfErr result (λ fault. fault ≡ Bad) }
{
    let (unit, rest) = unit_at(bytes)?;
    if rest.is_empty() {
        Ok(unit)
    } else {
        Err(ReadFault::Bad)
    }
}

struct Header {
    user: Name,
    v1: u16,
    v2: u16,
    locks: u32,
    numbers: Items<Num>,
}

#[tactic(auto, unfolding(crate::specs::Reading::header_tail))]
fn header_tail(alloc: Global, bytes: &[u8]) -> Result<Header, ReadFault>
    ensures { Gives (λ x. ((((x.user, x.v1), x.v2), x.locks), x.numbers)) result (header_tail bytes.now) }
{
    let (user, rest) = match name_at(bytes) {
        Ok(read) => read,
        Err(fault) => return Err(fault),
    };
    let (v1, rest) = u16_at(rest)?;
    let (v2, rest) = u16_at(rest)?;
    let (locks, rest) = u32_at(rest)?;
    match nums_at(alloc, rest) {
        Ok((numbers, [])) => Ok(Header {
            user,
            v1,
            v2,
            locks,
            numbers,
        }),
        Ok(_) => Err(ReadFault::Bad),
        Err(fault) => Err(fault),
    }
}

#[tactic(auto, unfolding(crate::specs::Reading::header_at))]
pub fn header_at(alloc: Global, key: &[u8], value: &[u8]) -> Result<Record, ReadFault>
    ensures { Gives (λ x. x) result (header_at key.now value.now) }
{
    let unit = unit_key(key)?;
    let Header {
        user,
        v1,
        v2,
        locks,
        numbers,
    } = header_tail(alloc, value)?;
    Ok(Record::Header {
        unit,
        user,
        v1,
        v2,
        locks,
        numbers,
    })
}

#[tactic(auto, unfolding(crate::specs::Reading::module_key))]
fn module_key(bytes: &[u8]) -> Result<(UnitKey, u8), ReadFault>
    ensures gives { Gives (λ x. x) result (module_key bytes.now) }
    ensures bad { IfErr result (λ fault. fault ≡ Bad) }
{
    let (unit, rest) = unit_at(bytes)?;
    let (part, rest) = part_at(rest)?;
    if rest.is_empty() {
        Ok((unit, part))
    } else {
        Err(ReadFault::Bad)
    }
}

#[tactic(auto, unfolding(crate::specs::Reading::module_tail))]
fn module_tail(bytes: &[u8]) -> Result<u16, ReadFault>
    ensures gives { Gives (λ x. x) result (module_tail bytes.now) }
    ensures bad { IfErr result (λ fault. fault ≡ Bad) }
{
    let (count, rest) = u16_at(bytes)?;
    if rest.is_empty() {
        Ok(count)
    } else {
        Err(ReadFault::Bad)
    }
}

#[tactic(auto, unfolding(crate::specs::Reading::module_at))]
pub fn module_at(key: &[u8], value: &[u8]) -> Result<Record, ReadFault>
    ensures gives { Gives (λ x. x) result (module_at key.now value.now) }
    ensures bad { IfErr result (λ fault. fault ≡ Bad) }
{
    let (unit, part) = module_key(key)?;
    let count = module_tail(value)?;
    Ok(Record::Module { unit, part, count })
}

#[tactic(auto, unfolding(crate::specs::Reading::lock_key))]
fn lock_key(bytes: &[u8]) -> Result<(UnitKey, u32), ReadFault>
    ensures gives { Gives (λ x. x) result (lock_key bytes.now) }
    ensures bad { IfErr result (λ fault. fault ≡ Bad) }
{
    let (unit, rest) = unit_at(bytes)?;
    let (index, rest) = u32_at(rest)?;
    if index >= 1 && rest.is_empty() {
        Ok((unit, index))
    } else {
        Err(ReadFault::Bad)
    }
}

#[tactic(auto, unfolding(crate::specs::Reading::count_at))]
fn count_at(bytes: &[u8]) -> Result<(u16, &[u8]), ReadFault>
    ensures gives { Gives (λ x. (x.0, x.1.now)) result (count_at bytes.now) }
    ensures bad { IfErr result (λ fault. fault ≡ Bad) }
{
    let (count, rest) = u16_at(bytes)?;
    if count >= 1 && count <= 9999 {
        Ok((count, rest))
    } else {
        Err(ReadFault::Bad)
    }
}

struct Lock {
    table: Name,
    mode: Mode,
    count: u16,
    pattern: Pattern,
}

#[tactic(auto, unfolding(crate::specs::Reading::lock_tail))]
fn lock_tail(bytes: &[u8]) -> Result<Lock, ReadFault>
    ensures gives { Gives (λ x. (((x.table, x.mode), x.count), x.pattern)) result (lock_tail bytes.now) }
    ensures bad { IfErr result (λ fault. fault ≡ Bad) }
{
    let (table, rest) = match name_at(bytes) {
        Ok(read) => read,
        Err(fault) => return Err(fault),
    };
    let [byte, rest @ ..] = rest else {
        return Err(ReadFault::Bad);
    };
    let Some(mode) = mode_of(*byte) else {
        return Err(ReadFault::Bad);
    };
    let (count, rest) = count_at(rest)?;
    match pattern_at(rest) {
        Ok((pattern, [])) => Ok(Lock {
            table,
            mode,
            count,
            pattern,
        }),
        Ok(_) => Err(ReadFault::Bad),
        Err(fault) => Err(fault),
    }
}

#[tactic(auto, unfolding(crate::specs::Reading::lock_at))]
pub fn lock_at(key: &[u8], value: &[u8]) -> Result<Record, ReadFault>
    ensures gives { Gives (λ x. x) result (lock_at key.now value.now) }
    ensures bad { IfErr result (λ fault. fault ≡ Bad) }
{
    let (unit, index) = lock_key(key)?;
    let Lock {
        table,
        mode,
        count,
        pattern,
    } = lock_tail(value)?;
    Ok(Record::Lock {
        unit,
        index,
        table,
        mode,
        count,
        pattern,
    })
}

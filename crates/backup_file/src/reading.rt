ghost use Rattle.std.specs.Prelude.{◌≡◌, List, length};
ghost use Rattle.enq_base.specs.Grammar.{is_name, is_pattern};
ghost use Rattle.byte_fields.specs.Fields.{Gives, many};
ghost use Rattle.backup_file.specs.Reading.{text_at, short_at, unit_at, mode_at, count_at, entry_at, hand_of, free_of, payload_of, record_at};

use crate::handed::{Handed, Record};
use byte_fields::{ReadFault, u16_at, u32_at};
use enq_base::{Items, Name, Owner, Pattern, UnitKey, read_name};
use lock_entry::{Entry, Mode};
use mode_rules::mode_of;
use std::alloc::Global;

#[tactic(auto, unfolding(crate::specs::Reading::text_at))]
fn text_of(bytes: &[u8]) -> Result<(&[u8], &[u8]), ReadFault>
    ensures { Gives (λ x. (x.0.now, x.1.now)) result (text_at bytes.now) }
{
    let [n, rest @ ..] = bytes else {
        return Err(ReadFault::Bad);
    };
    let len = *n as usize;
    if rest.len() < len {
        return Err(ReadFault::Bad);
    }
    Ok(rest.split_at(len))
}

#[tactic(auto, unfolding(crate::specs::Reading::short_at))]
fn name_at(bytes: &[u8]) -> Result<(Name, &[u8]), ReadFault>
    ensures { Gives (λ x. (x.0, x.1.now)) result (short_at is_name bytes.now) }
{
    let (text, rest) = text_of(bytes)?;
    match read_name(text) {
        Some(name) => Ok((name, rest)),
        None => Err(ReadFault::Bad),
    }
}

#[tactic(auto, unfolding(crate::specs::Reading::short_at))]
fn pattern_at(bytes: &[u8]) -> Result<(Pattern, &[u8]), ReadFault>
    ensures { Gives (λ x. (x.0, x.1.now)) result (short_at is_pattern bytes.now) }
{
    let (text, rest) = text_of(bytes)?;
    match Pattern::new(text) {
        Some(pattern) => Ok((pattern, rest)),
        None => Err(ReadFault::Bad),
    }
}

#[tactic(auto, unfolding(crate::specs::Reading::unit_at))]
fn unit_of(bytes: &[u8]) -> Result<(UnitKey, &[u8]), ReadFault>
    ensures { Gives (λ x. (x.0, x.1.now)) result (unit_at bytes.now) }
{
    let (start, rest) = u32_at(bytes)?;
    let (session, rest) = u32_at(rest)?;
    let (luw, rest) = u32_at(rest)?;
    Ok((
        UnitKey {
            start,
            session,
            luw,
        },
        rest,
    ))
}

#[tactic(auto, unfolding(crate::specs::Reading::mode_at))]
fn mode_at(bytes: &[u8]) -> Result<(Mode, &[u8]), ReadFault>
    ensures { Gives (λ x. (x.0, x.1.now)) result (mode_at bytes.now) }
{
    let [number, rest @ ..] = bytes else {
        return Err(ReadFault::Bad);
    };
    match mode_of(*number) {
        Some(mode) => Ok((mode, rest)),
        None => Err(ReadFault::Bad),
    }
}

#[tactic(auto, unfolding(crate::specs::Reading::count_at))]
fn count_of(bytes: &[u8]) -> Result<(u16, &[u8]), ReadFault>
    ensures { Gives (λ x. (x.0, x.1.now)) result (count_at bytes.now) }
{
    let (n, rest) = u16_at(bytes)?;
    if n >= 1 && n <= 9999 {
        Ok((n, rest))
    } else {
        Err(ReadFault::Bad)
    }
}

#[tactic(auto, unfolding(crate::specs::Reading::entry_at))]
fn entry_of<'a>(
    unit: &UnitKey,
    user: &Name,
    bytes: &'a [u8],
) -> Result<(Entry, &'a [u8]), ReadFault>
    ensures { Gives (λ x. (x.0, x.1.now)) result (entry_at unit.now user.now bytes.now) }
{
    let (table, rest) = match name_at(bytes) {
        Ok(read) => read,
        Err(fault) => return Err(fault),
    };
    let (mode, rest) = mode_at(rest)?;
    let (count, rest) = count_of(rest)?;
    let (pattern, rest) = match pattern_at(rest) {
        Ok(read) => read,
        Err(fault) => return Err(fault),
    };
    let entry = Entry {
        owner: Owner::Upd(*unit),
        user: *user,
        table,
        pattern,
        mode,
        count,
        handed: true,
    };
    Ok((entry, rest))
}

fn entries_of<'a>(
    alloc: Global,
    unit: &UnitKey,
    user: &Name,
    count: u32,
    bytes: &'a [u8],
) -> Result<(Vec<Entry>, &'a [u8]), ReadFault>
    ensures { Gives (λ x. (x.0.items, x.1.now)) result (many (entry_at unit.now user.now) count bytes.now) }
{
    let mut entries = Vec::new(alloc);
    let mut rest = bytes;
    for _ in 0..count {
        match entry_of(unit, user, rest) {
            Ok((entry, after)) => {
                entries.push(entry)?;
                rest = after;
            }
            Err(fault) => return Err(fault),
        }
    }
    Ok((entries, rest))
}

#[tactic(auto, unfolding(crate::specs::Reading::hand_of))]
fn hand_in(alloc: Global, bytes: &[u8]) -> Result<Record, ReadFault>
    ensures { Gives (λ x. x) result (hand_of bytes.now) }
{
    let (unit, rest) = unit_of(bytes)?;
    let (user, rest) = match name_at(rest) {
        Ok(read) => read,
        Err(fault) => return Err(fault),
    };
    let (count, rest) = u32_at(rest)?;
    let (entries, rest) = entries_of(alloc, &unit, &user, count, rest)?;
    if count >= 1 && rest.is_empty() {
        Ok(Record::Hand(Handed {
            unit,
            entries: Items::from_vec(entries),
        }))
    } else {
        Err(ReadFault::Bad)
    }
}

#[tactic(auto, unfolding(crate::specs::Reading::free_of))]
fn free_in(bytes: &[u8]) -> Result<Record, ReadFault>
    ensures { Gives (λ x. x) result (free_of bytes.now) }
{
    let (unit, rest) = unit_of(bytes)?;
    if rest.is_empty() {
        Ok(Record::Free(unit))
    } else {
        Err(ReadFault::Bad)
    }
}

#[tactic(auto, unfolding(crate::specs::Reading::payload_of))]
fn payload_in(alloc: Global, kind: u8, bytes: &[u8]) -> Result<Record, ReadFault>
    ensures { Gives (λ x. x) result (payload_of kind bytes.now) }
{
    match kind {
        1 => hand_in(alloc, bytes),
        2 => free_in(bytes),
        _ => Err(ReadFault::Bad),
    }
}

/// The record at the front.
#[tactic(auto, unfolding(crate::specs::Reading::record_at))]
pub fn record_of(alloc: Global, bytes: &[u8]) -> Result<(Record, &[u8]), ReadFault>
    ensures { Gives (λ x. (x.0, x.1.now)) result (record_at bytes.now) }
{
    let [kind, rest @ ..] = bytes else {
        return Err(ReadFault::Bad);
    };
    let (len, rest) = u32_at(rest)?;
    let len = len as usize;
    if rest.len() < len {
        return Err(ReadFault::Bad);
    }
    let (payload, rest) = rest.split_at(len);
    let record = payload_in(alloc, *kind, payload)?;
    Ok((record, rest))
}

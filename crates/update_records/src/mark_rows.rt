ghost use Rattle.std.specs.Prelude.{◌≡◌, IfErr};
ghost use Rattle.byte_fields.specs.declared.fault.ReadFault.TheVariants.{Bad};
ghost use Rattle.byte_fields.specs.Fields.{Gives};
ghost use Rattle.update_records.specs.Reading.{reason_of, refusal_at, bare_kind, kind_at, mark_key, mark_value, mark_at};

use crate::fields::{byte_at, unit_at};
use crate::numbers::nums_at;
use crate::records::{Mark, MarkKind};
use crate::stored::Record;
use byte_fields::{ReadFault, u32_at, u64_at};
use enq_base::{Reason, UnitKey};
use std::alloc::Global;

fn reason_of(byte: u8) -> Option<Reason>
    ensures { result ≡ reason_of byte }
{
    match byte {
        1 => Some(Reason::Duplicate),
        2 => Some(Reason::Missing),
        3 => Some(Reason::NotNumber),
        4 => Some(Reason::Overflow),
        _ => None,
    }
}

/// The place of the effect that was refused, and why.
#[tactic(auto, unfolding(crate::specs::Reading::refusal_at))]
fn refusal_at(bytes: &[u8]) -> Result<((u32, Reason), &[u8]), ReadFault>
    ensures gives { Gives (λ x. (x.0, x.1.now)) result (refusal_at bytes.now) }
    ensures bad { IfErr result (λ fault. fault ≡ Bad) }
{
    let (index, rest) = u32_at(bytes)?;
    let [byte, rest @ ..] = rest else {
        return Err(ReadFault::Bad);
    };
    match reason_of(*byte) {
        Some(reason) => Ok(((index, reason), rest)),
        None => Err(ReadFault::Bad),
    }
}

/// The kinds of which no more is told.
fn bare_kind(byte: u8) -> Option<MarkKind>
    ensures { result ≡ bare_kind byte }
{
    match byte {
        2 => Some(MarkKind::Rec),
        3 => Some(MarkKind::V1),
        5 => Some(MarkKind::Again1),
        6 => Some(MarkKind::V2),
        8 => Some(MarkKind::Again2),
        9 => Some(MarkKind::Gone),
        _ => None,
    }
}

#[tactic(auto, unfolding(crate::specs::Reading::kind_at))]
fn kind_at(alloc: Global, byte: u8, bytes: &[u8]) -> Result<(MarkKind, &[u8]), ReadFault>
    ensures { Gives (λ x. (x.0, x.1.now)) result (kind_at byte bytes.now) }
{
    match byte {
        1 => match nums_at(alloc, bytes) {
            Ok((numbers, rest)) => Ok((MarkKind::Num(numbers), rest)),
            Err(fault) => Err(fault),
        },
        4 => {
            let ((index, reason), rest) = refusal_at(bytes)?;
            Ok((MarkKind::Bad1 { index, reason }, rest))
        }
        7 => {
            let ((index, reason), rest) = refusal_at(bytes)?;
            Ok((MarkKind::Bad2 { index, reason }, rest))
        }
        _ => match bare_kind(byte) {
            Some(kind) => Ok((kind, bytes)),
            None => Err(ReadFault::Bad),
        },
    }
}

#[tactic(auto, unfolding(crate::specs::Reading::mark_key))]
fn mark_key(bytes: &[u8]) -> Result<u64, ReadFault>
    ensures gives { Gives (λ x. x) result (mark_key bytes.now) }
    ensures bad { IfErr result (λ fault. fault ≡ Bad) }
{
    let (seq, rest) = u64_at(bytes)?;
    if rest.is_empty() {
        Ok(seq)
    } else {
        Err(ReadFault::Bad)
    }
}

#[tactic(auto, unfolding(crate::specs::Reading::mark_value))]
fn mark_value(alloc: Global, bytes: &[u8]) -> Result<(UnitKey, MarkKind), ReadFault>
    ensures { Gives (λ x. x) result (mark_value bytes.now) }
{
    let (byte, rest) = byte_at(bytes)?;
    let (unit, rest) = unit_at(rest)?;
    match kind_at(alloc, byte, rest) {
        Ok((kind, [])) => Ok((unit, kind)),
        Ok(_) => Err(ReadFault::Bad),
        Err(fault) => Err(fault),
    }
}

#[tactic(auto, unfolding(crate::specs::Reading::mark_at))]
pub fn mark_at(alloc: Global, key: &[u8], value: &[u8]) -> Result<Record, ReadFault>
    ensures { Gives (λ x. x) result (mark_at key.now value.now) }
{
    let seq = mark_key(key)?;
    let (unit, kind) = mark_value(alloc, value)?;
    Ok(Record::Mark(Mark { seq, unit, kind }))
}

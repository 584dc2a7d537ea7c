ghost use Rattle.std.specs.Prelude.{◌≡◌, ◌≤◌, ◌++◌, ◌∷◌, [], length, OnOk, IfOk};
ghost use Rattle.byteorder.specs.Endian.{big_bytes};
ghost use Rattle.update_records.specs.Grammar.{MayMark};
ghost use Rattle.update_records.specs.RecordRows.{kind_number, mark_row, mark_tail, meta_row, reason_number};
ghost use Rattle.update_records.specs.Spelling.{HasFields, IsRecord};
ghost use Rattle.update_records.specs.declared.stored.Record.TheVariants as rec;

use crate::bytes::{bytes_of_unit, push_bytes, push_u32, push_u64, put};
use crate::records::{Mark, MarkKind};
use crate::tables;
use crate::units::push_numbers;
use enq_base::{Items, NoMemory, Reason};
use keeper_api::Change;
use std::alloc::Global;

fn kind_byte(kind: &MarkKind) -> u8
    ensures { result ≡ kind_number kind.now }
{
    match kind {
        MarkKind::Num(_) => 1,
        MarkKind::Rec => 2,
        MarkKind::V1 => 3,
        MarkKind::Bad1 { .. } => 4,
        MarkKind::Again1 => 5,
        MarkKind::V2 => 6,
        MarkKind::Bad2 { .. } => 7,
        MarkKind::Again2 => 8,
        MarkKind::Gone => 9,
    }
}

fn reason_byte(reason: Reason) -> u8
    ensures { result ≡ reason_number reason }
{
    match reason {
        Reason::Duplicate => 1,
        Reason::Missing => 2,
        Reason::NotNumber => 3,
        Reason::Overflow => 4,
    }
}

fn push_refusal(out: &mut Vec<u8>, index: u32, reason: Reason) -> Result<(), NoMemory>
    ensures { OnOk result (out.new.items ≡ out.old.items ++ (big_bytes 4 index ++ reason_number reason ∷ [])) }
{
    push_u32(out, index)?;
    push_bytes(out, &[reason_byte(reason)])
}

fn push_tail(out: &mut Vec<u8>, kind: &MarkKind) -> Result<(), NoMemory>
    requires { MayMark kind.now }
    ensures bytes { OnOk result (out.new.items ≡ out.old.items ++ mark_tail kind.now) }
    ensures grammar { OnOk result (HasFields kind.now) }
{
    match kind {
        MarkKind::Num(numbers) => push_numbers(out, numbers.as_slice()),
        MarkKind::Bad1 { index, reason } => push_refusal(out, *index, *reason),
        MarkKind::Bad2 { index, reason } => push_refusal(out, *index, *reason),
        _ => Ok(()),
    }
}

/// The row of a mark.
pub fn encode_mark(alloc: Global, mark: &Mark) -> Result<Change, NoMemory>
    requires { MayMark mark.now.kind }
    ensures row { IfOk result (λ change. change ≡ mark_row mark.now) }
    ensures grammar { OnOk result (IsRecord (rec.Mark mark.now)) }
{
    let mut place = Vec::new(alloc);
    push_u64(&mut place, mark.seq)?;
    let mut value = Vec::new(alloc);
    value.push(kind_byte(&mark.kind))?;
    push_bytes(&mut value, bytes_of_unit(alloc, &mark.unit)?.as_slice())?;
    push_tail(&mut value, &mark.kind)?;
    Ok(put(tables::MARKS, place, value))
}

/// The row of the start number and of how many marks there are.
pub fn encode_meta(alloc: Global, start: u32, marks: u64) -> Result<Change, NoMemory>
    ensures row { IfOk result (λ change. change ≡ meta_row start marks) }
    ensures grammar { OnOk result (IsRecord (rec.Meta start marks)) }
{
    let mut place = Vec::new(alloc);
    place.push(b'S')?;
    let mut value = Vec::new(alloc);
    push_u32(&mut value, start)?;
    push_u64(&mut value, marks)?;
    Ok(put(tables::META, place, value))
}

impl MarkKind {
    fn copy(&self, alloc: Global) -> Result<MarkKind, NoMemory>
        ensures { IfOk result (λ kind. kind ≡ self.now) }
    {
        Ok(match self {
            MarkKind::Num(numbers) => {
                let numbers = Vec::from_slice(alloc, numbers.as_slice())?;
                MarkKind::Num(Items::from_vec(numbers))
            }
            MarkKind::Rec => MarkKind::Rec,
            MarkKind::V1 => MarkKind::V1,
            MarkKind::Bad1 { index, reason } => MarkKind::Bad1 {
                index: *index,
                reason: *reason,
            },
            MarkKind::Again1 => MarkKind::Again1,
            MarkKind::V2 => MarkKind::V2,
            MarkKind::Bad2 { index, reason } => MarkKind::Bad2 {
                index: *index,
                reason: *reason,
            },
            MarkKind::Again2 => MarkKind::Again2,
            MarkKind::Gone => MarkKind::Gone,
        })
    }
}

impl Mark {
    /// An equal mark.
    pub fn copy(&self, alloc: Global) -> Result<Mark, NoMemory>
        ensures { IfOk result (λ mark. mark ≡ self.now) }
    {
        Ok(Mark {
            seq: self.seq,
            unit: self.unit,
            kind: self.kind.copy(alloc)?,
        })
    }
}

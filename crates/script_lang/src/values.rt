ghost use Rattle.script_lang.specs.Reading.{Gives, object_and_values, value_of, values_in, with_values};

use crate::parts::{are_key_bytes, read_name};
use crate::read_fault::ReadFault;
use crate::script_line::RawValue;
use enq_base::{Items, Name, cut_at};
use std::alloc::Global;

#[tactic(auto, unfolding(crate::specs::Reading::value_of))]
fn read_value(alloc: Global, text: &[u8]) -> Result<RawValue, ReadFault>
    ensures { Gives (λ v. v) result (value_of text.now) }
{
    let (field, raw) = cut_at(text, b'=').ok_or(ReadFault::BadLine)?;
    let field = read_name(field).ok_or(ReadFault::BadLine)?;
    if !are_key_bytes(raw) {
        return Err(ReadFault::BadLine);
    }
    let raw = Items::from_vec(Vec::from_slice(alloc, raw)?);
    Ok(RawValue { field, raw })
}

/// Values with one space between each two.
fn read_values(alloc: Global, text: &[u8]) -> Result<Items<RawValue>, ReadFault>
    ensures { Gives (λ vs. vs) result (values_in text.now) }
{
    let mut values = Vec::new(alloc);
    let mut rest = text;
    while let Some((part, after)) = cut_at(rest, b' ') {
        values.push(read_value(alloc, part)?)?;
        rest = after;
    }
    values.push(read_value(alloc, rest)?)?;
    Ok(Items::from_vec(values))
}

/// A part, and the values behind it.
#[tactic(auto, unfolding(crate::specs::Reading::with_values))]
pub(crate) fn part_and_values(
    alloc: Global,
    text: &[u8],
) -> Result<(&[u8], Items<RawValue>), ReadFault>
    ensures { Gives (λ x. (x.0.now, x.1)) result (with_values text.now) }
{
    match cut_at(text, b' ') {
        None => Ok((text, Items::from_vec(Vec::new(alloc)))),
        Some((part, rest)) => Ok((part, read_values(alloc, rest)?)),
    }
}

/// An object, and the values behind it.
#[tactic(auto, unfolding(crate::specs::Reading::object_and_values))]
pub(crate) fn object_and_values(
    alloc: Global,
    text: &[u8],
) -> Result<(Name, Items<RawValue>), ReadFault>
    ensures { Gives (λ x. (x.0, x.1)) result (object_and_values text.now) }
{
    let (object, values) = part_and_values(alloc, text)?;
    let object = read_name(object).ok_or(ReadFault::BadLine)?;
    Ok((object, values))
}

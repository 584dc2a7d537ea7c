ghost use Rattle.std.specs.Prelude.{◌≡◌, IfErr};
ghost use Rattle.std.specs.List.{list_all};
ghost use Rattle.byte_fields.specs.Fields.{Gives, all_if};
ghost use Rattle.byte_fields.specs.declared.fault.ReadFault.TheVariants.{Bad};
ghost use Rattle.enq_base.specs.Grammar.{is_digit, is_text};
ghost use Rattle.update_records.specs.Reading.{byte_at, short_at, name_at, key_at, pattern_at, unit_at, nr_at, part_at};

use byte_fields::{ReadFault, bytes_at, u32_at};
use enq_base::{Key, Name, Pattern, Text, TextFault, UnitKey, read_name};
use std::alloc::Global;

#[tactic(auto, unfolding(crate::specs::Reading::byte_at))]
pub fn byte_at(bytes: &[u8]) -> Result<(u8, &[u8]), ReadFault>
    ensures gives { Gives (λ x. (x.0, x.1.now)) result (byte_at bytes.now) }
    ensures bad { IfErr result (λ fault. fault ≡ Bad) }
{
    let [byte, rest @ ..] = bytes else {
        return Err(ReadFault::Bad);
    };
    Ok((*byte, rest))
}

#[tactic(auto, unfolding(crate::specs::Reading::short_at))]
fn short_at(bytes: &[u8]) -> Result<(&[u8], &[u8]), ReadFault>
    ensures gives { Gives (λ x. (x.0.now, x.1.now)) result (short_at bytes.now) }
    ensures bad { IfErr result (λ fault. fault ≡ Bad) }
{
    let (len, rest) = byte_at(bytes)?;
    bytes_at(rest, len as usize)
}

#[tactic(auto, unfolding(crate::specs::Reading::name_at))]
pub fn name_at(bytes: &[u8]) -> Result<(Name, &[u8]), ReadFault>
    ensures gives { Gives (λ x. (x.0, x.1.now)) result (name_at bytes.now) }
    ensures bad { IfErr result (λ fault. fault ≡ Bad) }
{
    let (text, rest) = short_at(bytes)?;
    match read_name(text) {
        Some(name) => Ok((name, rest)),
        None => Err(ReadFault::Bad),
    }
}

#[tactic(auto, unfolding(crate::specs::Reading::key_at))]
pub fn key_at(bytes: &[u8]) -> Result<(Key, &[u8]), ReadFault>
    ensures gives { Gives (λ x. (x.0, x.1.now)) result (key_at bytes.now) }
    ensures bad { IfErr result (λ fault. fault ≡ Bad) }
{
    let (text, rest) = short_at(bytes)?;
    match Key::new(text) {
        Some(key) => Ok((key, rest)),
        None => Err(ReadFault::Bad),
    }
}

#[tactic(auto, unfolding(crate::specs::Reading::pattern_at))]
pub fn pattern_at(bytes: &[u8]) -> Result<(Pattern, &[u8]), ReadFault>
    ensures gives { Gives (λ x. (x.0, x.1.now)) result (pattern_at bytes.now) }
    ensures bad { IfErr result (λ fault. fault ≡ Bad) }
{
    let (text, rest) = short_at(bytes)?;
    match Pattern::new(text) {
        Some(pattern) => Ok((pattern, rest)),
        None => Err(ReadFault::Bad),
    }
}

#[tactic(auto, unfolding(crate::specs::Reading::unit_at))]
pub fn unit_at(bytes: &[u8]) -> Result<(UnitKey, &[u8]), ReadFault>
    ensures gives { Gives (λ x. (x.0, x.1.now)) result (unit_at bytes.now) }
    ensures bad { IfErr result (λ fault. fault ≡ Bad) }
{
    let (start, rest) = u32_at(bytes)?;
    let (session, rest) = u32_at(rest)?;
    let (luw, rest) = u32_at(rest)?;
    Ok((
        UnitKey {
            start,
            session,
            luw,
        },
        rest,
    ))
}

fn is_digit(byte: u8) -> bool
    ensures { result ≡ is_digit byte }
{
    byte >= b'0' && byte <= b'9'
}

fn are_digits(bytes: &[u8]) -> bool
    ensures { result ≡ list_all is_digit bytes.now }
{
    bytes.iter().all(|b| is_digit(*b))
}

/// The two digits of an interval.
#[tactic(auto, unfolding(byte_fields::specs::Fields::bytes_at, crate::specs::Reading::nr_at))]
pub fn nr_at(bytes: &[u8]) -> Result<([u8; 2], &[u8]), ReadFault>
    ensures gives { Gives (λ x. (x.0, x.1.now)) result (nr_at bytes.now) }
    ensures bad { IfErr result (λ fault. fault ≡ Bad) }
{
    let (digits, rest) = bytes_at(bytes, 2)?;
    if are_digits(digits) {
        Ok(([digits[0], digits[1]], rest))
    } else {
        Err(ReadFault::Bad)
    }
}

/// Part 1 or 2.
#[tactic(auto, unfolding(crate::specs::Reading::part_at))]
pub fn part_at(bytes: &[u8]) -> Result<(u8, &[u8]), ReadFault>
    ensures gives { Gives (λ x. (x.0, x.1.now)) result (part_at bytes.now) }
    ensures bad { IfErr result (λ fault. fault ≡ Bad) }
{
    let (part, rest) = byte_at(bytes)?;
    if part >= 1 && part <= 2 {
        Ok((part, rest))
    } else {
        Err(ReadFault::Bad)
    }
}

/// All of the bytes, as a text.
pub fn text_of(alloc: Global, bytes: &[u8]) -> Result<Text, ReadFault>
    ensures { Gives (λ x. x) result (all_if is_text bytes.now) }
{
    match Text::new(alloc, bytes) {
        Ok(text) => Ok(text),
        Err(TextFault::NoMemory) => Err(ReadFault::NoMemory),
        Err(TextFault::Length) => Err(ReadFault::Bad),
        Err(TextFault::Byte) => Err(ReadFault::Bad),
    }
}

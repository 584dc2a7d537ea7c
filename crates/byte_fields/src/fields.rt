ghost use Rattle.std.specs.Prelude.{◌≡◌, IfErr};
ghost use Rattle.std.specs.Int.{w16, w32, w64};
ghost use Rattle.byte_fields.specs.Fields.{Gives, bytes_at, number_at};
ghost use Rattle.byte_fields.specs.declared.fault.ReadFault.TheVariants.{Bad};

use crate::fault::ReadFault;
use byteorder::{BigEndian, ByteOrder};

/// So many bytes, and the bytes behind them.
#[tactic(auto, unfolding(crate::specs::Fields::bytes_at))]
pub fn bytes_at(bytes: &[u8], len: usize) -> Result<(&[u8], &[u8]), ReadFault>
    ensures gives { Gives (λ x. (x.0.now, x.1.now)) result (bytes_at len bytes.now) }
    ensures bad { IfErr result (λ fault. fault ≡ Bad) }
{
    if bytes.len() < len {
        return Err(ReadFault::Bad);
    }
    Ok(bytes.split_at(len))
}

/// The number in the first two bytes.
#[tactic(auto, using(crate::proofs::BigEndian::number_of_2), unfolding(crate::specs::Fields::bytes_at, crate::specs::Fields::number_at))]
pub fn u16_at(bytes: &[u8]) -> Result<(u16, &[u8]), ReadFault>
    ensures gives { Gives (λ x. (x.0, x.1.now)) result (number_at w16 bytes.now) }
    ensures bad { IfErr result (λ fault. fault ≡ Bad) }
{
    let (front, rest) = bytes_at(bytes, 2)?;
    Ok((BigEndian::read_u16(front), rest))
}

/// The number in the first four bytes.
#[tactic(auto, using(crate::proofs::BigEndian::number_of_4), unfolding(crate::specs::Fields::bytes_at, crate::specs::Fields::number_at))]
pub fn u32_at(bytes: &[u8]) -> Result<(u32, &[u8]), ReadFault>
    ensures gives { Gives (λ x. (x.0, x.1.now)) result (number_at w32 bytes.now) }
    ensures bad { IfErr result (λ fault. fault ≡ Bad) }
{
    let (front, rest) = bytes_at(bytes, 4)?;
    Ok((BigEndian::read_u32(front), rest))
}

/// The number in the first eight bytes.
#[tactic(auto, using(crate::proofs::BigEndian::number_of_8), unfolding(crate::specs::Fields::bytes_at, crate::specs::Fields::number_at))]
pub fn u64_at(bytes: &[u8]) -> Result<(u64, &[u8]), ReadFault>
    ensures gives { Gives (λ x. (x.0, x.1.now)) result (number_at w64 bytes.now) }
    ensures bad { IfErr result (λ fault. fault ≡ Bad) }
{
    let (front, rest) = bytes_at(bytes, 8)?;
    Ok((BigEndian::read_u64(front), rest))
}

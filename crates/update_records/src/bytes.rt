ghost use Rattle.std.specs.Prelude.{◌≡◌, ◌≤◌, ◌<◌, ◌++◌, length, OnOk, IfOk};
ghost use Rattle.std.specs.Int.{cast_unsigned, w64};
ghost use Rattle.byteorder.specs.Endian.{big_bytes};
ghost use Rattle.update_records.specs.Grammar.{IsUnitKey};
ghost use Rattle.update_records.specs.RecordRows.{short, unit_bytes};

use byteorder::{BigEndian, ByteOrder};
use enq_base::{Items, NoMemory, UnitKey};
use keeper_api::Change;
use std::alloc::Global;

pub fn push_bytes(out: &mut Vec<u8>, bytes: &[u8]) -> Result<(), NoMemory>
    ensures { OnOk result (out.new.items ≡ out.old.items ++ bytes.now) }
{
    Ok(out.extend_from_slice(bytes)?)
}

/// A text with its length in front.
pub fn push_short(out: &mut Vec<u8>, text: &[u8]) -> Result<(), NoMemory>
    requires { length text.now < 256 }
    ensures { OnOk result (out.new.items ≡ out.old.items ++ short text.now) }
{
    out.push(text.len() as u8)?;
    push_bytes(out, text)
}

pub fn push_u16(out: &mut Vec<u8>, number: u16) -> Result<(), NoMemory>
    ensures { OnOk result (out.new.items ≡ out.old.items ++ big_bytes 2 number) }
{
    let mut bytes = [0; 2];
    BigEndian::write_u16(&mut bytes, number);
    push_bytes(out, &bytes)
}

pub fn push_u32(out: &mut Vec<u8>, number: u32) -> Result<(), NoMemory>
    ensures { OnOk result (out.new.items ≡ out.old.items ++ big_bytes 4 number) }
{
    let mut bytes = [0; 4];
    BigEndian::write_u32(&mut bytes, number);
    push_bytes(out, &bytes)
}

pub fn push_u64(out: &mut Vec<u8>, number: u64) -> Result<(), NoMemory>
    ensures { OnOk result (out.new.items ≡ out.old.items ++ big_bytes 8 number) }
{
    let mut bytes = [0; 8];
    BigEndian::write_u64(&mut bytes, number);
    push_bytes(out, &bytes)
}

/// A number with its sign, in two's complement.
pub fn push_i64(out: &mut Vec<u8>, number: i64) -> Result<(), NoMemory>
    ensures { OnOk result (out.new.items ≡ out.old.items ++ big_bytes 8 (cast_unsigned w64 number)) }
{
    let mut bytes = [0; 8];
    BigEndian::write_i64(&mut bytes, number);
    push_bytes(out, &bytes)
}

pub fn bytes_of_unit(alloc: Global, key: &UnitKey) -> Result<Vec<u8>, NoMemory>
    ensures bytes { IfOk result (λ bytes. bytes.items ≡ unit_bytes key.now) }
    ensures grammar { OnOk result (IsUnitKey key.now) }
{
    let mut bytes = Vec::new(alloc);
    push_u32(&mut bytes, key.start)?;
    push_u32(&mut bytes, key.session)?;
    push_u32(&mut bytes, key.luw)?;
    Ok(bytes)
}

pub fn put(table: u8, key: Vec<u8>, value: Vec<u8>) -> Change
    ensures { result ≡ Change.Put table key.items value.items }
{
    Change::Put {
        table,
        key: Items::from_vec(key),
        value: Items::from_vec(value),
    }
}

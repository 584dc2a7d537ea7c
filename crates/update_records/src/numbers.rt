ghost use Rattle.std.specs.Prelude.{◌≡◌, IfErr};
ghost use Rattle.byte_fields.specs.declared.fault.ReadFault.TheVariants.{Bad};
ghost use Rattle.byte_fields.specs.Fields.{Gives, many};
ghost use Rattle.update_records.specs.Reading.{num_at, nums_at};

use crate::fields::{name_at, nr_at};
use byte_fields::{ReadFault, u16_at, u64_at};
use enq_base::{Items, Num};
use std::alloc::Global;

#[tactic(auto, unfolding(crate::specs::Reading::num_at))]
fn num_at(bytes: &[u8]) -> Result<(Num, &[u8]), ReadFault>
    ensures gives { Gives (λ x. (x.0, x.1.now)) result (num_at bytes.now) }
    ensures bad { IfErr result (λ fault. fault ≡ Bad) }
{
    let (object, rest) = match name_at(bytes) {
        Ok(read) => read,
        Err(fault) => return Err(fault),
    };
    let (nr, rest) = nr_at(rest)?;
    let (number, rest) = u64_at(rest)?;
    Ok((Num { object, nr, number }, rest))
}

fn many_at(alloc: Global, count: u16, bytes: &[u8]) -> Result<(Vec<Num>, &[u8]), ReadFault>
    ensures { Gives (λ x. (x.0.items, x.1.now)) result (many num_at count bytes.now) }
{
    let mut numbers = Vec::new(alloc);
    let mut rest = bytes;
    for _ in 0..count {
        match num_at(rest) {
            Ok((number, after)) => {
                numbers.push(number)?;
                rest = after;
            }
            Err(fault) => return Err(fault),
        }
    }
    Ok((numbers, rest))
}

/// How many numbers there are, and each of them.
#[tactic(auto, unfolding(crate::specs::Reading::nums_at))]
pub fn nums_at(alloc: Global, bytes: &[u8]) -> Result<(Items<Num>, &[u8]), ReadFault>
    ensures { Gives (λ x. (x.0, x.1.now)) result (nums_at bytes.now) }
{
    let (count, rest) = u16_at(bytes)?;
    let (numbers, rest) = many_at(alloc, count, rest)?;
    Ok((Items::from_vec(numbers), rest))
}

ghost use Rattle.std.specs.Prelude.{◌≡◌};
ghost use Rattle.module_effects.specs.Effects.{row_after, addend_in, added_row, IsRowAfter};

use crate::fault::DeedFault;
use crate::integer::{integer_text, read_integer};
use enq_base::{Deed, Reason, Text};
use std::alloc::Global;

/// What a deed makes of a row.
pub fn text_after(alloc: Global, row: &Option<Text>, deed: &Deed) -> Result<Option<Text>, DeedFault>
    ensures { IsRowAfter (row_after row.now deed.now) result }
{
    match deed {
        Deed::Put(text) => Ok(Some(text.copy(alloc)?)),
        Deed::Ins(text) => {
            if row.is_some() {
                return Err(DeedFault::Refused(Reason::Duplicate));
            }
            Ok(Some(text.copy(alloc)?))
        }
        Deed::Del => {
            if row.is_none() {
                return Err(DeedFault::Refused(Reason::Missing));
            }
            Ok(None)
        }
        Deed::Add(number) => sum_text(alloc, addend(row), *number),
    }
}

fn addend(row: &Option<Text>) -> Option<i64>
    ensures { result ≡ addend_in row.now }
{
    match row {
        None => Some(0),
        Some(text) => read_integer(text.bytes()),
    }
}

fn sum_text(alloc: Global, addend: Option<i64>, number: i64) -> Result<Option<Text>, DeedFault>
    ensures { IsRowAfter (added_row addend number) result }
{
    let Some(addend) = addend else {
        return Err(DeedFault::Refused(Reason::NotNumber));
    };
    match addend.checked_add(number) {
        Some(sum) => Ok(Some(integer_text(alloc, sum)?)),
        None => Err(DeedFault::Refused(Reason::Overflow)),
    }
}

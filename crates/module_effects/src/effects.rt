ghost use Rattle.std.specs.Prelude.{◌≡◌, map, IsTrue, IfOk, IfErr};
ghost use Rattle.module_effects.specs.Spots.{covers, row_at, IsDone, IsRefused, IsDoneOver, IsRefusedOver};

use crate::fault::EffectFault;
use crate::row::text_after;
use crate::spot::{Spot, copy_spots, place_of};
use enq_base::Effect;
use std::alloc::Global;

/// Applies the effects in order to the rows that they touch, or none of them, and answers the rows afterwards.
///
/// Where two spots are of one row, the first counts. An effect with a number past 4,294,967,295 that would be refused
/// is answered as want of memory.
pub fn apply(alloc: Global, spots: &[Spot], effects: &[Effect]) -> Result<Vec<Spot>, EffectFault>
    requires { IsTrue (covers spots.now effects.now) }
    ensures done { IfOk result (λ after. IsDone spots.now effects.now after.items) }
    ensures refused { IfErr result (IsRefused spots.now effects.now) }
    ensures same_rows { IfOk result (λ after. map row_at after.items ≡ map row_at spots.now) }

    // Tables that agree may be made of any others, so there is one right answer.
    ensures only_done { IfOk result (λ after. IsDoneOver spots.now effects.now after.items) }
    ensures only_refused { IfErr result (IsRefusedOver spots.now effects.now) }
{
    let mut rows = copy_spots(alloc, spots)?;
    for (i, effect) in effects.iter().enumerate() {
        let Some(place) = place_of(rows.as_slice(), effect) else {
            unreachable!();
        };
        let row = &mut rows[place];
        match text_after(alloc, &row.text, &effect.deed) {
            Ok(text) => row.text = text,
            Err(fault) => return Err(fault.at(i + 1)),
        }
    }
    Ok(rows)
}

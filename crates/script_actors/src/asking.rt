ghost use Rattle.std.specs.Prelude.{◌≡◌, IfOk, List, OnOk, vec_capacity, vec_len};
ghost use Rattle.ledger_steps.specs.Levels.{intervals_of};
ghost use Rattle.script_actors.specs.Carried.{HasPlaceFor, IsNumberWanted, IsWanted, Knows};
ghost use Rattle.script_actors.specs.Drawings.{DeskEntry, with_stock};

use crate::uncommitted::Uncommitted;
use enq_base::{Name, NoMemory};
use hall_model::Command;
use range_list::Ranges;
use std::alloc::Global;

/// What a line asks of its desk that comes to a call.
#[derive(Clone, Copy, Debug, PartialEq, Eq)]
pub(crate) enum Wanted {
    /// The call, which for a COMMIT has the numbers that were drawn.
    Call,
    /// A number of an interval with a buffer, from its stock.
    Number,
    /// Nothing: the unit has no room for another number.
    TooMany,
}

/// What the line asks whose call it would be. Whatever it is, what was drawn stays; for a number from a stock there is
/// room.
pub(crate) fn wanted_of(
    ranges: &Ranges,
    command: &Command,
    drawn: &mut Uncommitted,
) -> Result<Wanted, NoMemory>
    ensures stock { drawn.new.stock.items ≡ drawn.old.stock.items }
    ensures count { drawn.new.count ≡ drawn.old.count }
    ensures wanted { IfOk result (λ w. (entries : List DeskEntry)
        → Knows entries drawn.old.stock.items drawn.old.count
        → IsWanted (intervals_of ranges.now) entries command.now w) }
    ensures room { IfOk result (λ w. HasPlaceFor w (vec_len drawn.new.stock) (vec_capacity drawn.new.stock)) }
{
    match command {
        Command::Number { object, nr, .. } => number_of(ranges, object, *nr, drawn),
        _ => Ok(Wanted::Call),
    }
}

/// The same of a number.
fn number_of(
    ranges: &Ranges,
    object: &Name,
    nr: [u8; 2],
    drawn: &mut Uncommitted,
) -> Result<Wanted, NoMemory>
    ensures stock { drawn.new.stock.items ≡ drawn.old.stock.items }
    ensures count { drawn.new.count ≡ drawn.old.count }
    ensures wanted { IfOk result (λ w. (entries : List DeskEntry)
        → Knows entries drawn.old.stock.items drawn.old.count
        → IsNumberWanted (intervals_of ranges.now) entries object.now nr w) }
    ensures room { IfOk result (λ w. HasPlaceFor w (vec_len drawn.new.stock) (vec_capacity drawn.new.stock)) }
{
    let Some(range) = ranges.find(object, nr) else {
        return Ok(Wanted::Call);
    };
    if drawn.is_full() {
        return Ok(Wanted::TooMany);
    }
    if range.interval.buffer == 0 {
        return Ok(Wanted::Call);
    }
    drawn.reserve()?;
    Ok(Wanted::Number)
}

/// A COMMIT gets the numbers that were drawn. Any other call stays.
pub(crate) fn give_stock(
    alloc: Global,
    command: &mut Command,
    drawn: &Uncommitted,
) -> Result<(), NoMemory>
    ensures { OnOk result (command.new ≡ with_stock drawn.now.stock.items command.old) }
{
    match command {
        Command::Commit { stock, .. } => {
            *stock = drawn.copy(alloc)?;
            Ok(())
        }
        _ => Ok(()),
    }
}

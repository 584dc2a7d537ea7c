ghost use Rattle.std.specs.Prelude.{◌≡◌, IfOk, map};
ghost use Rattle.std.specs.Option.{option_copied};
ghost use Rattle.hall_model.specs.Kept.{draws_in};
ghost use Rattle.hall_model.specs.Numbers.{next_of, range_shown, shown_range};
ghost use Rattle.number_ranges.specs.Draws.{IsRange};
ghost use Rattle.number_ranges.specs.Intervals.{IsInterval};
ghost use Rattle.ledger_steps.specs.Drawn.{AreDrawnRight};
ghost use Rattle.ledger_steps.specs.Levels.{present};
ghost use Rattle.update_records.specs.Business.{numbers_of};

use crate::numbers::{drawn_of, present};
use crate::sessions::Sessions;
use enq_base::NoMemory;
use hall_model::Session;
use keeper_api::Keeper;
use ledger_steps::NumberRange;
use number_ranges::{Interval, Range};
use posting::Books;
use std::alloc::Global;

/// The ranges with the levels that the store has, and what sessions have drawn of them.
pub(crate) fn shown_ranges<K: Keeper>(
    alloc: Global,
    sessions: &Sessions,
    ranges: &[NumberRange],
    books: &Books<K>,
) -> Result<Vec<Range>, NoMemory>
    requires { AreDrawnRight ranges.now books.now.ledger.levels (draws_in sessions.now)
        (numbers_of books.now.ledger.units books.now.ledger.marks) }
    ensures { IfOk result (λ shown. shown.items ≡ map (range_shown sessions.now books.now.ledger.levels) ranges.now) }
{
    let mut shown = Vec::new(alloc);
    for range in ranges {
        shown.push(shown_range(sessions, range, books))?;
    }
    Ok(shown)
}

fn shown_range<K: Keeper>(sessions: &Sessions, range: &NumberRange, books: &Books<K>) -> Range
    requires interval { IsInterval (present books.now.ledger.levels range.now.interval) }
    requires range { IsRange (range_shown sessions.now books.now.ledger.levels range.now) }
    ensures { result ≡ range_shown sessions.now books.now.ledger.levels range.now }
{
    let interval = present(range, books);
    let next = next_of(range, &interval);
    range_of(interval, sessions.holder(&interval), next)
}

/// The number that memory hands out next. Where there is no buffer it is the one behind the level.
fn next_of(range: &NumberRange, interval: &Interval) -> u64
    requires { IsInterval interval.now }
    ensures { result ≡ next_of range.now interval.now }
{
    if interval.buffer > 0 {
        range.next
    } else {
        interval.level + 1
    }
}

/// An interval with the session that it belongs to, if any, and the next number.
fn range_of(interval: Interval, holder: Option<&Session>, next: u64) -> Range
    requires { IsRange (shown_range interval next (option_copied holder)) }
    ensures { result ≡ shown_range interval next (option_copied holder.entry) }
{
    match holder {
        None => Range::of(interval, None, 0, next),
        Some(session) => {
            let drawn = drawn_of(&interval, session.draws.as_slice());
            Range::of(interval, Some(session.name), drawn, next)
        }
    }
}

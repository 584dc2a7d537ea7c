// What each actor of a run is given before its work.
ghost use Rattle.std.specs.Prelude.{◌≡◌, List, map, IfOk, OnOk, length};
ghost use Rattle.std.specs.List.{AllByRecursion, sum_by};
ghost use Rattle.ledger_steps.specs.Levels.{AreApart};
ghost use Rattle.number_ranges.specs.declared.interval.Interval.{Interval};
ghost use Rattle.number_stock.specs.Seats.{IsSeatOf};
ghost use Rattle.thread_runner.specs.Kits.{IsKitFor};
ghost use Rattle.thread_runner.specs.Stocking.{Cover, IsCutOf, IsFreshSeat, asked_of, bumped, bumped_for};
ghost use Rattle.turn_desks.specs.Stocks.{AreFresh, AreOfLand, AreRightsAt, AreSeatsAt, answered_of, draws_of, fact_of, limits_of};

use crate::stocking::is_named;
use enq_base::{Name, NoMemory};
use hall_model::{PastEntry, Who};
use number_stock::{Stock, StockSeat};
use script_actors::{Drawing, NumberedLine, is_done_by};
use script_lang::ScriptLine;
use std::alloc::Global;
use std::collections::VecDeque;
use turn_desks::{IntervalStock, Note};
use turn_lock::History;

/// What an actor is given: seats to draw numbers with, room for a note of each drawing, and room for their numbers.
#[derive(Drop)]
pub(crate) struct Kit<S: History<Entry = PastEntry>> {
    pub(crate) who: Who,
    pub(crate) seats: Vec<StockSeat>,
    pub(crate) notes: Vec<Note<S>>,
    pub(crate) numbers: Vec<Drawing>,
}

/// A kit for each of these callers, in their order. Its seats have as many draws as the caller's lines ask for.
pub(crate) fn equip_all<S: History<Entry = PastEntry>>(
    alloc: Global,
    callers: &[Who],
    lines: &[NumberedLine],
    stocks: &[IntervalStock],
    rights: &mut Vec<StockSeat>,
) -> Result<VecDeque<Kit<S>>, NoMemory>
    requires rights { AreRightsAt (map fact_of stocks.now) rights.old.items }
    ensures rights { AreRightsAt (map fact_of stocks.now) rights.new.items }
    ensures limits { limits_of rights.new.items ≡ limits_of rights.old.items }
    ensures handed { answered_of rights.new.items ≡ answered_of rights.old.items }
    ensures who { IfOk result (λ kits. map (λ k. k.who) kits.items ≡ callers.now) }
    ensures kits { IfOk result (λ kits. (intervals : List Interval) → AreApart intervals
        → AreOfLand intervals (map fact_of stocks.now) → Cover intervals (map fact_of stocks.now) lines.now
        → AllByRecursion (IsKitFor intervals (map fact_of stocks.now) lines.now) kits.items) }
{
    let mut kits = VecDeque::new(alloc);
    for who in callers {
        let kit = equip(alloc, who, lines, stocks, rights)?;
        kits.push_back(kit)?;
    }
    Ok(kits)
}

/// The kit of one caller.
fn equip<S: History<Entry = PastEntry>>(
    alloc: Global,
    who: &Who,
    lines: &[NumberedLine],
    stocks: &[IntervalStock],
    rights: &mut Vec<StockSeat>,
) -> Result<Kit<S>, NoMemory>
    requires rights { AreRightsAt (map fact_of stocks.now) rights.old.items }
    ensures rights { AreRightsAt (map fact_of stocks.now) rights.new.items }
    ensures limits { limits_of rights.new.items ≡ limits_of rights.old.items }
    ensures handed { answered_of rights.new.items ≡ answered_of rights.old.items }
    ensures who { IfOk result (λ k. k.who ≡ who.now) }
    ensures kit { IfOk result (λ k. (intervals : List Interval) → AreApart intervals
        → AreOfLand intervals (map fact_of stocks.now) → Cover intervals (map fact_of stocks.now) lines.now
        → IsKitFor intervals (map fact_of stocks.now) lines.now k) }
{
    let counts = counts_for(alloc, who, lines, stocks)?;
    let draws = total(counts.as_slice())?;
    let seats = seats_with(alloc, counts.as_slice(), stocks, rights)?;
    let notes = Vec::with_capacity(alloc, draws)?;
    let numbers = Vec::with_capacity(alloc, notes.capacity())?;
    Ok(Kit {
        who: *who,
        seats,
        notes,
        numbers,
    })
}

/// How many numbers of each stock the caller's lines ask for, in one pass over the lines.
fn counts_for(
    alloc: Global,
    who: &Who,
    lines: &[NumberedLine],
    stocks: &[IntervalStock],
) -> Result<Vec<u64>, NoMemory>
    ensures { IfOk result (λ counts. counts.items ≡ asked_of (map fact_of stocks.now) who.now lines.now) }
{
    let mut counts = Vec::with_capacity(alloc, stocks.len())?;
    for stock in stocks {
        let _ = stock;
        counts.push_reserved(0);
    }
    for numbered in lines {
        if is_done_by(&numbered.line, who) {
            bump_for(stocks, &numbered.line, &mut counts)?;
        }
    }
    Ok(counts)
}

/// One more for each stock that the line asks for a number of.
fn bump_for(
    stocks: &[IntervalStock],
    line: &ScriptLine,
    counts: &mut Vec<u64>,
) -> Result<(), NoMemory>
    requires { length counts.old.items ≡ length stocks.now }
    ensures { OnOk result (counts.new.items ≡ bumped_for (map fact_of stocks.now) line.now counts.old.items) }
{
    match line {
        ScriptLine::Num { object, nr, .. } => bump(stocks, object, *nr, counts),
        _ => Ok(()),
    }
}

/// One more for each stock of this name.
fn bump(
    stocks: &[IntervalStock],
    object: &Name,
    nr: [u8; 2],
    counts: &mut Vec<u64>,
) -> Result<(), NoMemory>
    requires { length counts.old.items ≡ length stocks.now }
    ensures { OnOk result (counts.new.items ≡ bumped (map fact_of stocks.now) object.now nr counts.old.items) }
{
    for place in 0..stocks.len() {
        if is_named(&stocks[place].interval, object, nr) {
            counts[place] = counts[place].checked_add(1).ok_or(NoMemory)?;
        }
    }
    Ok(())
}

/// All of these together.
fn total(counts: &[u64]) -> Result<usize, NoMemory>
    ensures { IfOk result (λ n. n ≡ sum_by (λ c. c) counts.now) }
{
    let mut sum: usize = 0;
    for count in counts {
        sum = sum.checked_add(*count as usize).ok_or(NoMemory)?;
    }
    Ok(sum)
}

/// A seat at each stock with so many draws. The rights have enough: else memory would be wanting.
fn seats_with(
    alloc: Global,
    counts: &[u64],
    stocks: &[IntervalStock],
    rights: &mut Vec<StockSeat>,
) -> Result<Vec<StockSeat>, NoMemory>
    requires counts { length counts.now ≡ length stocks.now }
    requires rights { AreRightsAt (map fact_of stocks.now) rights.old.items }
    ensures rights { AreRightsAt (map fact_of stocks.now) rights.new.items }
    ensures limits { limits_of rights.new.items ≡ limits_of rights.old.items }
    ensures handed { answered_of rights.new.items ≡ answered_of rights.old.items }
    ensures own { IfOk result (λ s. AreSeatsAt (map fact_of stocks.now) s.items) }
    ensures fresh { IfOk result (λ s. AreFresh s.items) }
    ensures draws { IfOk result (λ s. draws_of s.items ≡ counts.now) }
{
    let mut seats = Vec::with_capacity(alloc, stocks.len())?;
    for place in 0..stocks.len() {
        let seat = seat_with(counts[place], &stocks[place].stock, &mut rights[place])?;
        seats.push_reserved(seat);
    }
    Ok(seats)
}

/// A seat with so many draws of the right's.
fn seat_with(count: u64, stock: &Stock, right: &mut StockSeat) -> Result<StockSeat, NoMemory>
    requires own { IsSeatOf stock.now right.old }
    ensures own { IsSeatOf stock.now right.new }
    ensures kept { IsCutOf right.old right.new }
    ensures seat { IfOk result (λ s. IsSeatOf stock.now s × IsFreshSeat count s) }
{
    let draws = u32::try_from(count).map_err(|_| NoMemory)?;
    if right.left() < draws {
        return Err(NoMemory);
    }
    Ok(stock.cut_off(right, draws))
}

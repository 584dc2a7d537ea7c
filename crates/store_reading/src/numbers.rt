ghost use Rattle.std.specs.Prelude.{◌≡◌, ◌++◌, ◌∷◌, [], List, Some, OnOk, IfOk, if◌then◌else◌};
ghost use Rattle.module_effects.specs.Rows.{RowName};
ghost use Rattle.std.specs.HashMap.{get};
ghost use Rattle.std.specs.List.{slice_get};
ghost use Rattle.enq_base.specs.declared.owner.UnitKey.{UnitKey};
ghost use Rattle.enq_base.specs.Ids.{id_of, same_id};
ghost use Rattle.store_reading.specs.Intervals.{committed, numbers_at, numbers_by, numbers_told};
ghost use Rattle.store_reading.specs.Standings.{numbers_for, numbers_in_header, numbers_there, AreNumbers, ArePlaces};
ghost use Rattle.update_records.specs.declared.stored.Record.{Record};
ghost use Rattle.update_records.specs.Business.{is_from};

use crate::interval_id::{IntervalId, interval_id};
use enq_base::{Name, NoMemory, Num, UnitId, UnitKey, id_of};
use std::alloc::Global;
use std::collections::HashMap;
use update_records::{MarkKind, Record};

fn add_number(
    alloc: Global,
    lists: &mut HashMap<IntervalId, Vec<u64>>,
    num: &Num,
) -> Result<(), NoMemory>
    ensures { OnOk result ((name : RowName) → numbers_for lists.new name
        ≡ (if is_from name num.now then numbers_for lists.old name ++ num.now.number ∷ [] else numbers_for lists.old
        name)) }
{
    let list = lists
        .entry(interval_id(&num.object, num.nr))?
        .or_insert(Vec::new(alloc));
    list.push(num.number)?;
    Ok(())
}

/// The numbers of each interval, in order.
pub fn lists_of(alloc: Global, numbers: &[Num]) -> Result<HashMap<IntervalId, Vec<u64>>, NoMemory>
    ensures { IfOk result (λ lists. AreNumbers lists numbers.now) }
{
    let mut lists = HashMap::new(alloc);
    for num in numbers {
        add_number(alloc, &mut lists, num)?;
    }
    Ok(lists)
}

pub fn numbers_for<'a>(
    lists: &'a HashMap<IntervalId, Vec<u64>>,
    object: &Name,
    nr: [u8; 2],
) -> &'a [u64]
    ensures { result.now ≡ numbers_for lists.now (object.now, nr) }
{
    match lists.get(&interval_id(object, nr)) {
        Some(list) => list.as_slice(),
        None => &[],
    }
}

fn add_place(
    places: &mut HashMap<UnitId, usize>,
    stored: &Record,
    place: usize,
) -> Result<(), NoMemory>
    ensures { OnOk result
        ((headers : List Record) → slice_get headers place ≡ Some stored.now → (key : UnitKey)
        → numbers_there headers (get same_id places.new (id_of key))
        ≡ numbers_told key (numbers_there headers (get same_id places.old (id_of key))) stored.now) }
{
    if let Record::Header { unit, .. } = stored {
        places.insert(id_of(unit), place)?;
    }
    Ok(())
}

pub fn places_of(alloc: Global, headers: &[Record]) -> Result<HashMap<UnitId, usize>, NoMemory>
    ensures { IfOk result (λ places. ArePlaces places headers.now) }
{
    let mut places = HashMap::new(alloc);
    for place in 0..headers.len() {
        add_place(&mut places, &headers[place], place)?;
    }
    Ok(places)
}

fn header_numbers(stored: &Record) -> &[Num]
    ensures { result.now ≡ numbers_in_header stored.now }
{
    match stored {
        Record::Header { numbers, .. } => numbers.as_slice(),
        _ => &[],
    }
}

pub fn numbers_there(headers: &[Record], place: Option<usize>) -> &[Num]
    ensures { result.now ≡ numbers_there headers.now place }
{
    let Some(place) = place else {
        return &[];
    };
    match headers.get(place) {
        Some(stored) => header_numbers(stored),
        None => &[],
    }
}

pub fn place_of(places: &HashMap<UnitId, usize>, key: &UnitKey) -> Option<usize>
    ensures { result ≡ get same_id places.now (id_of key.now) }
{
    places.get(&id_of(key)).copied()
}

/// The numbers that a mark commits.
fn numbers_by<'a>(
    places: &HashMap<UnitId, usize>,
    headers: &'a [Record],
    stored: &'a Record,
) -> &'a [Num]
    ensures { ArePlaces places.now headers.now → result.now ≡ numbers_by headers.now stored.now }
{
    match stored {
        Record::Mark(mark) => match &mark.kind {
            MarkKind::Num(numbers) => numbers.as_slice(),
            MarkKind::Rec => numbers_there(headers, place_of(places, &mark.unit)),
            _ => &[],
        },
        _ => &[],
    }
}

/// All numbers that the marks commit, in order.
pub fn committed(alloc: Global, headers: &[Record], marks: &[Record]) -> Result<Vec<Num>, NoMemory>
    ensures { IfOk result (λ numbers. numbers.items ≡ committed headers.now marks.now) }
{
    let places = places_of(alloc, headers)?;
    let mut numbers = Vec::new(alloc);
    for stored in marks {
        numbers.extend_from_slice(numbers_by(&places, headers, stored))?;
    }
    Ok(numbers)
}

ghost use Rattle.std.specs.Prelude.{◌≡◌, ◌≤◌, IfSome, map, option_map};
ghost use Rattle.std.specs.List.{list_any};
ghost use Rattle.toml.specs.View.{view};
ghost use Rattle.landscape.specs.Broken.{Gives};
ghost use Rattle.landscape.specs.Ranges.{amounts_of, bounds_of, name_and_nr, range_of, ranges_of, shape_of};
ghost use Rattle.number_ranges.specs.Intervals.{is_named};
ghost use Rattle.landscape.specs.Seen.{seen};
ghost use Rattle.number_ranges.specs.Intervals.{is_named};

use crate::land_fault::{LandFault, bad_place};
use crate::tables::{integer_at, natural, number_within, table_with, text_at};
use enq_base::{Name, read_name};
use number_ranges::Interval;
use std::alloc::Global;
use toml::Value;

/// The six keys of a range.
#[derive(Clone, Copy)]
struct RangeShape<'a> {
    object: &'a str,
    nr: &'a str,
    from: i64,
    to: i64,
    buffer: i64,
    percent: i64,
}

/// The ranges of a document, in its order.
pub(crate) fn read_ranges(alloc: Global, values: &[Value]) -> Result<Vec<Interval>, LandFault>
    ensures { Gives (λ v. v.items) result (ranges_of (map view values.now)) }
{
    let mut intervals = Vec::new(alloc);
    for value in values {
        match read_range(intervals.as_slice(), value) {
            Ok(interval) => intervals.push(interval)?,
            Err(rule) => return Err(bad_place(rule, intervals.len())),
        }
    }
    Ok(intervals)
}

/// The interval behind the earlier ones, or the number of the first rule that it breaks.
#[tactic(auto, unfolding(crate::specs::Ranges::range_of))]
fn read_range(earlier: &[Interval], value: &Value) -> Result<Interval, u8>
    ensures { result ≡ range_of earlier.now (view value.now) }
{
    let shape = shape(value).ok_or(10)?;
    let (object, nr) = name_and_nr(&shape).ok_or(11)?;
    let (from, to) = bounds(&shape).ok_or(12)?;
    let (buffer, percent) = amounts(&shape).ok_or(13)?;
    if is_taken(earlier, &object, nr) {
        return Err(14);
    }
    Ok(Interval {
        object,
        nr,
        from,
        to,
        level: from - 1,
        buffer,
        percent,
    })
}

#[tactic(auto, unfolding(crate::specs::Ranges::shape_of))]
fn shape(value: &Value) -> Option<RangeShape<'_>>
    ensures { option_map seen result ≡ shape_of (view value.now) }
{
    let table = table_with(value, 6)?;
    let object = text_at(table, "object")?;
    let nr = text_at(table, "nr")?;
    let from = integer_at(table, "from")?;
    let to = integer_at(table, "to")?;
    let buffer = integer_at(table, "buffer")?;
    let percent = integer_at(table, "percent")?;
    Some(RangeShape {
        object,
        nr,
        from,
        to,
        buffer,
        percent,
    })
}

fn name_and_nr(shape: &RangeShape<'_>) -> Option<(Name, [u8; 2])>
    ensures { option_map (λ x. (x.0, x.1)) result ≡ name_and_nr (seen shape.now) }
{
    let object = read_name(shape.object.as_bytes())?;
    match shape.nr.as_bytes() {
        [tens, ones] if tens.is_ascii_digit() && ones.is_ascii_digit() => {
            Some((object, [*tens, *ones]))
        }
        _ => None,
    }
}

#[tactic(auto, unfolding(crate::specs::Ranges::bounds_of))]
fn bounds(shape: &RangeShape<'_>) -> Option<(u64, u64)>
    ensures ends { result ≡ bounds_of (seen shape.now) }
    ensures low { IfSome result (λ ends. 1 ≤ ends.0) }
{
    let from = natural(shape.from)?;
    let to = natural(shape.to)?;
    if 1 <= from && from <= to && to <= 999_999_999_999_999_999 {
        Some((from, to))
    } else {
        None
    }
}

#[tactic(auto, unfolding(crate::specs::Ranges::amounts_of))]
fn amounts(shape: &RangeShape<'_>) -> Option<(u32, u8)>
    ensures { result ≡ amounts_of (seen shape.now) }
{
    let buffer = number_within(0, 1_000_000, shape.buffer)?;
    let percent = number_within(0, 99, shape.percent)?;
    Some((buffer as u32, percent as u8))
}

fn is_taken(earlier: &[Interval], object: &Name, nr: [u8; 2]) -> bool
    ensures { result ≡ list_any (is_named object.now nr) earlier.now }
{
    earlier
        .iter()
        .any(|interval| is_named(interval, object, nr))
}

fn is_named(interval: &Interval, object: &Name, nr: [u8; 2]) -> bool
    ensures { result ≡ is_named object.now nr interval.now }
{
    interval.object.bytes() == object.bytes() && interval.nr.as_slice() == nr.as_slice()
}

ghost use Rattle.std.specs.Prelude.{◌≡◌, ◌++◌, IfOk, OnOk, string_bytes};
ghost use Rattle.monitors.specs.Monitors.{audit_text, sm12_text, sm13_text, snro_text};
ghost use Rattle.monitors.specs.Monitors.{counts_line, counts_of, units_with};
ghost use Rattle.monitors.specs.Shown.{doubt_line, end_line};

use crate::lines::{put_entries, put_line, put_ranges, put_units};
use crate::shown::{CountsText, ReplicaText};
use crate::views::{Counts, ServerView};
use enq_base::{Condition, Items, NoMemory, Status};
use lock_entry::Entry;
use number_ranges::Range;
use std::alloc::Global;
use update_records::UnitView;

/// Bytes that are owned.
pub type Bytes = Items<u8>;

/// The lock table: the server and its replica, then each entry in the order of granting. Where there is no
/// server, no entry is shown.
pub fn sm12(
    alloc: Global,
    line: u32,
    view: &ServerView,
    entries: &[Entry],
) -> Result<Bytes, NoMemory>
    ensures { IfOk result (λ text. text ≡ sm12_text line view.now entries.now) }
{
    let mut text = String::new(alloc);
    let replica = ReplicaText(view.attached);
    match view.condition {
        Condition::Up => {
            let used = entries.len();
            let limit = view.limit;
            put_line(
                &mut text,
                line,
                format_args!("SERVER UP REPLICA {replica} LOCKS {used} OF {limit}"),
            )?;
            put_entries(&mut text, line, entries)?;
        }
        Condition::NoServer => {
            put_line(
                &mut text,
                line,
                format_args!("SERVER NONE REPLICA {replica}"),
            )?;
        }
        Condition::Doubt(number) => put_doubt(&mut text, line, number)?,
    }
    ended(text, line)
}

/// The update records: each unit, in the order of recording.
pub fn sm13(
    alloc: Global,
    line: u32,
    condition: Condition,
    units: &[UnitView],
) -> Result<Bytes, NoMemory>
    ensures { IfOk result (λ text. text ≡ sm13_text line condition units.now) }
{
    let mut text = String::new(alloc);
    match condition {
        Condition::Doubt(number) => put_doubt(&mut text, line, number)?,
        _ => put_units(&mut text, line, units)?,
    }
    ended(text, line)
}

/// The number ranges: each interval, in the order of the landscape.
pub fn snro(
    alloc: Global,
    line: u32,
    condition: Condition,
    ranges: &[Range],
) -> Result<Bytes, NoMemory>
    ensures { IfOk result (λ text. text ≡ snro_text line condition ranges.now) }
{
    let mut text = String::new(alloc);
    match condition {
        Condition::Doubt(number) => put_doubt(&mut text, line, number)?,
        _ => put_ranges(&mut text, line, ranges)?,
    }
    ended(text, line)
}

/// The counts: the units, in all and by status, and how many marks and recorded numbers there are.
pub fn audit(
    alloc: Global,
    line: u32,
    condition: Condition,
    units: &[UnitView],
    marks: u32,
    numbers: u64,
) -> Result<Bytes, NoMemory>
    ensures { IfOk result (λ text. text ≡ audit_text line condition units.now marks numbers) }
{
    let mut text = String::new(alloc);
    match condition {
        Condition::Doubt(number) => put_doubt(&mut text, line, number)?,
        _ => put_counts(&mut text, line, units, marks, numbers)?,
    }
    ended(text, line)
}

fn put_counts(
    text: &mut String,
    line: u32,
    units: &[UnitView],
    marks: u32,
    numbers: u64,
) -> Result<(), NoMemory>
    ensures { OnOk result (string_bytes text.new ≡
        string_bytes text.old ++ counts_line line units.now marks numbers) }
{
    put_line(text, line, CountsText(counts(units, marks, numbers)))
}

fn counts(units: &[UnitView], marks: u32, numbers: u64) -> Counts
    ensures { result ≡ counts_of units.now marks numbers }
{
    Counts {
        units: units.len(),
        open: units_with(Status::Open, units),
        posted: units_with(Status::Posted, units),
        bad: units_with(Status::Bad, units),
        closed: units_with(Status::Closed, units),
        bad2: units_with(Status::Bad2, units),
        cancelled: units_with(Status::Cancelled, units),
        marks,
        numbers,
    }
}

fn units_with(status: Status, units: &[UnitView]) -> usize
    ensures { result ≡ units_with status units.now }
{
    units.iter().filter(|unit| status == unit.status).count()
}

fn put_doubt(text: &mut String, line: u32, number: u64) -> Result<(), NoMemory>
    ensures { OnOk result (string_bytes text.new ≡ string_bytes text.old ++ doubt_line line number) }
{
    put_line(text, line, format_args!("DOUBT {number}"))
}

/// The text with its last line.
fn ended(mut text: String, line: u32) -> Result<Bytes, NoMemory>
    ensures { IfOk result (λ whole. whole ≡ string_bytes text ++ end_line line) }
{
    put_line(&mut text, line, "END")?;
    Ok(Items::from_vec(text.into_bytes()))
}

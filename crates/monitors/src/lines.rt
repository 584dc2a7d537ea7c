ghost use Rattle.std.specs.Prelude.{◌≡◌, ◌++◌, IfSome, OnOk, string_bytes};
ghost use Rattle.monitors.specs.Monitors.{entry_lines, range_lines, unit_lines};
ghost use Rattle.monitors.specs.Shown.{shown_line};

use crate::shown::{EntryText, RangeText, UnitText};
use enq_base::NoMemory;
use lock_entry::Entry;
use number_ranges::Range;
use std::fmt;
use update_records::UnitView;

/// A line of a monitor: the number of the script line, and the text.
pub(crate) fn put_line<D: fmt::Display + Drop>(
    text: &mut String,
    line: u32,
    what: D,
) -> Result<(), NoMemory>
    ensures { OnOk result (IfSome (D.output what)
        (λ shown. string_bytes text.new ≡ string_bytes text.old ++ shown_line line shown)) }
{
    write!(text, "{line} {what}\n")?;
    Ok(())
}

pub(crate) fn put_entries(text: &mut String, line: u32, entries: &[Entry]) -> Result<(), NoMemory>
    ensures { OnOk result (string_bytes text.new ≡ string_bytes text.old ++ entry_lines line entries.now) }
{
    for entry in entries {
        put_line(text, line, EntryText(*entry))?;
    }
    Ok(())
}

pub(crate) fn put_units(text: &mut String, line: u32, units: &[UnitView]) -> Result<(), NoMemory>
    ensures { OnOk result (string_bytes text.new ≡ string_bytes text.old ++ unit_lines line units.now) }
{
    for unit in units {
        put_line(text, line, UnitText(*unit))?;
    }
    Ok(())
}

pub(crate) fn put_ranges(text: &mut String, line: u32, ranges: &[Range]) -> Result<(), NoMemory>
    ensures { OnOk result (string_bytes text.new ≡ string_bytes text.old ++ range_lines line ranges.now) }
{
    for range in ranges {
        let shown = RangeText {
            interval: range.interval(),
            holder: range.holder(),
        };
        put_line(text, line, shown)?;
    }
    Ok(())
}

ghost use Rattle.std.specs.Prelude.{◌≡◌, ◌≤◌, ◌∷◌, ◌++◌, [], decimal, length};
ghost use Rattle.run_report.specs.Report.{HasPut, HasShown, HasShownLine, HasWritten, entry_end, entry_head, entry_line};
ghost use Rattle.run_report.specs.Report.{past_text, said_line, said_text, who_text};

use arrayvec::ArrayVec;
use bk_disk::Disk;
use enq_base::Failed;
use hall::Hall;
use hall_model::{PastEntry, Who};
use io_edge::{Sink, put_all};
use keeper_api::Keeper;
use lock_entry::LockStore;
use replica_link::Link;
use script_actors::{NumberedLine, Said};
use script_runner::{LineKind, Text, Why, digits, line_kind, push, push_reply, push_words, show};
use std::alloc::Global;

/// Writes the whole history, a line for each call; then what lines were answered that came to no call; then what the
/// monitors of the script show, all of the same state.
pub fn write_report<W: Sink, T: LockStore, K: Keeper, D: Disk, L: Link>(
    alloc: Global,
    sink: &mut W,
    lines: &[NumberedLine],
    hall: &Hall<T, K, D, L>,
    said: &[Said],
) -> Result<(), Why>
    ensures written { HasWritten (W.written sink.old) (W.written sink.new) (W.faults sink.old) (W.faults sink.new)
        lines.now hall.now.state said.now result }
    ensures later { W.faults sink.old ≤ W.faults sink.new }
{
    match write_done(sink, hall.past(), said) {
        Ok(()) => write_shows(alloc, sink, lines, hall),
        Err(_) => Err(Why::SinkFault),
    }
}

/// Writes what was done: the history, and the answers of lines that came to no call.
fn write_done<W: Sink>(sink: &mut W, past: &[PastEntry], said: &[Said]) -> Result<(), Failed>
    ensures { HasPut (W.written sink.old) (W.written sink.new) (W.faults sink.old) (W.faults sink.new)
        (past_text 0 past.now ++ said_text said.now) result }
{
    write_past(sink, past)?;
    write_said(sink, said)
}

/// Writes the history, a line for each call.
fn write_past<W: Sink>(sink: &mut W, past: &[PastEntry]) -> Result<(), Failed>
    ensures { HasPut (W.written sink.old) (W.written sink.new) (W.faults sink.old) (W.faults sink.new)
        (past_text 0 past.now) result }
{
    for place in 0..past.len() {
        put_entry(sink, place as u64 + 1, &past[place])?;
    }
    Ok(())
}

fn put_entry<W: Sink>(sink: &mut W, place: u64, entry: &PastEntry) -> Result<(), Failed>
    ensures { HasPut (W.written sink.old) (W.written sink.new) (W.faults sink.old) (W.faults sink.new)
        (entry_line place entry.now) result }
{
    let head = entry_head(place, entry);
    let end = entry_end(entry);
    put_two(sink, head.as_slice(), end.as_slice())
}

/// How the line of a call begins: with its place in the history, who made it, and the line of the script.
fn entry_head(place: u64, entry: &PastEntry) -> Text
    ensures { result.items ≡ entry_head place entry.now }
{
    let mut text = Text::new();
    push(&mut text, digits(place).as_slice());
    let who = who_text(&entry.who);
    let line = digits(u64::from(entry.line));
    push_words(&mut text, &[who.as_slice(), line.as_slice()]);
    text
}

/// How it ends: with the answer.
fn entry_end(entry: &PastEntry) -> Text
    ensures { result.items ≡ entry_end entry.now }
{
    let mut text = Text::new();
    push_reply(&mut text, &entry.reply);
    push(&mut text, b"\n");
    text
}

/// Who makes a call: a session by its name, a worker by its number, the administrator.
fn who_text(who: &Who) -> ArrayVec<u8, 32>
    ensures text { result.items ≡ who_text who.now }
    ensures fits { length result.items ≤ 32 }
{
    let mut text = ArrayVec::new();
    match who {
        Who::Session(name) => push(&mut text, name.bytes()),
        Who::Worker(worker) => {
            push(&mut text, b"@");
            push(&mut text, digits(u64::from(*worker)).as_slice());
        }
        Who::Admin => push(&mut text, b"!"),
    }
    text
}

/// Writes what lines were answered.
fn write_said<W: Sink>(sink: &mut W, said: &[Said]) -> Result<(), Failed>
    ensures { HasPut (W.written sink.old) (W.written sink.new) (W.faults sink.old) (W.faults sink.new)
        (said_text said.now) result }
{
    for one in said {
        put_said(sink, one)?;
    }
    Ok(())
}

/// Writes what one line was answered.
fn put_said<W: Sink>(sink: &mut W, said: &Said) -> Result<(), Failed>
    ensures { HasPut (W.written sink.old) (W.written sink.new) (W.faults sink.old) (W.faults sink.new)
        (said_line said.now) result }
{
    let head = number_text(said.line);
    let text = said.text.as_slice();
    put_all(sink, head.as_slice())?;
    put_two(sink, text, b"\n")
}

/// The number of a line, and a space.
fn number_text(number: u32) -> Text
    ensures { result.items ≡ decimal number ++ 32 ∷ [] }
{
    let mut text = Text::new();
    push(&mut text, digits(u64::from(number)).as_slice());
    push(&mut text, b" ");
    text
}

/// Writes one text behind another.
fn put_two<W: Sink>(sink: &mut W, first: &[u8], second: &[u8]) -> Result<(), Failed>
    ensures { HasPut (W.written sink.old) (W.written sink.new) (W.faults sink.old) (W.faults sink.new)
        (first.now ++ second.now) result }
{
    put_all(sink, first)?;
    put_all(sink, second)
}

/// Writes what the monitors of the script show.
fn write_shows<W: Sink, T: LockStore, K: Keeper, D: Disk, L: Link>(
    alloc: Global,
    sink: &mut W,
    lines: &[NumberedLine],
    hall: &Hall<T, K, D, L>,
) -> Result<(), Why>
    ensures { HasShown (W.written sink.old) (W.written sink.new) (W.faults sink.old) (W.faults sink.new)
        lines.now hall.now.state result }
{
    for numbered in lines {
        show_line(alloc, sink, numbered, hall)?;
    }
    Ok(())
}

/// Writes what a line shows. A line that is no monitor's shows nothing.
fn show_line<W: Sink, T: LockStore, K: Keeper, D: Disk, L: Link>(
    alloc: Global,
    sink: &mut W,
    numbered: &NumberedLine,
    hall: &Hall<T, K, D, L>,
) -> Result<(), Why>
    ensures { HasShownLine (W.written sink.old) (W.written sink.new) (W.faults sink.old) (W.faults sink.new)
        numbered.now hall.now.state result }
{
    match line_kind(&numbered.line) {
        LineKind::Shown(monitor) => show(alloc, numbered.number, monitor, hall, sink),
        LineKind::Blank | LineKind::Replied => Ok(()),
    }
}

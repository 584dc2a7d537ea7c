ghost use Rattle.std.specs.Prelude.{◌≡◌, ◌≤◌, List, Some, IfErr, IfOk};
ghost use Rattle.coverage.specs.Lacks.{Numbered};
ghost use Rattle.coverage.specs.Walked.{HasWalked};
ghost use Rattle.cover_cmd.specs.Lines.{Adds};
ghost use Rattle.cover_cmd.specs.Reading.{HasLacks, ReadsAll};
ghost use Rattle.lock_objects.specs.Objects.{Object};
ghost use Rattle.script_runner.specs.Lines.{line_in};

use coverage::{Cover, Lack};
use enq_base::NoMemory;
use io_edge::{LineReader, Source};
use lock_objects::LockObject;
use script_lang::{ReadFault, ScriptLine, read_line};
use script_runner::{Why, why_of};
use std::alloc::Global;

/// What the lines of a script lack, which is read to its end; or why it can't be.
#[tactic(auto, using(crate::proofs::Loop::nothing_read))]
pub(crate) fn lacks_in<S: Source>(
    alloc: Global,
    objects: &[LockObject],
    script: &mut S,
) -> Result<Vec<Lack>, Why>
    ensures reads { ReadsAll (HasLacks objects.now) (S.left script.old) (S.left script.new)
        (S.faults script.old) (S.faults script.new) result }
    ensures later { S.faults script.old ≤ S.faults script.new }
{
    let Ok(mut cover) = Cover::new(alloc, objects) else {
        return Err(Why::NoMemory);
    };
    let mut reader = LineReader::new();
    'lines: loop {
        match reader.next(script) {
            Ok(true) => {}
            Ok(false) => return found_by(alloc, cover),
            Err(fault) => return Err(why_of(fault)),
        }
        if let Err(why) = add_line(alloc, &mut cover, reader.line(), reader.number()) {
            return Err(why);
        }
    }
}

/// What the lines lack that were walked.
fn found_by(alloc: Global, cover: Cover<'_>) -> Result<Vec<Lack>, Why>
    ensures found { (objects : List Object) (lines : List Numbered) → HasWalked objects lines cover.entry
        → IfOk result (HasLacks objects lines) }
    ensures memory { IfErr result (λ why. why ≡ Why.NoMemory) }
{
    match cover.end(alloc) {
        Ok(lacks) => Ok(lacks),
        Err(NoMemory) => Err(Why::NoMemory),
    }
}

/// Walks over the line of this number.
fn add_line(alloc: Global, cover: &mut Cover<'_>, line: &[u8], number: u32) -> Result<(), Why>
    ensures adds { (objects : List Object) (lines : List Numbered) → HasWalked objects lines cover.old
        → Adds objects lines number (line_in line.now) cover.new result }
{
    match read_line(alloc, line) {
        Ok(line) => add_read(alloc, cover, &line, number),
        Err(ReadFault::BadLine) => Err(Why::BadLine(number)),
        Err(ReadFault::NoMemory) => Err(Why::NoMemory),
    }
}

fn add_read(alloc: Global, cover: &mut Cover<'_>, line: &ScriptLine, number: u32) -> Result<(), Why>
    ensures adds { (objects : List Object) (lines : List Numbered) → HasWalked objects lines cover.old
        → Adds objects lines number (Some line.now) cover.new result }
{
    match cover.line(alloc, number, line) {
        Ok(()) => Ok(()),
        Err(NoMemory) => Err(Why::NoMemory),
    }
}

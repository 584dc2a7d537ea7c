ghost use Rattle.std.specs.Prelude.{◌≡◌, ◌≤◌, ◌++◌, ◌∷◌, [], ℕ, List, true, Some, IfErr, IfOk, OnOk};
ghost use Rattle.std.specs.List.{AllByRecursion};
ghost use Rattle.enq_base.specs.Causes.{Rose};
ghost use Rattle.script_runner.specs.Lines.{line_in};
ghost use Rattle.script_runner.specs.Preparing.{has_part};
ghost use Rattle.whole_script.specs.Adding.{Adds, Notes};
ghost use Rattle.whole_script.specs.Lines.{is_among, is_blank};
ghost use Rattle.whole_script.specs.Reading.{BlamesFirst, IsWholeScript, ReadsAll};

use enq_base::{Name, NoMemory};
use hall_model::Who;
use io_edge::{LineReader, Source};
use script_actors::{Doer, NumberedLine, doer_of};
use script_lang::{ReadFault, ScriptLine, read_line};
use script_runner::{Why, why_of};
use std::alloc::Global;

/// The most names of sessions that a script may have that is read as a whole.
const NAMES: usize = 64;

/// A script that was read to its end: its lines but the blank ones, in order, and the sessions that they name, each
/// once.
#[derive(Drop)]
pub struct Script {
    pub lines: Vec<NumberedLine>,
    pub names: Vec<Name>,
}

/// Reads the whole script. A line of a worker, and one that names one session too many, is a bad line.
pub fn read_script<S: Source>(alloc: Global, source: &mut S) -> Result<Script, Why>
    // Which bytes were read, and the lines that they are, or why they can't be done.
    ensures reads { ReadsAll (S.left source.old) (S.left source.new)
        (S.faults source.old) (S.faults source.new) result }
    ensures parts { IfOk result (λ script. AllByRecursion (λ l. has_part l.line ≡ true) script.lines.items) }
    ensures faults { S.faults source.old ≤ S.faults source.new }
    // Where the source tells its bytes, a line is to blame only where it is the first such line of them all.
    ensures blamed { (bytes : List ℕ) → S.left source.old ≡ Some bytes → IfErr result (BlamesFirst bytes) }
    // A script all of whose lines can be done is read to its end, unless the source fails or memory is wanting.
    ensures complete { (bytes : List ℕ) → S.left source.old ≡ Some bytes → IsWholeScript bytes
        → ¬ Rose (S.faults source.old) (S.faults source.new) → IfErr result (λ why. why ≡ Why.NoMemory) }
{
    let mut script = Script {
        lines: Vec::new(alloc),
        names: Vec::new(alloc),
    };
    let mut reader = LineReader::new();
    'lines: loop {
        match reader.next(source) {
            Ok(true) => {}
            Ok(false) => return Ok(script),
            Err(fault) => return Err(why_of(fault)),
        }
        if let Err(why) = add_line(alloc, &mut script, reader.line(), reader.number()) {
            return Err(why);
        }
    }
}

/// Puts the line of this number behind those of the script.
fn add_line(alloc: Global, script: &mut Script, line: &[u8], number: u32) -> Result<(), Why>
    ensures adds { Adds number (line_in line.now) script.old script.new result }
{
    match read_line(alloc, line) {
        Ok(line) => add_read(script, line, number),
        Err(ReadFault::BadLine) => Err(Why::BadLine(number)),
        Err(ReadFault::NoMemory) => Err(Why::NoMemory),
    }
}

/// Puts a line behind those of the script, unless it is blank, and its session behind their names, unless it is known.
fn add_read(script: &mut Script, line: ScriptLine, number: u32) -> Result<(), Why>
    requires part { has_part line ≡ true }
    ensures adds { Adds number (Some line) script.old script.new result }
{
    let doer = doer_of(&line);
    if is_blank(&doer) {
        return Ok(());
    }
    if let Err(why) = note_doer(&mut script.names, &doer, number) {
        return Err(why);
    }
    match put_line(&mut script.lines, NumberedLine { number, line }) {
        Ok(()) => Ok(()),
        Err(NoMemory) => Err(Why::NoMemory),
    }
}

fn put_line(lines: &mut Vec<NumberedLine>, line: NumberedLine) -> Result<(), NoMemory>
    ensures { OnOk result (lines.new.items ≡ lines.old.items ++ line ∷ []) }
{
    lines.push(line)?;
    Ok(())
}

fn is_blank(doer: &Doer) -> bool
    ensures { result ≡ is_blank doer.now }
{
    matches!(doer, Doer::Nobody)
}

/// Notes the session that does a line, where one does.
fn note_doer(names: &mut Vec<Name>, doer: &Doer, number: u32) -> Result<(), Why>
    ensures notes { Notes number doer.now names.old.items names.new.items result }
{
    match doer {
        Doer::Nobody | Doer::Monitor | Doer::Actor(Who::Admin) => Ok(()),
        Doer::Worker | Doer::Actor(Who::Worker(_)) => Err(Why::BadLine(number)),
        Doer::Actor(Who::Session(name)) => note_name(names, name, number),
    }
}

fn note_name(names: &mut Vec<Name>, name: &Name, number: u32) -> Result<(), Why>
    ensures notes { Notes number (Doer.Actor (Who.Session name.now)) names.old.items names.new.items result }
{
    if is_among(name, names.as_slice()) {
        return Ok(());
    }
    if names.len() >= NAMES {
        return Err(Why::BadLine(number));
    }
    match names.push(*name) {
        Ok(()) => Ok(()),
        Err(_) => Err(Why::NoMemory),
    }
}

fn is_among(name: &Name, names: &[Name]) -> bool
    ensures { result ≡ is_among name.now names.now }
{
    names.iter().any(|known| known.bytes() == name.bytes())
}

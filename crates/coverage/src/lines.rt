ghost use Rattle.std.specs.Prelude.{◌≡◌, ℕ, List, Option, None, Some};
ghost use Rattle.coverage.specs.Faults as faults;
ghost use Rattle.coverage.specs.Lacks as lacks;
ghost use Rattle.coverage.specs.Locks as locks;
ghost use Rattle.coverage.specs.Walked.{wish_in};
ghost use Rattle.coverage.specs.declared.lack.Lack.TheVariants as lack;

use crate::lack::{Finding, Lack, Want, Wish};
use crate::texts::{is_wrong_number, is_wrong_text};
use crate::values::{any_dollar, holds_dollar, is_wrong_key, is_wrong_request};
use enq_base::{Key, Name};
use lock_objects::LockObject;
use script_lang::ScriptLine;

/// Whether a part of the line that has no variable can't stand there.
pub(crate) fn is_wrong(objects: &[LockObject], line: &ScriptLine) -> bool
    ensures { result ≡ faults.is_wrong objects.now line.now }
{
    match line {
        ScriptLine::Enq { object, values, .. }
        | ScriptLine::Deq { object, values, .. }
        | ScriptLine::Collect { object, values, .. }
        | ScriptLine::Convert { object, values, .. } => {
            is_wrong_request(objects, object, values.as_slice())
        }
        ScriptLine::Read { key, .. } | ScriptLine::Del { key, .. } => is_wrong_key(key.as_slice()),
        ScriptLine::Put { key, text, .. } | ScriptLine::Ins { key, text, .. } => {
            is_wrong_key(key.as_slice()) || is_wrong_text(text.as_slice())
        }
        ScriptLine::Add { key, number, .. } => {
            is_wrong_key(key.as_slice()) || is_wrong_number(number.as_slice())
        }
        _ => false,
    }
}

/// The variable that hides which row or which lock the line means.
fn variable_finding(number: u32, line: &ScriptLine) -> Option<Finding>
    ensures { result ≡ lacks.variable_finding (number, line.now) }
{
    match line {
        ScriptLine::Deq { values, .. } => {
            if any_dollar(values.as_slice()) {
                Some(Finding {
                    lack: Lack::Variable(number),
                    table: None,
                })
            } else {
                None
            }
        }
        ScriptLine::Read { table, key, .. }
        | ScriptLine::Put { table, key, .. }
        | ScriptLine::Ins { table, key, .. }
        | ScriptLine::Del { table, key, .. }
        | ScriptLine::Add { table, key, .. } => hidden_row(number, table, key.as_slice()),
        _ => None,
    }
}

fn hidden_row(number: u32, table: &Name, key: &[u8]) -> Option<Finding>
    ensures { result ≡ lacks.where_dollar (locks.holds_dollar key.now)
        (lacks.on_table table.now (lack.Variable number)) }
{
    if holds_dollar(key) {
        Some(Finding {
            lack: Lack::Variable(number),
            table: Some(*table),
        })
    } else {
        None
    }
}

/// What the line lacks by itself.
pub(crate) fn own_finding(objects: &[LockObject], number: u32, line: &ScriptLine) -> Option<Finding>
    ensures { result ≡ lacks.own_finding objects.now (number, line.now) }
{
    if is_wrong(objects, line) {
        return Some(Finding {
            lack: Lack::Line(number),
            table: None,
        });
    }
    variable_finding(number, line)
}

fn wish_on(table: &Name, key: &[u8], want: Want, lack: Lack) -> Option<Wish>
    ensures { result ≡ lacks.wish_on table.now key.now want lack }
{
    match Key::new(key) {
        Some(key) => Some(Wish {
            want,
            table: *table,
            key,
            lack,
        }),
        None => None,
    }
}

fn effect_wish(number: u32, part: u8, table: &Name, key: &[u8]) -> Option<Wish>
    ensures { result ≡ lacks.effect_wish number part table.now key.now }
{
    if part == 1 {
        wish_on(table, key, Want::AtCommit, Lack::Write(number))
    } else {
        wish_on(table, key, Want::Never, Lack::SecondPart(number))
    }
}

/// The row of a read or an effect, and when it has to be covered.
fn wish_of(number: u32, line: &ScriptLine) -> Option<Wish>
    ensures { result ≡ lacks.wish_of (number, line.now) }
{
    match line {
        ScriptLine::Read { table, key, .. } => wish_on(
            table,
            key.as_slice(),
            Want::Throughout,
            Lack::Read(number),
        ),
        ScriptLine::Put {
            part,
            table,
            key,
            ..
        }
        | ScriptLine::Ins {
            part,
            table,
            key,
            ..
        }
        | ScriptLine::Del {
            part,
            table,
            key,
            ..
        }
        | ScriptLine::Add {
            part,
            table,
            key,
            ..
        } => { effect_wish(number, *part, table, key.as_slice()) }
        _ => None,
    }
}

/// The wish of a line that lacks nothing by itself.
pub(crate) fn wish_in(objects: &[LockObject], number: u32, line: &ScriptLine) -> Option<Wish>
    ensures { result ≡ wish_in objects.now (number, line.now) }
{
    if own_finding(objects, number, line).is_some() {
        return None;
    }
    wish_of(number, line)
}

/// The table that a READ line names.
pub(crate) fn table_read(line: &ScriptLine) -> Option<Name>
    ensures { result ≡ lacks.table_read line.now }
{
    match line {
        ScriptLine::Read { table, .. } => Some(*table),
        _ => None,
    }
}

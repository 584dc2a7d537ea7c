ghost use Rattle.std.specs.Prelude.{◌≡◌};
ghost use Rattle.script_lang.specs.Parts.{is_raw, is_rest};
ghost use Rattle.script_lang.specs.Reading.{Gives, effect_line, key_and, update_line};
ghost use Rattle.script_lang.specs.declared.script_line.ScriptLine.TheVariants as line;

use crate::parts::{read_name, read_raw, read_rest};
use crate::read_fault::ReadFault;
use crate::script_line::ScriptLine;
use crate::words::{Change, read_change};
use enq_base::{Items, Name, cut_at};
use std::alloc::Global;

/// The part of a unit that an effect goes to, and the table of its row.
#[derive(Clone, Copy)]
struct Target {
    session: Name,
    part: u8,
    table: Name,
}

impl Target {
    fn put(self, key: Items<u8>, text: Items<u8>) -> ScriptLine
        ensures { result ≡ line.Put self.session self.part self.table key text }
    {
        ScriptLine::Put {
            session: self.session,
            part: self.part,
            table: self.table,
            key,
            text,
        }
    }

    fn ins(self, key: Items<u8>, text: Items<u8>) -> ScriptLine
        ensures { result ≡ line.Ins self.session self.part self.table key text }
    {
        ScriptLine::Ins {
            session: self.session,
            part: self.part,
            table: self.table,
            key,
            text,
        }
    }

    fn del(self, key: Items<u8>) -> ScriptLine
        ensures { result ≡ line.Del self.session self.part self.table key }
    {
        ScriptLine::Del {
            session: self.session,
            part: self.part,
            table: self.table,
            key,
        }
    }

    fn add(self, key: Items<u8>, number: Items<u8>) -> ScriptLine
        ensures { result ≡ line.Add self.session self.part self.table key number }
    {
        ScriptLine::Add {
            session: self.session,
            part: self.part,
            table: self.table,
            key,
            number,
        }
    }
}

/// What stands behind V1 and V2.
#[tactic(auto, unfolding(crate::specs::Reading::update_line))]
pub(crate) fn read_update(
    alloc: Global,
    session: Name,
    part: u8,
    text: &[u8],
) -> Result<ScriptLine, ReadFault>
    ensures { Gives (λ l. l) result (update_line session part text.now) }
{
    let (change, rest) = cut_at(text, b' ').ok_or(ReadFault::BadLine)?;
    let change = read_change(change).ok_or(ReadFault::BadLine)?;
    let (table, rest) = cut_at(rest, b' ').ok_or(ReadFault::BadLine)?;
    let table = read_name(table).ok_or(ReadFault::BadLine)?;
    let target = Target {
        session,
        part,
        table,
    };
    read_effect(alloc, target, change, rest)
}

#[tactic(auto, unfolding(crate::specs::Reading::effect_line))]
fn read_effect(
    alloc: Global,
    target: Target,
    change: Change,
    text: &[u8],
) -> Result<ScriptLine, ReadFault>
    ensures { Gives (λ l. l) result (effect_line target.session target.part change target.table text.now) }
{
    match change {
        Change::Put => {
            let (key, text) = key_and_text(alloc, text)?;
            Ok(target.put(key, text))
        }
        Change::Ins => {
            let (key, text) = key_and_text(alloc, text)?;
            Ok(target.ins(key, text))
        }
        Change::Del => {
            let key = read_raw(alloc, text)?;
            Ok(target.del(key))
        }
        Change::Add => {
            let (key, number) = key_and_number(alloc, text)?;
            Ok(target.add(key, number))
        }
    }
}

/// A key, and the rest of the line.
#[tactic(auto, unfolding(crate::specs::Reading::key_and))]
fn key_and_text(alloc: Global, text: &[u8]) -> Result<(Items<u8>, Items<u8>), ReadFault>
    ensures { Gives (λ x. (x.0, x.1)) result (key_and is_rest text.now) }
{
    let (key, rest) = cut_at(text, b' ').ok_or(ReadFault::BadLine)?;
    let key = read_raw(alloc, key)?;
    let rest = read_rest(alloc, rest)?;
    Ok((key, rest))
}

/// A key, and a number to be added.
#[tactic(auto, unfolding(crate::specs::Reading::key_and))]
fn key_and_number(alloc: Global, text: &[u8]) -> Result<(Items<u8>, Items<u8>), ReadFault>
    ensures { Gives (λ x. (x.0, x.1)) result (key_and is_raw text.now) }
{
    let (key, number) = cut_at(text, b' ').ok_or(ReadFault::BadLine)?;
    let key = read_raw(alloc, key)?;
    let number = read_raw(alloc, number)?;
    Ok((key, number))
}

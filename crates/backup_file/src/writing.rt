ghost use Rattle.std.specs.Prelude.{◌≡◌, ◌<◌, ◌++◌, ◌∷◌, [], length, OnOk, IfOk, IsTrue};
ghost use Rattle.std.specs.List.{flat_map, AllByRecursion};
ghost use Rattle.enq_base.specs.Grammar.{is_name, is_pattern};
ghost use Rattle.backup_file.specs.declared.handed.Record.TheVariants.{Hand, Free};
ghost use Rattle.backup_file.specs.Spelling.{unit_bytes, short, entry_bytes, IsUnit, IsRecord, hand_bytes};
ghost use Rattle.gate_log.specs.Logs.{opened};
ghost use Rattle.backup_file.specs.File.{log_grammar};
ghost use Rattle.backup_file.specs.Handing.{HasNames, IsHandable, handed_of};

use crate::numbers::{bytes_of_16, bytes_of_32};
use enq_base::{Name, NoMemory, Pattern, UnitKey};
use lock_entry::Entry;
use mode_rules::mode_number;
use std::alloc::Global;

/// The bytes of a unit.
fn text_of_unit(unit: &UnitKey) -> [u8; 12]
    ensures value { result ≡ unit_bytes unit.now }
    ensures is_unit { IsUnit unit.now }
{
    let UnitKey {
        start,
        session,
        luw,
    } = *unit;
    let [a, b, c, d] = bytes_of_32(start);
    let [e, f, g, h] = bytes_of_32(session);
    let [i, j, k, l] = bytes_of_32(luw);
    [a, b, c, d, e, f, g, h, i, j, k, l]
}

/// An open gate, the free record of a unit, and a closed gate.
pub fn free_text(unit: &UnitKey) -> [u8; 19]
    ensures spelled { result ≡ opened log_grammar (Free unit.now) ++ 0 ∷ [] }
    ensures is_record { IsRecord (Free unit.now) }
{
    let [a, b, c, d, e, f, g, h, i, j, k, l] = text_of_unit(unit);
    [1, 2, 0, 0, 0, 12, a, b, c, d, e, f, g, h, i, j, k, l, 0]
}

fn put_short(out: &mut Vec<u8>, text: &[u8]) -> Result<(), NoMemory>
    requires { length text.now < 256 }
    ensures { OnOk result (out.new.items ≡ out.old.items ++ short text.now) }
{
    out.push(text.len() as u8)?;
    out.extend_from_slice(text)?;
    Ok(())
}

fn put_name(out: &mut Vec<u8>, name: &Name) -> Result<(), NoMemory>
    ensures value { OnOk result (out.new.items ≡ out.old.items ++ short name.now) }
    ensures is_name { IsTrue (is_name name.now) }
{
    put_short(out, name.bytes())
}

fn put_pattern(out: &mut Vec<u8>, pattern: &Pattern) -> Result<(), NoMemory>
    ensures value { OnOk result (out.new.items ≡ out.old.items ++ short pattern.now) }
    ensures is_pattern { IsTrue (is_pattern pattern.now) }
{
    put_short(out, pattern.bytes())
}

fn put_entry(out: &mut Vec<u8>, entry: &Entry) -> Result<(), NoMemory>
    ensures value { OnOk result (out.new.items ≡ out.old.items ++ entry_bytes entry.now) }
    ensures named { OnOk result (HasNames entry.now) }
{
    put_name(out, &entry.table)?;
    out.push(mode_number(entry.mode))?;
    out.extend_from_slice(&bytes_of_16(entry.count))?;
    put_pattern(out, &entry.pattern)?;
    Ok(())
}

fn put_entries(out: &mut Vec<u8>, entries: &[Entry]) -> Result<(), NoMemory>
    ensures value { OnOk result (out.new.items ≡ out.old.items ++ flat_map entry_bytes entries.now) }
    ensures named { OnOk result (AllByRecursion HasNames entries.now) }
{
    let mut rest = entries;
    while let [first, after @ ..] = rest {
        put_entry(out, first)?;
        rest = after;
    }
    Ok(())
}

/// The payload of a hand, which is short enough to have a length in the file.
fn hand_payload(alloc: Global, unit: &UnitKey, entries: &[Entry]) -> Result<Vec<u8>, NoMemory>
    requires { IsHandable unit.now entries.now }
    ensures value { IfOk result (λ v. v.items ≡ hand_bytes (handed_of unit.now entries.now)) }
    ensures is_record { OnOk result (IsRecord (Hand (handed_of unit.now entries.now))) }
{
    let [first, ..] = entries else {
        return Err(NoMemory);
    };
    if entries.len() > 0xffff_ffff {
        return Err(NoMemory);
    }
    let mut out = Vec::new(alloc);
    out.extend_from_slice(&text_of_unit(unit))?;
    put_name(&mut out, &first.user)?;
    out.extend_from_slice(&bytes_of_32(entries.len() as u32))?;
    put_entries(&mut out, entries)?;
    if out.len() > 0xffff_ffff {
        return Err(NoMemory);
    }
    Ok(out)
}

/// An open gate, and the hand record of a unit.
pub fn hand_record(alloc: Global, unit: &UnitKey, entries: &[Entry]) -> Result<Vec<u8>, NoMemory>
    requires { IsHandable unit.now entries.now }
    ensures spelled { IfOk result (λ v. v.items ≡ opened log_grammar (Hand (handed_of unit.now entries.now))) }
    ensures is_record { OnOk result (IsRecord (Hand (handed_of unit.now entries.now))) }
{
    let payload = hand_payload(alloc, unit, entries)?;
    let mut text = Vec::new(alloc);
    text.extend_from_slice(&[1, 1])?;
    text.extend_from_slice(&bytes_of_32(payload.len() as u32))?;
    text.extend_from_slice(&payload)?;
    Ok(text)
}

/// An open gate, the hand record of a unit, and a closed gate.
pub fn hand_text(alloc: Global, unit: &UnitKey, entries: &[Entry]) -> Result<Vec<u8>, NoMemory>
    requires { IsHandable unit.now entries.now }
    ensures spelled { IfOk result
        (λ v. v.items ≡ opened log_grammar (Hand (handed_of unit.now entries.now)) ++ 0 ∷ []) }
    ensures is_record { OnOk result (IsRecord (Hand (handed_of unit.now entries.now))) }
{
    let mut text = hand_record(alloc, unit, entries)?;
    text.push(0)?;
    Ok(text)
}

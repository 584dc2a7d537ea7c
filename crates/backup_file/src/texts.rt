ghost use Rattle.std.specs.Prelude.{◌≡◌, ◌≤◌, ◌<◌, ◌+◌, ◌++◌, ◌∷◌, [], length, IfOk, OnOk};
ghost use Rattle.std.specs.List.{All};
ghost use Rattle.gate_log.specs.Logs.{opened};
ghost use Rattle.backup_file.specs.Handing.{IsList};
ghost use Rattle.backup_file.specs.Slots.{first_slots, slots_record};
ghost use Rattle.backup_file.specs.File.{compact, log_grammar};
ghost use Rattle.backup_file.specs.declared.handed.Record.TheVariants.{Hand};
ghost use Rattle.backup_file.specs.declared.places.Which.TheVariants.{One};

use crate::handed::Handed;
use crate::places::{Place, Slot, Slots, Which};
use crate::slot_bytes::bytes_of_slot;
use crate::writing::hand_record;
use enq_base::NoMemory;
use std::alloc::Global;

/// Where the slots of a file stand whose front log ends at this gate, and behind which its first log stands.
pub fn first_place(gate: u64) -> Place
    ensures gate { result.gate ≡ gate }
    ensures slots { gate + 40 < 18446744073709551616 → result.slots ≡ first_slots gate }
    ensures which { result.which ≡ One }
{
    let one = Slot {
        gate: 1,
        generation: 1,
        start: gate.saturating_add(40),
    };
    let two = Slot {
        gate: 0,
        generation: 0,
        start: 0,
    };
    Place {
        gate,
        slots: Slots { one, two },
        which: Which::One,
    }
}

/// An open gate and a list's hand record.
fn put_list(alloc: Global, out: &mut Vec<u8>, handed: &Handed) -> Result<(), NoMemory>
    requires { IsList handed.now }
    ensures { OnOk result (out.new.items ≡ out.old.items ++ opened log_grammar (Hand handed.now)) }
{
    let text = hand_record(alloc, &handed.unit, handed.entries.as_slice())?;
    out.extend_from_slice(&text)?;
    Ok(())
}

/// A log that has one hand of each list, and a closed gate.
pub fn put_log(alloc: Global, out: &mut Vec<u8>, lists: &[Handed]) -> Result<(), NoMemory>
    requires { All IsList lists.now }
    ensures { OnOk result (out.new.items ≡ out.old.items ++ (compact lists.now ++ 0 ∷ [])) }
{
    for handed in lists {
        put_list(alloc, out, handed)?;
    }
    out.push(0)?;
    Ok(())
}

/// A log that has one hand of each list, and a closed gate.
pub fn log_text(alloc: Global, lists: &[Handed]) -> Result<Vec<u8>, NoMemory>
    requires { All IsList lists.now }
    ensures { IfOk result (λ v. v.items ≡ compact lists.now ++ 0 ∷ []) }
{
    let mut out = Vec::new(alloc);
    put_log(alloc, &mut out, lists)?;
    Ok(out)
}

/// What makes a file of version 1 one of version 2, from its closed gate on: an open gate, the slots, and the first
/// log.
pub fn migration_text(alloc: Global, gate: u64, lists: &[Handed]) -> Result<Vec<u8>, NoMemory>
    requires { All IsList lists.now }
    ensures some { IfOk result (λ v. 1 ≤ length v.items) }
    ensures spelled { gate + 40 < 18446744073709551616 → IfOk result
        (λ v. v.items ≡ 1 ∷ (slots_record (first_slots gate) ++ (compact lists.now ++ 0 ∷ []))) }
{
    let place = first_place(gate);
    let mut out = Vec::new(alloc);
    out.extend_from_slice(&[1, 3, 0, 0, 0, 34])?;
    out.extend_from_slice(&bytes_of_slot(&place.slots.one))?;
    out.extend_from_slice(&bytes_of_slot(&place.slots.two))?;
    put_log(alloc, &mut out, lists)?;
    Ok(out)
}

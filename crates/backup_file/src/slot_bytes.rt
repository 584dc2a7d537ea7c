ghost use Rattle.std.specs.Prelude.{◌≡◌, ◌↔◌, ◌<◌, ◌≤◌, ◌++◌, length, take, IsTrue, IfSome, IfNone};
ghost use Rattle.std.specs.Int.{w64, to_be_bytes};
ghost use Rattle.backup_file.specs.Slots.{AreSlots, IsInForce, IsSlot, IsUndecided, LeadsOver, slot_at, slot_bytes, slot_in, slots_head};
ghost use Rattle.backup_file.specs.declared.places.Slots.{Slots};

use crate::numbers::bytes_of_64;
use crate::places::{Slot, Slots, Which};
use byteorder::{BigEndian, ByteOrder};

/// The slots at the front, if some stand there.
pub fn slots_of(bytes: &[u8]) -> Option<Slots>
    ensures some { IfSome result (AreSlots bytes.now) }
    ensures none { IfNone result ((s : Slots) → AreSlots bytes.now s → ⊥) }
{
    if bytes.len() < 39 {
        return None;
    }
    if !has_slots_head(bytes) {
        return None;
    }
    let one = slot_of(&bytes[5..22]);
    let two = slot_of(&bytes[22..39]);
    Some(Slots { one, two })
}

fn has_slots_head(bytes: &[u8]) -> bool
    requires { 39 ≤ length bytes.now }
    ensures { IsTrue result ↔ (take 5 bytes.now ≡ slots_head) }
{
    &bytes[..5] == [3, 0, 0, 0, 34].as_slice()
}

/// The slot in 17 bytes.
fn slot_of(bytes: &[u8]) -> Slot
    requires { length bytes.now ≡ 17 }
    ensures { IsSlot bytes.now result }
{
    let generation = BigEndian::read_u64(&bytes[1..9]);
    let start = BigEndian::read_u64(&bytes[9..17]);
    Slot {
        gate: bytes[0],
        generation,
        start,
    }
}

pub fn bytes_of_slot(slot: &Slot) -> [u8; 17]
    ensures { result ≡ slot_bytes slot.now }
{
    let [a, b, c, d, e, f, g, h] = bytes_of_64(slot.generation);
    let [i, j, k, l, m, n, o, p] = bytes_of_64(slot.start);
    [slot.gate, a, b, c, d, e, f, g, h, i, j, k, l, m, n, o, p]
}

/// The numbers of a slot.
pub fn bytes_of_numbers(generation: u64, start: u64) -> [u8; 16]
    ensures { result ≡ to_be_bytes w64 generation ++ to_be_bytes w64 start }
{
    let [a, b, c, d, e, f, g, h] = bytes_of_64(generation);
    let [i, j, k, l, m, n, o, p] = bytes_of_64(start);
    [a, b, c, d, e, f, g, h, i, j, k, l, m, n, o, p]
}

/// Whether the slot is in force beside the other one.
fn leads_over(slot: &Slot, rival: &Slot) -> bool
    ensures { IsTrue result ↔ LeadsOver slot.now rival.now }
{
    slot.gate == 1 && (rival.gate != 1 || rival.generation < slot.generation)
}

/// Which slot is in force, if one is.
pub fn in_force(slots: &Slots) -> Option<Which>
    ensures some { IfSome result (IsInForce slots.now) }
    ensures none { IfNone result (IsUndecided slots.now) }
{
    if leads_over(&slots.one, &slots.two) {
        return Some(Which::One);
    }
    if leads_over(&slots.two, &slots.one) {
        return Some(Which::Two);
    }
    None
}

pub fn slot_in(slots: &Slots, which: Which) -> Slot
    ensures { result ≡ slot_in slots.now which }
{
    match which {
        Which::One => slots.one,
        Which::Two => slots.two,
    }
}

/// Which offset a slot has behind the gate of both.
pub fn slot_at(gate: u64, which: Which) -> u64
    requires { gate < 9223372036854775808 }
    ensures { result ≡ slot_at gate which }
{
    match which {
        Which::One => gate + 6,
        Which::Two => gate + 23,
    }
}

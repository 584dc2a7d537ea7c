ghost use Rattle.std.specs.Prelude.{◌≡◌, ◌↔◌, ◌<◌, ◌+◌, ◌++◌, ◌∷◌, [], ℕ, List, length, IsTrue, OnOk};
ghost use Rattle.enq_base.specs.Causes.{HasCause};
ghost use Rattle.gate_log.specs.Gates.{IsAtRest};
ghost use Rattle.gate_log.specs.Logs as logs;
ghost use Rattle.backup_file.specs.Compacting.{HasBoth, HasLog, IsFree, IsLaid, IsLaidBeside, IsNextSlot, IsRewritten, IsShutSlot, NamesLog, next_place};
ghost use Rattle.backup_file.specs.Slots as kept;
ghost use Rattle.backup_file.specs.Slots.{IsInForce};
ghost use Rattle.backup_file.specs.File.{IsFrontAt, Stands, compact, log_grammar};
ghost use Rattle.backup_file.specs.declared.handed.Handed.{Handed};
ghost use Rattle.backup_file.specs.declared.places.Place.{Place};

use crate::places::{Place, Slots, Which};
use crate::slot_bytes::{bytes_of_numbers, slot_at, slot_in};
use bk_disk::Disk;
use enq_base::Failed;
use gate_log::{cut_through, write_through};

/// The slot that isn't this one.
pub fn other(which: Which) -> Which
    ensures { result ≡ kept.other which }
{
    match which {
        Which::One => Which::Two,
        Which::Two => Which::One,
    }
}

/// Whether the gate of a slot is open.
fn is_open(slots: &Slots, which: Which) -> bool
    ensures { IsTrue result ↔ ((kept.slot_in slots.now which).gate ≡ 1) }
{
    slot_in(slots, which).gate == 1
}

/// Closes the slot that isn't in force, if it is open.
fn shut_slot<D: Disk>(disk: &mut D, place: &Place) -> Result<(), Failed>
    requires { place.now.gate < 9223372036854775808 }
    ensures shut { IsTrue D.tells → (rest : List ℕ) (l : List Handed)
        → IsLaid place.now.gate place.now.slots rest (D.reads disk.old) (D.may_leave disk.old)
        → NamesLog place.now rest l
        → OnOk result (IsLaidBeside place.now IsShutSlot rest (D.reads disk.new) (D.may_leave disk.new)) }
    ensures images { IsTrue D.tells → (rest : List ℕ) (l : List Handed)
        → IsLaid place.now.gate place.now.slots rest (D.reads disk.old) (D.may_leave disk.old)
        → NamesLog place.now rest l → (c : List ℕ) → D.may_leave disk.new c → Stands c l }
    ensures cause { HasCause (D.faults disk.old) (D.faults disk.new) result }
{
    let beside = other(place.which);
    if !is_open(&place.slots, beside) {
        return Ok(());
    }
    let offset = slot_at(place.gate, beside);
    write_through(disk, offset, &[0])?;
    Ok(())
}

/// Lets the slot that isn't in force, and is closed, name the log at an offset.
fn fill_slot<D: Disk>(disk: &mut D, place: &Place, at: u64) -> Result<(), Failed>
    requires few { place.now.gate < 9223372036854775808 }
    requires young { (kept.slot_in place.now.slots place.now.which).generation < 9223372036854775808 }
    ensures filled { IsTrue D.tells → (rest : List ℕ) (l : List Handed)
        → IsLaidBeside place.now IsShutSlot rest (D.reads disk.old) (D.may_leave disk.old)
        → NamesLog place.now rest l
        → OnOk result (IsLaidBeside place.now (IsNextSlot place.now at) rest (D.reads disk.new)
        (D.may_leave disk.new)) }
    ensures images { IsTrue D.tells → (rest : List ℕ) (l : List Handed)
        → IsLaidBeside place.now IsShutSlot rest (D.reads disk.old) (D.may_leave disk.old)
        → NamesLog place.now rest l → (c : List ℕ) → D.may_leave disk.new c → Stands c l }
    ensures cause { HasCause (D.faults disk.old) (D.faults disk.new) result }
{
    let generation = slot_in(&place.slots, place.which).generation + 1;
    let slot = slot_at(place.gate, other(place.which));
    let offset = slot + 1;
    write_through(disk, offset, &bytes_of_numbers(generation, at))?;
    Ok(())
}

/// Opens the slot that isn't in force, which names a newer log.
fn open_slot<D: Disk>(disk: &mut D, place: &Place, at: u64) -> Result<(), Failed>
    requires { place.now.gate < 9223372036854775808 }
    ensures opened { IsTrue D.tells → (rest : List ℕ) (l : List Handed)
        → IsLaidBeside place.now (IsNextSlot place.now at) rest (D.reads disk.old) (D.may_leave disk.old)
        → NamesLog place.now rest l → NamesLog (next_place place.now at) rest l
        → OnOk result (IsLaid place.now.gate (next_place place.now at).slots rest (D.reads disk.new)
        (D.may_leave disk.new)) }
    ensures images { IsTrue D.tells → (rest : List ℕ) (l : List Handed)
        → IsLaidBeside place.now (IsNextSlot place.now at) rest (D.reads disk.old) (D.may_leave disk.old)
        → NamesLog place.now rest l → NamesLog (next_place place.now at) rest l
        → (c : List ℕ) → D.may_leave disk.new c → Stands c l }
    ensures cause { HasCause (D.faults disk.old) (D.faults disk.new) result }
{
    let offset = slot_at(place.gate, other(place.which));
    write_through(disk, offset, &[1])?;
    Ok(())
}

/// Writes a log of the same lists where it may stand.
fn lay_log<D: Disk>(
    disk: &mut D,
    place: &Place,
    gate: u64,
    at: u64,
    text: &[u8],
) -> Result<(), Failed>
    requires free { IsFree place.now gate at (length text.now) }
    ensures laid { IsTrue D.tells → (front : List ℕ) (l : List Handed) → IsFrontAt place.now front l
        → IsAtRest (D.reads disk.old) (D.may_leave disk.old) gate front → text.now ≡ compact l ++ 0 ∷ []
        → logs.IsFront log_grammar (compact l) l
        → OnOk result (HasBoth place.now at l (D.reads disk.new) (D.may_leave disk.new)) }
    ensures images { IsTrue D.tells → (front : List ℕ) (l : List Handed) → IsFrontAt place.now front l
        → IsAtRest (D.reads disk.old) (D.may_leave disk.old) gate front
        → (c : List ℕ) → D.may_leave disk.new c → Stands c l }
    ensures cause { HasCause (D.faults disk.old) (D.faults disk.new) result }
{
    write_through(disk, at, text)?;
    Ok(())
}

/// Cuts the file behind the new log, which is in force.
fn cut_log<D: Disk>(disk: &mut D, end: u64) -> Result<(), Failed>
    ensures cut { IsTrue D.tells → (p : Place) (rest : List ℕ) (l : List Handed) (offset : ℕ)
        → IsLaid p.gate p.slots rest (D.reads disk.old) (D.may_leave disk.old) → IsInForce p.slots p.which
        → HasLog rest offset (compact l) l → p.gate + 40 + offset ≡ (kept.slot_in p.slots p.which).start
        → end ≡ p.gate + 40 + offset + length (compact l) + 1
        → OnOk result (IsRewritten p (p.gate + 40 + offset + length (compact l)) l (D.reads disk.new)
        (D.may_leave disk.new)) }
    ensures images { IsTrue D.tells → (p : Place) (rest : List ℕ) (l : List Handed) (offset : ℕ)
        → IsLaid p.gate p.slots rest (D.reads disk.old) (D.may_leave disk.old) → IsInForce p.slots p.which
        → HasLog rest offset (compact l) l → p.gate + 40 + offset ≡ (kept.slot_in p.slots p.which).start
        → end ≡ p.gate + 40 + offset + length (compact l) + 1
        → (c : List ℕ) → D.may_leave disk.new c → Stands c l }
    ensures cause { HasCause (D.faults disk.old) (D.faults disk.new) result }
{
    cut_through(disk, end)?;
    Ok(())
}

/// Lets the slot that isn't in force name the log at an offset, and then puts it in force.
fn turn_slots<D: Disk>(disk: &mut D, place: &Place, at: u64) -> Result<(), Failed>
    requires few { place.now.gate < 9223372036854775808 }
    requires young { (kept.slot_in place.now.slots place.now.which).generation < 9223372036854775808 }
    ensures turned { IsTrue D.tells → (rest : List ℕ) (l : List Handed)
        → IsLaid place.now.gate place.now.slots rest (D.reads disk.old) (D.may_leave disk.old)
        → NamesLog place.now rest l → NamesLog (next_place place.now at) rest l
        → OnOk result (IsLaid place.now.gate (next_place place.now at).slots rest (D.reads disk.new)
        (D.may_leave disk.new)) }
    ensures images { IsTrue D.tells → (rest : List ℕ) (l : List Handed)
        → IsLaid place.now.gate place.now.slots rest (D.reads disk.old) (D.may_leave disk.old)
        → NamesLog place.now rest l → NamesLog (next_place place.now at) rest l
        → (c : List ℕ) → D.may_leave disk.new c → Stands c l }
    ensures cause { HasCause (D.faults disk.old) (D.faults disk.new) result }
{
    shut_slot(disk, place)?;
    fill_slot(disk, place, at)?;
    open_slot(disk, place, at)?;
    Ok(())
}

/// Writes a log of the same lists where it may stand, puts it in force, and cuts the file behind it.
pub fn rewrite<D: Disk>(
    disk: &mut D,
    place: &Place,
    gate: u64,
    at: u64,
    text: &[u8],
) -> Result<(), Failed>
    requires few { place.now.gate < 9223372036854775808 }
    requires young { (kept.slot_in place.now.slots place.now.which).generation < 9223372036854775808 }
    requires free { IsFree place.now gate at (length text.now) }
    requires short { at + length text.now < 18446744073709551616 }
    ensures rewritten { IsTrue D.tells → (front : List ℕ) (l : List Handed) → IsFrontAt place.now front l
        → IsAtRest (D.reads disk.old) (D.may_leave disk.old) gate front → text.now ≡ compact l ++ 0 ∷ []
        → logs.IsFront log_grammar (compact l) l
        → OnOk result (IsRewritten (next_place place.now at) (at + length (compact l)) l (D.reads disk.new)
        (D.may_leave disk.new)) }
    ensures images { IsTrue D.tells → (front : List ℕ) (l : List Handed) → IsFrontAt place.now front l
        → IsAtRest (D.reads disk.old) (D.may_leave disk.old) gate front → text.now ≡ compact l ++ 0 ∷ []
        → logs.IsFront log_grammar (compact l) l
        → (c : List ℕ) → D.may_leave disk.new c → Stands c l }
    ensures cause { HasCause (D.faults disk.old) (D.faults disk.new) result }
{
    lay_log(disk, place, gate, at, text)?;
    turn_slots(disk, place, at)?;
    let end = at + text.len() as u64;
    cut_log(disk, end)?;
    Ok(())
}

ghost use Rattle.std.specs.Prelude.{◌≡◌, IfOk, map};
ghost use Rattle.std.specs.List.{All};
ghost use Rattle.ledger_steps.specs.Posts.{entries_of};
ghost use Rattle.posting.specs.Standings.{IsSmall};
ghost use Rattle.ledger_steps.specs.Views.{locks_of, open_locks, view_of, views_of};

use crate::register::Register;
use enq_base::{Items, NoMemory, Status, UnitKey};
use ledger_steps::Part;
use lock_entry::{Entry, UnitLocks};
use std::alloc::Global;
use update_records::{Unit, UnitView};

fn view_of(register: &Register, unit: &Unit) -> UnitView
    requires { IsSmall unit.now }
    ensures { result ≡ view_of register.now.ledger unit.now }
{
    let status = register.status(&unit.key);
    UnitView {
        key: unit.key,
        user: unit.user,
        status: status.unwrap_or(Status::Open),
        v1: unit.parts.v1.as_slice().len() as u32,
        v2: unit.parts.v2.as_slice().len() as u32,
        locks: unit.entries.as_slice().len() as u32,
        numbers: unit.numbers.as_slice().len() as u32,
        error: register.error(&unit.key),
    }
}

fn views_among(
    alloc: Global,
    register: &Register,
    units: &[Unit],
) -> Result<Vec<UnitView>, NoMemory>
    requires { All IsSmall units.now }
    ensures { IfOk result (λ views. views.items ≡ map (view_of register.now.ledger) units.now) }
{
    let mut views = Vec::new(alloc);
    for unit in units {
        views.push(view_of(register, unit))?;
    }
    Ok(views)
}

/// What is told of each recorded unit.
pub fn views(alloc: Global, register: &Register) -> Result<Vec<UnitView>, NoMemory>
    ensures { IfOk result (λ views. views.items ≡ views_of register.now.ledger) }
{
    views_among(alloc, register, register.units())
}

/// The locks of a unit.
pub fn entries(alloc: Global, register: &Register, unit: &UnitKey) -> Result<Vec<Entry>, NoMemory>
    ensures { IfOk result (λ entries. entries.items ≡ entries_of register.now.ledger.units unit.now) }
{
    let Some(found) = register.unit(unit) else {
        return Ok(Vec::new(alloc));
    };
    Ok(Vec::from_slice(alloc, found.entries.as_slice())?)
}

fn locks_of(alloc: Global, register: &Register, unit: UnitKey) -> Result<UnitLocks, NoMemory>
    ensures { IfOk result (λ locks. locks ≡ locks_of register.now.ledger unit) }
{
    let entries = entries(alloc, register, &unit)?;
    Ok(UnitLocks {
        unit,
        entries: Items::from_vec(entries),
    })
}

/// The units that wait for their V1 part, with their locks.
pub fn open_units(alloc: Global, register: &Register) -> Result<Vec<UnitLocks>, NoMemory>
    ensures { IfOk result (λ locks. locks.items ≡ open_locks register.now.ledger) }
{
    let mut found = Vec::new(alloc);
    for place in 0..register.waiting(Part::V1) {
        let Some(unit) = register.waiting_at(Part::V1, place + 1) else {
            unreachable!();
        };
        found.push(locks_of(alloc, register, unit)?)?;
    }
    Ok(found)
}

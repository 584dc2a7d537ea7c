ghost use Rattle.std.specs.Prelude.{◌≡◌, ℕ, ◌&&◌, nat_eq, ◌++◌, ◌∷◌, [], List, OnOk, IfOk, if◌then◌else◌};
ghost use Rattle.enq_base.specs.Owners.{same_unit};
ghost use Rattle.enq_base.specs.declared.owner.UnitKey.{UnitKey};
ghost use Rattle.store_reading.specs.Posts.{effect_in};
ghost use Rattle.store_reading.specs.Posting.{effects_for, AreParts};
ghost use Rattle.update_records.specs.declared.stored.Record.{Record};

use crate::part_id::{PartId, part_id};
use enq_base::{Effect, NoMemory, UnitKey};
use std::alloc::Global;
use std::collections::HashMap;
use update_records::Record;

fn push_effect(
    alloc: Global,
    parts: &mut HashMap<PartId, Vec<Effect>>,
    unit: &UnitKey,
    part: u8,
    effect: Effect,
) -> Result<(), NoMemory>
    ensures { OnOk result ((key : UnitKey) (n : ℕ) → effects_for parts.new key n
        ≡ (if same_unit unit.now key && nat_eq part n then effects_for parts.old key n ++ effect ∷ [] else effects_for
        parts.old key n)) }
{
    let list = parts.entry(part_id(unit, part))?.or_insert(Vec::new(alloc));
    list.push(effect)?;
    Ok(())
}

fn add_step(
    alloc: Global,
    parts: &mut HashMap<PartId, Vec<Effect>>,
    stored: &Record,
) -> Result<(), NoMemory>
    ensures { OnOk result
        ((key : UnitKey) (n : ℕ)
        → effects_for parts.new key n ≡ effects_for parts.old key n ++ effect_in key n stored.now) }
{
    if let Record::Step {
        unit,
        part,
        effect,
        ..
    } = stored
    {
        push_effect(alloc, parts, unit, *part, effect.copy(alloc)?)?;
    }
    Ok(())
}

/// The effects of each part of a unit, in the order of their rows.
pub fn parts_of(alloc: Global, steps: &[Record]) -> Result<HashMap<PartId, Vec<Effect>>, NoMemory>
    ensures { IfOk result (λ parts. AreParts parts steps.now) }
{
    let mut parts = HashMap::new(alloc);
    for stored in steps {
        add_step(alloc, &mut parts, stored)?;
    }
    Ok(parts)
}

pub fn effects_for<'a>(
    parts: &'a HashMap<PartId, Vec<Effect>>,
    unit: &UnitKey,
    part: u8,
) -> &'a [Effect]
    ensures { result.now ≡ effects_for parts.now unit.now part }
{
    match parts.get(&part_id(unit, part)) {
        Some(list) => list.as_slice(),
        None => &[],
    }
}

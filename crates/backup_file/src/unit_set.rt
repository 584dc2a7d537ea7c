ghost use Rattle.std.specs.Prelude.{◌≡◌, ◌&&◌, ◌||◌, not, OnOk};
ghost use Rattle.enq_base.specs.Owners.{same_unit};
ghost use Rattle.enq_base.specs.declared.owner.UnitKey.{UnitKey};
ghost use Rattle.backup_file.specs.Lists.{is_known};

use enq_base::{NoMemory, UnitId, UnitKey, id_of};
use std::collections::HashSet;

/// Whether the unit is among these.
pub fn holds(units: &HashSet<UnitId>, unit: &UnitKey) -> bool
    ensures { result ≡ is_known unit.now units.now.keys }
{
    units.contains(&id_of(unit))
}

/// Adds the unit.
pub fn add(units: &mut HashSet<UnitId>, unit: &UnitKey) -> Result<(), NoMemory>
    ensures { OnOk result
        ((other : UnitKey) → is_known other
        units.new.keys ≡ (same_unit unit.now other || is_known other units.old.keys)) }
{
    units.insert(id_of(unit))?;
    Ok(())
}

/// Takes the unit away.
pub fn forget(units: &mut HashSet<UnitId>, unit: &UnitKey)
    ensures { (other : UnitKey)
        → is_known other units.new.keys ≡ (not (same_unit unit.now other) && is_known other units.old.keys) }
{
    units.remove(&id_of(unit));
}

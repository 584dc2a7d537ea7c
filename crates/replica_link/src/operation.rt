ghost use Rattle.std.specs.Prelude.{◌≡◌, map, false, OnOk, OnErr};
ghost use Rattle.lock_entry.specs.Names.{name_of, stands};
ghost use Rattle.replica_link.specs.Operations.{after_op, instead_of, put, IsNew};

use enq_base::{Name, NoMemory, Owner, Pattern, UnitKey};
use lock_entry::{Asked, Entry, LockName, drop_entry, hand_over, stands, turn};
use std::alloc::Global;

/// A change of a lock table, as it is shipped to its replica.
#[derive(Clone, Copy, Debug, PartialEq, Eq)]
pub enum TableOp {
    /// The entry stands in the place of the one with its name, or last.
    Put(Entry),
    /// The entry of this name goes, whatever its count.
    Drop {
        owner: Owner,
        asked: Asked,
    },
    /// The owner's O entry at this table and argument becomes E, or goes and adds its count to the E entry there.
    Turn {
        owner: Owner,
        table: Name,
        pattern: Pattern,
    },
    /// The unit's entries are handed, and its O entries go.
    Handed(UnitKey),
}

/// Makes one change to a replica's list. One of an entry that isn't there changes nothing, `Put` excepted.
///
/// Where a name stands twice, which is so in no sound list, the change is made to each entry of the name. The list
/// grows by the allocator that it was made with.
pub fn apply_op(_alloc: Global, list: &mut Vec<Entry>, op: &TableOp) -> Result<(), NoMemory>
    ensures done { OnOk result (list.new.items ≡ after_op list.old.items op.now) }
    ensures unchanged { OnErr result (list.new.items ≡ list.old.items) }
    ensures memory { OnErr result (IsNew list.old.items op.now) }
{
    match op {
        TableOp::Put(entry) => put_entry(list, entry)?,
        TableOp::Drop { owner, asked } => {
            let name = LockName {
                owner: *owner,
                asked: *asked,
            };
            drop_entry(list, &name);
        }
        TableOp::Turn {
            owner,
            table,
            pattern,
        } => turn(list, owner, table, pattern),
        TableOp::Handed(unit) => hand_over(list, unit),
    }
    Ok(())
}

fn put_entry(list: &mut Vec<Entry>, entry: &Entry) -> Result<(), NoMemory>
    ensures done { OnOk result (list.new.items ≡ put list.old.items entry.now) }
    ensures unchanged { OnErr result (list.new.items ≡ list.old.items) }
    ensures memory { OnErr result (stands list.old.items (name_of entry.now) ≡ false) }
{
    if stands(list.as_slice(), &entry.name()) {
        replace(list.as_mut_slice(), entry);
    } else {
        list.push(*entry)?;
    }
    Ok(())
}

fn replace(entries: &mut [Entry], entry: &Entry)
    ensures { entries.new ≡ map (instead_of entry.now) entries.old }
{
    for other in entries.iter_mut() {
        replace_one(other, entry);
    }
}

fn replace_one(other: &mut Entry, entry: &Entry)
    ensures { other.new ≡ instead_of entry.now other.old }
{
    if other.has_name(&entry.name()) {
        *other = *entry;
    }
}

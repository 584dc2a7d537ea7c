ghost use Rattle.std.specs.Prelude.{◌≡◌, [], IfErr, IfOk, IsTrue, OnErr, OnOk, false};
ghost use Rattle.lock_entry.specs.Freeing.{handed_over, without};
ghost use Rattle.lock_entry.specs.Names.{has_distinct_names};
ghost use Rattle.lock_index.specs.Slots.{live};
ghost use Rattle.replica_link.specs.Operations.{after_op, put};
ghost use Rattle.replica_link.specs.declared.fault.LinkFault.TheVariants as fault;

use crate::changes::{append, named, turn};
use crate::finding::stands;
use crate::owners::hand;
use crate::shelf::Shelf;
use enq_base::{NoMemory, UnitKey};
use lock_entry::{Asked, Entry, LockName, Mode};
use replica_link::{LinkFault, TableOp};
use std::alloc::Global;

/// A shelf of just these entries, of which each has a name of its own.
pub fn distinct_shelf(alloc: Global, entries: &[Entry]) -> Result<Shelf, LinkFault>
    ensures entries { IfOk result (λ s. live s ≡ entries.now) }
    ensures distinct { OnOk result (IsTrue (has_distinct_names entries.now)) }
    ensures twice { IfErr result (λ f. f ≡ fault.Failed → has_distinct_names entries.now ≡ false) }
{
    let mut shelf = Shelf::new(alloc);
    match put_distinct(alloc, &mut shelf, entries) {
        Ok(()) => Ok(shelf),
        Err(fault) => {
            drop(shelf);
            Err(fault)
        }
    }
}

/// Puts entries on an empty shelf, of which each has a name of its own.
fn put_distinct(alloc: Global, shelf: &mut Shelf, entries: &[Entry]) -> Result<(), LinkFault>
    requires { live shelf.old ≡ [] }
    ensures entries { OnOk result (live shelf.new ≡ entries.now) }
    ensures distinct { OnOk result (IsTrue (has_distinct_names entries.now)) }
    ensures twice { IfErr result (λ f. f ≡ fault.Failed → has_distinct_names entries.now ≡ false) }
{
    for entry in entries {
        if stands(shelf, &entry.name()) {
            return Err(LinkFault::Failed);
        }
        shelf.push(alloc, entry)?;
    }
    Ok(())
}

/// Makes one change to a replica. One of an entry that isn't there changes nothing, `Put` excepted.
pub fn apply_op(alloc: Global, shelf: &mut Shelf, op: &TableOp) -> Result<(), NoMemory>
    requires { IsTrue (has_distinct_names (live shelf.old)) }
    ensures done { OnOk result (live shelf.new ≡ after_op (live shelf.old) op.now) }
    ensures unchanged { OnErr result (live shelf.new ≡ live shelf.old) }
    ensures distinct { IsTrue (has_distinct_names (live shelf.new)) }
{
    match op {
        TableOp::Put(entry) => put_entry(alloc, shelf, entry)?,
        TableOp::Drop { owner, asked } => {
            let name = LockName {
                owner: *owner,
                asked: *asked,
            };
            drop_entry(shelf, &name);
        }
        TableOp::Turn {
            owner,
            table,
            pattern,
        } => {
            let asked = Asked {
                table: *table,
                pattern: *pattern,
                mode: Mode::O,
            };
            turn(shelf, owner, &asked);
        }
        TableOp::Handed(unit) => hand_over(shelf, unit),
    }
    Ok(())
}

/// Puts the entry in the place of the one with its name, or last. Where most places are empty, the others are moved
/// together first.
fn put_entry(alloc: Global, shelf: &mut Shelf, entry: &Entry) -> Result<(), NoMemory>
    requires { IsTrue (has_distinct_names (live shelf.old)) }
    ensures done { OnOk result (live shelf.new ≡ put (live shelf.old) entry.now) }
    ensures unchanged { OnErr result (live shelf.new ≡ live shelf.old) }
    ensures distinct { IsTrue (has_distinct_names (live shelf.new)) }
{
    match named(shelf, &entry.name()) {
        Some((place, standing)) => {
            shelf.rewrite(place, &standing, entry);
            Ok(())
        }
        None => append(alloc, shelf, &[*entry]),
    }
}

/// Takes out the entry of this name.
fn drop_entry(shelf: &mut Shelf, name: &LockName)
    requires { IsTrue (has_distinct_names (live shelf.old)) }
    ensures done { live shelf.new ≡ without (live shelf.old) name.now }
    ensures distinct { IsTrue (has_distinct_names (live shelf.new)) }
{
    match named(shelf, name) {
        Some((place, entry)) => shelf.clear(place, &entry),
        None => {}
    }
}

/// Flags the unit's entries as handed, and takes out its O entries.
fn hand_over(shelf: &mut Shelf, unit: &UnitKey)
    requires { IsTrue (has_distinct_names (live shelf.old)) }
    ensures done { live shelf.new ≡ handed_over (live shelf.old) unit.now }
    ensures distinct { IsTrue (has_distinct_names (live shelf.new)) }
{
    let _ = hand(shelf, unit);
}

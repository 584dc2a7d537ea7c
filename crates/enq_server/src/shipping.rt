ghost use Rattle.std.specs.Prelude.{◌≡◌, ◌||◌, [], ◌∷◌, ◌++◌, List, if◌then◌else◌, map, nat_lt};
ghost use Rattle.std.specs.List.{flat_map};
ghost use Rattle.lock_entry.specs.declared.entry.Entry.{Entry};
ghost use Rattle.lock_entry.specs.Freeing.{handed_over};
ghost use Rattle.lock_entry.specs.Names.{halves, halves_of, named};
ghost use Rattle.lock_entry.specs.Table.{IsTable, with_entries};
ghost use Rattle.replica_link.specs.Operations.{after_ops};
ghost use Rattle.replica_link.specs.Shipping.{drop_of, freed_ops, granted_ops, lowered_op, owner_ops, put_ops, turn_ops};
ghost use Rattle.replica_link.specs.declared.operation.TableOp.TheVariants.{Put};
ghost use Rattle.enq_server.specs.Replica.{IsAt, IsLostBy, IsLostWith, KeepsOn};

use crate::replica::Replica;
use enq_base::{NoMemory, Owner, UnitKey};
use lock_entry::{Asked, Asker, Entry, LockStore, Request};
use replica_link::{Link, TableOp};

fn drop_of(entry: &Entry) -> TableOp
    ensures { result ≡ drop_of entry.now }
{
    TableOp::Drop {
        owner: entry.owner,
        asked: entry.asked(),
    }
}

/// The entry goes, where it is the owner's.
fn ship_own<L: Link>(replica: &mut Replica<L>, entry: &Entry, owner: &Owner)
    ensures at { (list : List Entry) → IsAt L.applied replica.old list
        → IsAt L.applied replica.new (after_ops list (owner_ops (entry.now ∷ []) owner.now)) }
    ensures keeps { KeepsOn L.applied L.faults L.refusals replica.old replica.new }
    ensures lost { IsLostBy replica.old replica.new (owner_ops (entry.now ∷ []) owner.now) }
{
    if entry.is_of(owner) {
        replica.ship(&drop_of(entry));
    }
}

/// The owner's entries of the table go, found one by one.
fn ship_found<T: LockStore, L: Link>(replica: &mut Replica<L>, table: &T, owner: &Owner)
    ensures at { (list : List Entry) → IsAt L.applied replica.old list
        → IsAt L.applied replica.new (after_ops list (owner_ops (T.table table.now).entries owner.now)) }
    ensures keeps { KeepsOn L.applied L.faults L.refusals replica.old replica.new }
    ensures lost { IsLostBy replica.old replica.new (owner_ops (T.table table.now).entries owner.now) }
{
    for place in 0..table.len() {
        if let Some(entry) = table.at(place + 1) {
            ship_own(replica, &entry, owner);
        }
    }
}

/// The owner's entries of the table go. Without memory for a list of them it goes over the whole table.
pub fn ship_owner<T: LockStore, L: Link>(replica: &mut Replica<L>, table: &T, owner: &Owner)
    ensures at { (list : List Entry) → IsAt L.applied replica.old list
        → IsAt L.applied replica.new (after_ops list (owner_ops (T.table table.now).entries owner.now)) }
    ensures keeps { KeepsOn L.applied L.faults L.refusals replica.old replica.new }
    ensures lost { IsLostBy replica.old replica.new (owner_ops (T.table table.now).entries owner.now) }
{
    if replica.attached() {
        match table.entries_of(replica.alloc(), owner) {
            Ok(own) => ship_drops(replica, own.as_slice()),
            Err(NoMemory) => ship_found(replica, table, owner),
        }
    }
}

/// These entries stand.
fn ship_puts<L: Link>(replica: &mut Replica<L>, entries: &[Entry])
    ensures at { (list : List Entry) → IsAt L.applied replica.old list
        → IsAt L.applied replica.new (after_ops list (map Put entries.now)) }
    ensures keeps { KeepsOn L.applied L.faults L.refusals replica.old replica.new }
    ensures lost { IsLostBy replica.old replica.new (map Put entries.now) }
{
    for entry in entries {
        replica.ship(&TableOp::Put(*entry));
    }
}

/// These entries go.
pub fn ship_drops<L: Link>(replica: &mut Replica<L>, entries: &[Entry])
    ensures at { (list : List Entry) → IsAt L.applied replica.old list
        → IsAt L.applied replica.new (after_ops list (map drop_of entries.now)) }
    ensures keeps { KeepsOn L.applied L.faults L.refusals replica.old replica.new }
    ensures lost { IsLostBy replica.old replica.new (map drop_of entries.now) }
{
    for entry in entries {
        replica.ship(&drop_of(entry));
    }
}

/// The given entries stand in place of the owner's, which are these, unless the table stays as it is.
pub fn ship_readmitted<L: Link>(
    replica: &mut Replica<L>,
    own: &[Entry],
    entries: &[Entry],
    stays: bool,
)
    ensures at { (list : List Entry) → IsAt L.applied replica.old list
        → IsAt L.applied replica.new
        (if stays then list else after_ops (after_ops list (map drop_of own.now)) (map Put entries.now)) }
    ensures keeps { KeepsOn L.applied L.faults L.refusals replica.old replica.new }
    ensures lost { IsLostBy replica.old replica.new
        (if stays then [] else map drop_of own.now ++ map Put entries.now) }
{
    if !stays {
        ship_drops(replica, own);
        ship_puts(replica, entries);
    }
}

/// The entry of this name stands as it does in the table.
fn ship_name<T: LockStore, L: Link>(
    replica: &mut Replica<L>,
    table: &T,
    owner: &Owner,
    asked: &Asked,
)
    ensures at { (list : List Entry) → IsAt L.applied replica.old list
        → IsAt L.applied replica.new
        (after_ops list (put_ops (T.table table.now).entries (named owner.now asked.now))) }
    ensures keeps { KeepsOn L.applied L.faults L.refusals replica.old replica.new }
    ensures lost { IsLostBy replica.old replica.new
        (put_ops (T.table table.now).entries (named owner.now asked.now)) }
{
    if let Some(entry) = table.find(owner, asked) {
        replica.ship(&TableOp::Put(entry));
    }
}

/// The entries that the halves of a request name stand as they do in the table.
fn ship_halves<T: LockStore, L: Link>(
    replica: &mut Replica<L>,
    table: &T,
    asker: &Asker,
    request: &Request,
)
    ensures at { (list : List Entry) → IsAt L.applied replica.old list
        → IsAt L.applied replica.new
        (after_ops list (granted_ops (T.table table.now).entries (halves_of asker.now request.now))) }
    ensures keeps { KeepsOn L.applied L.faults L.refusals replica.old replica.new }
    ensures lost { IsLostBy replica.old replica.new
        (granted_ops (T.table table.now).entries (halves_of asker.now request.now)) }
{
    if request.dialogue {
        ship_name(replica, table, &asker.dialogue, &request.asked);
    }
    if request.update {
        ship_name(replica, table, &asker.update, &request.asked);
    }
}

/// The entries that the requests name stand as they do in the table.
pub fn ship_granted<T: LockStore, L: Link>(
    replica: &mut Replica<L>,
    table: &T,
    asker: &Asker,
    requests: &[Request],
)
    ensures at { (list : List Entry) → IsAt L.applied replica.old list
        → IsAt L.applied replica.new
        (after_ops list (granted_ops (T.table table.now).entries (halves asker.now requests.now))) }
    ensures keeps { KeepsOn L.applied L.faults L.refusals replica.old replica.new }
    ensures lost { IsLostBy replica.old replica.new
        (granted_ops (T.table table.now).entries (halves asker.now requests.now)) }
{
    for request in requests {
        ship_halves(replica, table, asker, request);
    }
}

fn lowered(entry: &Entry) -> TableOp
    ensures { result ≡ lowered_op entry.now }
{
    if entry.count <= 1 {
        drop_of(entry)
    } else {
        let mut lower = *entry;
        lower.count -= 1;
        TableOp::Put(lower)
    }
}

/// The entry of this name, as it stands in the table, loses one.
pub fn ship_freed<T: LockStore, L: Link>(
    replica: &mut Replica<L>,
    table: &T,
    owner: &Owner,
    asked: &Asked,
)
    ensures at { (list : List Entry) → IsAt L.applied replica.old list
        → IsAt L.applied replica.new
        (after_ops list (freed_ops (T.table table.now).entries (named owner.now asked.now))) }
    ensures keeps { KeepsOn L.applied L.faults L.refusals replica.old replica.new }
    ensures lost { IsLostBy replica.old replica.new
        (freed_ops (T.table table.now).entries (named owner.now asked.now)) }
{
    if let Some(entry) = table.find(owner, asked) {
        replica.ship(&lowered(&entry));
    }
}

fn turn_of(owner: Owner, asked: &Asked) -> TableOp
    ensures { result ≡ TableOp.Turn owner asked.now.table asked.now.pattern }
{
    TableOp::Turn {
        owner,
        table: asked.table,
        pattern: asked.pattern,
    }
}

/// The asker's optimistic entries at these tables and arguments turn.
pub fn ship_turns<L: Link>(replica: &mut Replica<L>, asker: &Asker, asked: &[Asked])
    ensures at { (list : List Entry) → IsAt L.applied replica.old list
        → IsAt L.applied replica.new (after_ops list (flat_map (turn_ops asker.now) asked.now)) }
    ensures keeps { KeepsOn L.applied L.faults L.refusals replica.old replica.new }
    ensures lost { IsLostBy replica.old replica.new (flat_map (turn_ops asker.now) asked.now) }
{
    for one in asked {
        ship_turn(replica, asker, one);
    }
}

fn ship_turn<L: Link>(replica: &mut Replica<L>, asker: &Asker, asked: &Asked)
    ensures at { (list : List Entry) → IsAt L.applied replica.old list
        → IsAt L.applied replica.new (after_ops list (turn_ops asker.now asked.now)) }
    ensures keeps { KeepsOn L.applied L.faults L.refusals replica.old replica.new }
    ensures lost { IsLostBy replica.old replica.new (turn_ops asker.now asked.now) }
{
    replica.ship(&turn_of(asker.dialogue, asked));
    replica.ship(&turn_of(asker.update, asked));
}

/// Whether a handover changes entries, of a unit that had some that weren't handed over, or removes some.
fn changes(unhanded: bool, before: u32, now: u32) -> bool
    ensures { result ≡ (unhanded || nat_lt now before) }
{
    unhanded || now < before
}

/// Flags the unit's S, E and X entries as handed and removes its O entries. Where that changes nothing, nothing is
/// sent.
pub fn hand<T: LockStore, L: Link>(replica: &mut Replica<L>, table: &mut T, unit: &UnitKey)
    ensures after { T.table table.new ≡ with_entries (T.table table.old)
        (handed_over (T.table table.old).entries unit.now) }
    ensures good { IsTable (T.table table.new) }
    ensures at { IsAt L.applied replica.old (T.table table.old).entries
        → IsAt L.applied replica.new (T.table table.new).entries }
    ensures keeps { KeepsOn L.applied L.faults L.refusals replica.old replica.new }
    ensures lost { IsLostWith replica.old replica.new (T.table table.old) (T.table table.new) }
{
    let unhanded = table.has_unhanded(&Owner::Upd(*unit));
    let before = table.len();
    table.hand(unit);
    if changes(unhanded, before, table.len()) {
        replica.ship(&TableOp::Handed(*unit));
    }
}

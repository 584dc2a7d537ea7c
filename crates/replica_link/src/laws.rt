ghost use Rattle.std.specs.Prelude.{◌≡◌, ◌++◌, IsTrue};
ghost use Rattle.lock_entry.specs.Names.{has_distinct_names};
ghost use Rattle.lock_entry.specs.Freeing.{freed, freed_owner};
ghost use Rattle.lock_entry.specs.Granting.{granted};
ghost use Rattle.lock_entry.specs.Converting.{conversion};
ghost use Rattle.lock_entry.specs.Sound.{ReadmitsOnly};
ghost use Rattle.replica_link.specs.Operations.{after_ops};
ghost use Rattle.replica_link.specs.Shipping.{owner_ops, freed_ops, granted_ops, readmitted_ops, converted_ops};

use enq_base::{Name, Owner};
use lock_entry::{Asked, Asker, Entry, LockName};

/// The drops of an owner's entries do to the replica what freeing the owner does to the table.
pub fn drops_free_the_owner(_list: &[Entry], _owner: &Owner)
    ensures { after_ops _list.now (owner_ops _list.now _owner.now) ≡ freed_owner _list.now _owner.now }
{}

/// The one operation of an entry that loses one does to the replica what freeing does to the table.
pub fn one_operation_frees_one(_list: &[Entry], _name: &LockName)
    requires { IsTrue (has_distinct_names _list.now) }
    ensures { after_ops _list.now (freed_ops _list.now _name.now) ≡ freed _list.now _name.now }
{}

/// The puts of all entries that a granted call names, as they stand after it, bring the replica to the table.
pub fn puts_grant(_list: &[Entry], _user: &Name, _names: &[LockName])
    requires { IsTrue (has_distinct_names _list.now) }
    ensures { let table = granted _list.now _user.now _names.now in after_ops _list.now
        (granted_ops table _names.now) ≡ table }
{}

/// The drops of what the unit still had and the puts of what it gets again bring the replica to the table.
pub fn puts_readmit(_list: &[Entry], _asker: &Asker, _given: &[Entry])
    requires distinct { IsTrue (has_distinct_names _list.now) }
    requires given { ReadmitsOnly _asker.now _given.now }
    ensures { after_ops _list.now (readmitted_ops _list.now _asker.now.update _given.now) ≡ freed_owner _list.now
        _asker.now.update ++ _given.now }
{}

/// The turns of each argument, for both owners, and the drops of what gave way do to the replica what a conversion
/// does to the table.
pub fn turns_convert(_list: &[Entry], _asker: &Asker, _asked: &[Asked])
    ensures { let after = conversion _list.now _asker.now _asked.now in after_ops _list.now
        (converted_ops _asker.now _asked.now after.removed) ≡ after.entries }
{}

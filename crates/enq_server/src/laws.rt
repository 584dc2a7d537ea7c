ghost use Rattle.std.specs.Prelude.{◌≡◌, ◌≤◌, ℕ, true, [], List, length, if◌then◌else◌};
ghost use Rattle.std.specs.List.{All, filter};
ghost use Rattle.enq_base.specs.Owners.{same_unit};
ghost use Rattle.enq_base.specs.declared.owner.Owner.TheVariants.{Upd};
ghost use Rattle.enq_base.specs.declared.owner.UnitKey.{UnitKey};
ghost use Rattle.lock_entry.specs.Freeing.{handed_over};
ghost use Rattle.lock_entry.specs.Names.{is_of};
ghost use Rattle.lock_entry.specs.Sound.{IsSound};
ghost use Rattle.lock_entry.specs.declared.entry.Entry.{Entry};
ghost use Rattle.lock_entry.specs.declared.entry.UnitLocks.{UnitLocks};
ghost use Rattle.backup_file.specs.Handing.{handed_of};
ghost use Rattle.backup_file.specs.Lists as lists;
ghost use Rattle.backup_file.specs.declared.handed.Handed.{Handed};
ghost use Rattle.enq_server.specs.Faults.{Clashes};
ghost use Rattle.enq_server.specs.Held.{AreHeld};
ghost use Rattle.enq_server.specs.Recovery.{entries_of, is_one_of, joined, lists_among};
ghost use Rattle.enq_server.specs.Server.{lasting, with_list};

/// The file has one user for all entries of a list. Where a unit's entries have one user, its list is what the table
/// has of the unit once it is handed over, and a list of handed entries is these.
pub fn one_user_is_kept()
    ensures handed { (unit : UnitKey) (user : List ℕ) (table : List Entry)
        → All (λ (e : Entry). e.user ≡ user) (lasting unit table)
        → (handed_of unit (lasting unit table)).entries ≡ filter (is_of (Upd unit)) (handed_over table unit) }
    ensures returned { (unit : UnitKey) (user : List ℕ) (entries : List Entry)
        → All (λ (e : Entry). e.user ≡ user) entries
        → All (λ (e : Entry). e.handed ≡ true) entries → (handed_of unit entries).entries ≡ entries }
{}

/// What a change of the lists does to the entries of each unit.
pub fn entries_follow_lists()
    ensures with_one { (l : List Handed) (unit other : UnitKey) (entries : List Entry) → 1 ≤ length entries
        → entries_of (with_list unit entries l)
        other ≡ (if same_unit unit other then (handed_of unit entries).entries else entries_of l other) }
    ensures without { (l : List Handed) (unit other : UnitKey)
        → entries_of (lists.without unit l) other ≡ (if same_unit unit other then [] else entries_of l other) }
    ensures among { (l : List Handed) (units : List UnitLocks) (other : UnitKey)
        → entries_of (lists_among units l) other ≡ (if is_one_of units other then entries_of l other else []) }
{}

/// What a sound table had of some units stands together in whichever order the units come, so no opening over these
/// units clashes.
pub fn what_a_table_held_stands_together()
    ensures sound { (table : List Entry) (units : List UnitLocks) → AreHeld table units → IsSound (joined units) }
    ensures unclashed { (table : List Entry) (units : List UnitLocks) → AreHeld table units
        → (l : List Handed) (first second : ℕ) → Clashes l units first second → ⊥ }
{}

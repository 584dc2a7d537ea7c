ghost use Rattle.std.specs.Prelude.{◌≡◌, ◌+◌, ◌-◌, ◌^◌, ℕ, List, Option, Some, None, Err, IfSome, IsSome, IfOk, OnOk, OnErr, is_some, option_map};
ghost use Rattle.lock_entry.specs.declared.entry.Entry.{Entry};
ghost use Rattle.replica_link.specs.declared.fault.LinkFault.TheVariants.{Failed};
ghost use Rattle.replica_link.specs.Operations.{after_op};
ghost use Rattle.replica_link.specs.Linking.{HasCauses, Stays, UnlessFailed, OnFailed};

use crate::fault::LinkFault;
use crate::operation::TableOp;
use lock_entry::Entry;
use std::alloc::Global;

/// The way to a replica of the lock table.
///
/// A replica is attached by a snapshot of the table, and operations are then shipped to it in order, numbered from 1.
/// After a fault it is no longer attached: what it gives is then not said.
pub trait Link {
    /// The list that a `hand_over` answers where it succeeds.
    ghost gives: { Self → List Entry };

    /// The list after the snapshot and the operations that were shipped, where the link tells it.
    ghost applied: { Self → Option (List Entry) };

    /// The number of the next operation. With none, only `attach` is allowed.
    ghost next: { Self → Option ℕ };

    /// How many calls have failed, up to the count's end.
    ghost faults: { Self → ℕ };

    /// How many calls were refused for want of memory, up to the count's end.
    ghost refusals: { Self → ℕ };

    /// Sends a snapshot of the table.
    fn attach(&mut self, alloc: Global, entries: &[Entry]) -> Result<(), LinkFault>
        ensures applied { OnOk result (IfSome (applied self.new) (λ list. list ≡ entries.now)) }
        ensures next { OnOk result (next self.new ≡ Some 1) }
        ensures detached { OnErr result (next self.new ≡ None) }
        ensures told { is_some (applied self.new) ≡ is_some (applied self.old) }
        ensures causes { HasCauses faults refusals self.old self.new result };

    /// Sends an operation. The last of all numbers is not for use: it fails.
    fn ship(&mut self, alloc: Global, seq: u64, op: &TableOp) -> Result<(), LinkFault>
        requires { next self.old ≡ Some seq }
        ensures applied { OnOk result
            (applied self.new ≡ option_map (λ list. after_op list op.now) (applied self.old)) }
        ensures next { OnOk result (next self.new ≡ Some (seq + 1)) }
        ensures detached { OnErr result (next self.new ≡ None) }
        ensures last { seq ≡ 2 ^ 64 - 1 → result ≡ Err Failed }
        ensures told { is_some (applied self.new) ≡ is_some (applied self.old) }
        ensures causes { HasCauses faults refusals self.old self.new result };

    /// Asks for the replica's list. A want of memory changes nothing.
    fn hand_over(&mut self, alloc: Global) -> Result<Vec<Entry>, LinkFault>
        requires { IsSome (next self.old) }
        ensures list { IfOk result (λ list. list.items ≡ gives self.old) }
        ensures stays { UnlessFailed result (Stays gives applied next self.old self.new) }
        ensures detached { OnFailed result (next self.new ≡ None) }
        ensures told { is_some (applied self.new) ≡ is_some (applied self.old) }
        ensures causes { HasCauses faults refusals self.old self.new result };

    /// A link that tells its list gives it.
    ghost honest: { (link : Self) → IfSome (applied link) (λ list. gives link ≡ list) };
}

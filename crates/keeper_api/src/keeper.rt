ghost use Rattle.std.specs.Prelude.{◌≡◌, ◌≤◌, ℕ, List, Option, IfSome, IfOk, OnOk, OnErr, is_some};
ghost use Rattle.enq_base.specs.Causes.{HasCause};
ghost use Rattle.keeper_api.specs.declared.rows.Change.{Change};
ghost use Rattle.keeper_api.specs.Rows.{Rows, value_at, page_of, IsPage};
ghost use Rattle.keeper_api.specs.Batch.{changed, held_after, IsBatch};
ghost use Rattle.keeper_api.specs.Keeping.{HasFaultCause, Stays, UnlessFailed, OnNoMemory, IsOnly, IsWithin, IsBeforeOrAfter, AreBothLeft};

use crate::fault::KeepFault;
use crate::rows::{Bytes, Change, Row};
use enq_base::{Failed, NoMemory};
use std::alloc::Global;

/// Rows in numbered tables, each under a key of bytes.
pub trait Keeper {
    // The rows, where the keeper tells them.
    ghost held: { Self → Option Rows };

    // What a crash at this moment may leave.
    ghost may_leave: { Self → Rows → Type 0 };

    // How often a call has failed, up to the count's end.
    ghost faults: { Self → ℕ };

    // Calls other than `reopen` are allowed.
    ghost is_open: { Self → Type 0 };

    // A commit of these changes is allowed.
    ghost has_room: { Self → List Change → Type 0 };

    /// Opens the rows, after a fault too. They are then one of those that a crash might have left. After an error only
    /// `reopen` is allowed, after want of memory too: a keeper over a file has let go of it by then.
    fn reopen(&mut self, alloc: Global) -> Result<(), KeepFault>
        ensures opened { OnOk result (is_open self.new) }
        ensures found { OnOk result (IfSome (held self.new) (may_leave self.old)) }
        ensures stays { OnNoMemory result (held self.new ≡ held self.old) }
        ensures still { OnNoMemory result (IsWithin (may_leave self.old) (may_leave self.new)) }
        ensures told { is_some (held self.new) ≡ is_some (held self.old) }
        ensures crash { IsWithin (may_leave self.new) (may_leave self.old) }
        ensures cause { HasFaultCause (faults self.old) (faults self.new) result };

    /// The value of a row. After `Failed` only `reopen` is allowed.
    fn get(&mut self, alloc: Global, table: u8, key: &[u8]) -> Result<Option<Bytes>, KeepFault>
        requires { is_open self.old }
        ensures value { IfOk result (λ value. IfSome (held self.old) (λ rows. value ≡ value_at rows table key.now)) }
        ensures stays { UnlessFailed result (Stays held is_open has_room self.old self.new) }
        ensures told { is_some (held self.new) ≡ is_some (held self.old) }
        ensures crash { IsWithin (may_leave self.new) (may_leave self.old) }
        ensures cause { HasFaultCause (faults self.old) (faults self.new) result };

    /// The first `n` rows of a table behind a key, in the order of the keys' bytes. After `Failed` only `reopen` is
    /// allowed.
    fn page(
        &mut self,
        alloc: Global,
        table: u8,
        after: &[u8],
        n: u32,
    ) -> Result<Vec<Row>, KeepFault>
        requires opened { is_open self.old }
        requires some { 1 ≤ n }
        requires few { n ≤ 1000 }
        ensures rows { IfOk result
            (λ page. IfSome (held self.old) (λ rows. page.items ≡ page_of rows table after.now n)) }
        ensures shape { IfOk result (λ page. IsPage after.now n page.items) }
        ensures stays { UnlessFailed result (Stays held is_open has_room self.old self.new) }
        ensures told { is_some (held self.new) ≡ is_some (held self.old) }
        ensures crash { IsWithin (may_leave self.new) (may_leave self.old) }
        ensures cause { HasFaultCause (faults self.old) (faults self.new) result };

    /// Takes the memory that a commit of these changes needs. No key is empty, and no row is changed twice.
    fn room(&mut self, alloc: Global, batch: &[Change]) -> Result<(), NoMemory>
        requires opened { is_open self.old }
        requires batch { IsBatch batch.now }
        ensures room { OnOk result (has_room self.new batch.now) }
        ensures held { held self.new ≡ held self.old }
        ensures opened { is_open self.new }
        ensures crash { IsWithin (may_leave self.new) (may_leave self.old) }
        ensures faults { faults self.new ≡ faults self.old };

    /// Makes all the changes, or none, for which `room` was taken. It takes no memory. After `Failed` only `reopen` is
    /// allowed.
    fn commit(&mut self, batch: &[Change]) -> Result<(), Failed>
        requires opened { is_open self.old }
        requires room { has_room self.old batch.now }
        ensures done { OnOk result (held self.new ≡ held_after batch.now (held self.old)) }
        ensures opened { OnOk result (is_open self.new) }
        ensures either { IfSome (held self.old)
            (λ rows. (left : Rows) → may_leave self.new left → IsBeforeOrAfter rows (changed batch.now rows) left) }
        ensures both { OnErr result
            (IfSome (held self.old) (λ rows. AreBothLeft rows (changed batch.now rows) (may_leave self.new))) }
        ensures told { is_some (held self.new) ≡ is_some (held self.old) }
        ensures cause { HasCause (faults self.old) (faults self.new) result };

    // While calls are allowed, a crash leaves the rows that are held.
    ghost settled: { (keeper : Self) → is_open keeper → IfSome (held keeper) (λ rows. IsOnly rows (may_leave keeper)) };

    // In every state a crash may leave the rows that are held.
    ghost held_left: { (keeper : Self) → IfSome (held keeper) (λ rows. may_leave keeper rows) };
}

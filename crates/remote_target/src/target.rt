ghost use Rattle.std.specs.Prelude.{◌≡◌, ◌≤◌, ◌<◌, ◌+◌, length, None, Some, Option, IfOk, IfErr, IfSome, OnOk, is_some};
ghost use Rattle.std.specs.FinMap.{get};
ghost use Rattle.keeper_api.specs.Batch.{changed};
ghost use Rattle.keeper_api.specs.Keeping.{IsBeforeOrAfter, IsWithin};
ghost use Rattle.keeper_api.specs.Rows.{Rows};
ghost use Rattle.remote_target.specs.Executed.{executed_in};
ghost use Rattle.remote_target.specs.Reading.{MayOpen, OnBadRow, bad_place_in};
ghost use Rattle.remote_target.specs.Rows.{changes_of};
ghost use Rattle.table_reading.specs.Tables.{rows_in};
ghost use Rattle.remote_target.specs.Runs.{Ran, executed_as, ran};
ghost use Rattle.remote_target.specs.Targets.{HasExecuted, HasRun, HasTargetCause, IsFull, IsTargetCause, MayRead};
ghost use Rattle.remote_target.specs.Targets.{MayRefuse, OnRefused, Show, UnlessStoreFault};

use crate::call::CallOutcome;
use crate::execute::{execute_new, known_outcome, read_text};
use crate::fault::TargetFault;
use crate::reading::open_rows;
use crate::rows::LIMIT;
use enq_base::{Key, Name, Text};
use keeper_api::Keeper;
use std::alloc::Global;
use std::marker::Model;

/// A second system: it executes remote calls, each once, and keeps their outcomes and its business rows in a store.
#[derive(Drop)]
pub struct Target<K: Keeper> {
    keeper: K,
    count: u64,
}

impl<K: Keeper> Model for Target<K> {
    ghost use Rattle.std.specs.Prelude.{◌≤◌};
    ghost use Rattle.remote_target.specs.Targets.{TargetView};

    ghost Value = { TargetView K };

    ghost use Rattle.std.specs.Coded.{codes};

    ghost coded = { Prim.hlevel (codes, K.code) };

    ghost view = { λ t. record { keeper = t.keeper; count = t.count } };

    ghost invariant = { λ t. t.count ≤ 9223372036854775807 };
}

impl<K: Keeper> Target<K> {
    /// It executed no more calls than it may.
    pub(crate) fn has_few(&self)
        ensures { self.now.count ≤ 9223372036854775807 }
    {
        let _ = &self.count;
    }

    /// Opens a target over a keeper. `BadRow` comes exactly at the first row, by table and in the order of keys, that
    /// is none of a target's.
    pub fn open(alloc: Global, keeper: K) -> Result<Target<K>, (TargetFault, K)>
        ensures opened { IfOk result (λ target. K.is_open target.keeper) }
        ensures good { IfOk result (λ target. IfSome (K.held target.keeper)
            (λ rows. (bad_place_in rows ≡ None) × (target.count ≡ length (rows_in rows 0)))) }
        // Where the keeper tells its rows the target has executed the calls that they spell, so that the clauses of
        // `execute` speak of these.
        ensures stands { IfOk result (λ target. IfSome (K.held target.keeper)
            (λ rows. HasExecuted K.held target (executed_in rows))) }
        // Whatever calls they stand for, up to the most that a target executes, are those that it goes on from.
        ensures goes_on { IfOk result
            (λ target. (r : Ran) → Show (K.held target.keeper) r → length r.executed ≤ 9223372036854775807
            → HasRun K.held target r) }
        ensures found { IfOk result (λ target. IfSome (K.held target.keeper) (K.may_leave keeper)) }
        ensures told { IfOk result (λ target. is_some (K.held target.keeper) ≡ is_some (K.held keeper)) }
        ensures left { IfOk result (λ target. IsWithin (K.may_leave target.keeper) (K.may_leave keeper)) }
        ensures counts { IfOk result (λ target. K.faults target.keeper ≡ K.faults keeper) }
        ensures bad { IfErr result
            (λ e. OnBadRow e.0 (λ table row. IfSome (K.held e.1) (λ rows. bad_place_in rows ≡ Some (table, row)))) }
        ensures refusal { IfErr result (λ e. MayOpen e.0) }
        ensures told_after { IfErr result (λ e. is_some (K.held e.1) ≡ is_some (K.held keeper)) }
        ensures left_after { IfErr result (λ e. IsWithin (K.may_leave e.1) (K.may_leave keeper)) }
        ensures cause { IfErr result (λ e. IsTargetCause (K.faults keeper) (K.faults e.1) e.0) }
    {
        let mut keeper = keeper;
        match open_rows(alloc, &mut keeper) {
            Ok(count) => Ok(Target { keeper, count }),
            Err(fault) => Err((fault, keeper)),
        }
    }

    /// Opens the store anew, after a fault too. On an error only `reopen` is allowed.
    pub fn reopen(&mut self, alloc: Global) -> Result<(), TargetFault>
        ensures opened { OnOk result (K.is_open self.new.keeper) }
        ensures good { OnOk result (IfSome (K.held self.new.keeper)
            (λ rows. (bad_place_in rows ≡ None) × (self.new.count ≡ length (rows_in rows 0)))) }
        // As for `open`: the calls that the rows spell were executed, and it goes on from these.
        ensures stands { OnOk result (IfSome (K.held self.new.keeper)
            (λ rows. HasExecuted K.held self.new (executed_in rows))) }
        ensures goes_on { OnOk result
            ((r : Ran) → Show (K.held self.new.keeper) r → length r.executed ≤ 9223372036854775807
            → HasRun K.held self.new r) }
        ensures found { OnOk result (IfSome (K.held self.new.keeper) (K.may_leave self.old.keeper)) }
        ensures told { is_some (K.held self.new.keeper) ≡ is_some (K.held self.old.keeper) }
        ensures left { IsWithin (K.may_leave self.new.keeper) (K.may_leave self.old.keeper) }
        ensures bad { IfErr result
            (λ fault. OnBadRow fault
            (λ table row. IfSome (K.held self.new.keeper) (λ rows. bad_place_in rows ≡ Some (table, row)))) }
        ensures refusal { IfErr result MayOpen }
        ensures cause { HasTargetCause (K.faults self.old.keeper) (K.faults self.new.keeper) result }
    {
        let count = open_rows(alloc, &mut self.keeper)?;
        self.count = count;
        Ok(())
    }

    /// The outcome of a call: the stored one where its identifier is known, and then nothing changes. Else the call is
    /// executed, and its row, the count and the business row that it changes are one commit. After `StoreFault` only
    /// `reopen` is allowed.
    pub fn execute(
        &mut self,
        alloc: Global,
        tid: &Key,
        text: &Text,
    ) -> Result<CallOutcome, TargetFault>
        requires { K.is_open self.old.keeper }
        // The outcome is the stored one, or that of the text in the rows so far, and the changes are those of the call.
        ensures outcome { IfOk result (λ outcome. (r : Ran) → HasRun K.held self.old r
            → executed_as tid.now (ran (record { tid = tid.now; text = text.now }) r).executed ≡ Some outcome) }
        ensures done { OnOk result ((r : Ran) → HasRun K.held self.old r
            → HasRun K.held self.new (ran (record { tid = tid.now; text = text.now }) r)) }
        ensures rows { OnOk result (IfSome (K.held self.old.keeper) (λ held. (r : Ran) → HasRun K.held self.old r
            → K.held self.new.keeper ≡ Some
            (changed (changes_of (record { tid = tid.now; text = text.now }) r) held))) }
        // What a stop leaves is what was there, or that with the one call.
        ensures left { IfSome (K.held self.old.keeper) (λ held. (r : Ran) → HasRun K.held self.old r → (left : Rows)
            → K.may_leave self.new.keeper left
            → IsBeforeOrAfter held (changed (changes_of (record { tid = tid.now; text = text.now }) r) held) left) }
        ensures opened { UnlessStoreFault result (K.is_open self.new.keeper) }
        ensures unchanged { IfErr result (λ fault. OnRefused fault (K.held self.new.keeper ≡ K.held self.old.keeper)) }
        ensures count { IfErr result (λ _. self.new.count ≡ self.old.count) }
        // `Full` comes exactly where the identifier isn't known and no place is left; `BadRow` never comes.
        ensures full { (r : Ran) → HasRun K.held self.old r
            → IsFull (executed_as tid.now r.executed) (length r.executed) result }
        ensures refusal { IfErr result MayRefuse }
        ensures told { is_some (K.held self.new.keeper) ≡ is_some (K.held self.old.keeper) }
        ensures cause { HasTargetCause (K.faults self.old.keeper) (K.faults self.new.keeper) result }
    {
        let _key = tid.bytes();
        if let Some(outcome) = known_outcome(alloc, &mut self.keeper, tid)? {
            return Ok(outcome);
        }
        if self.count >= LIMIT {
            return Err(TargetFault::Full);
        }
        let place = self.count + 1;
        let outcome = execute_new(alloc, &mut self.keeper, place, tid, text)?;
        self.count = place;
        Ok(outcome)
    }

    /// The text of a business row. After `StoreFault` only `reopen` is allowed.
    pub fn read(
        &mut self,
        alloc: Global,
        table: &Name,
        key: &Key,
    ) -> Result<Option<Text>, TargetFault>
        requires { K.is_open self.old.keeper }
        ensures text { IfOk result
            (λ text. (r : Ran) → HasRun K.held self.old r → text ≡ get r.tables (table.now, key.now)) }
        ensures opened { UnlessStoreFault result (K.is_open self.new.keeper) }
        ensures unchanged { UnlessStoreFault result (K.held self.new.keeper ≡ K.held self.old.keeper) }
        ensures count { self.new.count ≡ self.old.count }
        ensures left { IsWithin (K.may_leave self.new.keeper) (K.may_leave self.old.keeper) }
        ensures told { is_some (K.held self.new.keeper) ≡ is_some (K.held self.old.keeper) }
        ensures refusal { IfErr result MayRead }
        ensures cause { HasTargetCause (K.faults self.old.keeper) (K.faults self.new.keeper) result }
    {
        Ok(read_text(alloc, &mut self.keeper, table, key)?)
    }
}

ghost use Rattle.std.specs.Prelude.{◌≡◌, ◌≤◌, ◌↔◌, ◌+◌, true, false, IsTrue, Option, Some, IfOk, OnOk, OnErr, IsErr, IsOkAnd, IfSome, is_some};
ghost use Rattle.enq_base.specs.Causes.{HasCause, Rose};
ghost use Rattle.keeper_api.specs.Batch.{changed, held_after, IsBatch};
ghost use Rattle.keeper_api.specs.Keeping.{HasFaultCause, Stays, UnlessFailed, OnNoMemory, OnFailed, IsWithin, IsBeforeOrAfter, AreBothLeft};
ghost use Rattle.keeper_api.specs.Rows.{Rows, value_at, page_of, IsPage};
ghost use Rattle.keeper_mem.specs.Memory as memory;
ghost use Rattle.keeper_mem.specs.Memory.{Leaves, held_rows, IsSettled, HasMade};

use enq_base::{Failed, NoMemory};
use keeper_api::{Bytes, Change, KeepFault, Keeper, Row};
use sorted_rows::SortedRows;
use std::alloc::Global;
use std::marker::Model;

/// On which side a commit fell that failed, until the next `reopen`.
#[derive(Clone, Copy, Debug, PartialEq, Eq)]
pub enum Doubt {
    Settled,
    Before,
    After,
}

/// The call from which on all fail, as where a machine stops, and whether a commit at it falls on the side after.
#[derive(Clone, Copy, Debug, PartialEq, Eq)]
pub struct Stop {
    pub at: u64,
    pub after: bool,
}

/// A keeper in memory. It fails at just the calls whose numbers, counted from 1, stand in a list; `room` isn't counted.
/// A commit that fails falls on the side after where its number stands in a second list, else on the side before. It
/// can be made to stop at a call: that one and all later ones fail too.
#[derive(Drop)]
pub struct MemKeeper {
    rows: SortedRows,
    doubt: Doubt,
    fails: Vec<u64>,
    after: Vec<u64>,
    stop: Option<Stop>,
    calls: u64,
    faults: u64,
}

impl Model for MemKeeper {
    ghost use Rattle.keeper_mem.specs.Memory.{KeeperView};

    ghost Value = { KeeperView };

    ghost use Rattle.std.specs.Coded.{codes};
    ghost use Rattle.sorted_rows.specs.Views.{rows_code};

    ghost coded = { Prim.hlevel (codes, rows_code) };

    ghost view = { λ k. record {
      rows = k.rows.rows;
      made = k.rows.made;
      doubt = k.doubt;
      fails = k.fails.items;
      after = k.after.items;
      stop = k.stop;
      calls = k.calls;
      faults = k.faults;
    } };
}

impl MemKeeper {
    /// A keeper without rows. It takes no memory.
    pub fn new(alloc: Global, fails: Vec<u64>, after: Vec<u64>) -> Result<MemKeeper, NoMemory>
        ensures { IsOkAnd result (λ keeper. keeper ≡ memory.fresh fails.items after.items) }
    {
        Ok(MemKeeper {
            rows: SortedRows::new(alloc),
            doubt: Doubt::Settled,
            fails,
            after,
            stop: None,
            calls: 0,
            faults: 0,
        })
    }

    /// The same rows with other lists, and calls counted from 1 anew, as at another start of the program.
    pub fn again(self, fails: Vec<u64>, after: Vec<u64>) -> MemKeeper
        ensures { result ≡ memory.again fails.items after.items self }
    {
        let MemKeeper {
            rows,
            doubt,
            fails: _,
            after: _,
            stop: _,
            calls: _,
            faults,
        } = self;
        MemKeeper {
            rows,
            doubt,
            fails,
            after,
            stop: None,
            calls: 0,
            faults,
        }
    }

    /// The same rows, with calls counted from 1 anew, where call `k` and all later ones fail and no other. A commit at
    /// `k` falls on the side after where that is asked, and a later one on the side before. It takes no memory.
    pub fn stop(mut self, k: u64, after: bool) -> MemKeeper
        ensures { result ≡ memory.stopped k after self }
    {
        self.fails.clear();
        self.after.clear();
        self.stop = Some(Stop { at: k, after });
        self.calls = 0;
        self
    }

    /// Counts a call, and says whether it fails.
    fn fails_now(&mut self) -> bool
        ensures answer { result ≡ memory.call_fails self.old }
        ensures well { result ≡ false → self.new ≡ memory.called self.old }
        ensures ill { result ≡ true → self.new ≡ memory.failed self.old }
        ensures later { self.old.faults ≤ self.new.faults }
        ensures rose { result ≡ true → Rose self.old.faults self.new.faults }
    {
        self.calls = self.calls.saturating_add(1);
        let fails = self.fails.contains(&self.calls) || has_stopped(&self.stop, self.calls);
        if fails {
            self.faults = self.faults.saturating_add(1);
        }
        fails
    }
}

fn has_stopped(stop: &Option<Stop>, call: u64) -> bool
    ensures { result ≡ memory.has_stopped stop.now call }
{
    match stop {
        Some(stop) => stop.at <= call,
        None => false,
    }
}

fn stops_after(stop: &Option<Stop>, call: u64) -> bool
    ensures { result ≡ memory.stops_after stop.now call }
{
    match stop {
        Some(stop) => stop.after && stop.at == call,
        None => false,
    }
}

impl Keeper for MemKeeper {
    ghost use Rattle.keeper_mem.specs.Memory.{Leaves, held_rows, IsSettled, HasMade, settled_leaves, leaves_held};

    ghost held = { held_rows };

    ghost may_leave = { Leaves };

    ghost faults = { λ k. k.faults };

    ghost is_open = { IsSettled };

    ghost has_room = { HasMade };

    ghost settled = { settled_leaves };

    ghost held_left = { leaves_held };

    fn reopen(&mut self, _alloc: Global) -> Result<(), KeepFault>
        // As every keeper.
        ensures opened { OnOk result (IsSettled self.new) }
        ensures found { OnOk result (Leaves self.old self.new.rows) }
        ensures stays { OnNoMemory result (held_rows self.new ≡ held_rows self.old) }
        ensures still { OnNoMemory result (IsWithin (Leaves self.old) (Leaves self.new)) }
        ensures told { is_some (held_rows self.new) ≡ is_some (held_rows self.old) }
        ensures crash { IsWithin (Leaves self.new) (Leaves self.old) }
        ensures cause { HasFaultCause self.old.faults self.new.faults result }

        ensures listed { memory.is_failed result ≡ memory.call_fails self.old }
        ensures done { OnOk result (self.new ≡ memory.reopened self.old) }
        ensures failed { OnFailed result (self.new ≡ memory.failed self.old) }
    {
        if self.fails_now() {
            return Err(KeepFault::Failed);
        }
        if self.doubt == Doubt::After {
            self.rows.make();
        }
        self.doubt = Doubt::Settled;
        Ok(())
    }

    fn get(&mut self, alloc: Global, table: u8, key: &[u8]) -> Result<Option<Bytes>, KeepFault>
        requires { IsSettled self.old }
        // As every keeper.
        ensures value { IfOk result
            (λ value. IfSome (held_rows self.old) (λ rows. value ≡ value_at rows table key.now)) }
        ensures stays { UnlessFailed result (Stays held_rows IsSettled HasMade self.old self.new) }
        ensures told { is_some (held_rows self.new) ≡ is_some (held_rows self.old) }
        ensures crash { IsWithin (Leaves self.new) (Leaves self.old) }
        ensures cause { HasFaultCause self.old.faults self.new.faults result }

        ensures listed { memory.is_failed result ≡ memory.call_fails self.old }
        ensures counted { UnlessFailed result (self.new ≡ memory.called self.old) }
        ensures failed { OnFailed result (self.new ≡ memory.failed self.old) }
    {
        if self.fails_now() {
            return Err(KeepFault::Failed);
        }
        Ok(self.rows.get(alloc, table, key)?)
    }

    fn page(
        &mut self,
        alloc: Global,
        table: u8,
        after: &[u8],
        n: u32,
    ) -> Result<Vec<Row>, KeepFault>
        requires opened { IsSettled self.old }
        requires some { 1 ≤ n }
        requires few { n ≤ 1000 }
        // As every keeper.
        ensures rows { IfOk result
            (λ page. IfSome (held_rows self.old) (λ rows. page.items ≡ page_of rows table after.now n)) }
        ensures shape { IfOk result (λ page. IsPage after.now n page.items) }
        ensures stays { UnlessFailed result (Stays held_rows IsSettled HasMade self.old self.new) }
        ensures told { is_some (held_rows self.new) ≡ is_some (held_rows self.old) }
        ensures crash { IsWithin (Leaves self.new) (Leaves self.old) }
        ensures cause { HasFaultCause self.old.faults self.new.faults result }

        ensures listed { memory.is_failed result ≡ memory.call_fails self.old }
        ensures counted { UnlessFailed result (self.new ≡ memory.called self.old) }
        ensures failed { OnFailed result (self.new ≡ memory.failed self.old) }
    {
        if self.fails_now() {
            return Err(KeepFault::Failed);
        }
        Ok(self.rows.page(alloc, table, after, n)?)
    }

    fn room(&mut self, alloc: Global, batch: &[Change]) -> Result<(), NoMemory>
        requires opened { IsSettled self.old }
        requires batch { IsBatch batch.now }
        // As every keeper.
        ensures room { OnOk result (HasMade self.new batch.now) }
        ensures held { held_rows self.new ≡ held_rows self.old }
        ensures opened { IsSettled self.new }
        ensures crash { IsWithin (Leaves self.new) (Leaves self.old) }
        ensures faults { self.new.faults ≡ self.old.faults }

        ensures made { OnOk result (self.new ≡ memory.ready batch.now self.old) }
        ensures unchanged { OnErr result (self.new ≡ self.old) }
    {
        self.rows.room(alloc, batch)
    }

    fn commit(&mut self, batch: &[Change]) -> Result<(), Failed>
        requires opened { IsSettled self.old }
        requires room { HasMade self.old batch.now }
        // As every keeper.
        ensures done { OnOk result (held_rows self.new ≡ held_after batch.now (held_rows self.old)) }
        ensures opened { OnOk result (IsSettled self.new) }
        ensures either { IfSome (held_rows self.old)
            (λ rows. (left : Rows) → Leaves self.new left → IsBeforeOrAfter rows (changed batch.now rows) left) }
        ensures both { OnErr result (IfSome (held_rows self.old)
            (λ rows. AreBothLeft rows (changed batch.now rows) (Leaves self.new))) }
        ensures told { is_some (held_rows self.new) ≡ is_some (held_rows self.old) }
        ensures cause { HasCause self.old.faults self.new.faults result }

        ensures listed { IsErr result ↔ IsTrue (memory.call_fails self.old) }
        ensures committed { OnOk result (self.new ≡ memory.committed self.old) }
        ensures side { OnErr result (self.new ≡ memory.in_doubt self.old) }
    {
        if self.fails_now() {
            self.doubt = if self.after.contains(&self.calls)
                || stops_after(&self.stop, self.calls)
            {
                Doubt::After
            } else {
                Doubt::Before
            };
            return Err(Failed);
        }
        self.rows.make();
        Ok(())
    }
}

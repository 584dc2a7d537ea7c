ghost use Rattle.std.specs.Prelude.{◌≡◌, ◌⊎◌, ◌↔◌, ◌+◌, ◌≤◌, ◌∷◌, ◌++◌, [], ℕ, List, length, true, false, Some, None, IsTrue, IsErr, IfOk, IfSome, OnOk, OnErr, is_some};
ghost use Rattle.std.specs.FinMap.{empty};
ghost use Rattle.enq_base.specs.Causes.{HasCause, one_more};
ghost use Rattle.gate_log.specs.Gates.{IsShut, IsAtRest};
ghost use Rattle.keeper_api.specs.Batch.{changed, held_after, IsBatch};
ghost use Rattle.keeper_api.specs.Keeping.{HasFaultCause, Stays, UnlessFailed, OnNoMemory, OnFailed, IsWithin, IsBeforeOrAfter, AreBothLeft};
ghost use Rattle.keeper_api.specs.Rows.{Rows, value_at, page_of, IsPage};
ghost use Rattle.keeper_wal.specs.Meaning.{rows_in};
ghost use Rattle.keeper_wal.specs.Journal.{Stands, IsBad, IsShort, IsLong, AllStand, AllStandFor, StandsForNoOther, new_journal};
ghost use Rattle.keeper_wal.specs.Wal.{told, all_faults, Leaves, IsRemembered, IsReady, IsOpen, HasRoom, IsFull, count_bad};

use crate::fault::JournalFault;
use crate::journal::Found;
use crate::opening::open_journal;
use crate::writing::batch_text;
use bk_disk::{Disk, MAX_LENGTH};
use enq_base::{Failed, NoMemory};
use gate_log::add_record;
use keeper_api::{Bytes, Change, KeepFault, Keeper, Row};
use row_tree::RowTree;
use std::alloc::Global;
use std::marker::Model;
use std::snapshot::Snapshot;

/// A keeper over a journal on a disk. It has its rows in memory, and tells them where the disk tells what it holds. The
/// first call has to be `reopen`.
#[derive(Drop)]
pub struct WalKeeper<D: Disk> {
    disk: D,
    since: Snapshot<D>,
    gate: u64,
    rows: RowTree,
    text: Vec<u8>,
    faults: u64,
    bad: Option<u64>,
    is_known: bool,
    in_doubt: bool,
    is_open: bool,
}

impl<D: Disk> Model for WalKeeper<D> {
    ghost use Rattle.keeper_wal.specs.Meaning.{rows_in};
    ghost use Rattle.keeper_wal.specs.Wal.{WalView, IsRemembered, known};

    ghost Value = { WalView D };

    ghost use Rattle.std.specs.Coded.{codes};
    ghost use Rattle.sorted_rows.specs.Views.{rows_code};

    ghost coded = { Prim.hlevel (codes, rows_code, D.code) };

    ghost view = { λ k. record {
      disk = k.disk;
      since = k.since.value;
      gate = k.gate;
      rows = known k.is_known k.rows.rows (rows_in (D.reads k.since.value));
      made = k.rows.made;
      text = k.text.items;
      faults = k.faults;
      bad = k.bad;
      is_known = k.is_known;
      in_doubt = k.in_doubt;
      is_open = k.is_open;
    } };

    ghost invariant = { λ k. IsRemembered D.tells D.may_leave k.since.value k.disk };
}

impl<D: Disk> WalKeeper<D> {
    /// A keeper over the journal of a disk, which is yet to be read. It takes no memory.
    pub fn new(alloc: Global, disk: D) -> WalKeeper<D>
        ensures fresh { result ≡ record {
          disk = disk;
          since = disk;
          gate = 0;
          rows = rows_in (D.reads disk);
          made = empty;
          text = [];
          faults = 0;
          bad = None;
          is_known = false;
          in_doubt = false;
          is_open = false;
        } }
        // A crash leaves what an image of the disk stands for, and any rows where one stands for nothing.
        ensures left { IsTrue D.tells → (rows : Rows) → Leaves D.tells D.may_leave result rows
            → (image : List ℕ) × D.may_leave disk image × StandsForNoOther image rows }
    {
        WalKeeper {
            since: Snapshot::of(&disk),
            disk,
            gate: 0,
            rows: RowTree::new(alloc),
            text: Vec::new(alloc),
            faults: 0,
            bad: None,
            is_known: false,
            in_doubt: false,
            is_open: false,
        }
    }

    /// The offset at which the journal broke, where the last `reopen` read bytes that stand for nothing.
    pub fn bad(&self) -> Option<u64>
        ensures { result ≡ self.now.bad }
    {
        self.bad
    }

    /// The disk.
    pub fn into_disk(self) -> D
        ensures { result ≡ self.disk }
    {
        let WalKeeper {
            disk,
            since: _,
            gate: _,
            rows: _,
            text: _,
            faults: _,
            bad: _,
            is_known: _,
            in_doubt: _,
            is_open: _,
        } = self;
        disk
    }

    /// What is remembered of the disk tells what is on it.
    pub(crate) fn remembers(&self)
        ensures { IsRemembered D.tells D.may_leave self.now.since self.now.disk }
    {
        let _ = &self.disk;
    }

    /// Allows no call but `reopen`, and forgets where the journal broke.
    fn shut(&mut self)
        ensures { self.new ≡ record self.old { bad = None; is_open = false } }
    {
        self.bad = None;
        self.is_open = false;
    }

    /// Takes over what the journal stands for.
    fn take(&mut self, found: Found)
        ensures disk { self.new.disk ≡ self.old.disk }
        ensures since { self.new.since ≡ self.old.disk }
        ensures gate { self.new.gate ≡ found.gate }
        ensures rows { self.new.rows ≡ found.rows.rows }
        ensures faults { self.new.faults ≡ self.old.faults }
        ensures bad { self.new.bad ≡ self.old.bad }
        ensures was_read { self.new.is_known ≡ true }
        ensures doubt { self.new.in_doubt ≡ false }
        ensures opened { self.new.is_open ≡ true }
    {
        let Found { rows, gate } = found;
        self.since = Snapshot::of(&self.disk);
        self.rows = rows;
        self.gate = gate;
        self.is_known = true;
        self.in_doubt = false;
        self.is_open = true;
    }

    /// Counts a fault of the keeper's own.
    fn count(&mut self)
        ensures counted { self.new ≡ record self.old { faults = one_more self.old.faults } }
        ensures later { self.old.faults ≤ self.new.faults }
    {
        self.faults = self.faults.saturating_add(1);
    }

    /// Tells where the journal broke.
    fn refuse(&mut self, at: u64) -> KeepFault
        ensures counted { self.new ≡ record self.old { faults = one_more self.old.faults; bad = Some at } }
        ensures later { self.old.faults ≤ self.new.faults }
        ensures failed { result ≡ KeepFault.Failed }
    {
        self.count();
        self.bad = Some(at);
        KeepFault::Failed
    }

    /// Whether a batch waits that has changes.
    fn waits(&self) -> bool
        ensures { IsTrue result ↔ (1 ≤ length self.now.text) }
    {
        !self.text.is_empty()
    }

    /// Makes the changes of the batch that waits, in memory.
    fn make(&mut self)
        requires { self.old.is_known ≡ true }
        ensures { self.new ≡ record self.old { rows = self.old.made; text = [] } }
    {
        self.rows.make();
        self.text.clear();
    }

    /// Writes the text that waits behind the gate, and opens that. After a fault only `reopen` is allowed.
    fn add(&mut self) -> Result<(), Failed>
        requires text { 1 ≤ length self.old.text }
        requires was_read { self.old.is_known ≡ true }
        ensures still_read { self.new.is_known ≡ true }
        ensures rows { self.new.rows ≡ self.old.rows }
        ensures made { self.new.made ≡ self.old.made }
        ensures text { self.new.text ≡ self.old.text }
        ensures bad { self.new.bad ≡ self.old.bad }
        ensures since { self.new.since ≡ self.new.disk }
        ensures sure { OnOk result (self.new.in_doubt ≡ false) }
        ensures doubt { OnErr result (self.new.in_doubt ≡ true) }
        ensures opened { OnOk result (self.new.is_open ≡ true) }
        ensures added { IsTrue D.tells → (front body : List ℕ)
            → IsAtRest (D.reads self.old.disk) (D.may_leave self.old.disk) self.old.gate front
            → self.old.text ≡ 1 ∷ (body ++ 0 ∷ [])
            → OnOk result (IsAtRest (D.reads self.new.disk) (D.may_leave self.new.disk) self.new.gate
            (front ++ 1 ∷ body)) }
        ensures images { IsTrue D.tells → (front body : List ℕ)
            → IsAtRest (D.reads self.old.disk) (D.may_leave self.old.disk) self.old.gate front
            → self.old.text ≡ 1 ∷ (body ++ 0 ∷ [])
            → (c : List ℕ) → D.may_leave self.new.disk c → IsShut front c ⊎ IsShut (front ++ 1 ∷ body) c }
        ensures full { IsFull self.old
            → IsErr result × (self.new.disk ≡ self.old.disk) × (self.new.faults ≡ one_more self.old.faults) }
        ensures own { (IsFull self.old → ⊥) → self.new.faults ≡ self.old.faults }
        ensures cause { HasCause (all_faults D.faults self.old) (all_faults D.faults self.new) result }
    {
        self.is_open = false;
        self.in_doubt = true;
        self.since = Snapshot::of(&self.disk);
        if self.gate.saturating_add(self.text.len() as u64) > MAX_LENGTH {
            self.count();
            return Err(Failed);
        }
        let added = add_record(&mut self.disk, self.gate, &self.text);
        self.since = Snapshot::of(&self.disk);
        self.gate = added?;
        self.in_doubt = false;
        self.is_open = true;
        Ok(())
    }
}

impl<D: Disk> Keeper for WalKeeper<D> {
    ghost use Rattle.keeper_wal.specs.Wal.{told, all_faults, Leaves, IsOpen, HasRoom, settled_rows, held_rows_left};

    ghost held = { λ k. told D.tells k.rows };

    ghost may_leave = { λ k left. Leaves D.tells D.may_leave k left };

    ghost faults = { λ k. all_faults D.faults k };

    ghost is_open = { λ k. IsOpen D.tells D.reads D.may_leave k };

    ghost has_room = { λ k batch. HasRoom k batch };

    ghost settled = { λ k is. settled_rows D.tells D.reads D.may_leave k is };

    ghost held_left = { λ k. held_rows_left D.tells D.may_leave k };

    fn reopen(&mut self, alloc: Global) -> Result<(), KeepFault>
        // As every keeper.
        ensures opened { OnOk result (IsOpen D.tells D.reads D.may_leave self.new) }
        ensures found { OnOk result (IfSome (told D.tells self.new.rows) (Leaves D.tells D.may_leave self.old)) }
        ensures stays { OnNoMemory result (told D.tells self.new.rows ≡ told D.tells self.old.rows) }
        ensures still { OnNoMemory result
            (IsWithin (Leaves D.tells D.may_leave self.old) (Leaves D.tells D.may_leave self.new)) }
        ensures told { is_some (told D.tells self.new.rows) ≡ is_some (told D.tells self.old.rows) }
        ensures crash { IsWithin (Leaves D.tells D.may_leave self.new) (Leaves D.tells D.may_leave self.old) }
        ensures cause { HasFaultCause (all_faults D.faults self.old) (all_faults D.faults self.new) result }

        // The rows are those for which the bytes stand.
        ensures stands { IsTrue D.tells → OnOk result (Stands (D.reads self.old.disk) self.new.rows) }
        ensures anew { IsTrue D.tells → IsShort (D.reads self.old.disk)
            → OnOk result (D.reads self.new.disk ≡ new_journal) }
        ensures same { IsTrue D.tells → IsLong (D.reads self.old.disk)
            → OnOk result (D.reads self.new.disk ≡ D.reads self.old.disk) }

        // The keeper's own count rises just where the bytes stand for nothing, and stay.
        ensures own { self.new.faults ≡ count_bad self.new.bad self.old.faults }
        ensures refused { IfSome self.new.bad (λ _. result ≡ Err KeepFault.Failed) }
        ensures bad { IsTrue D.tells → IfSome self.new.bad
            (λ at. IsBad (D.reads self.old.disk) at × (D.reads self.new.disk ≡ D.reads self.old.disk)) }

        // Where each image stood for rows each image does.
        ensures images { IsTrue D.tells → AllStand (D.may_leave self.old.disk) → AllStand (D.may_leave self.new.disk) }
        ensures alone { IsTrue D.tells → OnOk result (AllStandFor self.new.rows (D.may_leave self.new.disk)) }
    {
        self.shut();
        match open_journal(alloc, &mut self.disk) {
            Ok(found) => {
                self.take(found);
                Ok(())
            }
            Err(JournalFault::Bad(at)) => Err(self.refuse(at)),
            Err(JournalFault::Failed) => Err(KeepFault::Failed),
            Err(JournalFault::NoMemory) => Err(KeepFault::NoMemory),
        }
    }

    fn get(&mut self, alloc: Global, table: u8, key: &[u8]) -> Result<Option<Bytes>, KeepFault>
        requires { IsOpen D.tells D.reads D.may_leave self.old }
        // As every keeper.
        ensures value { IfOk result
            (λ value. IfSome (told D.tells self.old.rows) (λ rows. value ≡ value_at rows table key.now)) }
        ensures cause { HasFaultCause (all_faults D.faults self.old) (all_faults D.faults self.new) result }

        // The journal isn't touched, and the device can't fail.
        ensures same { self.new ≡ self.old }
    {
        Ok(self.rows.get(alloc, table, key)?)
    }

    fn page(
        &mut self,
        alloc: Global,
        table: u8,
        after: &[u8],
        n: u32,
    ) -> Result<Vec<Row>, KeepFault>
        requires opened { IsOpen D.tells D.reads D.may_leave self.old }
        requires some { 1 ≤ n }
        requires few { n ≤ 1000 }
        // As every keeper.
        ensures rows { IfOk result
            (λ page. IfSome (told D.tells self.old.rows) (λ rows. page.items ≡ page_of rows table after.now n)) }
        ensures shape { IfOk result (λ page. IsPage after.now n page.items) }
        ensures cause { HasFaultCause (all_faults D.faults self.old) (all_faults D.faults self.new) result }

        // The journal isn't touched, and the device can't fail.
        ensures same { self.new ≡ self.old }
    {
        Ok(self.rows.page(alloc, table, after, n)?)
    }

    fn room(&mut self, alloc: Global, batch: &[Change]) -> Result<(), NoMemory>
        requires opened { IsOpen D.tells D.reads D.may_leave self.old }
        requires batch { IsBatch batch.now }
        // As every keeper.
        ensures room { OnOk result (HasRoom self.new batch.now) }
        ensures opened { IsOpen D.tells D.reads D.may_leave self.new }
        ensures crash { IsWithin (Leaves D.tells D.may_leave self.new) (Leaves D.tells D.may_leave self.old) }

        // The journal isn't touched, and the rows stay.
        ensures disk { self.new.disk ≡ self.old.disk }
        ensures gate { self.new.gate ≡ self.old.gate }
        ensures rows { self.new.rows ≡ self.old.rows }
        ensures own { self.new.faults ≡ self.old.faults }
        ensures bad { self.new.bad ≡ self.old.bad }
    {
        let text = batch_text(alloc, batch)?;
        self.rows.room(alloc, batch)?;
        self.text = text;
        Ok(())
    }

    fn commit(&mut self, _batch: &[Change]) -> Result<(), Failed>
        requires opened { IsOpen D.tells D.reads D.may_leave self.old }
        requires room { HasRoom self.old _batch.now }
        // As every keeper.
        ensures done { OnOk result (told D.tells self.new.rows ≡ held_after _batch.now (told D.tells self.old.rows)) }
        ensures opened { OnOk result (IsOpen D.tells D.reads D.may_leave self.new) }
        ensures either { IfSome (told D.tells self.old.rows) (λ rows. (left : Rows)
            → Leaves D.tells D.may_leave self.new left → IsBeforeOrAfter rows (changed _batch.now rows) left) }
        ensures both { OnErr result (IfSome (told D.tells self.old.rows)
            (λ rows. AreBothLeft rows (changed _batch.now rows) (Leaves D.tells D.may_leave self.new))) }
        ensures told { is_some (told D.tells self.new.rows) ≡ is_some (told D.tells self.old.rows) }
        ensures cause { HasCause (all_faults D.faults self.old) (all_faults D.faults self.new) result }

        // Each image stands for the rows before or those after the batch, and where all went well for those after
        // alone.
        ensures images { IsTrue D.tells → (c : List ℕ) → D.may_leave self.new.disk c
            → Stands c self.old.rows ⊎ Stands c (changed _batch.now self.old.rows) }
        ensures alone { IsTrue D.tells → OnOk result (AllStandFor self.new.rows (D.may_leave self.new.disk)) }

        // The keeper's own count rises just where the journal would become too long, and that is then not touched.
        ensures full { IsFull self.old
            → IsErr result × (self.new.disk ≡ self.old.disk) × (self.new.faults ≡ one_more self.old.faults) }
        ensures own { (IsFull self.old → ⊥) → self.new.faults ≡ self.old.faults }
        ensures bad { self.new.bad ≡ self.old.bad }
    {
        if !self.waits() {
            return Ok(());
        }
        self.add()?;
        self.make();
        Ok(())
    }
}

ghost use Rattle.std.specs.Prelude.{◌≡◌, ◌≤◌, ◌⊎◌, List, [], length, true, false, if◌then◌else◌, Option, Some, None, IfSome, IfOk, IfErr, OnOk, OnErr, IsTrue, is_some, ◌∷◌};
ghost use Rattle.std.specs.FinMap.{get};
ghost use Rattle.std.specs.Option.{option_copied, option_map};
ghost use Rattle.update_records.specs.Business.{numbers_of, tables_of};
ghost use Rattle.update_records.specs.RecordRows.{Level as StoredLevel};
ghost use Rattle.ledger_steps.specs.Intervals.{in_row_order, MayStore};
ghost use Rattle.enq_base.specs.Causes.{HasCause};
ghost use Rattle.keeper_api.specs.Batch.{changed, IsBatch};
ghost use Rattle.keeper_api.specs.Keeping.{IsWithin, HasFaultCause, UnlessFailed};
ghost use Rattle.keeper_api.specs.Rows.{Rows};
ghost use Rattle.module_effects.specs.Effects.{applied};
ghost use Rattle.module_effects.specs.Spots.{with_spots};
ghost use Rattle.update_records.specs.Ledger.{StandFor};
ghost use Rattle.update_records.specs.Growing.{next_mark, with_start};
ghost use Rattle.update_records.specs.Marks.{status_of, v1_of, v2_of};
ghost use Rattle.posting.specs.Opening.{CountsFault, OnBad, OnRefused, IsRaiseFault};
ghost use Rattle.ledger_steps.specs.Starts.{raised, IsRaised};
ghost use Rattle.posting.specs.Numbers.{AreNumbersRight};
ghost use Rattle.ledger_steps.specs.Parts.{is_first, part_at};
ghost use Rattle.ledger_steps.specs.Posts.{HasDistinctRows, IsNote, IsPost, WaitsFor, effects_of, entries_of, kind_for, post2_kind};
ghost use Rattle.posting.specs.Reopening.{HasStood, IsOpeningFault, MayBeLeftBy, MayBeOpeningFault};
ghost use Rattle.store_reading.specs.Good.{IsSound, ledger_of};
ghost use Rattle.posting.specs.Drafts.{IsDrafted};
ghost use Rattle.posting.specs.Mirrors.{business};
ghost use Rattle.posting.specs.BooksView.{IsUsable, IsUnmoved, IsReady, MayTake, StandForEither};
ghost use Rattle.posting.specs.Settling.{CountsSettling, IsSettled, OnBooks, OnFound, OnOther, StandForOther};
ghost use Rattle.ledger_steps.specs.Errors.{error_of};
ghost use Rattle.ledger_steps.specs.Steps.{after_step, at_place, intervals_in, IsDrawing, post_kind, waiting_for, HasMarksLeft, IsNewUnit, IsOpenUnit, IsOutcome, IsPostedUnit, IsSetByHand, MayGet};
ghost use Rattle.ledger_steps.specs.Views.{open_locks, views_of};
ghost use Rattle.ledger_steps.specs.declared.step.Step.TheVariants.{Record, Note, Start, Draw, Level};

use crate::batch::{draw_batch, level_batch, mark_behind, note_batch, start_batch, unit_batch};
use crate::draft::{Draft, Worked, post};
use crate::mirror::Mirror;
use crate::opening::{BooksFault, open_mirror};
use crate::prepared::Prepared;
use crate::settling::{Reread, SettleFault, found_anew};
use crate::spots::read_text;
use crate::viewing;
use enq_base::{
    Effect, Failed, Items, Key, Name, NoMemory, Num, Parts, Reason, Status, Text, UnitKey,
};
use keeper_api::{Change, KeepFault, Keeper};
use ledger_steps::{Outcome, Part, Step};
use lock_entry::{Entry, UnitLocks};
use module_effects::Spot;
use std::alloc::Global;
use std::marker::Model;
use update_records::{Mark, MarkKind, StoredInterval, Unit, UnitView};

/// The books of update units, and the keeper of their rows (Updates in the SAP System).
#[derive(Drop)]
pub struct Books<K: Keeper> {
    mirror: Mirror,
    keeper: K,
}

impl<K: Keeper> Model for Books<K> {
    ghost use Rattle.posting.specs.BooksView.{BooksView};

    ghost Value = { BooksView K };

    ghost use Rattle.std.specs.Coded.{codes};
    ghost use Rattle.update_records.specs.Codes.{levels_code};

    ghost coded = { Prim.hlevel (codes, levels_code, K.code) };

    ghost view = { λ b. record {
      ledger = b.mirror.ledger;
      keeper = b.keeper;
      room = b.mirror.room;
      spare = b.mirror.spare;
      places = b.mirror.places;
    } };
}

impl<K: Keeper> Books<K> {
    /// Opens a store of any rows, and with `raise` writes the next start number. A store that isn't good is `BadStore`
    /// at its first bad place; with `raise` one at the last start is `NoStart`. Both keep their rows.
    ///
    /// Each row is read once; the time is linear in the rows but for sorting.
    pub fn open(alloc: Global, keeper: K, raise: bool) -> Result<Books<K>, (BooksFault, K)>
        ensures usable { IfOk result (λ books. IsUsable K.held K.is_open books) }
        ensures ledger { IfOk result
            (λ books. IfSome (K.held books.keeper) (λ _. IsRaised (HasStood (K.may_leave keeper)) raise books.ledger)) }
        // Also where the keeper doesn't tell its rows.
        ensures sound { IfOk result (λ books. IsRaised IsSound raise books.ledger) }
        ensures numbers { IfOk result (λ books. AreNumbersRight books.ledger) }
        ensures told { IfOk result (λ books. is_some (K.held books.keeper) ≡ is_some (K.held keeper)) }
        ensures left { IfOk result (λ books. IfSome (K.held books.keeper)
            (λ _. (left : Rows) → K.may_leave books.keeper left → MayBeLeftBy (K.may_leave keeper) raise left)) }
        ensures counts { IfOk result (λ books. K.faults books.keeper ≡ K.faults keeper) }
        ensures fault { IfErr result (λ e. IfSome (K.held e.1) (λ rows. IsOpeningFault raise rows e.0)) }
        ensures untold_fault { IfErr result (λ e. MayBeOpeningFault raise e.0) }
        // The rows of a store that isn't good, or that is at the last start, are some that a crash might have left.
        ensures found { IfErr result (λ e. OnBad e.0 (IfSome (K.held e.1) (K.may_leave keeper))) }
        ensures told_after { IfErr result (λ e. is_some (K.held e.1) ≡ is_some (K.held keeper)) }
        ensures left_after { IfErr result (λ e. IfSome (K.held e.1)
            (λ _. (left : Rows) → K.may_leave e.1 left → MayBeLeftBy (K.may_leave keeper) raise left)) }
        ensures unchanged { IfErr result (λ e. OnRefused e.0 (IsWithin (K.may_leave e.1) (K.may_leave keeper))) }
        ensures cause { IfErr result (λ e. CountsFault e.0 (K.faults keeper) (K.faults e.1)) }
    {
        let mut keeper = keeper;
        let mirror = match open_mirror(alloc, &mut keeper) {
            Ok(mirror) => mirror,
            Err(fault) => return Err((fault, keeper)),
        };
        let mut books = Books { mirror, keeper };
        if !raise {
            return Ok(books);
        }
        match books.raise(alloc) {
            Ok(()) => Ok(books),
            Err(fault) => Err((fault, books.into_keeper())),
        }
    }

    /// Reads the store anew, and raises no start number. The ledger changes only on `Ok`; on an error it is what it
    /// was, and only `reopen` and `into_keeper` are allowed then.
    pub fn reopen(&mut self, alloc: Global) -> Result<(), BooksFault>
        ensures usable { OnOk result (IsUsable K.held K.is_open self.new) }
        ensures ledger { OnOk result
            (IfSome (K.held self.new.keeper)
            (λ _. IsRaised (HasStood (K.may_leave self.old.keeper)) false self.new.ledger)) }
        // Also where the keeper doesn't tell its rows.
        ensures sound { OnOk result (IsRaised IsSound false self.new.ledger) }
        ensures numbers { OnOk result (AreNumbersRight self.new.ledger) }
        ensures kept { OnErr result (self.new.ledger ≡ self.old.ledger) }
        ensures told { is_some (K.held self.new.keeper) ≡ is_some (K.held self.old.keeper) }
        ensures left { IsWithin (K.may_leave self.new.keeper) (K.may_leave self.old.keeper) }
        ensures counts { OnOk result (K.faults self.new.keeper ≡ K.faults self.old.keeper) }
        ensures fault { IfErr result
            (λ fault. IfSome (K.held self.new.keeper) (λ rows. IsOpeningFault false rows fault)) }
        ensures untold_fault { IfErr result (MayBeOpeningFault false) }
        // The rows of a store that isn't good are some that a crash might have left.
        ensures found { IfErr result
            (λ fault. OnBad fault (IfSome (K.held self.new.keeper) (K.may_leave self.old.keeper))) }
        ensures cause { IfErr result
            (λ fault. CountsFault fault (K.faults self.old.keeper) (K.faults self.new.keeper)) }
    {
        let mirror = match open_mirror(alloc, &mut self.keeper) {
            Ok(mirror) => mirror,
            Err(fault) => return Err(fault),
        };
        self.mirror = mirror;
        Ok(())
    }

    /// Reads the store anew after a commit that failed, and tells what it has: the ledger as it was, or the one with
    /// the change that was to be made. A change that makes no difference it hasn't. A store that has neither is
    /// `Other`, with what it has. The ledger of the books stays what it was; behind this call only `reread`, `reopen`,
    /// `adopt` and `into_keeper` are allowed.
    ///
    /// The time is linear in the rows, but for sorting.
    pub fn reread(&mut self, alloc: Global, change: Option<&Step>) -> Result<Reread, SettleFault>
        // Calls are allowed once the books have what was found.
        ensures usable { IfOk result (λ found. IsUsable K.held K.is_open (record self.new { ledger = found.ledger })) }
        ensures found { IfOk result
            (λ found. IsSettled self.old.ledger (option_copied change.entry) found.taken found.ledger) }
        ensures stood { IfOk result
            (λ found. IfSome (K.held self.new.keeper) (λ _. HasStood (K.may_leave self.old.keeper) found.ledger)) }
        // Also where the keeper doesn't tell its rows.
        ensures sound { IfOk result (λ found. IsSound found.ledger) }
        ensures numbers { IfOk result (λ found. AreNumbersRight found.ledger) }
        ensures kept { self.new.ledger ≡ self.old.ledger }
        ensures told { is_some (K.held self.new.keeper) ≡ is_some (K.held self.old.keeper) }
        ensures left { IsWithin (K.may_leave self.new.keeper) (K.may_leave self.old.keeper) }
        ensures counts { OnOk result (K.faults self.new.keeper ≡ K.faults self.old.keeper) }
        ensures fault { IfErr result
            (λ fault. OnBooks fault (λ why. IfSome (K.held self.new.keeper) (λ rows. IsOpeningFault false rows why))) }
        ensures untold_fault { IfErr result (λ fault. OnBooks fault (MayBeOpeningFault false)) }
        ensures other { IfErr result (λ fault. OnOther fault (λ ledger. IfSome (K.held self.new.keeper)
            (λ rows. StandForOther rows self.old.ledger (option_copied change.entry) ledger))) }
        // The rows of a store that isn't good, or that has neither ledger, are some that a crash might have left.
        ensures found_rows { IfErr result
            (λ fault. OnFound fault (IfSome (K.held self.new.keeper) (K.may_leave self.old.keeper))) }
        ensures cause { IfErr result
            (λ fault. CountsSettling fault (K.faults self.old.keeper) (K.faults self.new.keeper)) }
    {
        let mirror = match open_mirror(alloc, &mut self.keeper) {
            Ok(mirror) => mirror,
            Err(fault) => return Err(SettleFault::Books(fault)),
        };
        found_anew(alloc, &self.mirror, change, mirror)
    }

    /// Takes what was found for the ledger.
    pub fn adopt(&mut self, found: Reread)
        ensures ledger { self.new.ledger ≡ found.ledger }
        ensures keeper { self.new.keeper ≡ self.old.keeper }
    {
        self.mirror = found.mirror;
    }

    /// The number of this start, or 0 where none was ever raised.
    pub fn start(&self) -> u32
        ensures { result ≡ self.now.ledger.start }
    {
        self.mirror.register().start()
    }

    /// How many marks there are.
    pub fn marks(&self) -> u32
        ensures { result ≡ length self.now.ledger.marks }
    {
        self.mirror.register().marks()
    }

    /// What the last mark of a unit gives it.
    pub fn status(&self, unit: &UnitKey) -> Option<Status>
        ensures { result ≡ status_of self.now.ledger.units self.now.ledger.marks unit.now }
    {
        self.mirror.register().status(unit)
    }

    /// Where the last mark of a unit tells of a refusal, the effect's number in its part from 1 on, and the reason.
    pub fn error(&self, unit: &UnitKey) -> Option<(u32, Reason)>
        ensures { result ≡ error_of self.now.ledger.marks unit.now }
    {
        self.mirror.register().error(unit)
    }

    /// How many units wait for part 1, V1, or for part 2, V2.
    pub fn waiting(&self, part: u8) -> u32
        requires { (part ≡ 1) ⊎ (part ≡ 2) }
        ensures { result ≡ length (waiting_for (part_at part) self.now.ledger) }
    {
        self.mirror.register().waiting(Part::at(part))
    }

    /// The unit at a place, counted from 1, of those that wait for a part: the one whose last mark is oldest first, so
    /// that one which may be tried again comes last.
    pub fn waiting_at(&self, part: u8, place: u32) -> Option<UnitKey>
        requires { (part ≡ 1) ⊎ (part ≡ 2) }
        ensures { result ≡ at_place place (waiting_for (part_at part) self.now.ledger) }
    {
        self.mirror.register().waiting_at(Part::at(part), place)
    }

    /// The text of a business row. After `Failed` only `into_keeper` is allowed.
    pub fn read(
        &mut self,
        alloc: Global,
        table: &Name,
        key: &Key,
    ) -> Result<Option<Text>, KeepFault>
        requires usable { IsUsable K.held K.is_open self.old }
        ensures text { IfOk result (λ text. IfSome (K.held self.old.keeper)
            (λ _. text ≡ get (tables_of self.old.ledger.units self.old.ledger.marks) (table.now, key.now))) }
        ensures usable { UnlessFailed result (IsUsable K.held K.is_open self.new) }
        ensures unmoved { UnlessFailed result (IsUnmoved K.held K.may_leave K.faults self.old self.new) }
        ensures ledger { self.new.ledger ≡ self.old.ledger }
        ensures told { is_some (K.held self.new.keeper) ≡ is_some (K.held self.old.keeper) }
        ensures crash { IsWithin (K.may_leave self.new.keeper) (K.may_leave self.old.keeper) }
        ensures cause { HasFaultCause (K.faults self.old.keeper) (K.faults self.new.keeper) result }
    {
        read_text(alloc, &mut self.keeper, table, key)
    }

    /// The recorded units, in the order in which they were recorded.
    pub fn units(&self) -> &[Unit]
        ensures { result.now ≡ self.now.ledger.units }
    {
        self.mirror.register().units()
    }

    /// The locks that were handed to a unit. One that was never recorded has none.
    pub fn unit_locks(&self, alloc: Global, unit: &UnitKey) -> Result<Vec<Entry>, NoMemory>
        ensures { IfOk result (λ entries. entries.items ≡ entries_of self.now.ledger.units unit.now) }
    {
        viewing::entries(alloc, self.mirror.register(), unit)
    }

    /// What is told of each recorded unit, in the order in which they were recorded.
    pub fn views(&self, alloc: Global) -> Result<Vec<UnitView>, NoMemory>
        ensures { IfOk result (λ views. views.items ≡ views_of self.now.ledger) }
    {
        viewing::views(alloc, self.mirror.register())
    }

    /// The units that wait for their V1 part, the one whose last mark is oldest first, each with its locks.
    pub fn open_units(&self, alloc: Global) -> Result<Vec<UnitLocks>, NoMemory>
        ensures { IfOk result (λ locks. locks.items ≡ open_locks self.now.ledger) }
    {
        viewing::open_units(alloc, self.mirror.register())
    }

    /// How many numbers were committed, by units and alone.
    pub fn numbers(&self) -> u64
        ensures { result ≡ length (numbers_of self.now.ledger.units self.now.ledger.marks) }
    {
        self.mirror.register().numbers()
    }

    /// The level of the stored interval of this name.
    pub fn level(&self, object: &Name, nr: [u8; 2]) -> Option<u64>
        ensures { result ≡ option_map (λ (l : StoredLevel). l.level) (get self.now.ledger.levels (object.now, nr)) }
    {
        self.mirror.register().level(object, nr)
    }

    /// The stored interval at a place, counted from 1, in the order of the keys of their rows: the shorter object
    /// first, then by the object's bytes, and then by the digits.
    pub fn stored(&self, row: u64) -> Option<StoredInterval>
        ensures { result ≡ at_place row (in_row_order self.now.ledger.levels) }
    {
        self.mirror.register().stored(row)
    }

    /// The stored intervals in that order.
    pub fn intervals(&self) -> &[StoredInterval]
        ensures { result.now ≡ in_row_order self.now.ledger.levels }
    {
        self.mirror.register().intervals()
    }

    /// Makes ready to store an interval anew. Nothing changes in the store.
    pub fn prepare_level(
        &mut self,
        alloc: Global,
        interval: &StoredInterval,
    ) -> Result<Prepared, NoMemory>
        requires usable { IsUsable K.held K.is_open self.old }
        requires started { 1 ≤ self.old.ledger.start }
        requires store { MayStore self.old.ledger (interval.now ∷ []) [] }
        ensures ready { IfOk result (λ prepared. IsReady K.held K.has_room self.new prepared) }
        ensures step { IfOk result (λ prepared. prepared.step ≡ Level interval.now) }
        ensures usable { IsUsable K.held K.is_open self.new }
        ensures unmoved { IsUnmoved K.held K.may_leave K.faults self.old self.new }
    {
        let batch = level_batch(alloc, &[*interval])?;
        self.prepare(alloc, batch, Vec::new(alloc), Step::Level(*interval))
    }

    /// Makes ready to note numbers that a unit draws alone. Nothing changes in the store.
    pub fn prepare_numbers(
        &mut self,
        alloc: Global,
        unit: &UnitKey,
        numbers: &[Num],
        levels: &[StoredInterval],
    ) -> Result<Prepared, NoMemory>
        requires usable { IsUsable K.held K.is_open self.old }
        requires marks { HasMarksLeft self.old.ledger }
        requires drawing { IsDrawing self.old.ledger unit.now numbers.now }
        requires store { MayStore self.old.ledger levels.now numbers.now }
        ensures ready { IfOk result (λ prepared. IsReady K.held K.has_room self.new prepared) }
        ensures step { IfOk result (λ prepared. prepared.step ≡ Draw unit.now numbers.now levels.now) }
        ensures usable { IsUsable K.held K.is_open self.new }
        ensures unmoved { IsUnmoved K.held K.may_leave K.faults self.old self.new }
    {
        let drawn = Items::from_vec(Vec::from_slice(alloc, numbers)?);
        let mark = mark_behind(self.marks(), unit, MarkKind::Num(drawn));
        let batch = draw_batch(alloc, self.start(), &mark, levels)?;
        let step = Step::Draw {
            unit: *unit,
            numbers: Items::from_vec(Vec::from_slice(alloc, numbers)?),
            levels: Items::from_vec(Vec::from_slice(alloc, levels)?),
        };
        self.prepare(alloc, batch, Vec::new(alloc), step)
    }

    /// Makes ready to record a unit, which is dropped where memory runs out. Nothing changes in the store.
    pub fn prepare_unit(
        &mut self,
        alloc: Global,
        unit: Unit,
        levels: &[StoredInterval],
    ) -> Result<Prepared, NoMemory>
        requires usable { IsUsable K.held K.is_open self.old }
        requires marks { HasMarksLeft self.old.ledger }
        requires unit { IsNewUnit self.old.ledger unit }
        requires store { MayStore self.old.ledger levels.now unit.numbers }
        ensures ready { IfOk result (λ prepared. IsReady K.held K.has_room self.new prepared) }
        ensures step { IfOk result (λ prepared. prepared.step ≡ Record unit levels.now) }
        ensures usable { IsUsable K.held K.is_open self.new }
        ensures unmoved { IsUnmoved K.held K.may_leave K.faults self.old self.new }
    {
        let Ok(batch) = unit_batch(alloc, self.start(), self.marks(), &unit, levels) else {
            drop(unit);
            return Err(NoMemory);
        };
        let Ok(levels) = Vec::from_slice(alloc, levels) else {
            drop(unit);
            drop(batch);
            return Err(NoMemory);
        };
        let levels = Items::from_vec(levels);
        self.prepare(alloc, batch, Vec::new(alloc), Step::Record { unit, levels })
    }

    /// What the V1 part of a unit that waits for it is worked from.
    pub fn draft(&self, alloc: Global, unit: &UnitKey) -> Result<Draft, NoMemory>
        requires { IsOpenUnit self.now.ledger unit.now }
        ensures { IfOk result (IsDrafted self.now.ledger unit.now) }
    {
        draft_part(alloc, &self.mirror, unit)
    }

    /// Makes ready to post the V1 part of a unit, or to record where it is refused. What a draft of it came to is taken
    /// where its effects and its rows are still the same, and else the part is worked anew. Nothing changes in the
    /// store.
    pub fn prepare_post1(
        &mut self,
        alloc: Global,
        unit: &UnitKey,
        worked: Option<&Worked>,
    ) -> Result<(Prepared, Outcome), NoMemory>
        requires usable { IsUsable K.held K.is_open self.old }
        requires marks { HasMarksLeft self.old.ledger }
        requires waits { IsOpenUnit self.old.ledger unit.now }
        ensures ready { IfOk result (λ r. IsReady K.held K.has_room self.new r.0) }
        ensures step { IfOk result (λ r. r.0.step ≡ Note unit.now (post_kind r.1)) }
        // Also where the keeper doesn't tell its rows.
        ensures outcome { IfOk result (λ r. IsOutcome (applied (v1_of self.old.ledger.units unit.now)
            (tables_of self.old.ledger.units self.old.ledger.marks)) r.1) }
        ensures usable { IsUsable K.held K.is_open self.new }
        ensures unmoved { IsUnmoved K.held K.may_leave K.faults self.old self.new }
    {
        self.prepare_post(alloc, unit, Part::V1, worked)
    }

    /// The same for the V2 part of a unit whose V1 part is posted. It isn't drafted, and `Failed` never comes.
    pub fn prepare_post2(
        &mut self,
        alloc: Global,
        unit: &UnitKey,
    ) -> Result<(Prepared, Outcome), KeepFault>
        requires usable { IsUsable K.held K.is_open self.old }
        requires marks { HasMarksLeft self.old.ledger }
        requires waits { IsPostedUnit self.old.ledger unit.now }
        ensures ready { IfOk result (λ r. IsReady K.held K.has_room self.new r.0) }
        ensures step { IfOk result (λ r. r.0.step ≡ Note unit.now (post2_kind r.1)) }
        ensures outcome { IfOk result (λ r. IsOutcome (applied (v2_of self.old.ledger.units unit.now)
            (tables_of self.old.ledger.units self.old.ledger.marks)) r.1) }
        ensures fault { IfErr result (λ fault. fault ≡ KeepFault.NoMemory) }
        ensures usable { IsUsable K.held K.is_open self.new }
        ensures unmoved { IsUnmoved K.held K.may_leave K.faults self.old self.new }
    {
        match self.prepare_post(alloc, unit, Part::V2, None) {
            Ok(ready) => Ok(ready),
            Err(_) => Err(KeepFault::NoMemory),
        }
    }

    /// Makes ready to let a refused part of a unit be tried again, or to cancel a unit. Nothing changes in the store.
    pub fn prepare_mark(
        &mut self,
        alloc: Global,
        unit: &UnitKey,
        kind: MarkKind,
    ) -> Result<Prepared, NoMemory>
        requires usable { IsUsable K.held K.is_open self.old }
        requires marks { HasMarksLeft self.old.ledger }
        requires kind { IsSetByHand kind }
        requires follows { MayGet self.old.ledger unit.now kind }
        ensures ready { IfOk result (λ prepared. IsReady K.held K.has_room self.new prepared) }
        ensures step { IfOk result (λ prepared. prepared.step ≡ Note unit.now kind) }
        ensures usable { IsUsable K.held K.is_open self.new }
        ensures unmoved { IsUnmoved K.held K.may_leave K.faults self.old self.new }
    {
        self.prepare_note(alloc, Vec::new(alloc), unit, kind)
    }

    /// Writes what was prepared last, in one commit. It takes no memory. After `Failed` only `into_keeper` is allowed.
    pub fn write(&mut self, prepared: Prepared) -> Result<(), Failed>
        requires usable { IsUsable K.held K.is_open self.old }
        requires ready { IsReady K.held K.has_room self.old prepared }
        ensures done { OnOk result (self.new.ledger ≡ after_step self.old.ledger prepared.step) }
        ensures kept { OnErr result (self.new.ledger ≡ self.old.ledger) }
        ensures usable { OnOk result (IsUsable K.held K.is_open self.new) }
        ensures numbers { OnOk result (IfSome (K.held self.new.keeper) (λ _. AreNumbersRight self.new.ledger)) }
        ensures told { is_some (K.held self.new.keeper) ≡ is_some (K.held self.old.keeper) }
        ensures left { IfSome (K.held self.old.keeper) (λ _. (left : Rows) → K.may_leave self.new.keeper left
            → StandForEither left self.old.ledger prepared.step) }
        ensures same { IfSome (K.held self.old.keeper) (λ rows. (left : Rows) → K.may_leave self.new.keeper left
            → (left ≡ rows) ⊎ StandFor left (after_step self.old.ledger prepared.step)) }
        ensures cause { HasCause (K.faults self.old.keeper) (K.faults self.new.keeper) result }
    {
        let Prepared { batch, rows, step } = prepared;
        self.keeper.commit(batch.as_slice())?;
        self.mirror.add(step, rows.into_vec());
        Ok(())
    }

    /// The keeper, in the state in which the last call left it. It takes no memory.
    pub fn into_keeper(self) -> K
        ensures { result ≡ self.keeper }
    {
        let Books { mirror, keeper } = self;
        drop(mirror);
        keeper
    }

    /// Posts a part of a unit up to the writing.
    fn prepare_post(
        &mut self,
        alloc: Global,
        unit: &UnitKey,
        part: Part,
        worked: Option<&Worked>,
    ) -> Result<(Prepared, Outcome), NoMemory>
        requires usable { IsUsable K.held K.is_open self.old }
        requires marks { HasMarksLeft self.old.ledger }
        requires waits { WaitsFor part self.old.ledger unit.now }
        ensures ready { IfOk result (λ r. IsReady K.held K.has_room self.new r.0) }
        ensures step { IfOk result (λ r. r.0.step ≡ Note unit.now (kind_for part r.1)) }
        ensures outcome { IfOk result (λ r. IsOutcome (applied (effects_of part self.old.ledger.units unit.now)
            (tables_of self.old.ledger.units self.old.ledger.marks)) r.1) }
        ensures usable { IsUsable K.held K.is_open self.new }
        ensures unmoved { IsUnmoved K.held K.may_leave K.faults self.old self.new }
    {
        let (spots, outcome) = post_part(alloc, &self.mirror, unit, part, worked)?;
        let kind = part.kind_for(outcome);
        let prepared = self.prepare_note(alloc, spots, unit, kind)?;
        Ok((prepared, outcome))
    }

    /// Makes ready a mark of a unit, with the rows that its part leaves.
    fn prepare_note(
        &mut self,
        alloc: Global,
        spots: Vec<Spot>,
        unit: &UnitKey,
        kind: MarkKind,
    ) -> Result<Prepared, NoMemory>
        requires usable { IsUsable K.held K.is_open self.old }
        requires marks { HasMarksLeft self.old.ledger }
        requires follows { MayGet self.old.ledger unit.now kind }
        requires distinct { HasDistinctRows spots.items }
        requires note { IsNote self.old.ledger (next_mark self.old.ledger unit.now kind) spots.items }
        ensures ready { IfOk result (λ prepared. IsReady K.held K.has_room self.new prepared) }
        ensures step { IfOk result (λ prepared. prepared.step ≡ Note unit.now kind) }
        ensures usable { IsUsable K.held K.is_open self.new }
        ensures unmoved { IsUnmoved K.held K.may_leave K.faults self.old self.new }
    {
        let mark = mark_behind(self.marks(), unit, kind);
        let batch = note_batch(alloc, self.start(), spots.as_slice(), &mark)?;
        let Mark { unit, kind, .. } = mark;
        self.prepare(alloc, batch, spots, Step::Note { unit, kind })
    }

    fn prepare(
        &mut self,
        alloc: Global,
        batch: Vec<Change>,
        rows: Vec<Spot>,
        step: Step,
    ) -> Result<Prepared, NoMemory>
        requires usable { IsUsable K.held K.is_open self.old }
        requires batch { IsBatch batch.items }
        requires step { MayTake self.old.ledger step }
        requires makes { IfSome (K.held self.old.keeper)
            (λ rows. StandFor (changed batch.items rows) (after_step self.old.ledger step)) }
        requires leaves { business (after_step self.old.ledger step)
            ≡ with_spots rows.items (business self.old.ledger) }
        ensures ready { IfOk result (λ prepared. IsReady K.held K.has_room self.new prepared) }
        ensures step { IfOk result (λ prepared. prepared.step ≡ step) }
        ensures usable { IsUsable K.held K.is_open self.new }
        ensures unmoved { IsUnmoved K.held K.may_leave K.faults self.old self.new }
    {
        match self.make_room(alloc, batch.as_slice(), interval_count(&step), rows.len()) {
            Ok(()) => Ok(Prepared {
                batch: Items::from_vec(batch),
                rows: Items::from_vec(rows),
                step,
            }),
            Err(_) => {
                drop(batch);
                drop(rows);
                drop(step);
                Err(NoMemory)
            }
        }
    }

    /// Takes the memory for a batch that puts so many intervals and leaves so many business rows. Nothing changes in
    /// the store.
    fn make_room(
        &mut self,
        alloc: Global,
        batch: &[Change],
        intervals: usize,
        rows: usize,
    ) -> Result<(), NoMemory>
        requires usable { IsUsable K.held K.is_open self.old }
        requires batch { IsBatch batch.now }
        ensures kept { OnOk result (K.has_room self.new.keeper batch.now) }
        ensures space { OnOk result (1 ≤ self.new.room) }
        ensures spare { OnOk result (intervals ≤ self.new.spare) }
        ensures places { OnOk result (rows ≤ self.new.places) }
        ensures usable { IsUsable K.held K.is_open self.new }
        ensures unmoved { IsUnmoved K.held K.may_leave K.faults self.old self.new }
    {
        self.mirror.make_room(intervals, rows)?;
        self.keeper.room(alloc, batch)?;
        Ok(())
    }

    /// Writes the next start number.
    fn raise(&mut self, alloc: Global) -> Result<(), BooksFault>
        requires usable { IsUsable K.held K.is_open self.old }
        ensures usable { OnOk result (IsUsable K.held K.is_open self.new) }
        ensures ledger { OnOk result (self.new.ledger ≡ raised true self.old.ledger) }
        ensures told { is_some (K.held self.new.keeper) ≡ is_some (K.held self.old.keeper) }
        ensures left { IfSome (K.held self.old.keeper) (λ _. (left : Rows) → K.may_leave self.new.keeper left
            → K.may_leave self.old.keeper left ⊎ StandFor left (raised true self.old.ledger)) }
        ensures counts { OnOk result (K.faults self.new.keeper ≡ K.faults self.old.keeper) }
        ensures fault { IfErr result (IsRaiseFault self.old.ledger) }
        ensures rows { IfErr result (λ fault. OnRefused fault (K.held self.new.keeper ≡ K.held self.old.keeper)) }
        ensures unchanged { IfErr result
            (λ fault. OnRefused fault (IsWithin (K.may_leave self.new.keeper) (K.may_leave self.old.keeper))) }
        ensures cause { IfErr result
            (λ fault. CountsFault fault (K.faults self.old.keeper) (K.faults self.new.keeper)) }
    {
        let start = self.start();
        if start == u32::MAX {
            return Err(BooksFault::NoStart);
        }
        let Ok(batch) = start_batch(alloc, start + 1, self.marks()) else {
            return Err(BooksFault::NoMemory);
        };
        let step = Step::Start(start + 1);
        let Ok(prepared) = self.prepare(alloc, batch, Vec::new(alloc), step) else {
            return Err(BooksFault::NoMemory);
        };
        match self.write(prepared) {
            Ok(()) => Ok(()),
            Err(_) => Err(BooksFault::StoreFault),
        }
    }
}

/// What the V1 part of a unit is worked from.
fn draft_part(alloc: Global, mirror: &Mirror, unit: &UnitKey) -> Result<Draft, NoMemory>
    requires { IsOpenUnit mirror.now.ledger unit.now }
    ensures { IfOk result (IsDrafted mirror.now.ledger unit.now) }
{
    let Some(found) = mirror.register().unit(unit) else {
        unreachable!();
    };
    Draft::new(alloc, unit, found.parts.v1.as_slice(), mirror.rows())
}

/// Applies a part of a unit to the business rows, or takes what was worked before.
fn post_part(
    alloc: Global,
    mirror: &Mirror,
    unit: &UnitKey,
    part: Part,
    worked: Option<&Worked>,
) -> Result<(Vec<Spot>, Outcome), NoMemory>
    requires { WaitsFor part mirror.now.ledger unit.now }
    ensures once { IfOk result (λ r. HasDistinctRows r.0.items) }
    ensures post { IfOk result (λ r. IsPost (effects_of part mirror.now.ledger.units unit.now)
        (business mirror.now.ledger) r.1 r.0.items) }
{
    let Some(found) = mirror.register().unit(unit) else {
        unreachable!();
    };
    let effects = effects_in(&found.parts, part);
    post(alloc, mirror.rows(), unit, effects, worked)
}

fn effects_in(parts: &Parts, part: Part) -> &[Effect]
    ensures { result.now ≡ (if is_first part then parts.now.v1 else parts.now.v2) }
{
    match part {
        Part::V1 => parts.v1.as_slice(),
        Part::V2 => parts.v2.as_slice(),
    }
}

/// How many intervals a step puts.
fn interval_count(step: &Step) -> usize
    ensures { result ≡ length (intervals_in step.now) }
{
    match step {
        Step::Record { levels, .. } => levels.as_slice().len(),
        Step::Draw { levels, .. } => levels.as_slice().len(),
        Step::Level(_) => 1,
        _ => 0,
    }
}

ghost use Rattle.std.specs.Prelude.{◌≡◌, ◌⊎◌, ◌≤◌, ◌&&◌, ◌||◌, not, ◌++◌, ◌∷◌, [], ℕ, List, length, true, false, IsTrue, IfOk, IfErr, OnOk, OnErr, IsErrOf, MatchResult};
ghost use Rattle.enq_base.specs.Causes.{HasCause};
ghost use Rattle.bk_disk.specs.Disk.{Follows};
ghost use Rattle.gate_log.specs.Gates.{IsShut, IsAtRest};
ghost use Rattle.backup_file.specs.declared.handed.Handed.{Handed};
ghost use Rattle.backup_file.specs.declared.handed.Record.TheVariants.{Hand, Free};
ghost use Rattle.backup_file.specs.Lists.{AreUnits, HaveEntries, after, has_unit, is_known};
ghost use Rattle.backup_file.specs.File.{Stands, IsBad, IsNoOlder, IsShort, IsVersion2, Keeps, first_file};
ghost use Rattle.backup_file.specs.Plans.{IsDone, IsLeftCompact, OnNoMemory};
ghost use Rattle.backup_file.specs.Opening.{CountsFault, OnBad, StandsLater};
ghost use Rattle.backup_file.specs.Handing.{IsHandable, handed_of};
ghost use Rattle.backup_file.specs.Backup.{IsHandFor, IsReady, IsSame, HasWriteCause};
ghost use Rattle.enq_base.specs.Owners.{same_unit};
ghost use Rattle.enq_base.specs.declared.owner.UnitKey.{UnitKey};
ghost use Rattle.lock_entry.specs.declared.entry.Entry.{Entry};

use crate::compact_log::compact_log;
use crate::fault::{BackFault, WriteFault};
use crate::handed::Handed;
use crate::opening::open_file;
use crate::unit_set::{forget, holds};
use crate::writing::{free_text, hand_text};
use bk_disk::Disk;
use enq_base::{Failed, NoMemory, UnitId, UnitKey, id_of};
use gate_log::add_record;
use lock_entry::Entry;
use std::alloc::Global;
use std::collections::HashSet;
use std::marker::Model;

/// A unit's list that is ready to be written into a file.
#[derive(Drop)]
pub struct ReadyHand {
    unit: UnitKey,
    text: Vec<u8>,
}

impl Model for ReadyHand {
    ghost use Rattle.backup_file.specs.Backup.{ReadyView};

    ghost Value = { ReadyView };

    ghost view = { λ r. record { unit = r.unit; text = r.text.items } };

    ghost use Rattle.std.specs.Prelude.{◌≤◌, length};

    ghost invariant = { λ r. 1 ≤ length r.text.items };
}

/// An open backup file.
#[derive(Drop)]
pub struct Backup<D> {
    disk: D,
    gate: u64,
    units: HashSet<UnitId>,
    compact: bool,
    failed: bool,
}

impl<D> Model for Backup<D> {
    ghost use Rattle.std.specs.HashSet.{spare};
    ghost use Rattle.backup_file.specs.Backup.{BackupView};

    ghost Value = { BackupView D };

    ghost view = { λ b. record {
      disk = b.disk;
      gate = b.gate;
      units = b.units.keys;
      room = spare b.units;
      compact = b.compact;
      failed = b.failed;
    } };
}

impl<D: Disk> Backup<D> {
    /// Opens the file of a disk, and gives the lists in the order of their hands. A file of at most 9 bytes stands for
    /// no lists, whatever it holds, and is written anew. One of version 1 becomes one of version 2. An error gives the
    /// disk back.
    pub fn open(alloc: Global, disk: D) -> Result<(Backup<D>, Vec<Handed>), (BackFault, D)>
        ensures lists { IsTrue D.tells → IfOk result (λ found. Stands (D.reads disk) found.1.items) }
        ensures ready { IsTrue D.tells
            → IfOk result (λ found. IsReady D.reads D.may_leave found.0 found.1.items) }
        ensures units { IfOk result (λ found. AreUnits found.0.units found.1.items) }
        ensures some { IfOk result (λ found. HaveEntries found.1.items) }
        ensures fresh { IfOk result (λ found. found.0.failed ≡ false) }
        ensures anew { IsTrue D.tells → IsShort (D.reads disk)
            → IfOk result (λ found. D.reads found.0.disk ≡ first_file) }
        ensures stays { IsTrue D.tells → (l : List Handed) → IsVersion2 (D.reads disk) l
            → IfOk result (λ found. D.reads found.0.disk ≡ D.reads disk) }

        // Where the file stands for nothing its bytes stay.
        ensures bad { IsTrue D.tells
            → IfErr result (λ e. OnBad (λ at. IsBad (D.reads disk) at × (D.reads e.1 ≡ D.reads disk)) e.0) }

        // Each image stands for the lists of an image before the call.
        ensures images { IsTrue D.tells → MatchResult result
            (λ found. Follows Keeps (D.may_leave disk) (D.may_leave found.0.disk))
            (λ e. Follows Keeps (D.may_leave disk) (D.may_leave e.1)) }

        // One that wasn't possible before the call stands for the lists for which the file stood.
        ensures lasting { IsTrue D.tells → (l : List Handed) → Stands (D.reads disk) l → MatchResult result
            (λ found. StandsLater (D.may_leave disk) (D.may_leave found.0.disk) l)
            (λ e. StandsLater (D.may_leave disk) (D.may_leave e.1) l) }
        ensures quiet { IfOk result (λ found. D.faults found.0.disk ≡ D.faults disk) }
        ensures cause { IfErr result (λ e. CountsFault e.0 (D.faults disk) (D.faults e.1)) }
    {
        let mut backup = Backup::unread(alloc, disk);
        match backup.reopen(alloc) {
            Ok(lists) => Ok((backup, lists)),
            Err(fault) => Err((fault, backup.into_disk())),
        }
    }

    /// A file that is yet to be read: only `reopen` and `into_disk` are allowed. It takes no memory.
    pub fn unread(alloc: Global, disk: D) -> Backup<D>
        ensures disk { result.disk ≡ disk }
        ensures failed { result.failed ≡ true }
    {
        Backup {
            disk,
            gate: 0,
            units: HashSet::new(alloc),
            compact: false,
            failed: true,
        }
    }

    /// Reads the file anew, also one that failed, and gives the lists as `open` does. After an error only `reopen` and
    /// `into_disk` are allowed.
    pub fn reopen(&mut self, alloc: Global) -> Result<Vec<Handed>, BackFault>
        ensures lists { IsTrue D.tells → IfOk result (λ lists. Stands (D.reads self.old.disk) lists.items) }
        ensures ready { IsTrue D.tells
            → IfOk result (λ lists. IsReady D.reads D.may_leave self.new lists.items) }
        ensures units { IfOk result (λ lists. AreUnits self.new.units lists.items) }
        ensures some { IfOk result (λ lists. HaveEntries lists.items) }
        ensures fresh { OnOk result (self.new.failed ≡ false) }
        ensures shut { OnErr result (self.new.failed ≡ true) }
        ensures anew { IsTrue D.tells → IsShort (D.reads self.old.disk)
            → OnOk result (D.reads self.new.disk ≡ first_file) }
        ensures stays { IsTrue D.tells → (l : List Handed) → IsVersion2 (D.reads self.old.disk) l
            → OnOk result (D.reads self.new.disk ≡ D.reads self.old.disk) }
        ensures worn { IsTrue D.tells → OnOk result (IsNoOlder (D.reads self.old.disk) (D.reads self.new.disk)) }

        // Where the file stands for nothing its bytes stay.
        ensures bad { IsTrue D.tells
            → IfErr result (OnBad
            (λ at. IsBad (D.reads self.old.disk) at × (D.reads self.new.disk ≡ D.reads self.old.disk))) }

        // Each image stands for the lists of an image before the call.
        ensures images { IsTrue D.tells → Follows Keeps (D.may_leave self.old.disk) (D.may_leave self.new.disk) }
        ensures lasting { IsTrue D.tells → (l : List Handed) → Stands (D.reads self.old.disk) l
            → StandsLater (D.may_leave self.old.disk) (D.may_leave self.new.disk) l }
        ensures quiet { OnOk result (D.faults self.new.disk ≡ D.faults self.old.disk) }
        ensures cause { IfErr result (λ fault. CountsFault fault (D.faults self.old.disk) (D.faults self.new.disk)) }
    {
        self.shut();
        match open_file(alloc, &mut self.disk) {
            Ok(found) => {
                self.gate = found.gate;
                self.units = found.units;
                self.compact = found.compact;
                self.failed = false;
                Ok(found.lists)
            }
            Err(fault) => Err(fault),
        }
    }

    /// Nothing is written any more: only `reopen` and `into_disk` are allowed. It takes no memory.
    pub fn shut(&mut self)
        ensures disk { self.new.disk ≡ self.old.disk }
        ensures failed { self.new.failed ≡ true }
    {
        self.failed = true;
    }

    /// Writes the list of a unit, which becomes the last. It takes its memory before any write, and answers want of
    /// memory too where the list is too long for its record. After `Failed` only `reopen` and `into_disk` are allowed.
    pub fn hand(
        &mut self,
        alloc: Global,
        unit: &UnitKey,
        entries: &[Entry],
    ) -> Result<(), WriteFault>
        requires usable { self.old.failed ≡ false }
        requires handable { IsHandable unit.now entries.now }
        ensures handed { IsTrue D.tells → (l : List Handed) → IsReady D.reads D.may_leave self.old l
            → OnOk result (IsReady D.reads D.may_leave self.new (after l (Hand (handed_of unit.now entries.now)))) }
        ensures units { OnOk result
            ((other : UnitKey) → is_known other
            self.new.units ≡ (same_unit unit.now other || is_known other self.old.units)) }
        ensures usable { OnOk result (self.new.failed ≡ false) }
        ensures failed { IsErrOf result WriteFault.Failed → self.new.failed ≡ true }

        // A crash leaves the lists before the call or after it.
        ensures images { IsTrue D.tells → (l : List Handed) → IsReady D.reads D.may_leave self.old l
            → (c : List ℕ) → D.may_leave self.new.disk c
            → Stands c l ⊎ Stands c (after l (Hand (handed_of unit.now entries.now))) }
        ensures no_memory { IsErrOf result WriteFault.NoMemory → IsSame self.old self.new }
        ensures cause { HasWriteCause (D.faults self.old.disk) (D.faults self.new.disk) result }
    {
        let Ok(ready) = self.ready_hand(alloc, unit, entries) else {
            return Err(WriteFault::NoMemory);
        };
        match self.write_hand(ready) {
            Ok(()) => Ok(()),
            Err(_) => Err(WriteFault::Failed),
        }
    }

    /// Takes the memory that the writing of the unit's list needs. Nothing is written. It answers want of memory too
    /// where the list is too long for its record.
    pub fn ready_hand(
        &mut self,
        alloc: Global,
        unit: &UnitKey,
        entries: &[Entry],
    ) -> Result<ReadyHand, NoMemory>
        requires { IsHandable unit.now entries.now }
        ensures ready { IfOk result (IsHandFor unit.now entries.now) }
        ensures room { OnOk result (1 ≤ self.new.room) }
        ensures same { IsSame self.old self.new }
    {
        let text = hand_text(alloc, unit, entries)?;
        self.make_room()?;
        Ok(ReadyHand { unit: *unit, text })
    }

    /// Makes room for a unit more.
    fn make_room(&mut self) -> Result<(), NoMemory>
        ensures room { OnOk result (1 ≤ self.new.room) }
        ensures same { IsSame self.old self.new }
    {
        self.units.reserve(1)?;
        Ok(())
    }

    /// Writes a unit's list that was made ready; it becomes the last. It takes no memory. After `Failed` only
    /// `reopen` and `into_disk` are allowed.
    pub fn write_hand(&mut self, ready: ReadyHand) -> Result<(), Failed>
        requires usable { self.old.failed ≡ false }
        requires room { 1 ≤ self.old.room }
        ensures handed { IsTrue D.tells → (unit : UnitKey) (entries : List Entry) → IsHandFor unit entries ready
            → (l : List Handed) → IsReady D.reads D.may_leave self.old l
            → OnOk result (IsReady D.reads D.may_leave self.new (after l (Hand (handed_of unit entries)))) }
        ensures units { (unit : UnitKey) (entries : List Entry) → IsHandFor unit entries ready
            → OnOk result ((other : UnitKey)
            → is_known other self.new.units ≡ (same_unit unit other || is_known other self.old.units)) }
        ensures usable { OnOk result (self.new.failed ≡ false) }
        ensures failed { OnErr result (self.new.failed ≡ true) }

        // A crash leaves the lists before the call or after it.
        ensures images { IsTrue D.tells → (unit : UnitKey) (entries : List Entry) → IsHandFor unit entries ready
            → (l : List Handed) → IsReady D.reads D.may_leave self.old l
            → (c : List ℕ) → D.may_leave self.new.disk c
            → Stands c l ⊎ Stands c (after l (Hand (handed_of unit entries))) }
        ensures cause { HasCause (D.faults self.old.disk) (D.faults self.new.disk) result }
    {
        let ReadyHand { unit, text } = ready;
        self.add(&text)?;
        self.keep(&unit);
        Ok(())
    }

    /// Takes the list of a unit away, which stands. It takes no memory. After `Failed` only `reopen` and
    /// `into_disk` are allowed.
    pub fn free(&mut self, unit: &UnitKey) -> Result<(), Failed>
        requires usable { self.old.failed ≡ false }
        requires stands { IsTrue (is_known unit.now self.old.units) }
        ensures freed { IsTrue D.tells → (l : List Handed) → IsReady D.reads D.may_leave self.old l
            → OnOk result (IsReady D.reads D.may_leave self.new (after l (Free unit.now))) }
        ensures units { OnOk result
            ((other : UnitKey) → is_known other
            self.new.units ≡ (not (same_unit unit.now other) && is_known other self.old.units)) }
        ensures worn { IsTrue D.tells → (l : List Handed) → IsReady D.reads D.may_leave self.old l
            → OnOk result (IsNoOlder (D.reads self.old.disk) (D.reads self.new.disk)) }
        ensures usable { OnOk result (self.new.failed ≡ false) }
        ensures failed { OnErr result (self.new.failed ≡ true) }

        // A crash leaves the lists before the call or after it.
        ensures images { IsTrue D.tells → (l : List Handed) → IsReady D.reads D.may_leave self.old l
            → (c : List ℕ) → D.may_leave self.new.disk c → Stands c l ⊎ Stands c (after l (Free unit.now)) }
        ensures cause { HasCause (D.faults self.old.disk) (D.faults self.new.disk) result }
    {
        self.add(&free_text(unit))?;
        self.forget(unit);
        Ok(())
    }

    /// Adds a record: an open gate, the record and a closed gate.
    fn add(&mut self, text: &[u8]) -> Result<(), Failed>
        requires { 1 ≤ length text.now }
        ensures unknown { self.new.compact ≡ false }
        ensures units { self.new.units ≡ self.old.units }
        ensures room { self.new.room ≡ self.old.room }
        ensures usable { OnOk result (self.new.failed ≡ self.old.failed) }
        ensures failed { OnErr result (self.new.failed ≡ true) }
        ensures added { IsTrue D.tells → (front body : List ℕ)
            → IsAtRest (D.reads self.old.disk) (D.may_leave self.old.disk) self.old.gate front
            → text.now ≡ 1 ∷ (body ++ 0 ∷ [])
            → OnOk result (IsAtRest (D.reads self.new.disk) (D.may_leave self.new.disk) self.new.gate
            (front ++ 1 ∷ body)) }
        ensures images { IsTrue D.tells → (front body : List ℕ)
            → IsAtRest (D.reads self.old.disk) (D.may_leave self.old.disk) self.old.gate front
            → text.now ≡ 1 ∷ (body ++ 0 ∷ [])
            → (c : List ℕ) → D.may_leave self.new.disk c → IsShut front c ⊎ IsShut (front ++ 1 ∷ body) c }
        ensures cause { HasCause (D.faults self.old.disk) (D.faults self.new.disk) result }
    {
        self.compact = false;
        match add_record(&mut self.disk, self.gate, text) {
            Ok(gate) => {
                self.gate = gate;
                Ok(())
            }
            Err(Failed) => {
                self.failed = true;
                Err(Failed)
            }
        }
    }

    fn keep(&mut self, unit: &UnitKey)
        requires { 1 ≤ self.old.room }
        ensures units { (other : UnitKey)
            → is_known other self.new.units ≡ (same_unit unit.now other || is_known other self.old.units) }
        ensures disk { self.new.disk ≡ self.old.disk }
        ensures gate { self.new.gate ≡ self.old.gate }
        ensures compact { self.new.compact ≡ self.old.compact }
        ensures failed { self.new.failed ≡ self.old.failed }
    {
        let _ = self.units.insert(id_of(unit));
    }

    fn forget(&mut self, unit: &UnitKey)
        ensures units { (other : UnitKey)
            → is_known other self.new.units ≡ (not (same_unit unit.now other) && is_known other self.old.units) }
        ensures disk { self.new.disk ≡ self.old.disk }
        ensures gate { self.new.gate ≡ self.old.gate }
        ensures compact { self.new.compact ≡ self.old.compact }
        ensures failed { self.new.failed ≡ self.old.failed }
    {
        forget(&mut self.units, unit);
    }

    /// Writes the log in force anew where it has more than one hand of each list, unless its generation is the last
    /// one: the file then stands for the same lists. It takes its memory before any write. After `Failed` only
    /// `reopen` and `into_disk` are allowed.
    pub fn compact(&mut self, alloc: Global) -> Result<(), WriteFault>
        requires usable { self.old.failed ≡ false }
        ensures ready { IsTrue D.tells → (l : List Handed) → IsReady D.reads D.may_leave self.old l
            → OnOk result (IsReady D.reads D.may_leave self.new l) }
        ensures done { IsTrue D.tells → (l : List Handed) → IsReady D.reads D.may_leave self.old l
            → OnOk result (IsLeftCompact (D.reads self.old.disk) (D.reads self.new.disk) l) }
        // Where there is nothing to do the bytes stay.
        ensures still { IsTrue D.tells → (l : List Handed) → IsReady D.reads D.may_leave self.old l
            → IsDone (D.reads self.old.disk) l → OnOk result (D.reads self.new.disk ≡ D.reads self.old.disk) }
        ensures kept { IsTrue D.tells → (l : List Handed) → IsReady D.reads D.may_leave self.old l
            → OnNoMemory result (IsReady D.reads D.may_leave self.new l) }
        ensures units { self.new.units ≡ self.old.units }
        ensures usable { OnOk result (self.new.failed ≡ false) }
        ensures failed { IsErrOf result WriteFault.Failed → self.new.failed ≡ true }

        // Whatever a crash leaves stands for the same lists.
        ensures images { IsTrue D.tells → (l : List Handed) → IsReady D.reads D.may_leave self.old l
            → (c : List ℕ) → D.may_leave self.new.disk c → Stands c l }
        ensures cause { HasWriteCause (D.faults self.old.disk) (D.faults self.new.disk) result }
    {
        if self.compact {
            return Ok(());
        }
        match compact_log(alloc, &mut self.disk) {
            Ok(Some(gate)) => {
                self.gate = gate;
                self.compact = true;
                Ok(())
            }
            Ok(None) => Ok(()),
            Err(WriteFault::Failed) => {
                self.failed = true;
                Err(WriteFault::Failed)
            }
            Err(WriteFault::NoMemory) => Err(WriteFault::NoMemory),
        }
    }

    /// Whether the list of a unit stands. It takes no memory.
    pub fn stands(&self, unit: &UnitKey) -> bool
        ensures units { result ≡ is_known unit.now self.now.units }
        ensures lists { IsTrue D.tells → (l : List Handed) → IsReady D.reads D.may_leave self.now l
            → result ≡ has_unit unit.now l }
    {
        holds(&self.units, unit)
    }

    /// The disk.
    pub fn into_disk(self) -> D
        ensures { result ≡ self.disk }
    {
        let Backup {
            disk,
            gate: _,
            units,
            compact: _,
            failed: _,
        } = self;
        let _ = units;
        disk
    }
}

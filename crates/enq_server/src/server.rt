ghost use Rattle.std.specs.Prelude.{◌≡◌, ◌≢◌, ◌⊎◌, ◌≤◌, ◌+◌, ◌&&◌, ℕ, [], List, false, true, length, not, if◌then◌else◌, is_some, IsTrue, IfOk, IfErr, IfSome, OnOk, OnErr, Ok, IsErrOf, MatchResult};
ghost use Rattle.std.specs.List.{filter};
ghost use Rattle.enq_base.specs.Causes.{HasCause, Rose};
ghost use Rattle.enq_base.specs.declared.owner.Owner.TheVariants.{Upd};
ghost use Rattle.mode_rules.specs.Modes.{same_mode};
ghost use Rattle.mode_rules.specs.declared.Mode.TheVariants.{O};
ghost use Rattle.bk_disk.specs.Disk.{Follows};
ghost use Rattle.lock_entry.specs.Converting.{converted};
ghost use Rattle.lock_entry.specs.Freeing.{freed, freed_owner, handed_over, has_unhanded};
ghost use Rattle.lock_entry.specs.Granting as granting;
ghost use Rattle.lock_entry.specs.Names.{is_of, named};
ghost use Rattle.enq_server.specs.Replica.{IsLater, IsLostWith, IsOverFault, KeepsOn, told_list};
ghost use Rattle.lock_entry.specs.Pairs.{IsPair};
ghost use Rattle.lock_entry.specs.Sound.{IsSound, ReadmitsOnly};
ghost use Rattle.lock_entry.specs.Table.{IsTable, entry_at, with_entries};
ghost use Rattle.backup_file.specs.Backup.{HasWriteCause, IsReady, IsSame};
ghost use Rattle.backup_file.specs.File.{Stands};
ghost use Rattle.backup_file.specs.Handing.{IsHandable};
ghost use Rattle.backup_file.specs.Lists as lists;
ghost use Rattle.backup_file.specs.Lists.{is_known};
ghost use Rattle.backup_file.specs.declared.handed.Handed.{Handed};
ghost use Rattle.enq_server.specs.Faults.{CountsFault, HasCallCause, IsOpenFault, IsReadmission, IsRefusal, Leaves, OnBytes};
ghost use Rattle.enq_server.specs.declared.fault.ServerFault.TheVariants as server;
ghost use Rattle.enq_server.specs.Recovery.{AreKnown, AreWith, AreWithout, FreesOthers, locking};
ghost use Rattle.enq_server.specs.Server.{IsConverted, IsListFor, IsRecovered, lasting, no_table, of_user, put_back, recovered, replicated, table_of, with_list};
ghost use Rattle.enq_base.specs.declared.owner.UnitKey.{UnitKey};
ghost use Rattle.lock_entry.specs.declared.entry.Entry.{Entry};

use crate::fault::{OpenFault, OverFault, ServerFault};
use crate::recovery::{ends_with, read_anew};
use crate::replica::Replica;
use crate::shipping::{
    hand, ship_drops, ship_freed, ship_granted, ship_owner, ship_readmitted, ship_turns,
};
use crate::wreck::Wreck;
use backup_file::{Backup, ReadyHand, WriteFault};
use bk_disk::Disk;
use enq_base::{Failed, Name, NoMemory, Owner, UnitKey};
use lock_entry::{Asked, Asker, Entry, LockStore, Mode, Request, UnitLocks};
use replica_link::{Link, LinkFault};
use std::alloc::Global;
use std::marker::Model;

/// A lock table, the backup file of the locks that were handed to the update, and a replica that follows the table
/// once it is attached (Standalone Enqueue Server). Once the server is ended no table stands, until the replica's list
/// or the backup file's lists become one. Calls without an allocator take memory for what is sent to the replica at
/// most: where there is none they do all else.
#[derive(Drop)]
pub struct EnqServer<T: LockStore, D: Disk, L: Link> {
    table: Option<T>,
    rest: Wreck<D, L>,
}

impl<T: LockStore, D: Disk, L: Link> Model for EnqServer<T, D, L> {
    ghost use Rattle.std.specs.Prelude.{◌≡◌, is_some, true};
    ghost use Rattle.enq_server.specs.Server.{Server, table_of};

    ghost Value = { Server D L };

    ghost view = { λ s. record
        { stands = is_some s.table; table = table_of T.table s.table; file = s.rest.file; replica = s.rest.replica } };

    ghost use Rattle.lock_entry.specs.Table.{IsTable};
    ghost use Rattle.enq_server.specs.Replica.{IsAt};

    ghost invariant = { λ s. IsTable (table_of T.table s.table)
        × (is_some s.table ≡ true → IsAt L.applied s.rest.replica (table_of T.table s.table).entries) };
}

impl<T: LockStore, D: Disk, L: Link> EnqServer<T, D, L> {
    /// Opens the file of a disk, with whose lists the entries of the units must agree: these are the table, with the
    /// larger of `limit` and their number as its limit. Lists of other units are freed, and then the log in force is
    /// written anew. No replica is attached. An error gives disk and link back.
    pub fn open(
        alloc: Global,
        disk: D,
        link: L,
        limit: u32,
        units: &[UnitLocks],
    ) -> Result<EnqServer<T, D, L>, (OpenFault, D, L)>
        ensures stands { IfOk result (λ s. s.stands ≡ true) }
        ensures table { IfOk result (λ s. s.table ≡ recovered limit units.now) }
        ensures good { IfOk result (λ s. IsTable s.table) }
        ensures usable { IfOk result (λ s. s.file.failed ≡ false) }
        // Over every disk just the lists of those of these units that have entries stand in the file then.
        ensures known { IfOk result (λ s. AreKnown s.file.units (locking units.now)) }
        ensures file { IsTrue D.tells
            → IfOk result (λ s. IsRecovered D.reads D.may_leave (D.reads disk) units.now s.file) }
        ensures fault { IsTrue D.tells → IfErr result (λ e. IsOpenFault (D.reads disk) units.now e.0) }
        // A file that stands for nothing stays.
        ensures bad { IsTrue D.tells → IfErr result (λ e. OnBytes e.0 (D.reads e.1 ≡ D.reads disk)) }
        // What a crash leaves has the lists as they were, less none, some or all of those of other units. Where the
        // bytes or lists are bad all are there.
        ensures images { IsTrue D.tells → MatchResult result
            (λ s. Follows (FreesOthers units.now) (D.may_leave disk) (D.may_leave s.file.disk))
            (λ e. Follows (Leaves units.now e.0) (D.may_leave disk) (D.may_leave e.1)) }
        ensures detached { IfOk result (λ s. s.replica.attached ≡ false) }
        ensures link { MatchResult result (λ s. s.replica.link ≡ link) (λ e. e.2 ≡ link) }
        ensures quiet { IfOk result (λ s. D.faults s.file.disk ≡ D.faults disk) }
        ensures cause { IfErr result (λ e. CountsFault e.0 (D.faults disk) (D.faults e.1)) }
    {
        let mut backup = Backup::unread(alloc, disk);
        match read_anew(alloc, &mut backup, limit, units) {
            Ok(table) => Ok(EnqServer {
                table: Some(table),
                rest: Wreck {
                    backup,
                    replica: Replica::new(alloc, link),
                },
            }),
            Err(fault) => Err((fault, backup.into_disk(), link)),
        }
    }

    /// Whether a table stands. It takes no memory.
    pub fn stands(&self) -> bool
        ensures flag { result ≡ self.now.stands }
        ensures bare { self.now.stands ≡ false → self.now.table ≡ no_table }
    {
        self.table.is_some()
    }

    /// Ends the server: its table goes, and backup file and replica stay as they are. It takes no memory.
    pub fn kill(&mut self)
        requires stands { self.old.stands ≡ true }
        ensures ended { self.new.stands ≡ false }
        ensures table { self.new.table ≡ no_table }
        ensures file { self.new.file ≡ self.old.file }
        ensures replica { self.new.replica ≡ self.old.replica }
        // While a replica follows, a link that tells its list has that of the table that goes.
        ensures told { told_list L.applied self.new.replica
            ≡ (if self.old.replica.attached && is_some (L.applied self.old.replica.link)
            then self.old.table.entries else []) }
    {
        self.table = None;
    }

    /// Takes the replica's list over as the table, whatever the table was that went. The limit is the larger of `limit`
    /// and the number of entries. No replica follows then, nor after `Link` and `Clash`. After an error no table
    /// stands.
    pub fn fail_over(&mut self, alloc: Global, limit: u32) -> Result<(), OverFault>
        requires ended { self.old.stands ≡ false }
        ensures stands { OnOk result (self.new.stands ≡ true) }
        ensures kept { OnErr result (self.new.stands ≡ false) }
        ensures bare { OnErr result (self.new.table ≡ no_table) }
        ensures table { OnOk result (self.new.table ≡ replicated limit (L.gives self.old.replica.link)) }
        ensures sound { OnOk result (IsSound (L.gives self.old.replica.link)) }
        ensures good { IsTable self.new.table }
        ensures followed { OnOk result (self.old.replica.attached ≡ true) }
        ensures detached { OnOk result (self.new.replica.attached ≡ false) }
        // A link that tells its list gives just that.
        ensures told { IfSome (L.applied self.old.replica.link) (λ list. L.gives self.old.replica.link ≡ list) }
        ensures file { self.new.file ≡ self.old.file }
        ensures fault { IfErr result (IsOverFault L.faults L.gives L.applied self.old.replica self.new.replica) }
        ensures later { IsLater L.applied L.faults L.refusals self.old.replica self.new.replica }
    {
        let table = self.rest.fail_over(alloc, limit)?;
        self.table = Some(table);
        Ok(())
    }

    /// Makes the table and the backup file anew from the file's lists and these units, as `open` does, also where the
    /// file failed. No replica follows then, whatever the answer is; the link isn't called. After an error no table
    /// stands, and the file takes no write until it is made anew.
    pub fn restart(
        &mut self,
        alloc: Global,
        limit: u32,
        units: &[UnitLocks],
    ) -> Result<(), OpenFault>
        requires ended { self.old.stands ≡ false }
        ensures stands { OnOk result (self.new.stands ≡ true) }
        ensures kept { OnErr result (self.new.stands ≡ false) }
        ensures bare { OnErr result (self.new.table ≡ no_table) }
        ensures table { OnOk result (self.new.table ≡ recovered limit units.now) }
        ensures good { IsTable self.new.table }
        ensures usable { OnOk result (self.new.file.failed ≡ false) }
        ensures shut { OnErr result (self.new.file.failed ≡ true) }
        ensures known { OnOk result (AreKnown self.new.file.units (locking units.now)) }
        ensures file { IsTrue D.tells
            → OnOk result (IsRecovered D.reads D.may_leave (D.reads self.old.file.disk) units.now self.new.file) }
        ensures fault { IsTrue D.tells → IfErr result (IsOpenFault (D.reads self.old.file.disk) units.now) }
        ensures bad { IsTrue D.tells
            → IfErr result (λ fault. OnBytes fault (D.reads self.new.file.disk ≡ D.reads self.old.file.disk)) }
        ensures images { IsTrue D.tells → MatchResult result
            (λ _. Follows (FreesOthers units.now) (D.may_leave self.old.file.disk) (D.may_leave self.new.file.disk))
            (λ fault. Follows (Leaves units.now fault) (D.may_leave self.old.file.disk)
            (D.may_leave self.new.file.disk)) }
        ensures detached { self.new.replica.attached ≡ false }
        ensures link { self.new.replica.link ≡ self.old.replica.link }
        ensures quiet { OnOk result (D.faults self.new.file.disk ≡ D.faults self.old.file.disk) }
        ensures cause { IfErr result
            (λ fault. CountsFault fault (D.faults self.old.file.disk) (D.faults self.new.file.disk)) }
    {
        let table = self.rest.restart(alloc, limit, units)?;
        self.table = Some(table);
        Ok(())
    }

    /// Grants all requests or none.
    pub fn ask(
        &mut self,
        alloc: Global,
        asker: &Asker,
        user: &Name,
        requests: &[Request],
    ) -> Result<(), ServerFault>
        requires stands { self.old.stands ≡ true }
        requires pair { IsPair asker.now }
        ensures standing { self.new.stands ≡ true }
        ensures granted { OnOk result
            (granting.asked self.old.table asker.now user.now requests.now ≡ Ok self.new.table.entries) }
        ensures refused { IfErr result (IsRefusal (granting.asked self.old.table asker.now user.now requests.now)) }
        ensures unchanged { OnErr result (self.new.table ≡ self.old.table) }
        ensures unshipped { OnErr result (self.new.replica ≡ self.old.replica) }
        ensures limit { self.new.table.limit ≡ self.old.table.limit }
        ensures good { IsTable self.new.table }
        ensures file { self.new.file ≡ self.old.file }
        ensures replica { KeepsOn L.applied L.faults L.refusals self.old.replica self.new.replica }
        ensures lost { IsLostWith self.old.replica self.new.replica self.old.table self.new.table }
    {
        let Some(table) = &mut self.table else {
            unreachable!();
        };
        table.ask(alloc, asker, user, requests)?;
        ship_granted(&mut self.rest.replica, table, asker, requests);
        Ok(())
    }

    /// Takes one from the entry of this name, which goes at 0.
    pub fn free_one(&mut self, owner: &Owner, asked: &Asked)
        ensures standing { self.new.stands ≡ self.old.stands }
        ensures after { self.new.table ≡ with_entries self.old.table
            (freed self.old.table.entries (named owner.now asked.now)) }
        ensures good { IsTable self.new.table }
        ensures file { self.new.file ≡ self.old.file }
        ensures replica { KeepsOn L.applied L.faults L.refusals self.old.replica self.new.replica }
        ensures lost { IsLostWith self.old.replica self.new.replica self.old.table self.new.table }
    {
        if let Some(table) = &mut self.table {
            ship_freed(&mut self.rest.replica, table, owner, asked);
            table.free_one(owner, asked);
        }
    }

    /// Removes the owner's entries.
    pub fn free_owner(&mut self, owner: &Owner)
        ensures standing { self.new.stands ≡ self.old.stands }
        ensures after { self.new.table ≡ with_entries self.old.table (freed_owner self.old.table.entries owner.now) }
        ensures good { IsTable self.new.table }
        ensures file { self.new.file ≡ self.old.file }
        ensures replica { KeepsOn L.applied L.faults L.refusals self.old.replica self.new.replica }
        ensures lost { IsLostWith self.old.replica self.new.replica self.old.table self.new.table }
    {
        if let Some(table) = &mut self.table {
            ship_owner(&mut self.rest.replica, table, owner);
            table.free_owner(owner);
        }
    }

    /// Turns the pair's optimistic entries at these tables and arguments into exclusive ones, all or none, and removes
    /// the optimistic entries of others that meet them.
    pub fn convert(
        &mut self,
        alloc: Global,
        asker: &Asker,
        asked: &[Asked],
    ) -> Result<(), ServerFault>
        requires stands { self.old.stands ≡ true }
        requires pair { IsPair asker.now }
        ensures standing { self.new.stands ≡ true }
        ensures converted { OnOk result
            (IsConverted self.old.table.entries asker.now asked.now self.new.table.entries) }
        ensures refused { IfErr result (IsRefusal (converted self.old.table.entries asker.now asked.now)) }
        ensures unchanged { OnErr result (self.new.table ≡ self.old.table) }
        ensures unshipped { OnErr result (self.new.replica ≡ self.old.replica) }
        ensures limit { self.new.table.limit ≡ self.old.table.limit }
        ensures good { IsTable self.new.table }
        ensures file { self.new.file ≡ self.old.file }
        ensures replica { KeepsOn L.applied L.faults L.refusals self.old.replica self.new.replica }
        ensures lost { IsLostWith self.old.replica self.new.replica self.old.table self.new.table }
    {
        let Some(table) = &mut self.table else {
            unreachable!();
        };
        let removed = table.convert(alloc, asker, asked)?;
        ship_turns(&mut self.rest.replica, asker, asked);
        ship_drops(&mut self.rest.replica, removed.as_slice());
        Ok(())
    }

    /// Writes the list of the unit's S, E and X entries, under this user, into the file, and tells how many there are.
    /// Where there are none nothing is written. The table is as before: `flag` is the rest of the handover. It takes
    /// its memory before any write. After `Failed` the file takes no write: the server has to be ended.
    pub fn save(&mut self, alloc: Global, unit: &UnitKey, user: &Name) -> Result<u32, WriteFault>
        requires usable { self.old.file.failed ≡ false }
        ensures standing { self.new.stands ≡ self.old.stands }
        ensures count { IfOk result (λ n. n ≡ length (lasting unit.now self.old.table.entries)) }
        ensures table { self.new.table ≡ self.old.table }
        ensures saved { IsTrue D.tells → (l : List Handed) → IsReady D.reads D.may_leave self.old.file l
            → OnOk result (IsReady D.reads D.may_leave self.new.file
            (with_list unit.now (of_user user.now (lasting unit.now self.old.table.entries)) l)) }
        ensures images { IsTrue D.tells → (l : List Handed) → IsReady D.reads D.may_leave self.old.file l
            → (c : List ℕ) → D.may_leave self.new.file.disk c
            → Stands c l
            ⊎ Stands c (with_list unit.now (of_user user.now (lasting unit.now self.old.table.entries)) l) }
        ensures known { OnOk result (AreWith unit.now (lasting unit.now self.old.table.entries) self.old.file.units
            self.new.file.units) }
        ensures usable { OnOk result (self.new.file.failed ≡ false) }
        ensures failed { IsErrOf result WriteFault.Failed → self.new.file.failed ≡ true }
        ensures no_memory { IsErrOf result WriteFault.NoMemory → IsSame self.old.file self.new.file }
        // The disk can fail only where there is a list to write.
        ensures some { IsErrOf result WriteFault.Failed → 1 ≤ length (lasting unit.now self.old.table.entries) }
        ensures cause { HasWriteCause (D.faults self.old.file.disk) (D.faults self.new.file.disk) result }
        ensures replica { self.new.replica ≡ self.old.replica }
    {
        let entries = lasting(alloc, &self.table, unit, user)?;
        let Ok(count) = u32::try_from(entries.len()) else {
            return Err(WriteFault::NoMemory);
        };
        if count > 0 {
            self.rest.backup.hand(alloc, unit, entries.as_slice())?;
        }
        Ok(count)
    }

    /// The entry at this place, counted from 1. It takes no memory.
    pub fn at(&self, place: u32) -> Option<Entry>
        ensures { result ≡ entry_at self.now.table.entries place }
    {
        match &self.table {
            Some(table) => table.at(place),
            None => None,
        }
    }

    /// How many entries stand. It takes no memory.
    pub fn len(&self) -> u32
        ensures { result ≡ length self.now.table.entries }
    {
        match &self.table {
            Some(table) => table.len(),
            None => 0,
        }
    }

    /// The entries in order of granting.
    pub fn list(&self, alloc: Global) -> Result<Vec<Entry>, NoMemory>
        ensures { IfOk result (λ entries. entries.items ≡ self.now.table.entries) }
    {
        match &self.table {
            Some(table) => table.list(alloc),
            None => Ok(Vec::new(alloc)),
        }
    }

    /// The owner's entries in order of granting.
    pub fn entries_of(&self, alloc: Global, owner: &Owner) -> Result<Vec<Entry>, NoMemory>
        ensures entries { IfOk result (λ entries. entries.items ≡ filter (is_of owner.now) self.now.table.entries) }
        ensures good { IsTable self.now.table }
    {
        entries_of(alloc, &self.table, owner)
    }

    /// Whether the owner has an entry that wasn't handed over. It takes no memory.
    pub fn has_unhanded(&self, owner: &Owner) -> bool
        ensures { result ≡ has_unhanded owner.now self.now.table.entries }
    {
        match &self.table {
            Some(table) => table.has_unhanded(owner),
            None => false,
        }
    }

    /// Flags the unit's S, E and X entries as handed and removes its O entries: the rest of a handover, behind `save`.
    pub fn flag(&mut self, unit: &UnitKey)
        ensures standing { self.new.stands ≡ self.old.stands }
        ensures after { self.new.table ≡ with_entries self.old.table (handed_over self.old.table.entries unit.now) }
        ensures good { IsTable self.new.table }
        ensures file { self.new.file ≡ self.old.file }
        ensures replica { KeepsOn L.applied L.faults L.refusals self.old.replica self.new.replica }
        ensures lost { IsLostWith self.old.replica self.new.replica self.old.table self.new.table }
    {
        if let Some(table) = &mut self.table {
            hand(&mut self.rest.replica, table, unit);
        }
    }

    /// Grants the entries as they are, in place of those of the asker's update owner, all or none, and writes them as
    /// the list of its unit. Where there are none nothing is written. It takes its memory before it grants: where
    /// the owner has as many entries as are given it copies the table's list, to know whether that stays. After `Failed`
    /// the entries are granted, and the file takes no write: the server has to be ended.
    pub fn readmit(
        &mut self,
        alloc: Global,
        asker: &Asker,
        unit: &UnitKey,
        entries: &[Entry],
    ) -> Result<(), ServerFault>
        requires stands { self.old.stands ≡ true }
        requires usable { self.old.file.failed ≡ false }
        requires pair { IsPair asker.now }
        requires unit { asker.now.update ≡ Upd unit.now }
        requires entries { ReadmitsOnly asker.now entries.now }
        requires handable { 1 ≤ length entries.now → IsHandable unit.now entries.now }
        ensures standing { self.new.stands ≡ true }
        ensures granted { OnOk result
            (granting.readmitted self.old.table asker.now entries.now ≡ Ok self.new.table.entries) }
        ensures refused { IfErr result
            (IsReadmission (granting.readmitted self.old.table asker.now entries.now) self.old.table.entries
            self.new.table.entries) }
        ensures limit { self.new.table.limit ≡ self.old.table.limit }
        ensures good { IsTable self.new.table }
        ensures listed { IsTrue D.tells → (l : List Handed) → IsReady D.reads D.may_leave self.old.file l
            → OnOk result (IsReady D.reads D.may_leave self.new.file (with_list unit.now entries.now l)) }
        ensures images { IsTrue D.tells → (l : List Handed) → IsReady D.reads D.may_leave self.old.file l
            → (c : List ℕ) → D.may_leave self.new.file.disk c
            → Stands c l ⊎ Stands c (with_list unit.now entries.now l) }
        ensures known { OnOk result (AreWith unit.now entries.now self.old.file.units self.new.file.units) }
        ensures usable { OnOk result (self.new.file.failed ≡ false) }
        ensures untouched { IfErr result (λ f. f ≡ server.Failed ⊎ IsSame self.old.file self.new.file) }
        ensures unshipped { IfErr result (λ f. f ≡ server.Failed ⊎ (self.new.replica ≡ self.old.replica)) }
        ensures failed { IsErrOf result server.Failed → self.new.file.failed ≡ true }
        // The disk can fail only where there is a list to write.
        ensures some { IsErrOf result server.Failed → 1 ≤ length entries.now }
        ensures cause { HasCallCause (D.faults self.old.file.disk) (D.faults self.new.file.disk) result }
        ensures replica { KeepsOn L.applied L.faults L.refusals self.old.replica self.new.replica }
        ensures lost { IsLostWith self.old.replica self.new.replica self.old.table self.new.table }
    {
        let Ok(own) = self.entries_of(alloc, &asker.update) else {
            return Err(ServerFault::NoMemory);
        };
        let Ok(ready) = self.ready_list(alloc, unit, entries) else {
            drop(own);
            return Err(ServerFault::NoMemory);
        };
        match self.grant_again(alloc, asker, entries, own.as_slice()) {
            Ok(()) => {
                drop(own);
                match self.write_list(ready) {
                    Ok(()) => Ok(()),
                    Err(_) => Err(ServerFault::Failed),
                }
            }
            Err(fault) => {
                drop(own);
                drop(ready);
                Err(fault)
            }
        }
    }

    /// Frees the unit's list in the file, where it stands, and then removes the entries of its update owner. After
    /// `Failed` the file takes no write: the server has to be ended.
    pub fn end_unit(&mut self, unit: &UnitKey) -> Result<(), Failed>
        requires usable { self.old.file.failed ≡ false }
        ensures standing { self.new.stands ≡ self.old.stands }
        ensures table { OnOk result
            (self.new.table ≡ with_entries self.old.table (freed_owner self.old.table.entries (Upd unit.now))) }
        ensures kept { OnErr result (self.new.table ≡ self.old.table) }
        ensures unshipped { OnErr result (self.new.replica ≡ self.old.replica) }
        ensures freed { IsTrue D.tells → (l : List Handed) → IsReady D.reads D.may_leave self.old.file l
            → OnOk result (IsReady D.reads D.may_leave self.new.file (lists.without unit.now l)) }
        ensures images { IsTrue D.tells → (l : List Handed) → IsReady D.reads D.may_leave self.old.file l
            → (c : List ℕ) → D.may_leave self.new.file.disk c → Stands c l ⊎ Stands c (lists.without unit.now l) }
        ensures known { OnOk result (AreWithout unit.now self.old.file.units self.new.file.units) }
        ensures usable { OnOk result (self.new.file.failed ≡ false) }
        ensures failed { OnErr result (self.new.file.failed ≡ true) }
        // The disk can fail only where the unit's list stands.
        ensures needed { OnErr result (IsTrue (is_known unit.now self.old.file.units)) }
        ensures cause { HasCause (D.faults self.old.file.disk) (D.faults self.new.file.disk) result }
        ensures replica { KeepsOn L.applied L.faults L.refusals self.old.replica self.new.replica }
        ensures lost { IsLostWith self.old.replica self.new.replica self.old.table self.new.table }
    {
        if self.rest.backup.stands(unit) {
            self.rest.backup.free(unit)?;
        }
        self.free_owner(&Owner::Upd(*unit));
        Ok(())
    }

    /// Takes the memory that the writing of the unit's list needs, where it has entries. Nothing is written.
    fn ready_list(
        &mut self,
        alloc: Global,
        unit: &UnitKey,
        entries: &[Entry],
    ) -> Result<Option<ReadyHand>, NoMemory>
        requires { 1 ≤ length entries.now → IsHandable unit.now entries.now }
        ensures ready { IfOk result (IsListFor unit.now entries.now) }
        ensures room { IfOk result (λ ready. IfSome ready (λ _. 1 ≤ self.new.file.room)) }
        ensures standing { self.new.stands ≡ self.old.stands }
        ensures table { self.new.table ≡ self.old.table }
        ensures file { IsSame self.old.file self.new.file }
        ensures replica { self.new.replica ≡ self.old.replica }
    {
        if entries.is_empty() {
            return Ok(None);
        }
        match self.rest.backup.ready_hand(alloc, unit, entries) {
            Ok(ready) => Ok(Some(ready)),
            Err(_) => Err(NoMemory),
        }
    }

    /// Writes a unit's list that was made ready, where there is one. It takes no memory.
    fn write_list(&mut self, ready: Option<ReadyHand>) -> Result<(), Failed>
        requires usable { self.old.file.failed ≡ false }
        requires room { IfSome ready (λ _. 1 ≤ self.old.file.room) }
        ensures standing { self.new.stands ≡ self.old.stands }
        ensures table { self.new.table ≡ self.old.table }
        ensures replica { self.new.replica ≡ self.old.replica }
        ensures listed { IsTrue D.tells → (unit : UnitKey) (entries : List Entry) → IsListFor unit entries ready
            → (l : List Handed) → IsReady D.reads D.may_leave self.old.file l
            → OnOk result (IsReady D.reads D.may_leave self.new.file (with_list unit entries l)) }
        ensures images { IsTrue D.tells → (unit : UnitKey) (entries : List Entry) → IsListFor unit entries ready
            → (l : List Handed) → IsReady D.reads D.may_leave self.old.file l
            → (c : List ℕ) → D.may_leave self.new.file.disk c
            → Stands c l ⊎ Stands c (with_list unit entries l) }
        ensures known { (unit : UnitKey) (entries : List Entry) → IsListFor unit entries ready
            → OnOk result (AreWith unit entries self.old.file.units self.new.file.units) }
        ensures some { (unit : UnitKey) (entries : List Entry) → IsListFor unit entries ready
            → OnErr result (1 ≤ length entries) }
        ensures usable { OnOk result (self.new.file.failed ≡ false) }
        ensures failed { OnErr result (self.new.file.failed ≡ true) }
        ensures cause { HasCause (D.faults self.old.file.disk) (D.faults self.new.file.disk) result }
    {
        match ready {
            Some(ready) => self.rest.backup.write_hand(ready),
            None => Ok(()),
        }
    }

    /// Grants the entries in place of those of the update owner, which are these, and ships that.
    fn grant_again(
        &mut self,
        alloc: Global,
        asker: &Asker,
        entries: &[Entry],
        own: &[Entry],
    ) -> Result<(), ServerFault>
        requires stands { self.old.stands ≡ true }
        requires pair { IsPair asker.now }
        requires entries { ReadmitsOnly asker.now entries.now }
        requires own { own.now ≡ filter (is_of asker.now.update) self.old.table.entries }
        ensures standing { self.new.stands ≡ true }
        ensures granted { OnOk result
            (granting.readmitted self.old.table asker.now entries.now ≡ Ok self.new.table.entries) }
        ensures refused { IfErr result (IsRefusal (granting.readmitted self.old.table asker.now entries.now)) }
        ensures unchanged { OnErr result (self.new.table ≡ self.old.table) }
        ensures unshipped { OnErr result (self.new.replica ≡ self.old.replica) }
        ensures limit { self.new.table.limit ≡ self.old.table.limit }
        ensures good { IsTable self.new.table }
        ensures file { self.new.file ≡ self.old.file }
        ensures replica { KeepsOn L.applied L.faults L.refusals self.old.replica self.new.replica }
        ensures lost { IsLostWith self.old.replica self.new.replica self.old.table self.new.table }
    {
        let Some(table) = &mut self.table else {
            unreachable!();
        };
        let stays = stays_so(alloc, table, asker, own, entries)?;
        table.readmit(alloc, asker, entries)?;
        ship_readmitted(&mut self.rest.replica, own, entries, stays);
        Ok(())
    }

    /// Sends the replica a snapshot of the table, which it follows from then on. After an error it doesn't.
    pub fn attach(&mut self, alloc: Global) -> Result<(), LinkFault>
        requires stands { self.old.stands ≡ true }
        ensures standing { self.new.stands ≡ true }
        ensures attached { OnOk result (self.new.replica.attached ≡ true) }
        ensures detached { OnErr result (self.new.replica.attached ≡ false) }
        ensures later { IsLater L.applied L.faults L.refusals self.old.replica self.new.replica }
        ensures failed { IsErrOf result LinkFault.Failed
            → Rose (L.faults self.old.replica.link) (L.faults self.new.replica.link) }
        ensures table { self.new.table ≡ self.old.table }
        ensures file { self.new.file ≡ self.old.file }
    {
        match self.list(alloc) {
            Ok(entries) => self.rest.replica.attach(entries.as_slice()),
            Err(NoMemory) => {
                self.rest.replica.detach();
                Err(LinkFault::NoMemory)
            }
        }
    }

    /// Whether a replica follows the table, or followed the one that went. It takes no memory.
    pub fn attached(&self) -> bool
        ensures flag { result ≡ self.now.replica.attached }
        ensures given { IsTrue result → self.now.stands ≡ true
            → IfSome (L.applied self.now.replica.link) (λ _. L.gives self.now.replica.link ≡ self.now.table.entries) }
        ensures listed { IsTrue result
            → IfSome (L.applied self.now.replica.link) (λ list. told_list L.applied self.now.replica ≡ list) }
    {
        self.rest.attached()
    }

    /// The disk and the link. It takes no memory.
    pub fn into_parts(self) -> (D, L)
        ensures disk { result.0 ≡ self.file.disk }
        ensures link { result.1 ≡ self.replica.link }
    {
        let EnqServer { table, rest } = self;
        drop(table);
        rest.into_parts()
    }
}

fn drop_optimistic(entries: &mut Vec<Entry>)
    ensures { entries.new.items ≡ filter (λ e. not (same_mode e.mode O)) entries.old.items }
{
    entries.retain(|entry| !entry.mode.is(Mode::O));
}

/// The owner's entries in order of granting, none where no table stands.
fn entries_of<T: LockStore>(
    alloc: Global,
    table: &Option<T>,
    owner: &Owner,
) -> Result<Vec<Entry>, NoMemory>
    ensures { IfOk result
        (λ entries. entries.items ≡ filter (is_of owner.now) (table_of T.table table.now).entries) }
{
    match table {
        Some(table) => table.entries_of(alloc, owner),
        None => Ok(Vec::new(alloc)),
    }
}

/// Whether the given entries are just those of the update owner, which are these, and stand last, so that the table
/// stays as it is where they stand in place of them. Without any it isn't asked.
fn stays_so<T: LockStore>(
    alloc: Global,
    table: &T,
    asker: &Asker,
    own: &[Entry],
    entries: &[Entry],
) -> Result<bool, NoMemory>
    requires own { own.now ≡ filter (is_of asker.now.update) (T.table table.now).entries }
    requires entries { ReadmitsOnly asker.now entries.now }
    ensures same { IfOk result (λ stays. IsTrue stays
        → put_back (T.table table.now).entries asker.now.update entries.now ≡ (T.table table.now).entries) }
    ensures other { IfOk result (λ stays. stays ≡ false → 1 ≤ length own.now + length entries.now
        → put_back (T.table table.now).entries asker.now.update entries.now ≢ (T.table table.now).entries) }
{
    if own.is_empty() {
        return Ok(false);
    }
    if own.len() != entries.len() {
        return Ok(false);
    }
    let list = table.list(alloc)?;
    Ok(ends_with(list.as_slice(), entries))
}

fn put_under(entries: &mut [Entry], user: &Name)
    ensures { entries.new ≡ of_user user.now entries.old }
{
    for entry in entries.iter_mut() {
        entry.user = *user;
    }
}

/// The unit's S, E and X entries, in order of granting, under this user.
fn lasting<T: LockStore>(
    alloc: Global,
    table: &Option<T>,
    unit: &UnitKey,
    user: &Name,
) -> Result<Vec<Entry>, NoMemory>
    requires { IsTable (table_of T.table table.now) }
    ensures entries { IfOk result
        (λ entries. entries.items ≡ of_user user.now (lasting unit.now (table_of T.table table.now).entries)) }
    ensures handable { IfOk result (λ entries. 1 ≤ length entries.items → IsHandable unit.now entries.items) }
{
    let mut entries = entries_of(alloc, table, &Owner::Upd(*unit))?;
    drop_optimistic(&mut entries);
    put_under(entries.as_mut_slice(), user);
    Ok(entries)
}

ghost use Rattle.std.specs.Prelude.{◌≡◌, IfErr, IfOk, IfSome, IsTrue, MatchResult, OnErr, OnOk, false, true};
ghost use Rattle.bk_disk.specs.Disk.{Follows};
ghost use Rattle.enq_server.specs.Faults.{CountsFault, IsOpenFault, Leaves, OnBytes};
ghost use Rattle.enq_server.specs.Replica.{IsLater, IsOverFault};
ghost use Rattle.enq_server.specs.Recovery.{AreKnown, FreesOthers, locking};
ghost use Rattle.enq_server.specs.Server.{IsRecovered, recovered, replicated};
ghost use Rattle.lock_entry.specs.Sound.{IsSound};
ghost use Rattle.lock_entry.specs.Table.{IsTable};

use crate::fault::{OpenFault, OverFault};
use crate::recovery::{load_list, read_anew};
use crate::replica::Replica;
use backup_file::Backup;
use bk_disk::Disk;
use lock_entry::{LoadFault, LockStore, UnitLocks};
use replica_link::Link;
use std::alloc::Global;
use std::marker::Model;

/// What a lock server has beside its table: the backup file, and the link to its replica. Where the server was ended
/// this is all that is left: either the replica's list becomes a table, or the backup file's lists do (Standalone
/// Enqueue Server).
#[derive(Drop)]
pub struct Wreck<D: Disk, L: Link> {
    pub(crate) backup: Backup<D>,
    pub(crate) replica: Replica<L>,
}

impl<D: Disk, L: Link> Model for Wreck<D, L> {
    ghost use Rattle.enq_server.specs.Server.{Remains};

    ghost Value = { Remains D L };

    ghost view = { λ w. record { file = w.backup; replica = w.replica } };
}

impl<D: Disk, L: Link> Wreck<D, L> {
    /// A table of the list that the replica hands over, whatever the table was that went. The limit is the larger of
    /// `limit` and the number of entries. No replica follows then, nor after `Link` and `Clash`.
    pub(crate) fn fail_over<T: LockStore>(
        &mut self,
        alloc: Global,
        limit: u32,
    ) -> Result<T, OverFault>
        ensures table { IfOk result (λ table. T.table table ≡ replicated limit (L.gives self.old.replica.link)) }
        ensures sound { OnOk result (IsSound (L.gives self.old.replica.link)) }
        ensures good { IfOk result (λ table. IsTable (T.table table)) }
        ensures followed { OnOk result (self.old.replica.attached ≡ true) }
        ensures detached { OnOk result (self.new.replica.attached ≡ false) }
        // A link that tells its list gives just that.
        ensures told { IfSome (L.applied self.old.replica.link) (λ list. L.gives self.old.replica.link ≡ list) }
        ensures file { self.new.file ≡ self.old.file }
        ensures fault { IfErr result (IsOverFault L.faults L.gives L.applied self.old.replica self.new.replica) }
        ensures later { IsLater L.applied L.faults L.refusals self.old.replica self.new.replica }
    {
        if !self.replica.attached() {
            return Err(OverFault::NotAttached);
        }
        let list = self.replica.hand_over()?;
        match load_list(alloc, limit, list) {
            Ok(table) => {
                self.replica.detach();
                Ok(table)
            }
            Err(LoadFault::Clash { first, second }) => {
                self.replica.detach();
                Err(OverFault::Clash { first, second })
            }
            Err(LoadFault::NoMemory) => Err(OverFault::NoMemory),
        }
    }

    /// A table of the backup file's lists and these units, and the file made anew, as `EnqServer::open` does, also
    /// where the file failed. No replica follows then, whatever the answer is; the link isn't called. After an error
    /// the file takes no write until it is made anew.
    pub(crate) fn restart<T: LockStore>(
        &mut self,
        alloc: Global,
        limit: u32,
        units: &[UnitLocks],
    ) -> Result<T, OpenFault>
        ensures table { IfOk result (λ table. T.table table ≡ recovered limit units.now) }
        ensures good { IfOk result (λ table. IsTable (T.table table)) }
        ensures usable { OnOk result (self.new.file.failed ≡ false) }
        ensures shut { OnErr result (self.new.file.failed ≡ true) }
        ensures known { OnOk result (AreKnown self.new.file.units (locking units.now)) }
        ensures file { IsTrue D.tells
            → OnOk result (IsRecovered D.reads D.may_leave (D.reads self.old.file.disk) units.now self.new.file) }
        ensures fault { IsTrue D.tells → IfErr result (IsOpenFault (D.reads self.old.file.disk) units.now) }
        ensures bad { IsTrue D.tells
            → IfErr result (λ fault. OnBytes fault (D.reads self.new.file.disk ≡ D.reads self.old.file.disk)) }
        ensures images { IsTrue D.tells → MatchResult result
            (λ _. Follows (FreesOthers units.now) (D.may_leave self.old.file.disk) (D.may_leave self.new.file.disk))
            (λ fault. Follows (Leaves units.now fault) (D.may_leave self.old.file.disk)
            (D.may_leave self.new.file.disk)) }
        ensures detached { self.new.replica.attached ≡ false }
        ensures link { self.new.replica.link ≡ self.old.replica.link }
        ensures quiet { OnOk result (D.faults self.new.file.disk ≡ D.faults self.old.file.disk) }
        ensures cause { IfErr result
            (λ fault. CountsFault fault (D.faults self.old.file.disk) (D.faults self.new.file.disk)) }
    {
        self.replica.detach();
        read_anew(alloc, &mut self.backup, limit, units)
    }

    /// Whether a replica follows the table, or followed the one that went. It takes no memory.
    pub(crate) fn attached(&self) -> bool
        ensures { result ≡ self.now.replica.attached }
    {
        self.replica.attached()
    }

    /// The disk and the link. It takes no memory.
    pub(crate) fn into_parts(self) -> (D, L)
        ensures disk { result.0 ≡ self.file.disk }
        ensures link { result.1 ≡ self.replica.link }
    {
        let Wreck { backup, replica } = self;
        (backup.into_disk(), replica.into_link())
    }
}

ghost use Rattle.std.specs.Prelude.{◌≡◌, ◌≢◌, ◌⊎◌, ◌≤◌, ℕ, false, true, List, [], None, Some, Ok, IfOk, IfSome, is_some, IsTrue};
ghost use Rattle.enq_base.specs.Causes.{Rose};
ghost use Rattle.enq_base.specs.declared.condition.Bad.TheVariants as bad;
ghost use Rattle.enq_base.specs.declared.condition.BackupBad.{BackupBad};
ghost use Rattle.enq_cmd.specs.Loading.{HasLoaded, IsRunEnd, RunsLoad, end_of};
ghost use Rattle.enq_cmd.specs.Main.{EndsComplete, FitAll, HasNoStart, IsBadDocument, IsBadStore, IsFirstBroken, IsGoodFile, IsLandEnd, IsUnfitEnd, TellsBadFile, found_in, left_in, status_of};
ghost use Rattle.enq_server.specs.Replica.{IsLater};
ghost use Rattle.keeper_api.specs.Rows.{Rows};
ghost use Rattle.landscape.specs.Landscape.{landscape_of};
ghost use Rattle.landscape.specs.declared.landscape.Landscape.{Landscape};
ghost use Rattle.load_gen.specs.Script.{script_of};
ghost use Rattle.script_runner.specs.LineFaults.{IsToBlame};
ghost use Rattle.script_runner.specs.Faults.{NoneTells, NoneUnsound, NoneUnsoundReplica, NoneUnsoundStore, TellsNoFault, is_link_fault};
ghost use Rattle.script_runner.specs.Replicas.{CountsLinkEach, GoesOnLinked, link_counts};
ghost use Rattle.script_runner.specs.Replay.{HasBadCause, HasDoubtCause, seen};
ghost use Rattle.update_records.specs.Ledger.{IsGood};

use crate::blind_sink::BlindSink;
use crate::ends::{left_alone, make_ended};
use crate::opening::open_hall;
use crate::{Ended, Site};
use bk_disk::Disk;
use enq_base::NoMemory;
use hall::Hall;
use io_edge::{Sink, Source, SureSource};
use keeper_api::Keeper;
use load_gen::script_of;
use lock_index::IndexTable;
use lock_objects::LockObject;
use replica_link::Link;
use script_runner::{Why, replay, write_audit};
use std::alloc::Global;

/// Opens the site with its landscape, does the script of so many units, and writes the counts of the server behind it.
pub(crate) fn load_site<A: Source, T: Sink, K: Keeper, D: Disk, L: Link>(
    alloc: Global,
    landscape: &mut A,
    units: u32,
    sink: &mut T,
    site: Site<K, D, L>,
) -> Ended<K, D, L>
    requires count { units ≤ 10000 }
    ensures drawn { result.drawn ≡ [] }
    ensures status { result.status ≡ status_of result.why }
    ensures words { result.why ≢ Why.BadWords }
    ensures full { result.why ≢ Why.LogFull }
    ensures loaded { HasLoaded units (A.left landscape.old)
        (found_in K.held K.may_leave D.tells D.reads D.may_leave L.applied site.keeper site.disk site.link)
        (left_in K.may_leave D.may_leave L.applied result.site.keeper result.site.disk result.site.link)
        site.disk result.site.disk site.link result.site.link
        (seen None (T.written sink.old) 0 (T.faults sink.old) (K.faults site.keeper) (D.faults site.disk))
        (seen None (T.written sink.new) 0 (T.faults sink.new) (K.faults result.site.keeper) (D.faults result.site.disk))
        result.past result.why
        ⊎ (IsLandEnd (A.faults landscape.old) (A.faults landscape.new) result.why × (sink.new ≡ sink.old)
        × (result.site.keeper ≡ site.keeper) × (result.site.disk ≡ site.disk) × (result.site.link ≡ site.link)
        × (result.past ≡ [])) }
    ensures told { is_some (K.held result.site.keeper) ≡ is_some (K.held site.keeper) }
    ensures link_told { is_some (L.applied result.site.link) ≡ is_some (L.applied site.link) }
    ensures broken_rule { (bytes : List ℕ) → A.left landscape.old ≡ Some bytes → IsFirstBroken bytes result.why }
    ensures unfit_interval { IfSome (K.held result.site.keeper)
        (λ _. IsUnfitEnd (A.left landscape.old) (K.may_leave site.keeper) result.why) }
    ensures no_landing { (A.faults landscape.new ≢ A.faults landscape.old) ⊎ IsBadDocument result.why
        → (sink.new ≡ sink.old) × (result.site.keeper ≡ site.keeper) × (result.site.disk ≡ site.disk)
        × (result.site.link ≡ site.link) × (result.past ≡ []) }
    // No line of the script is to blame.
    ensures line_fault { (bytes : List ℕ) → IsToBlame result.why bytes }
    ensures complete { (document : List ℕ) → A.left landscape.old ≡ Some document → (land : Landscape)
        → landscape_of document ≡ Ok land
        → IsTrue (is_some (K.held site.keeper)) → ((rows : Rows) → K.may_leave site.keeper rows → IsGood rows)
        → FitAll land (K.may_leave site.keeper)
        → IsTrue (is_some (L.applied site.link))
        → IsTrue D.tells → IsGoodFile (K.may_leave site.keeper) (D.reads site.disk)
        → ¬ Rose (A.faults landscape.old) (A.faults landscape.new) → ¬ Rose (T.faults sink.old) (T.faults sink.new)
        → ¬ Rose (K.faults site.keeper) (K.faults result.site.keeper)
        → ¬ Rose (D.faults site.disk) (D.faults result.site.disk)
        → EndsComplete (K.may_leave site.keeper) result.why }
    ensures source_fault { result.why ≡ Why.SourceFault → Rose (A.faults landscape.old) (A.faults landscape.new) }
    ensures sink_fault { result.why ≡ Why.SinkFault → Rose (T.faults sink.old) (T.faults sink.new) }
    ensures store_fault { (call : ℕ) → result.why ≡ Why.StoreFault call
        → Rose (K.faults site.keeper) (K.faults result.site.keeper) }
    ensures backup_fault { (call : ℕ) → result.why ≡ Why.BackupFault call
        → Rose (D.faults site.disk) (D.faults result.site.disk) }
    ensures link_fault { ¬ Rose (L.faults site.link) (L.faults result.site.link) → NoneTells is_link_fault result.past }
    ensures link_counts { CountsLinkEach false result.past (link_counts L.faults L.refusals site.link)
        (link_counts L.faults L.refusals result.site.link) }
    ensures bad_store { IfSome (K.held result.site.keeper) (λ rows. IsBadStore rows result.why) }
    ensures bad_backup { IsTrue (is_some (L.applied site.link)) → IsTrue D.tells → (place : BackupBad)
        → result.why ≡ Why.BadBackup place → result.past ≡ [] }
    ensures bad_file { IsTrue D.tells → result.past ≡ [] → (place : BackupBad) → result.why ≡ Why.BadBackup place
        → TellsBadFile (A.left landscape.old) (K.held result.site.keeper) (K.may_leave site.keeper) (D.reads site.disk)
        place }
    ensures no_start { IfSome (K.held result.site.keeper) (λ rows. HasNoStart rows result.why) }
{
    let Ok(mut source) = source_of(alloc, units) else {
        return left_alone(alloc, Why::NoMemory, site);
    };
    match open_hall(alloc, landscape, site) {
        Ok((mut hall, objects)) => {
            let why = load(alloc, &mut source, sink, &mut hall, objects.as_slice());
            let (keeper, disk, link, past) = hall.into_site();
            make_ended(why, past, Vec::new(alloc), keeper, disk, link)
        }
        Err(ended) => ended,
    }
}

/// The script of so many units, in memory.
fn source_of(alloc: Global, units: u32) -> Result<SureSource, NoMemory>
    ensures { IfOk result (λ source. source ≡ script_of units) }
{
    SureSource::new(script_of(alloc, units)?)
}

/// Does a script in memory, whose replies nobody reads. Where it was done to its end the counts of the server are
/// written, as the answer of line 0.
fn load<T: Sink, K: Keeper, D: Disk, L: Link>(
    alloc: Global,
    source: &mut SureSource,
    sink: &mut T,
    hall: &mut Hall<IndexTable, K, D, L>,
    objects: &[LockObject],
) -> Why
    ensures run { RunsLoad objects.now source.old hall.old.state hall.new.state (K.faults hall.old.keeper)
        (K.faults hall.new.keeper)
        (D.faults hall.old.file.disk) (D.faults hall.new.file.disk)
        (T.written sink.old) (T.written sink.new) (T.faults sink.old) (T.faults sink.new) result }
    ensures kind { IsRunEnd result }
    ensures line_fault { IsToBlame result source.old }
    ensures source_fault { result ≢ Why.SourceFault }
    ensures sink_fault { result ≡ Why.SinkFault → Rose (T.faults sink.old) (T.faults sink.new) }
    ensures store_fault { (k : ℕ) → result ≡ Why.StoreFault k
        → HasDoubtCause hall.old.state k (K.faults hall.old.keeper) (K.faults hall.new.keeper) }
    ensures backup_fault { (k : ℕ) → result ≡ Why.BackupFault k
        → HasDoubtCause hall.old.state k (D.faults hall.old.file.disk) (D.faults hall.new.file.disk) }
    ensures bad_store { (table row : ℕ) → result ≡ Why.BadStore table row
        → HasBadCause hall.old.state hall.new.state (bad.Store table row) }
    ensures bad_backup { (place : BackupBad) → result ≡ Why.BadBackup place
        → HasBadCause hall.old.state hall.new.state (bad.Backup place) }
    ensures good_file { is_some (L.applied hall.old.replica.link) ≡ true → IsTrue D.tells
        → NoneUnsound hall.old.state.past → NoneUnsound hall.new.state.past }
    ensures good_store { is_some (K.held hall.old.keeper) ≡ true → NoneUnsoundStore hall.old.state.past
        → NoneUnsoundStore hall.new.state.past }
    ensures good_replica { is_some (L.applied hall.old.replica.link) ≡ true → NoneUnsoundReplica hall.old.state.past
        → NoneUnsoundReplica hall.new.state.past }
    ensures told { is_some (K.held hall.new.keeper) ≡ is_some (K.held hall.old.keeper) }
    ensures link { IsLater L.applied L.faults L.refusals hall.old.replica hall.new.replica }
    ensures link_fault { TellsNoFault (L.faults hall.old.replica.link) (L.faults hall.new.replica.link)
        hall.old.state.past hall.new.state.past }
    ensures link_counts { GoesOnLinked hall.old.state hall.new.state
        (link_counts L.faults L.refusals hall.old.replica.link)
        (link_counts L.faults L.refusals hall.new.replica.link) }
{
    match replay(alloc, source, &mut BlindSink, hall, objects) {
        Why::Done => end_of(write_audit(alloc, 0, hall, sink)),
        why => why,
    }
}

/// Why the program ends behind its script.
fn end_of(written: Result<(), Why>) -> Why
    ensures { result ≡ end_of written }
{
    match written {
        Ok(()) => Why::Done,
        Err(why) => why,
    }
}

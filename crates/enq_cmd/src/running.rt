ghost use Rattle.std.specs.Prelude.{◌≡◌, ◌≢◌, ◌⊎◌, ◌≤◌, ℕ, List, [], Some, Ok, Err, IfSome, is_some, IsTrue, false, length};
ghost use Rattle.enq_base.specs.Causes.{Rose};
ghost use Rattle.enq_base.specs.declared.condition.BackupBad.{BackupBad};
ghost use Rattle.enq_cmd.specs.Main.{FitAll, HasNoStart, IsBadDocument, IsBadStore, IsFirstBroken, IsGoodFile, IsLandEnd, IsUnfitEnd, IsUntouched, TellsBadFile, TellsBroken, found_in, left_in, status_of};
ghost use Rattle.enq_cmd.specs.Running.{EndsInRun, HasThreads};
ghost use Rattle.keeper_api.specs.Rows.{Rows};
ghost use Rattle.landscape.specs.Broken.{Broken};
ghost use Rattle.landscape.specs.Landscape.{landscape_of};
ghost use Rattle.landscape.specs.declared.landscape.Landscape.{Landscape};
ghost use Rattle.script_runner.specs.Faults.{NoneTells, is_link_fault};
ghost use Rattle.script_runner.specs.Replicas.{CountsLinkEach, link_counts};
ghost use Rattle.script_runner.specs.Replay.{seen};
ghost use Rattle.update_records.specs.Ledger.{IsGood};
ghost use Rattle.whole_script.specs.Reading.{BlamesFirst, IsWholeScript};

use crate::ends::make_ended;
use crate::opening::open_hall;
use crate::{Ended, Site};
use bk_disk::Disk;
use io_edge::{Sink, Source};
use keeper_api::Keeper;
use replica_link::Link;
use script_runner::Why;
use std::alloc::Global;
use std::sync::Wait;
use std::thread::Threads;
use thread_runner::run;
use turn_desks::NoGate;

/// Opens the site with its landscape, reads the whole script, and has it done by threads.
pub(crate) fn run_site<
    R: Threads + Wait + Sync,
    A: Source,
    S: Source,
    T: Sink,
    K: Keeper + Send,
    D: Disk + Send,
    L: Link + Send,
>(
    rt: &R,
    alloc: Global,
    landscape: &mut A,
    workers: u8,
    script: &mut S,
    sink: &mut T,
    site: Site<K, D, L>,
) -> Ended<K, D, L>
    requires workers { (1 ≤ workers) × (workers ≤ 16) }
    ensures status { result.status ≡ status_of result.why }
    ensures words { result.why ≢ Why.BadWords }
    ensures threads { ∥ HasThreads workers (A.left landscape.old)
        (found_in K.held K.may_leave D.tells D.reads D.may_leave L.applied site.keeper site.disk site.link)
        (left_in K.may_leave D.may_leave L.applied result.site.keeper result.site.disk result.site.link)
        site.disk result.site.disk site.link result.site.link
        (seen (S.left script.old) (T.written sink.old) (S.faults script.old) (T.faults sink.old) (K.faults site.keeper)
        (D.faults site.disk))
        (seen (S.left script.new) (T.written sink.new) (S.faults script.new) (T.faults sink.new)
        (K.faults result.site.keeper) (D.faults result.site.disk))
        (link_counts L.faults L.refusals site.link) (link_counts L.faults L.refusals result.site.link)
        result.past result.drawn result.why ∥₁
        ⊎ (IsLandEnd (A.faults landscape.old) (A.faults landscape.new) result.why
        × IsUntouched script.old script.new sink.old sink.new site.keeper result.site.keeper site.disk result.site.disk
        site.link result.site.link result.past × (result.drawn ≡ [])) }
    ensures told { is_some (K.held result.site.keeper) ≡ is_some (K.held site.keeper) }
    ensures link_told { is_some (L.applied result.site.link) ≡ is_some (L.applied site.link) }
    ensures bad_landscape { (bytes : List ℕ) → A.left landscape.old ≡ Some bytes
        → (broken : Broken) → landscape_of bytes ≡ Err broken
        → TellsBroken broken (A.faults landscape.old) (A.faults landscape.new) result.why }
    ensures broken_rule { (bytes : List ℕ) → A.left landscape.old ≡ Some bytes → IsFirstBroken bytes result.why }
    ensures unfit_interval { IfSome (K.held result.site.keeper)
        (λ _. IsUnfitEnd (A.left landscape.old) (K.may_leave site.keeper) result.why) }
    ensures no_landing { (A.faults landscape.new ≢ A.faults landscape.old) ⊎ IsBadDocument result.why
        → IsUntouched script.old script.new sink.old sink.new site.keeper result.site.keeper site.disk result.site.disk
        site.link result.site.link result.past }
    ensures line_fault { (bytes : List ℕ) → S.left script.old ≡ Some bytes → BlamesFirst bytes result.why }
    ensures complete { (bytes : List ℕ) → S.left script.old ≡ Some bytes → IsWholeScript bytes
        → (document : List ℕ) → A.left landscape.old ≡ Some document → (land : Landscape)
        → landscape_of document ≡ Ok land
        → IsTrue (is_some (K.held site.keeper)) → ((rows : Rows) → K.may_leave site.keeper rows → IsGood rows)
        → FitAll land (K.may_leave site.keeper)
        → IsTrue (is_some (L.applied site.link))
        → IsTrue D.tells → IsGoodFile (K.may_leave site.keeper) (D.reads site.disk)
        → ¬ Rose (A.faults landscape.old) (A.faults landscape.new)
        → ¬ Rose (S.faults script.old) (S.faults script.new) → ¬ Rose (T.faults sink.old) (T.faults sink.new)
        → ¬ Rose (K.faults site.keeper) (K.faults result.site.keeper)
        → ¬ Rose (D.faults site.disk) (D.faults result.site.disk)
        → EndsInRun (K.may_leave site.keeper) result.past result.why }
    ensures full { result.why ≡ Why.LogFull → length result.past ≡ 262144 }
    ensures source_fault { result.why ≡ Why.SourceFault
        → Rose (A.faults landscape.old) (A.faults landscape.new) ⊎ Rose (S.faults script.old) (S.faults script.new) }
    ensures sink_fault { result.why ≡ Why.SinkFault → Rose (T.faults sink.old) (T.faults sink.new) }
    ensures store_fault { (call : ℕ) → result.why ≡ Why.StoreFault call
        → Rose (K.faults site.keeper) (K.faults result.site.keeper) }
    ensures backup_fault { (call : ℕ) → result.why ≡ Why.BackupFault call
        → Rose (D.faults site.disk) (D.faults result.site.disk) }
    ensures link_fault { ¬ Rose (L.faults site.link) (L.faults result.site.link) → NoneTells is_link_fault result.past }
    ensures link_counts { CountsLinkEach false result.past (link_counts L.faults L.refusals site.link)
        (link_counts L.faults L.refusals result.site.link) }
    ensures bad_store { IfSome (K.held result.site.keeper) (λ rows. IsBadStore rows result.why) }
    ensures bad_backup { IsTrue (is_some (L.applied site.link)) → IsTrue D.tells → (place : BackupBad)
        → result.why ≡ Why.BadBackup place → result.past ≡ [] }
    ensures bad_file { IsTrue D.tells → result.past ≡ [] → (place : BackupBad) → result.why ≡ Why.BadBackup place
        → TellsBadFile (A.left landscape.old) (K.held result.site.keeper) (K.may_leave site.keeper) (D.reads site.disk)
        place }
    ensures no_start { IfSome (K.held result.site.keeper) (λ rows. HasNoStart rows result.why) }
{
    match open_hall(alloc, landscape, site) {
        Ok((hall, objects)) => {
            let (hall, drawn, why) = run(
                rt,
                alloc,
                script,
                sink,
                hall,
                objects.as_slice(),
                workers,
                &NoGate,
            );
            let (keeper, disk, link, past) = hall.into_site();
            make_ended(why, past, drawn, keeper, disk, link)
        }
        Err(ended) => ended,
    }
}

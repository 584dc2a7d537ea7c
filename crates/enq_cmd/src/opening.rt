ghost use Rattle.std.specs.Prelude.{◌≡◌, ◌≢◌, ◌⊎◌, ℕ, min, [], List, Some, Ok, Err, IfOk, IfErr, IfSome, is_some, IsTrue};
ghost use Rattle.enq_base.specs.Causes.{Rose};
ghost use Rattle.enq_base.specs.declared.condition.BackupBad.{BackupBad};
ghost use Rattle.enq_cmd.specs.Main.{EndsComplete, FitAll, HasNoStart, IsBadDocument, IsBadStore, IsFirstBroken, IsGoodFile, IsUnfitEnd, TellsBadFile, TellsBroken, land_end, opening_end, status_of};
ghost use Rattle.enq_cmd.specs.Opening.{IsLandedAlone, IsOpened, IsUnlanded};
ghost use Rattle.keeper_api.specs.Rows.{Rows};
ghost use Rattle.landscape.specs.Broken.{Broken};
ghost use Rattle.landscape.specs.Landscape.{landscape_of};
ghost use Rattle.landscape.specs.declared.landscape.Landscape.{Landscape};
ghost use Rattle.script_runner.specs.LineFaults.{IsToBlame};
ghost use Rattle.update_records.specs.Ledger.{IsGood};

use crate::ends::{left_alone, make_ended};
use crate::{Ended, Site};
use bk_disk::Disk;
use enq_base::{BackupBad, Bad, Items};
use hall::{Hall, HallFault};
use io_edge::Source;
use keeper_api::Keeper;
use landscape::{LandFault, Landscape, read_landscape};
use lock_index::IndexTable;
use lock_objects::LockObject;
use replica_link::Link;
use script_runner::Why;
use std::alloc::Global;

/// Reads the landscape whole, and opens the store and the backup file with its limits and intervals. It gives the
/// server and the landscape's lock objects, or the end of a program that comes to no server.
pub(crate) fn open_hall<A: Source, K: Keeper, D: Disk, L: Link>(
    alloc: Global,
    landscape: &mut A,
    site: Site<K, D, L>,
) -> Result<(Hall<IndexTable, K, D, L>, Items<LockObject>), Ended<K, D, L>>
    ensures opened { IfOk result (λ o. IsOpened K.held K.may_leave K.faults D.tells D.reads D.faults
        L.applied (A.left landscape.old) site.keeper site.disk site.link o.0 o.1) }
    ensures steady { IfOk result (λ o. A.faults landscape.new ≡ A.faults landscape.old) }
    ensures status { IfErr result (λ e. e.status ≡ status_of e.why) }
    ensures past { IfErr result (λ e. e.past ≡ []) }
    ensures drawn { IfErr result (λ e. e.drawn ≡ []) }
    ensures unserved { IfErr result (λ e.
        IsUnlanded (A.faults landscape.old) (A.faults landscape.new) site.keeper e.site.keeper site.disk e.site.disk
        e.why
        ⊎ IsLandedAlone K.held K.may_leave K.faults D.tells D.reads D.may_leave D.faults L.applied
        (A.left landscape.old)
        site.keeper e.site.keeper site.disk e.site.disk site.link e.site.link e.why) }
    ensures told { IfErr result (λ e. is_some (K.held e.site.keeper) ≡ is_some (K.held site.keeper)) }
    ensures linked { IfErr result (λ e. e.site.link ≡ site.link) }
    ensures bad_landscape { IfErr result (λ e. (bytes : List ℕ) → A.left landscape.old ≡ Some bytes
        → (broken : Broken) → landscape_of bytes ≡ Err broken
        → TellsBroken broken (A.faults landscape.old) (A.faults landscape.new) e.why) }
    ensures broken_rule { IfErr result
        (λ e. (bytes : List ℕ) → A.left landscape.old ≡ Some bytes → IsFirstBroken bytes e.why) }
    ensures unfit_interval { IfErr result (λ e. IfSome (K.held e.site.keeper)
        (λ _. IsUnfitEnd (A.left landscape.old) (K.may_leave site.keeper) e.why)) }
    ensures no_landing { IfErr result (λ e. (A.faults landscape.new ≢ A.faults landscape.old) ⊎ IsBadDocument e.why
        → (e.site.keeper ≡ site.keeper) × (e.site.disk ≡ site.disk)) }
    ensures line_fault { IfErr result (λ e. (bytes : List ℕ) → IsToBlame e.why bytes) }
    ensures complete { IfErr result (λ e. (document : List ℕ) → A.left landscape.old ≡ Some document
        → (land : Landscape) → landscape_of document ≡ Ok land
        → IsTrue (is_some (K.held site.keeper)) → ((rows : Rows) → K.may_leave site.keeper rows → IsGood rows)
        → FitAll land (K.may_leave site.keeper)
        → IsTrue D.tells → IsGoodFile (K.may_leave site.keeper) (D.reads site.disk)
        → ¬ Rose (A.faults landscape.old) (A.faults landscape.new)
        → ¬ Rose (K.faults site.keeper) (K.faults e.site.keeper) → ¬ Rose (D.faults site.disk) (D.faults e.site.disk)
        → EndsComplete (K.may_leave site.keeper) e.why) }
    ensures words { IfErr result (λ e. e.why ≢ Why.BadWords) }
    ensures full { IfErr result (λ e. e.why ≢ Why.LogFull) }
    ensures source_fault { IfErr result
        (λ e. e.why ≡ Why.SourceFault → Rose (A.faults landscape.old) (A.faults landscape.new)) }
    ensures sink_fault { IfErr result (λ e. e.why ≢ Why.SinkFault) }
    ensures store_fault { IfErr result
        (λ e. (call : ℕ) → e.why ≡ Why.StoreFault call → Rose (K.faults site.keeper) (K.faults e.site.keeper)) }
    ensures backup_fault { IfErr result
        (λ e. (call : ℕ) → e.why ≡ Why.BackupFault call → Rose (D.faults site.disk) (D.faults e.site.disk)) }
    ensures bad_store { IfErr result (λ e. IfSome (K.held e.site.keeper) (λ rows. IsBadStore rows e.why)) }
    ensures bad_file { IsTrue D.tells → IfErr result (λ e. (place : BackupBad) → e.why ≡ Why.BadBackup place
        → TellsBadFile (A.left landscape.old) (K.held e.site.keeper) (K.may_leave site.keeper) (D.reads site.disk)
        place) }
    ensures no_start { IfErr result (λ e. IfSome (K.held e.site.keeper) (λ rows. HasNoStart rows e.why)) }
{
    let land = match read_landscape(alloc, landscape) {
        Ok(land) => land,
        Err(fault) => return Err(left_alone(alloc, land_end(fault), site)),
    };
    let Landscape {
        max_locks,
        max_marks,
        objects,
        ranges,
    } = land;
    let Site { keeper, disk, link } = site;
    match Hall::<IndexTable, K, D, L>::open(
        alloc,
        keeper,
        disk,
        link,
        max_locks,
        max_marks,
        ranges.into_vec(),
    ) {
        Ok(hall) => Ok((hall, objects)),
        Err((fault, keeper, disk, link)) => Err(make_ended(
            opening_end(fault),
            Vec::new(alloc),
            Vec::new(alloc),
            keeper,
            disk,
            link,
        )),
    }
}

/// Why the program ends where its landscape isn't read.
fn land_end(fault: LandFault) -> Why
    ensures { result ≡ land_end fault }
{
    match fault {
        LandFault::Bad { rule, place } => Why::BadLandscape { rule, place },
        LandFault::Failed => Why::SourceFault,
        LandFault::NoMemory => Why::NoMemory,
    }
}

/// Why the program ends where store and backup file aren't opened.
fn opening_end(fault: HallFault) -> Why
    ensures { result ≡ opening_end fault }
{
    match fault {
        HallFault::Store => Why::StoreFault(0),
        HallFault::Backup => Why::BackupFault(0),
        HallFault::Bad(Bad::Store { table, row }) => Why::BadStore { table, row },
        HallFault::Bad(Bad::Backup(place)) => Why::BadBackup(place),
        HallFault::Bad(Bad::Replica { first, second }) => {
            Why::BadBackup(BackupBad::Clash { first, second })
        }
        HallFault::NoStart => Why::NoStart,
        HallFault::Interval { row } => Why::BadLandscape {
            rule: 15,
            place: small(row),
        },
        HallFault::NoMemory => Why::NoMemory,
    }
}

/// A number that 32 bits don't hold is told as the largest of them.
fn small(row: u64) -> u32
    ensures { result ≡ min row 4294967295 }
{
    row.min(4_294_967_295) as u32
}

ghost use Rattle.std.specs.Prelude.{◌≡◌, ◌≢◌, ◌⊎◌, ℕ, List, [], Some, Ok, Err, IfSome};
ghost use Rattle.cover_cmd.specs.Covering.{Covers};
ghost use Rattle.enq_base.specs.Causes.{Rose};
ghost use Rattle.enq_cmd.specs.Covering.{IsCoverEnd, TellsSafe};
ghost use Rattle.enq_cmd.specs.Main.{IsBadDocument, IsFirstBroken, IsUnfitEnd, TellsBroken, status_of};
ghost use Rattle.landscape.specs.Broken.{Broken};
ghost use Rattle.landscape.specs.Landscape.{landscape_of};
ghost use Rattle.landscape.specs.declared.landscape.Landscape.{Landscape};
ghost use Rattle.script_runner.specs.LineFaults.{IsToBlame};
ghost use Rattle.script_runner.specs.Whole.{IsScript};

use crate::ends::left_alone;
use crate::{Ended, Site};
use bk_disk::Disk;
use cover_cmd::write_cover;
use cover_laws::covered_are_safe;
use io_edge::{Sink, Source};
use keeper_api::Keeper;
use replica_link::Link;
use script_runner::Why;
use std::alloc::Global;

/// Reads the landscape and the whole script, and writes what the script lacks in locks. The site is left alone.
pub(crate) fn cover_site<A: Source, S: Source, T: Sink, K: Keeper, D: Disk, L: Link>(
    alloc: Global,
    landscape: &mut A,
    script: &mut S,
    sink: &mut T,
    site: Site<K, D, L>,
) -> Ended<K, D, L>
    ensures drawn { result.drawn ≡ [] }
    ensures status { result.status ≡ status_of result.why }
    ensures past { result.past ≡ [] }
    ensures keeper { result.site.keeper ≡ site.keeper }
    ensures disk { result.site.disk ≡ site.disk }
    ensures link { result.site.link ≡ site.link }
    ensures covered { Covers (A.left landscape.old) (A.faults landscape.old) (A.faults landscape.new)
        (S.left script.old) (S.left script.new) (S.faults script.old) (S.faults script.new)
        (T.written sink.old) (T.written sink.new) (T.faults sink.old) (T.faults sink.new) result.why }
    ensures safe { result.why ≡ Why.Done
        → TellsSafe (A.left landscape.old) (S.left script.old) (T.written sink.old) (T.written sink.new) }
    ensures unwritten { result.why ≢ Why.Done → result.why ≢ Why.SinkFault → sink.new ≡ sink.old }
    ensures ends { IsCoverEnd result.why }
    ensures bad_landscape { (bytes : List ℕ) → A.left landscape.old ≡ Some bytes
        → (broken : Broken) → landscape_of bytes ≡ Err broken
        → TellsBroken broken (A.faults landscape.old) (A.faults landscape.new) result.why }
    ensures broken_rule { (bytes : List ℕ) → A.left landscape.old ≡ Some bytes → IsFirstBroken bytes result.why }
    ensures unfit_interval { IfSome (K.held result.site.keeper)
        (λ _. IsUnfitEnd (A.left landscape.old) (K.may_leave site.keeper) result.why) }
    ensures no_landing { (A.faults landscape.new ≢ A.faults landscape.old) ⊎ IsBadDocument result.why
        → (script.new ≡ script.old) × (sink.new ≡ sink.old) }
    ensures line_fault { (bytes : List ℕ) → S.left script.old ≡ Some bytes → IsToBlame result.why bytes }
    ensures source_fault { result.why ≡ Why.SourceFault
        → Rose (A.faults landscape.old) (A.faults landscape.new) ⊎ Rose (S.faults script.old) (S.faults script.new) }
    ensures sink_fault { result.why ≡ Why.SinkFault → Rose (T.faults sink.old) (T.faults sink.new) }
    ensures complete { (bytes : List ℕ) → S.left script.old ≡ Some bytes → IsScript bytes
        → (document : List ℕ) → A.left landscape.old ≡ Some document
        → (land : Landscape) → landscape_of document ≡ Ok land
        → ¬ Rose (A.faults landscape.old) (A.faults landscape.new)
        → ¬ Rose (S.faults script.old) (S.faults script.new)
        → ¬ Rose (T.faults sink.old) (T.faults sink.new) → (result.why ≡ Why.Done) ⊎ (result.why ≡ Why.NoMemory) }
{
    covered_are_safe();
    let why = write_cover(alloc, landscape, script, sink);
    left_alone(alloc, why, site)
}

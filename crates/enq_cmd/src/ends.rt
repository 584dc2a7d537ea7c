ghost use Rattle.std.specs.Prelude.{◌≡◌, []};
ghost use Rattle.enq_cmd.specs.Main.{status_of};

use crate::{Ended, Site};
use bk_disk::Disk;
use enq_base::Items;
use hall_model::PastEntry;
use keeper_api::Keeper;
use replica_link::Link;
use script_actors::Drawing;
use script_runner::Why;
use std::alloc::Global;

/// The end of a program that does nothing with its site.
pub(crate) fn left_alone<K: Keeper, D: Disk, L: Link>(
    alloc: Global,
    why: Why,
    site: Site<K, D, L>,
) -> Ended<K, D, L>
    ensures status { result.status ≡ status_of why }
    ensures why { result.why ≡ why }
    ensures past { result.past ≡ [] }
    ensures drawn { result.drawn ≡ [] }
    ensures keeper { result.site.keeper ≡ site.keeper }
    ensures disk { result.site.disk ≡ site.disk }
    ensures link { result.site.link ≡ site.link }
{
    let Site { keeper, disk, link } = site;
    make_ended(why, Vec::new(alloc), Vec::new(alloc), keeper, disk, link)
}

pub(crate) fn make_ended<K: Keeper, D: Disk, L: Link>(
    why: Why,
    past: Vec<PastEntry>,
    drawn: Vec<Drawing>,
    keeper: K,
    disk: D,
    link: L,
) -> Ended<K, D, L>
    ensures status { result.status ≡ status_of why }
    ensures why { result.why ≡ why }
    ensures past { result.past ≡ past.items }
    ensures drawn { result.drawn ≡ drawn.items }
    ensures keeper { result.site.keeper ≡ keeper }
    ensures disk { result.site.disk ≡ disk }
    ensures link { result.site.link ≡ link }
{
    Ended {
        status: status_of(why),
        why,
        site: Site { keeper, disk, link },
        past: Items::from_vec(past),
        drawn: Items::from_vec(drawn),
    }
}

fn status_of(why: Why) -> u8
    ensures { result ≡ status_of why }
{
    match why {
        Why::Done => 0,
        Why::BadWords => 2,
        Why::BadLandscape { .. } => 3,
        Why::BadLine(_) => 4,
        Why::SourceFault => 5,
        Why::SinkFault => 6,
        Why::StoreFault(_) => 7,
        Why::BackupFault(_) => 8,
        Why::BadStore { .. } => 9,
        Why::BadBackup(_) => 10,
        Why::LongLine(_) | Why::ManyLines => 11,
        Why::NoMemory => 12,
        Why::NoStart => 13,
        Why::LogFull => 14,
    }
}

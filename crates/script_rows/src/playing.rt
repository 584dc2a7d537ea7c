use crate::cases::{Case, Image, Start, Step, StoreFaults, StoreRow};
use crate::faults::CaseFault;
use crate::keepers::{TestKeeper, put_row};
use crate::links::{Hands, TestLink};
use crate::showing::{show_backup, show_end, show_replies, show_row};
use bk_disk::MemDisk;
use enq_cmd::{Site, enqueue_main};
use io_edge::{MemSink, MemSource};
use keeper_api::{Keeper, Row};
use keeper_mem::{MemKeeper, Stop};
use std::alloc::Global;
use std::sync::Wait;
use std::thread::Threads;

// The most rows that are read in one call.
const PAGE: u32 = 1000;

/// What outlives a start, and the link that it was made with.
type Place = Site<TestKeeper, MemDisk, TestLink>;

/// Plays a case, and tells what it shows.
pub(crate) fn play<R: Threads + Wait + Sync>(
    rt: &R,
    alloc: Global,
    case: Case,
) -> Result<Vec<u8>, CaseFault> {
    let Case { headline, steps } = case;
    let mut shown = headline;
    let mut site = Site {
        keeper: no_rows(alloc)?,
        disk: MemDisk::new(alloc, Vec::new(alloc), Vec::new(alloc))?,
        link: TestLink::new(alloc, Vec::new(alloc), Hands::All)?,
    };
    for step in steps {
        site = do_step(rt, alloc, step, site, &mut shown)?;
    }
    Ok(shown)
}

/// An empty store.
fn no_rows(alloc: Global) -> Result<TestKeeper, CaseFault> {
    let rows = MemKeeper::new(alloc, Vec::new(alloc), Vec::new(alloc))?;
    Ok(TestKeeper::new(rows, None))
}

fn do_step<R: Threads + Wait + Sync>(
    rt: &R,
    alloc: Global,
    step: Step,
    site: Place,
    shown: &mut Vec<u8>,
) -> Result<Place, CaseFault> {
    if let Step::Start(start) = step {
        return play_start(rt, alloc, start, site, shown);
    }
    let Site { keeper, disk, link } = site;
    let mut keeper = rested(alloc, keeper);
    let mut disk = disk;
    match step {
        Step::Show(line) => shown.extend_from_slice(line.as_slice())?,
        Step::Put(row) => put_at_rest(alloc, &mut keeper, row)?,
        Step::Rows(table) => show_rows(alloc, &mut keeper, table, shown)?,
        Step::Fill(bytes) => disk = MemDisk::new(alloc, bytes, Vec::new(alloc))?,
        Step::Cut(length) => disk = cut_disk(alloc, &disk, length)?,
        Step::Patch(at, byte) => disk = patched_disk(alloc, &disk, at, byte)?,
        Step::Crash(image) => disk = left_disk(alloc, &disk, image, Vec::new(alloc))?,
        Step::Backup => show_backup(alloc, image_of(alloc, &disk, Image::Read)?, shown)?,
        Step::Start(_) => {}
    }
    Ok(Site {
        keeper: TestKeeper::new(keeper, None),
        disk,
        link,
    })
}

/// Starts the program, and shows what it was answered and how it ended.
fn play_start<R: Threads + Wait + Sync>(
    rt: &R,
    alloc: Global,
    start: Start,
    site: Place,
    shown: &mut Vec<u8>,
) -> Result<Place, CaseFault> {
    let Start {
        words,
        landscape,
        script,
        faults,
        last,
    } = start;
    let mut landscape = MemSource::new(landscape, faults.landscape)?;
    let mut script = MemSource::new(script, faults.script)?;
    let mut sink = MemSink::new(alloc, faults.sink)?;
    let site = Site {
        keeper: planned(site.keeper, faults.store),
        disk: left_disk(alloc, &site.disk, Image::Read, faults.backup)?,
        link: TestLink::new(alloc, faults.link, faults.hands)?,
    };
    let ended = enqueue_main(
        rt,
        alloc,
        words.as_slice(),
        &mut landscape,
        &mut script,
        &mut sink,
        site,
    );
    show_replies(alloc, sink.bytes(), last, shown)?;
    show_end(alloc, ended.status, ended.why, shown)?;
    Ok(ended.site)
}

/// A disk with what a crash may have left of this one, with calls that fail as was planned.
fn left_disk(
    alloc: Global,
    disk: &MemDisk,
    image: Image,
    fails: Vec<u64>,
) -> Result<MemDisk, CaseFault> {
    Ok(MemDisk::new(alloc, image_of(alloc, disk, image)?, fails)?)
}

/// A disk with this many bytes of another.
fn cut_disk(alloc: Global, disk: &MemDisk, length: u64) -> Result<MemDisk, CaseFault> {
    let mut bytes = image_of(alloc, disk, Image::Read)?;
    bytes.truncate(length as usize);
    Ok(MemDisk::new(alloc, bytes, Vec::new(alloc))?)
}

/// A disk with the bytes of another but for one.
fn patched_disk(alloc: Global, disk: &MemDisk, at: u64, byte: u8) -> Result<MemDisk, CaseFault> {
    let mut bytes = image_of(alloc, disk, Image::Read)?;
    match bytes.get_mut(at as usize) {
        Some(place) => *place = byte,
        None => return Err(CaseFault::NoPlace),
    }
    Ok(MemDisk::new(alloc, bytes, Vec::new(alloc))?)
}

fn image_of(alloc: Global, disk: &MemDisk, image: Image) -> Result<Vec<u8>, CaseFault> {
    let bytes = match image {
        Image::Synced => disk.image(alloc, 0),
        Image::Read => disk.image(alloc, 1),
        Image::Ones => disk.image(alloc, 2),
        Image::Opened => disk.image(alloc, 3),
    };
    Ok(bytes?)
}

/// The same rows, with what was planned: calls that fail, and a row of somebody else.
fn planned(keeper: TestKeeper, faults: StoreFaults) -> TestKeeper {
    let rows = keeper.into_rows();
    let StoreFaults {
        fails,
        kept,
        stop,
        foreign,
    } = faults;
    let rows = match stop {
        Some(Stop { at, after }) => rows.stop(at, after),
        None => rows.again(fails, kept),
    };
    TestKeeper::new(rows, foreign)
}

/// The same rows, with no call that fails.
fn rested(alloc: Global, keeper: TestKeeper) -> MemKeeper {
    keeper.into_rows().again(Vec::new(alloc), Vec::new(alloc))
}

/// Puts a row between two starts.
fn put_at_rest(alloc: Global, keeper: &mut MemKeeper, row: StoreRow) -> Result<(), CaseFault> {
    keeper.reopen(alloc)?;
    put_row(alloc, keeper, row)?;
    Ok(())
}

/// Shows the rows of a table or of all, or that there are none.
fn show_rows(
    alloc: Global,
    keeper: &mut MemKeeper,
    table: Option<u8>,
    shown: &mut Vec<u8>,
) -> Result<(), CaseFault> {
    let before = shown.len();
    match table {
        Some(table) => show_table(alloc, keeper, table, shown)?,
        None => {
            for table in 0..=u8::MAX {
                show_table(alloc, keeper, table, shown)?;
            }
        }
    }
    if shown.len() == before {
        shown.extend_from_slice(b"no rows\n")?;
    }
    Ok(())
}

/// Shows the rows of a table, page by page.
fn show_table(
    alloc: Global,
    keeper: &mut MemKeeper,
    table: u8,
    shown: &mut Vec<u8>,
) -> Result<(), CaseFault> {
    let mut after = Vec::new(alloc);
    for _ in 0..u64::MAX {
        let rows = page_behind(alloc, keeper, table, after.as_slice())?;
        let Some(last) = rows.last() else {
            break;
        };
        after = last.key.as_slice().to_vec(alloc)?;
        for row in &rows {
            show_row(alloc, table, row, shown)?;
        }
    }
    Ok(())
}

fn page_behind(
    alloc: Global,
    keeper: &mut MemKeeper,
    table: u8,
    after: &[u8],
) -> Result<Vec<Row>, CaseFault> {
    keeper.reopen(alloc)?;
    Ok(keeper.page(alloc, table, after, PAGE)?)
}

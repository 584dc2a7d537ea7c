use bk_disk::{Disk, MemDisk, StopDisk};
use enq_base::Items;
use enq_cmd::{Ended, Site, Why, enqueue_main};
use io_edge::{MemSink, MemSource, Sink, Source};
use keeper_api::Keeper;
use keeper_mem::MemKeeper;
use replica_link::{Link, MemLink};
use std::alloc::Global;
use std::sync::Wait;
use std::test::*;
use std::thread::Threads;

// The landscape of most scripts.
const LANDSCAPE: &[u8] = b"max_locks = 1000\n\
[[object]]\n\
name = \"EZORDER\"\n\
fields = [{ name = \"MANDT\", width = 3 }, { name = \"ORDNR\", width = 10 }]\n\
[[object.table]]\n\
name = \"ZORDER\"\n\
keys = [\"MANDT\", \"ORDNR\"]\n\
[[range]]\n\
object = \"ZORDNR\"\n\
nr = \"01\"\n\
from = 1\n\
to = 9999999999\n\
buffer = 0\n\
percent = 10\n\
[[range]]\n\
object = \"ZSMALL\"\n\
nr = \"01\"\n\
from = 98\n\
to = 100\n\
buffer = 0\n\
percent = 40\n\
[[range]]\n\
object = \"ZBUF\"\n\
nr = \"01\"\n\
from = 1\n\
to = 1000\n\
buffer = 10\n\
percent = 0\n";

// A script, and what it is answered.
pub(crate) type Script = (&'static [u8], &'static [u8]);

// No device is called so often.
pub(crate) const NEVER: u64 = 1_000_000;

// What a run is given beside its store and its backup file.
#[derive(Clone, Copy)]
pub(crate) struct Given {
    // The words of the command line, with a blank between two.
    pub(crate) words: &'static [u8],
    pub(crate) landscape: &'static [u8],
    pub(crate) script: &'static [u8],
    // The calls of the landscape's source, of the script's and of the sink that fail.
    pub(crate) fails: [&'static [u64]; 3],
    // The call of the backup file's disk from which on all fail.
    pub(crate) stop: u64,
}

pub(crate) const REPLAY: Given = Given {
    words: b"replay",
    landscape: LANDSCAPE,
    script: b"",
    fails: [&[], &[], &[]],
    stop: NEVER,
};

// How a run ended, and what it has left.
#[derive(Drop)]
pub(crate) struct Left {
    pub(crate) why: Why,
    pub(crate) status: u8,
    pub(crate) replies: Vec<u8>,
    // How many calls the history has, and how many bytes of the script weren't read, 32 at most.
    pub(crate) calls: usize,
    pub(crate) unread: usize,
    pub(crate) keeper: MemKeeper,
    pub(crate) disk: MemDisk,
}

pub(crate) fn empty_store(alloc: Global) -> Result<MemKeeper, Fail> {
    Ok(MemKeeper::new(alloc, Vec::new(alloc), Vec::new(alloc))?)
}

pub(crate) fn disk_of(alloc: Global, bytes: &[u8]) -> Result<MemDisk, Fail> {
    Ok(MemDisk::new(alloc, bytes.to_vec(alloc)?, Vec::new(alloc))?)
}

pub(crate) fn new_link(alloc: Global) -> Result<MemLink, Fail> {
    Ok(MemLink::new(alloc, Vec::new(alloc))?)
}

fn words_of(alloc: Global, text: &[u8]) -> Result<Vec<Items<u8>>, Fail> {
    let mut words = Vec::new(alloc);
    for word in text.split(|byte| *byte == b' ') {
        words.push(Items::from_vec(word.to_vec(alloc)?))?;
    }
    Ok(words)
}

// A source of these bytes, in which the calls of these numbers fail.
fn source_of(alloc: Global, bytes: &[u8], fails: &[u64]) -> Result<MemSource, Fail> {
    let bytes = bytes.to_vec(alloc)?;
    let fails = fails.to_vec(alloc)?;
    Ok(MemSource::new(bytes, fails)?)
}

#[derive(Drop)]
struct Edges {
    words: Vec<Items<u8>>,
    landscape: MemSource,
    script: MemSource,
    sink: MemSink,
    link: MemLink,
}

fn edges_of(alloc: Global, given: &Given) -> Result<Edges, Fail> {
    let [landscape_fails, script_fails, sink_fails] = given.fails;
    let sink_fails = sink_fails.to_vec(alloc)?;
    let sink = MemSink::new(alloc, sink_fails)?;
    let link = new_link(alloc)?;
    let words = words_of(alloc, given.words)?;
    let landscape = source_of(alloc, given.landscape, landscape_fails)?;
    let script = source_of(alloc, given.script, script_fails)?;
    Ok(Edges {
        words,
        landscape,
        script,
        sink,
        link,
    })
}

// The program, without its clauses, which nothing here needs.
fn run_over<
    R: Threads + Wait + Sync,
    S: Source,
    T: Sink,
    K: Keeper + Send,
    D: Disk + Send,
    L: Link + Send,
>(
    rt: &R,
    alloc: Global,
    words: &[Items<u8>],
    landscape: &mut S,
    script: &mut S,
    sink: &mut T,
    site: Site<K, D, L>,
) -> Ended<K, D, L> {
    enqueue_main(rt, alloc, words, landscape, script, sink, site)
}

pub(crate) fn run<R: Threads + Wait + Sync>(
    rt: &R,
    alloc: Global,
    given: &Given,
    keeper: MemKeeper,
    disk: MemDisk,
) -> Result<Left, Fail> {
    let edges = edges_of(alloc, given)?;
    let Edges {
        words,
        mut landscape,
        mut script,
        mut sink,
        link,
    } = edges;
    let disk = StopDisk::new(disk, given.stop);
    let site = Site { keeper, disk, link };
    let ended = run_over(
        rt,
        alloc,
        words.as_slice(),
        &mut landscape,
        &mut script,
        &mut sink,
        site,
    );
    let Ended {
        status,
        why,
        site,
        past,
        ..
    } = ended;
    let mut rest = [0; 32];
    Ok(Left {
        why,
        status,
        replies: sink.bytes().to_vec(alloc)?,
        calls: past.as_slice().len(),
        unread: script.read(&mut rest).unwrap_or(0),
        keeper: site.keeper,
        disk: site.disk.into_disk(),
    })
}

// Whether the bytes have these among them.
pub(crate) fn contains(bytes: &[u8], part: &[u8]) -> bool {
    for at in 0..bytes.len() {
        if bytes[at..].starts_with(part) {
            return true;
        }
    }
    false
}

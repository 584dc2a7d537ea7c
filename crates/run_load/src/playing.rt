use crate::orders::{Order, Way};
use crate::scripts::{LANDSCAPE, script_of};
use bk_disk::MemDisk;
use enq_base::{Items, NoMemory};
use enq_cmd::{Site, enqueue_main};
use io_edge::{MemSink, MemSource};
use keeper_mem::MemKeeper;
use replica_link::MemLink;
use std::alloc::Global;
use std::sync::Wait;
use std::thread::Threads;

/// What a script was answered, and the status that it ended with.
#[derive(Drop)]
pub struct Played {
    pub answers: MemSink,
    pub status: u8,
}

/// What a script is done with, beside its site.
#[derive(Drop)]
struct Given {
    words: Vec<Items<u8>>,
    landscape: MemSource,
    script: MemSource,
    answers: MemSink,
}

type MemSite = Site<MemKeeper, MemDisk, MemLink>;

/// Does the script of an order over an empty store, an empty backup file and a link in memory.
pub fn play<R: Threads + Wait + Sync>(
    rt: &R,
    alloc: Global,
    order: &Order,
) -> Result<Played, NoMemory> {
    let given = make_given(alloc, order)?;
    let site = fresh_site(alloc)?;
    Ok(play_at(rt, alloc, given, site))
}

fn make_given(alloc: Global, order: &Order) -> Result<Given, NoMemory> {
    let script = MemSource::new(script_of(alloc, order)?, Vec::new(alloc))?;
    let landscape = MemSource::new(Vec::from_slice(alloc, LANDSCAPE)?, Vec::new(alloc))?;
    let answers = MemSink::new(alloc, Vec::new(alloc))?;
    let words = words_of(alloc, order.way)?;
    Ok(Given {
        words,
        landscape,
        script,
        answers,
    })
}

fn fresh_site(alloc: Global) -> Result<MemSite, NoMemory> {
    let keeper = MemKeeper::new(alloc, Vec::new(alloc), Vec::new(alloc))?;
    let disk = MemDisk::new(alloc, Vec::new(alloc), Vec::new(alloc))?;
    let link = MemLink::new(alloc, Vec::new(alloc))?;
    Ok(Site { keeper, disk, link })
}

fn play_at<R: Threads + Wait + Sync>(rt: &R, alloc: Global, given: Given, site: MemSite) -> Played {
    let Given {
        words,
        mut landscape,
        mut script,
        mut answers,
    } = given;
    let status = enqueue_main(
        rt,
        alloc,
        &words,
        &mut landscape,
        &mut script,
        &mut answers,
        site,
    )
    .status;
    Played { answers, status }
}

/// The words of the command line that have a script done so.
fn words_of(alloc: Global, way: Way) -> Result<Vec<Items<u8>>, NoMemory> {
    let mut words = Vec::new(alloc);
    match way {
        Way::Replay => push_word(alloc, &mut words, "replay")?,
        Way::Run(workers) => push_run(alloc, &mut words, workers)?,
    }
    Ok(words)
}

fn push_run(alloc: Global, words: &mut Vec<Items<u8>>, workers: u8) -> Result<(), NoMemory> {
    push_word(alloc, words, "run")?;
    push_word(alloc, words, "--workers")?;
    let count = format!(in alloc; "{workers}")?;
    words.push(Items::from_vec(count.into_bytes()))?;
    Ok(())
}

fn push_word(alloc: Global, words: &mut Vec<Items<u8>>, word: &str) -> Result<(), NoMemory> {
    let word = Items::from_vec(Vec::from_slice(alloc, word.as_bytes())?);
    words.push(word)?;
    Ok(())
}

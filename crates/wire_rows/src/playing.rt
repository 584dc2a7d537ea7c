use crate::fates::{CaseFault, read_plans};
use bk_disk::MemDisk;
use enq_base::{Items, NoMemory};
use enq_cmd::{Site, enqueue_main};
use io_edge::{MemSink, SureSource};
use keeper_mem::MemKeeper;
use lossy_link::{Fate, LossyLink, MemWire};
use std::alloc::Global;
use std::sync::Wait;
use std::thread::Threads;

/// What outlives the program.
type Place = Site<MemKeeper, MemDisk, LossyLink<MemWire>>;

/// What a script is played with, beside its place.
#[derive(Drop)]
struct Given {
    words: Vec<Items<u8>>,
    landscape: SureSource,
    script: SureSource,
    sink: MemSink,
}

/// Plays a case, from its headline on, and tells what it shows.
pub(crate) fn play_case<R: Threads + Wait + Sync>(
    rt: &R,
    alloc: Global,
    landscape: &str,
    case: &str,
) -> Result<Vec<u8>, CaseFault> {
    let Some((headline, rest)) = case.split_once('\n') else {
        return Err(CaseFault::NoForm);
    };
    let Some((wire, script)) = rest.split_once('\n') else {
        return Err(CaseFault::NoForm);
    };
    let plans = read_plans(alloc, wire)?;
    Ok(play_plans(rt, alloc, landscape, script, headline, &plans)?)
}

/// Plays a script over each of these plans, and tells what is shown of them below the headline.
fn play_plans<R: Threads + Wait + Sync>(
    rt: &R,
    alloc: Global,
    landscape: &str,
    script: &str,
    headline: &str,
    plans: &[Vec<Fate>],
) -> Result<Vec<u8>, NoMemory> {
    let count = plans.len();
    let mut shown = format!(in alloc; "== {headline}\nplans {count}\n")?.into_bytes();
    let mut last = Vec::new(alloc);
    for plan in plans {
        let answers = play(rt, alloc, landscape, script, plan.as_slice())?;
        last = show_plan(alloc, &mut shown, plan.as_slice(), last, answers)?;
    }
    Ok(shown)
}

/// Shows a plan and what was answered, unless that is what was answered last. Gives back what was answered.
fn show_plan(
    alloc: Global,
    shown: &mut Vec<u8>,
    plan: &[Fate],
    last: Vec<u8>,
    answers: Vec<u8>,
) -> Result<Vec<u8>, NoMemory> {
    if answers.as_slice() != last.as_slice() {
        put_plan(alloc, shown, plan, answers.as_slice())?;
    }
    Ok(answers)
}

fn put_plan(
    alloc: Global,
    shown: &mut Vec<u8>,
    plan: &[Fate],
    answers: &[u8],
) -> Result<(), NoMemory> {
    let name = format!(in alloc; "{plan:?}\n")?;
    shown.extend_from_slice(name.as_bytes())?;
    shown.extend_from_slice(answers)?;
    Ok(())
}

/// What a script is answered over a wire whose first turns have these fates, and the status.
fn play<R: Threads + Wait + Sync>(
    rt: &R,
    alloc: Global,
    landscape: &str,
    script: &str,
    plan: &[Fate],
) -> Result<Vec<u8>, NoMemory> {
    let given = make_given(alloc, landscape, script)?;
    let place = fresh_place(alloc, plan)?;
    answers_at(rt, alloc, given, place)
}

fn make_given(alloc: Global, landscape: &str, script: &str) -> Result<Given, NoMemory> {
    let landscape = source_of(alloc, landscape)?;
    let script = source_of(alloc, script)?;
    let sink = MemSink::new(alloc, Vec::new(alloc))?;
    let words = replay_words(alloc)?;
    Ok(Given {
        words,
        landscape,
        script,
        sink,
    })
}

fn source_of(alloc: Global, text: &str) -> Result<SureSource, NoMemory> {
    SureSource::new(text.as_bytes().to_vec(alloc)?)
}

fn replay_words(alloc: Global) -> Result<Vec<Items<u8>>, NoMemory> {
    let word = Items::from_vec(b"replay".to_vec(alloc)?);
    Ok(vec![in alloc; word]?)
}

fn fresh_place(alloc: Global, plan: &[Fate]) -> Result<Place, NoMemory> {
    let keeper = MemKeeper::new(alloc, Vec::new(alloc), Vec::new(alloc))?;
    let disk = MemDisk::new(alloc, Vec::new(alloc), Vec::new(alloc))?;
    let link = LossyLink::new(MemWire::new(alloc, Vec::from_slice(alloc, plan)?));
    Ok(Site { keeper, disk, link })
}

fn answers_at<R: Threads + Wait + Sync>(
    rt: &R,
    alloc: Global,
    given: Given,
    place: Place,
) -> Result<Vec<u8>, NoMemory> {
    let Given {
        words,
        mut landscape,
        mut script,
        mut sink,
    } = given;
    let status = enqueue_main(
        rt,
        alloc,
        &words,
        &mut landscape,
        &mut script,
        &mut sink,
        place,
    )
    .status;
    answers_of(alloc, sink.bytes(), status)
}

fn answers_of(alloc: Global, replies: &[u8], status: u8) -> Result<Vec<u8>, NoMemory> {
    let mut answers = replies.to_vec(alloc)?;
    let line = format!(in alloc; "status {status}\n")?;
    answers.extend_from_slice(line.as_bytes())?;
    Ok(answers)
}

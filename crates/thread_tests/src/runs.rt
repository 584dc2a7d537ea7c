ghost use Rattle.std.specs.Prelude.{◌≤◌};

use crate::again::is_served_again;
use crate::halls::{Failing, MemHall, NONE, order_hall, order_objects, source_of};
use hall_model::PastEntry;
use io_edge::MemSink;
use script_actors::Drawing;
use script_runner::Why;
use std::alloc::Global;
use std::sync::Wait;
use std::test::*;
use std::thread::Threads;
use thread_runner::run;
use turn_desks::Gate;

/// What a run wrote, its history, and how it ended.
#[derive(Drop)]
struct Told {
    text: Vec<u8>,
    past: Vec<PastEntry>,
    drawn: Vec<Drawing>,
    why: Why,
}

/// What a run came to.
#[derive(Drop)]
pub(crate) struct Heard {
    pub(crate) text: Vec<u8>,
    /// How many calls its history has.
    pub(crate) calls: usize,
    pub(crate) why: Why,
    /// Whether these calls are answered as they were where they are served again. No where one of them has numbers of
    /// a stock.
    pub(crate) again: bool,
    /// The numbers that were drawn from stocks.
    pub(crate) drawn: Vec<Drawing>,
}

fn past_of(hall: MemHall) -> Vec<PastEntry> {
    let (_, _, _, past) = hall.into_site();
    past
}

fn told_of<R: Threads + Wait + Sync, G: Gate + Sync>(
    rt: &R,
    alloc: Global,
    workers: u8,
    script: &[u8],
    failing: Failing,
    gate: &G,
) -> Result<Option<Told>, Fail>
    requires workers { (1 ≤ workers) × (workers ≤ 16) }
{
    let objects = order_objects(alloc)?;
    let mut script = source_of(alloc, script)?;
    let mut sink = MemSink::new(alloc, Vec::new(alloc))?;
    let Some(hall) = order_hall(alloc, failing)? else {
        return Ok(None);
    };
    let (hall, drawn, why) = run(
        rt,
        alloc,
        &mut script,
        &mut sink,
        hall,
        objects.as_slice(),
        workers,
        gate,
    );
    let past = past_of(hall);
    let text = sink.bytes().to_vec(alloc)?;
    Ok(Some(Told {
        text,
        past,
        drawn,
        why,
    }))
}

fn heard_of(alloc: Global, failing: Failing, told: Told) -> Result<Heard, Fail> {
    let Told {
        text,
        past,
        drawn,
        why,
    } = told;
    let calls = past.len();
    let again = is_served_again(alloc, failing, past)?;
    Ok(Heard {
        text,
        calls,
        why,
        again,
        drawn,
    })
}

/// Does a script by threads round a gate, over an empty store, and serves its history again. None where a device fails
/// before the store is open.
pub(crate) fn run_over<R: Threads + Wait + Sync, G: Gate + Sync>(
    rt: &R,
    alloc: Global,
    workers: u8,
    script: &[u8],
    failing: Failing,
    gate: &G,
) -> Result<Option<Heard>, Fail>
    requires workers { (1 ≤ workers) × (workers ≤ 16) }
{
    match told_of(rt, alloc, workers, script, failing, gate)? {
        Some(told) => Ok(Some(heard_of(alloc, failing, told)?)),
        None => Ok(None),
    }
}

/// The same where no device fails.
pub(crate) fn run_well<R: Threads + Wait + Sync, G: Gate + Sync>(
    rt: &R,
    alloc: Global,
    workers: u8,
    script: &[u8],
    gate: &G,
) -> Result<Heard, Fail>
    requires workers { (1 ≤ workers) × (workers ≤ 16) }
{
    Ok(run_over(rt, alloc, workers, script, NONE, gate)?.ok_or("a hall")?)
}

/// How many lines a text has.
pub(crate) fn lines_in(text: &[u8]) -> usize {
    text.iter().filter(|byte| **byte == b'\n').count()
}

/// Whether a text has this part.
pub(crate) fn contains(text: &[u8], part: &[u8]) -> bool {
    for at in 0..text.len() {
        if text[at..].starts_with(part) {
            return true;
        }
    }
    false
}
